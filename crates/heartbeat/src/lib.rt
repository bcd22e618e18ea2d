//! What a client believes of the versions of objects: the value that enough members told alike.
//!
//! It stands on `quorum`, whose tallies count first votes, and on the words of the model of agreement
//! for what is believed. A client takes each vote of a member, which gives a version of an object a
//! value, as the name of its root. The layer above uses the clauses of [`Votes`], which speak of the
//! list of votes that were taken, newest first, and of no map: whatever list of votes it stands for, it
//! stands for that list and one vote more after that vote is taken, and its answers are what is
//! believed of that list. Three laws, functions without code, say that this is what the model of
//! agreement believes of the letters in which members tell their votes.
#![tactic(auto)]

mod entries;
mod entry;
mod laws;
mod votes;

pub use laws::{hearts_join, newest_joins, seals_join};
pub use votes::Votes;
