//! Agreement over shared words: members vote from their own threads, without a lock.
//!
//! It stands on `atomic_table`, whose words change in single atomic steps under a rule, and on
//! `vote_words_model`, which defines the rule with the six kinds of step that keep it. A
//! [`VoteBoard`] has a prepare word and a commit word for each of its 3f+1 members and each slot, and
//! a [`VoteSeat`] is what one thread knows of them. No word is written twice, and a member commits
//! only what 2f+1 prepare words have. The layer above uses the clauses on what a seat knows after
//! each call: that its value stands in 2f+1 words, that a refusal comes of a look at each word, and
//! that no two seats decide two values.
#![tactic(auto)]

mod board;
mod casting;
mod counting;
mod looking;
mod seat;
mod steps;
mod votes;

pub use board::VoteBoard;
pub use seat::VoteSeat;
pub use votes::{CommitVote, Vote};
