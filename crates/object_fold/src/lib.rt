//! Objects by the execution of requests, one after the other.
//!
//! [`Objects`] keeps the trees of all versions of all objects, the names of the strings of each object,
//! and what each version added. It stands on the trees of `cow_tree` and on `object_model`, whose fold of
//! a list of requests is what it computes: which objects a value stands for is the relation `AreAfter` of
//! a list of executed requests, which the contracts quantify over. The layer above uses that `execute`
//! takes the objects of a list of requests to those of that list and one more, that the outcome is the
//! fold's, that a version names only the strings that changed, and that `added` lends the strings of a
//! version that no lower one has. A version costs memory for what changed, and for its rows of pointers.
#![tactic(auto)]

mod added;
mod choice;
mod decision;
mod fate;
mod laws;
mod objects;
mod seen;
mod shelf;

pub use laws::{made_strings_are_held, objects_stay_known, versions_are_few};
pub use objects::Objects;
pub use ring_message::Outcome;
