//! The names of byte strings, and the book of all strings that were named.
//!
//! A [`Hash160`] names each byte string by 20 bytes. Its naming function is a constant of the type, so
//! that everything that is generic in one hash speaks of one function. [`Sha1Hash`] is the hash of the
//! program; [`FoldHash`] has clashes that are easy to make, for tests. A [`Book`] names strings and
//! keeps each one under its name. The layers above use that two different strings of a book never have
//! one name, that a book never holds less, and that a [`NameFault::Clash`] is between a string of the
//! call and a different one that the book then holds. A [`Pool`] keeps strings under names that others
//! claim for them.
#![tactic(auto)]

mod book;
mod fault;
mod fold_hash;
mod hash;
mod pool;

pub use book::Book;
pub use fault::{NameFault, StepFault};
pub use fold_hash::FoldHash;
pub use hash::{Hash160, Sha1Hash};
pub use pool::Pool;
