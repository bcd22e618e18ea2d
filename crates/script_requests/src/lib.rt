//! The requests of a script's lines.
//!
//! A guard of a line has the content of a leaf, and a guard of a request the name of its leaf string.
//! [`clauses_of`] makes the one of the other, and names the leaf strings in a book. It stands on
//! `block_names` for the book and on `text_model` for what the clauses are. The specifications say, for
//! the crate above, what a book holds that has named exactly some strings, and what a clash among them
//! is.
#![tactic(auto)]

mod clauses;

pub use clauses::clauses_of;
