//! The words of a script: its lines, the words of a line, the classes of words, and the update of a submit.
//!
//! It stands on pond_base's labels, on hex and on the definitions of script_grammar. A reader of a class
//! gives the value that a word spells, and refuses every other word as `word`. [`groups`] puts the words of
//! an update in groups, each a keyword with the words that it takes, and refuses words that fit nowhere as
//! `words`; [`clauses`] makes the clauses of the groups. The layers above call the first before they weigh
//! any class, and then the second; they use that each function here computes the definition of its name.
#![tactic(auto)]

mod action;
mod clause;
mod contents;
mod grouping;
mod guard;
mod labels;
mod lines;
mod names;
mod numbers;
mod parties;
mod place;

pub use clause::clauses;
pub use contents::data;
pub use grouping::groups;
pub use labels::label;
pub use lines::{is_comment, is_plain_line, split_line, words};
pub use names::name;
pub use numbers::number;
pub use parties::{PartyNumber, party};
