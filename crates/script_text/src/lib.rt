//! The reading of scripts.
//!
//! [`parse`] reads the bytes of a text into the [`Script`] that they are, and refuses every other text at
//! its first line with a fault, with the one [`Cause`] that holds. It stands on the definitions of
//! script_grammar; script_words reads words and updates, and script_checks keeps what earlier
//! lines declared and sent. The forms of each verb have a function each. The crates above use that a
//! script is the value that the definition gives its text, and that a refusal is the one that it gives.
#![tactic(auto)]

mod declarations;
mod deliveries;
mod events;
mod fault;
mod forgeries;
mod outside;
mod parsing;
mod skipping;
mod state;
mod submits;
mod verbs;

pub use fault::ParseFault;
pub use parsing::parse;
pub use script_terms::{Cause, Line, LineClause, LineGuard, Script};
