//! The run of a script.
//!
//! [`run`] takes the lines of a script one after the other, and writes what each prints into a sink
//! before it does the next. A line is an event of the world of members, or says what a settle passes
//! over, or shows something. Every string that a line names goes into one book, and where two different
//! strings have one name the run ends at that line. It stands on `pond_world` for the members, on
//! `script_terms` for the lines, on `script_printing` for what is shown, and on `text_model` for the
//! text; `script_laws` says which events and which strings lines are. The layer
//! above uses that the sink took exactly that text, or a prefix of it where the run ended early.
#![tactic(auto)]

mod beginning;
mod events;
mod forging;
mod labels;
mod outside;
mod passing;
mod printing;
mod running;
mod state;
mod submitting;

pub use running::{End, run};
