//! Whole scripts: what holds of every script, as laws.
//!
//! They stand on the grammar and on the model of the text below, and on the laws of the ring and of its
//! world. [`scripts_are_within`] and [`lines_fit_in_turn`] say to which limits each line of a script keeps;
//! [`events_come_of_lines`] and the laws beside it which event of the world a line is, and that it may
//! come; [`deliveries_are_named`] and [`settles_are_named`] that what messages name is named by the text;
//! [`lists_are_one`] and [`beliefs_are_true`] that members execute one list and that clients believe what
//! is so. The crate that runs scripts rests on them, and whoever reads a text may. The functions have no
//! code: their contracts are the laws.
#![tactic(auto)]

mod agreement;
mod events;
mod limits;
mod naming;

pub use agreement::{beliefs_are_true, first_lines_are_legal, lists_are_one, scripts_agree};
pub use events::{
    asked_is_there, events_come_of_lines, one_request_a_line, setups_join, submits_are_requests,
};
pub use limits::{lines_fit_in_turn, scripts_are_within};
pub use naming::{
    deliveries_are_named, executed_are_named, settled_joins, settles_are_named, skips_join,
};
