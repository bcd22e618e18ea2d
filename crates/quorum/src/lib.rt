//! How many members voted for what: each member's first vote counts, and no other.
//!
//! It stands on `pond_base` alone. A [`Tally`] holds the first votes of ten senders, a [`Window`] those
//! of both phases for each slot above a floor, so that votes for decided slots take no memory.
//! The layer above uses the clauses of [`Window`], which speak of a sender's first vote of a phase for
//! a slot, `first votes phase slot sender`, and of no map. A cast leaves there what stood before, or else
//! what the vote says: the very step that defines the first word along a list of letters. So a window
//! that agrees with a member's letters on first words above its floor does so after the next letter too,
//! and then a count of votes is the count of the members that have this first word.
#![tactic(auto)]

mod phase;
mod slot;
mod slots;
mod tally;
mod window;

pub use phase::Phase;
pub use tally::Tally;
pub use window::Window;
