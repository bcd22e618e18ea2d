//! One member of the ring, as a pure state machine: bytes from a party in, bytes for parties out.
//!
//! It stands on the model of agreement, which recounts the whole list of letters that a member was
//! given, and on the window of votes, the primary's orders and the book of names. A [`Member`] keeps no
//! letters: of executed slots it keeps their requests, and of the slots above them first votes and first
//! orders. The layer above uses the relation `StandsFor`, between a ring, a member's number, a member and
//! a list of letters. A new member stands for the empty list, and whatever list a member stood for,
//! after [`Member::take`] it stands for that list and the letter that the bytes are; what it answers are
//! the PrePrepares, Prepares and Commits that the model has it send. No clause names a slot or a tally.
#![tactic(auto)]

mod broadcast;
mod hearing;
mod looking;
mod member;
mod progress;
mod taking;
mod voting;

pub use member::Member;
