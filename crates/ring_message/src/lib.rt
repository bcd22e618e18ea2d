//! The messages of the ring, as values and as bytes.
//!
//! It stands on guarded_update, since a request that is sent is in the grammar of requests, and on
//! pond_base. A [`Message`] is one of seven kinds; its spelling is one function from messages to bytes.
//! The layers above use both ways: [`read`] gives the message that the bytes spell, and none exactly
//! where they spell none; [`write`] gives the spelling of a message that fits, which is read again.
//! [`Outcome`] is what became of a request, and an [`Out`] is bytes with the party that they go to.
#![tactic(auto)]

mod message;
mod outcome;
mod reading;
mod writing;

pub use message::{Message, Out};
pub use outcome::Outcome;
pub use reading::read;
pub use writing::write;
