//! All messages that were ever sent between the parties of a ring, and which of them were delivered.
//!
//! It stands on the model of agreement and on the meaning of bytes. A [`Mail`] keeps each message once,
//! in the link of its sender and its receiver, and beside the links the order of sending. It stands for
//! two lists of the model, what was sent and which places were delivered, and each call says what
//! becomes of these lists. A message is found by its link and its place in one step. The world above
//! uses these clauses: a delivery gives the message that the model finds at that place, and the next
//! message that was never delivered is the first one of the model. The mail is told which messages are
//! lost and which parties are muted, and finds the next message that is due, neither delivered nor
//! passed over, in one step: the first such message of each link stands in one ordered set.
#![tactic(auto)]

mod kept;
mod link;
mod mail;
mod party;
mod queue;

pub use kept::{Mail, Note};
pub use mail::same_note;
pub use party::same_party;
