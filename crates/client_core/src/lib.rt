//! One client of the ring, as a pure state machine: requests out, members' messages in.
//!
//! It stands on `heartbeat`, whose votes say which versions objects have, on the grammar of messages and
//! on the model of agreement. A [`Client`] numbers its requests from 1 and sends each to every member; it
//! believes an outcome once f + 1 members replied it alike, each with its first word. The layer above uses
//! the relation `ClientStands`, which speaks of the strings that were submitted and of the letters that
//! were delivered, newest first: whatever letters a client stands for, it stands for those and one more
//! after that one is taken, and its answers are what the model believes of them.
#![tactic(auto)]

mod asking;
mod client;
mod entry;
mod looks;
mod new;
mod replies;
mod submitting;
mod taking;

pub use client::Client;
