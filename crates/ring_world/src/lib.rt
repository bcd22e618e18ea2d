//! A world of members and clients: every message that was ever sent, and each event, one after another.
//!
//! It stands on `ring_node`, what it asks of a member, on `client_core`, a client, on `ring_mail`, which
//! keeps the messages, and on the model of agreement. A [`World`] stands for a ring and a list of events
//! of the model, by a relation and not by a stored history: after [`World::step`] it stands for that list
//! and the event, after [`World::settle`] for that list and the deliveries that were pending. What settles pass over
//! the world is told as it comes, by [`World::lose`], [`World::mute`] and [`World::unmute`]. The book of
//! names is the caller's and is lent to each call, which says exactly which strings it names. The layers
//! above use the laws of the model as clauses of the look-ups: executed lists of correct members are
//! prefixes of one list, what a client believes is true of that list, and where nothing is skipped all
//! is delivered and executed, and each client has its answers.
#![tactic(auto)]

mod clients;
mod conditions;
mod crew;
mod delivering;
mod duplicates;
mod event;
mod hearing;
mod look;
mod members;
mod new;
mod passing;
mod places;
mod said;
mod settle;
mod state;
mod step;

pub use event::Event;
pub use look::places_fit;
pub use said::Said;
pub use state::World;
