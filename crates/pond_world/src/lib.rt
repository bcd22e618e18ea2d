//! A world of members with their objects: the members of a ring as they are set up, and the events of a
//! run.
//!
//! It stands on `pond_node`, a correct member with its objects, on `ring_world`, which keeps the members
//! and their messages, and on `fold_model`, which says what ring the model of agreement is given.
//! [`open`] makes the world of a setup before any event. A [`Site`] is such a world with its book of
//! names. The layer above uses that the world of a new site stands for no events, and that whatever
//! list of events it stood for, after [`Site::step`] it stands for that list and the event, and after
//! [`Site::settle`] for that list and the deliveries that were pending. [`events_may_come`] says what a
//! caller that keeps the list of events sees to, and [`worlds_stay_known`] that the book of a site may
//! be used between two events.
#![tactic(auto)]

mod events;
mod opening;
mod site;

pub use events::events_may_come;
pub use opening::{open, ring_is_sound};
pub use site::{Site, worlds_stay_known};
