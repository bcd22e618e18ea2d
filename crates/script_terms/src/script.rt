// What all lines of a text say together.
use crate::Line;
use guarded_update::{Place, Setup};
use pond_base::Items;

/// A script: what its declarations set up, and its events.
#[derive(Debug, Drop)]
pub struct Script {
    /// The ring, the clients, the blocks and the code.
    pub setup: Setup,
    /// Where each replica is placed, and how many strings its cache has.
    pub replicas: Items<(Place, u32)>,
    /// Where each client reads, in the order of clients.
    pub homes: Items<Place>,
    /// The events in order, each with the number of its line, counted from 1.
    pub lines: Items<(u32, Line)>,
}
