// What a run keeps between two lines.
use block_names::Hash160;
use pond_world::Site;
use std::alloc::Global;

/// The world of members with its book.
#[derive(Drop)]
pub(crate) struct State<H: Hash160 + Drop> {
    pub(crate) alloc: Global,
    pub(crate) site: Site<H>,
}
