// What a node is made of.
ghost use Rattle.std.specs.Prelude.{◌≤◌};
ghost use Rattle.pond_base.specs.declared.limits.TheConstants.{MOST_BLOCK, MOST_CLIENTS};

use object_fold::{Objects, Outcome};
use pond_base::Items;
use ring_member::Member;
use std::alloc::Global;

/// A correct member of a ring, with the objects that its executed requests make and their outcomes.
#[derive(Drop)]
pub struct Node {
    pub(crate) alloc: Global,
    /// How many clients there are.
    pub(crate) clients: u8,
    /// How many bytes a whole leaf has.
    pub(crate) block: u32,
    pub(crate) member: Member,
    pub(crate) objects: Objects,
    pub(crate) outcomes: Items<Outcome>,
    /// How many versions it archived.
    pub(crate) archived: u32,
    ghost few_clients: { clients ≤ MOST_CLIENTS },
    ghost short_block: { block ≤ MOST_BLOCK },
}
