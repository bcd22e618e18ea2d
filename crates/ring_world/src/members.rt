// The members of a ring, as a world keeps them.
ghost use Rattle.ring_world.specs.Nodes.{HasNode};

use pond_base::limits::MOST_FAULTY;

/// How many members a ring has at most.
pub(crate) const MOST_MEMBERS: u8 = 3 * MOST_FAULTY + 1;

/// The nodes of all members, `None` exactly where a member is faulty, and the number of a correct one.
#[derive(Drop)]
pub(crate) struct Members<N> {
    pub(crate) nodes: Vec<Option<N>>,
    pub(crate) correct: usize,
    ghost there: { HasNode nodes.items correct },
}
