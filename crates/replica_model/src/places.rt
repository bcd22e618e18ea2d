// Where strings come from, the versions that are kept, and what a push comes to.
use pond_base::{MemberId, Name, Version};

/// A member of the ring, or a replica by its number, from 0.
#[derive(Clone, Copy, Debug, PartialEq, Eq)]
pub enum Place {
    Member(MemberId),
    Replica(u32),
}

/// A version of an object, with the name of its root string.
#[derive(Clone, Copy, Debug, PartialEq, Eq)]
pub struct Last {
    pub version: Version,
    pub name: Name,
}

/// What a push of a label comes to.
#[derive(Clone, Copy, Debug, PartialEq, Eq)]
pub enum Push {
    /// The replica took the version of its parent. So many strings were put into its cache, and so many
    /// did not come.
    Took {
        version: Version,
        put: u32,
        missing: u32,
    },
    /// The version of the parent is no newer than that of the replica.
    Behind {
        own: Version,
        parent: Version,
    },
    /// The replica or its parent is cut.
    Cut,
}
