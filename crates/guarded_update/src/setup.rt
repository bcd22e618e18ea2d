// What a run is set up with.
use pond_base::{Items, MemberId, Version};

/// How a ring is set up.
#[derive(Debug, Drop)]
pub struct Setup {
    /// How many faulty members the ring tolerates; it has 3f + 1 members.
    pub f: u8,
    /// The members that are declared faulty.
    pub faulty: Items<MemberId>,
    /// How many clients there are.
    pub clients: u8,
    /// How many bytes a whole leaf has.
    pub block: u32,
    /// Into how many parts the code cuts a block.
    pub m: u8,
    /// How many fragments the code makes of a block.
    pub n: u8,
    /// The first version that is archived by the newer code, where there is one.
    pub newer: Option<Version>,
}

/// Where versions are kept and read: at a member of the ring, or at a replica by its number.
#[derive(Clone, Copy, Debug, PartialEq, Eq)]
pub enum Place {
    Member(MemberId),
    Replica(u32),
}
