// What a script declares before its events.
use pond_base::{ClientId, MemberId};

/// What a script declares before its events.
#[derive(Clone, Copy, Debug, PartialEq, Eq)]
pub enum Declaration {
    /// The first version of the language.
    Pond,
    /// How many faulty members the ring tolerates.
    Ring { f: u8 },
    /// A member that is faulty.
    Faulty { member: MemberId },
    /// How many bytes a whole leaf has.
    Block { size: u32 },
    /// How many clients there are.
    Clients { count: u8 },
    /// At which member a client reads.
    Home { client: ClientId, member: MemberId },
}
