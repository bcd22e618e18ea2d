// What a reader is given.
ghost use Rattle.std.specs.Prelude.{◌≡◌, IfOk};

use crate::entry::BoardEntry;
use pond_base::{OutOfMemory, Version};

/// The last version of a label in the list that a reader saw: its number, its bytes, and how many
/// entries the list has.
#[derive(Debug, Drop)]
pub struct BoardRead {
    pub version: Version,
    pub bytes: Vec<u8>,
    pub seen: u32,
}

/// Why a reader is given no answer.
#[derive(Clone, Copy, Debug, PartialEq, Eq)]
pub enum BoardFault {
    /// Memory ran out for the bytes of the version.
    Memory,
    /// The reader was turned away, as its count tells.
    Shut,
}

impl From<OutOfMemory> for BoardFault {
    ghost use Rattle.std.specs.Prelude.{◌≡◌};
    ghost use Rattle.version_board.specs.declared.read.BoardFault.TheVariants.{Memory};

    ghost from_gives = { λ _ fault. fault ≡ Memory };

    fn from(_error: OutOfMemory) -> BoardFault {
        BoardFault::Memory
    }
}

/// What a reader is given of an entry of a list of so many entries.
pub(crate) fn read_entry(entry: &BoardEntry, seen: u32) -> Result<BoardRead, OutOfMemory>
    ensures version { IfOk result (λ read. read.version.0 ≡ entry.now.version) }
    ensures bytes { IfOk result (λ read. read.bytes.items ≡ entry.now.bytes) }
    ensures seen { IfOk result (λ read. read.seen ≡ seen) }
{
    let bytes = entry.tree.bytes()?;
    Ok(BoardRead {
        version: entry.version,
        bytes,
        seen,
    })
}
