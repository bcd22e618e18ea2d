// Why no manifest is read.
use pond_base::{OutOfMemory, Short};

/// Why no manifest is read.
#[derive(Clone, Copy, Debug, PartialEq, Eq)]
pub(crate) enum ReadFault {
    /// The bytes spell none.
    Foreign,
    /// Memory ran out, which says nothing of the bytes.
    Memory,
}

impl From<Short> for ReadFault {
    ghost use Rattle.std.specs.Prelude.{◌≡◌};
    ghost use Rattle.manifest.specs.declared.fault.ReadFault.TheVariants.{Foreign};

    ghost from_gives = { λ _ fault. fault ≡ Foreign };

    fn from(_error: Short) -> ReadFault {
        ReadFault::Foreign
    }
}

impl From<OutOfMemory> for ReadFault {
    ghost use Rattle.std.specs.Prelude.{◌≡◌};
    ghost use Rattle.manifest.specs.declared.fault.ReadFault.TheVariants.{Memory};

    ghost from_gives = { λ _ fault. fault ≡ Memory };

    fn from(_error: OutOfMemory) -> ReadFault {
        ReadFault::Memory
    }
}
