// Why a line says nothing.
use crate::Cause;
use pond_base::OutOfMemory;
use std::alloc::{AllocError, AllocFailed};

/// Why a line says nothing.
#[derive(Clone, Copy, Debug, PartialEq, Eq)]
pub enum LineFault {
    /// It is refused.
    Refused(Cause),
    /// Memory ran out, which says nothing of the line.
    Memory,
}

/// The faults of lines that are refused, by their causes.
pub mod refused {
    use crate::{Cause, LineFault};

    pub const BYTE: LineFault = LineFault::Refused(Cause::Byte);

    pub const VERB: LineFault = LineFault::Refused(Cause::Verb);

    pub const ORDER: LineFault = LineFault::Refused(Cause::Order);

    pub const WORDS: LineFault = LineFault::Refused(Cause::Words);

    pub const WORD: LineFault = LineFault::Refused(Cause::Word);

    pub const RANGE: LineFault = LineFault::Refused(Cause::Range);

    pub const SIZE: LineFault = LineFault::Refused(Cause::Size);

    pub const FULL: LineFault = LineFault::Refused(Cause::Full);
}

impl From<OutOfMemory> for LineFault {
    ghost use Rattle.std.specs.Prelude.{◌≡◌};
    ghost use Rattle.script_terms.specs.declared.fault.LineFault.TheVariants.{Memory};

    ghost from_gives = { λ _ fault. fault ≡ Memory };

    fn from(_error: OutOfMemory) -> LineFault {
        LineFault::Memory
    }
}

impl From<AllocError> for LineFault {
    ghost use Rattle.std.specs.Prelude.{◌≡◌};
    ghost use Rattle.script_terms.specs.declared.fault.LineFault.TheVariants.{Memory};

    ghost from_gives = { λ _ fault. fault ≡ Memory };

    fn from(_error: AllocError) -> LineFault {
        LineFault::Memory
    }
}

impl<T: Drop> From<AllocFailed<T>> for LineFault {
    ghost use Rattle.std.specs.Prelude.{◌≡◌};
    ghost use Rattle.script_terms.specs.declared.fault.LineFault.TheVariants.{Memory};

    ghost from_gives = { λ _ fault. fault ≡ Memory };

    fn from(_error: AllocFailed<T>) -> LineFault {
        LineFault::Memory
    }
}
