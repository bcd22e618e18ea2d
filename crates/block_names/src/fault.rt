// Why strings are not named.
use bytes::Bytes;
use pond_base::OutOfMemory;
use std::alloc::{AllocError, AllocFailed};

/// Why a string is not named.
#[derive(Debug, Drop)]
pub enum NameFault {
    /// The string `new` has the name of `old`, a different string that the book holds.
    Clash { old: Bytes, new: Bytes },
    /// Memory ran out, which says nothing of the string.
    Memory,
}

/// Why a step of something that names strings is not done.
#[derive(Debug, Drop)]
pub enum StepFault {
    /// The string `new` has the name of `old`, a different string that the book holds.
    Clash { old: Bytes, new: Bytes },
    /// It ended at an earlier fault.
    Ended,
    /// Memory ran out, which says nothing of the step.
    Memory,
}

impl From<OutOfMemory> for NameFault {
    ghost use Rattle.std.specs.Prelude.{◌≡◌};
    ghost use Rattle.block_names.specs.declared.fault.NameFault.TheVariants.{Memory};

    ghost from_gives = { λ _ fault. fault ≡ Memory };

    fn from(_error: OutOfMemory) -> NameFault {
        NameFault::Memory
    }
}

impl From<AllocError> for NameFault {
    ghost use Rattle.std.specs.Prelude.{◌≡◌};
    ghost use Rattle.block_names.specs.declared.fault.NameFault.TheVariants.{Memory};

    ghost from_gives = { λ _ fault. fault ≡ Memory };

    fn from(_error: AllocError) -> NameFault {
        NameFault::Memory
    }
}

impl<T: Drop> From<AllocFailed<T>> for NameFault {
    ghost use Rattle.std.specs.Prelude.{◌≡◌};
    ghost use Rattle.block_names.specs.declared.fault.NameFault.TheVariants.{Memory};

    ghost from_gives = { λ _ fault. fault ≡ Memory };

    fn from(_error: AllocFailed<T>) -> NameFault {
        NameFault::Memory
    }
}

impl From<OutOfMemory> for StepFault {
    ghost use Rattle.std.specs.Prelude.{◌≡◌};
    ghost use Rattle.block_names.specs.declared.fault.StepFault.TheVariants.{Memory};

    ghost from_gives = { λ _ fault. fault ≡ Memory };

    fn from(_error: OutOfMemory) -> StepFault {
        StepFault::Memory
    }
}

impl From<NameFault> for StepFault {
    ghost use Rattle.std.specs.Prelude.{◌≡◌};
    ghost use Rattle.block_names.specs.Faults.{step_fault};

    ghost from_gives = { λ cause fault. fault ≡ step_fault cause };

    fn from(cause: NameFault) -> StepFault {
        match cause {
            NameFault::Clash { old, new } => StepFault::Clash { old, new },
            NameFault::Memory => StepFault::Memory,
        }
    }
}
