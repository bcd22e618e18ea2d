// Why a text gives no script.
ghost use Rattle.std.specs.Prelude.{◌≡◌};
ghost use Rattle.script_text.specs.Refusal.{refusal_of};

use pond_base::OutOfMemory;
use script_terms::{Cause, LineFault};

/// Why a text gives no script.
#[derive(Clone, Copy, Debug, PartialEq, Eq)]
pub enum ParseFault {
    /// The text is refused at a line, counted from 1. The end of the text counts as a line.
    Refused { line: u32, cause: Cause },
    /// Memory ran out, which says nothing of the text.
    Memory,
}

impl ParseFault {
    /// The fault of a text that has a line with a fault.
    pub(crate) fn at(line: u32, fault: LineFault) -> ParseFault
        ensures { result ≡ refusal_of line fault }
    {
        match fault {
            LineFault::Refused(cause) => ParseFault::Refused { line, cause },
            LineFault::Memory => ParseFault::Memory,
        }
    }
}

impl From<OutOfMemory> for ParseFault {
    ghost use Rattle.std.specs.Prelude.{◌≡◌};
    ghost use Rattle.script_text.specs.declared.fault.ParseFault.TheVariants.{Memory};

    ghost from_gives = { λ _ fault. fault ≡ Memory };

    fn from(_error: OutOfMemory) -> ParseFault {
        ParseFault::Memory
    }
}
