// How a call of the program ends.
ghost use Rattle.std.specs.Prelude.{◌≡◌};

use bytes::Bytes;
use script_text::Cause;
use std::fmt;

/// How a call of the program ends.
#[derive(Debug, Drop, PartialEq, Eq)]
pub enum Status {
    /// The whole text of the script was written.
    Done,
    /// The words are none that the program knows. Nothing was read or written.
    Usage,
    /// The source gave bytes that are no script, for this cause at this line. Nothing was written.
    Refused { line: u32, cause: Cause },
    /// The source failed. Nothing was written.
    ReadFault,
    /// The sink failed. A prefix of the text was written.
    WriteFault,
    /// Up to this line two different strings of one name were named, and before it none. The whole text
    /// was written, which ends with the line that says so.
    Clash { line: u32, old: Bytes, new: Bytes },
    /// Memory ran out. A prefix of the text was written, and nothing where there is no script.
    Memory,
    /// The source gave more than 1,048,576 bytes. Nothing was written.
    TooLarge,
}

impl Status {
    ghost use Rattle.pond_program.specs.Exit.{exit_of};
    ghost use Rattle.pond_program.specs.Lines as lines;

    /// The exit status of the program.
    pub fn exit(&self) -> u8
        ensures { result ≡ exit_of self.now }
    {
        match self {
            Status::Done => 0,
            Status::Usage => 2,
            Status::Refused { .. } => 3,
            Status::ReadFault => 4,
            Status::WriteFault => 5,
            Status::Clash { .. } => 6,
            Status::Memory => 7,
            Status::TooLarge => 8,
        }
    }

    /// Whether standard error gets a line; else the text or the exit status alone tells it.
    pub fn has_line(&self) -> bool
        ensures { result ≡ lines.has_line self.now }
    {
        match self {
            Status::Usage | Status::Refused { .. } | Status::ReadFault | Status::TooLarge => true,
            Status::Done | Status::WriteFault | Status::Clash { .. } | Status::Memory => false,
        }
    }
}

// A status displays as its line on standard error, and as nothing where it has none.
impl fmt::Display for Status {
    ghost use Rattle.std.specs.Prelude.{Some};
    ghost use Rattle.pond_program.specs.Lines.{line_of};

    ghost output = { λ status. Some (line_of status) };

    fn fmt<W: fmt::Write>(&self, f: &mut fmt::Formatter<W>) -> fmt::Result {
        match self {
            Status::Usage => f.write_str("pond: usage: pond run"),
            Status::Refused { line, cause } => {
                let word = cause.word();
                write!(f, "pond: line {line}: {word}")
            }
            Status::ReadFault => f.write_str("pond: read fault"),
            Status::TooLarge => f.write_str("pond: script too large"),
            Status::Done | Status::WriteFault | Status::Clash { .. } | Status::Memory => Ok(()),
        }
    }
}
