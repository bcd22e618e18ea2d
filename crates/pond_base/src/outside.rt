// Where the bytes of a script come from, and where its text goes.
ghost use Rattle.std.specs.Prelude.{◌<◌, ℕ, List, length, Option};
ghost use Rattle.std.specs.Io.{ReadsAtMost, WritesAtMost};
ghost use Rattle.std.specs.Io.KnownBytes.{ReadConsumes, WriteAppends};
ghost use Rattle.pond_base.specs.Outside.{CountsFaults, CountsTakes};

/// A call to the outside failed. The bytes that a source or a sink tells are then those of before.
#[derive(Clone, Copy, Debug, PartialEq, Eq)]
pub struct Failed;

/// A source of bytes.
pub trait Source {
    // The bytes that are left, where it can tell them.
    ghost left: { Self → Option (List ℕ) };

    // How often it has failed. The count stays at the greatest u64.
    ghost faults: { Self → ℕ };

    /// Moves the first bytes left into the front of `room`, and answers how many: 0 exactly at the end.
    /// The count of faults rises by one where it fails, and stands else.
    fn take(&mut self, room: &mut [u8]) -> Result<usize, Failed>
        requires { 0 < length room.old }
        ensures bound { ReadsAtMost result room.new }
        ensures bytes { ReadConsumes (left self.old) (left self.new) result room.new }
        ensures counted { CountsFaults (faults self.old) (faults self.new) result };
}

/// A sink of bytes.
pub trait Sink {
    // The bytes taken so far, where it can tell them.
    ghost taken: { Self → Option (List ℕ) };

    // How often it has failed. The count stays at the greatest u64.
    ghost faults: { Self → ℕ };

    /// Takes bytes from the front of `piece`, and answers how many. An answer of 0 is a failure too: the
    /// count of faults rises by one where it fails or answers 0, and stands else.
    fn take(&mut self, piece: &[u8]) -> Result<usize, Failed>
        requires { 0 < length piece.now }
        ensures bound { WritesAtMost result piece.now }
        ensures bytes { WriteAppends (taken self.old) (taken self.new) result piece.now }
        ensures counted { CountsTakes (faults self.old) (faults self.new) result };
}
