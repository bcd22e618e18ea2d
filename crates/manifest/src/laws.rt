// Reading and writing turn each other back.
ghost use Rattle.manifest.specs.Statements.{WrittenThenRead, ReadThenWritten};

/// The string of a manifest is the string of that manifest and of no other.
pub fn written_then_read()
    ensures { WrittenThenRead }
{}

/// A string that is read as a manifest is that manifest's string.
pub fn read_then_written()
    ensures { ReadThenWritten }
{}
