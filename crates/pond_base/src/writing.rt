// A whole piece into a sink.
ghost use Rattle.std.specs.Prelude.{OnOk};
ghost use Rattle.std.specs.Io.KnownBytes.{Appends};
ghost use Rattle.pond_base.specs.Outside.{CountsFaults, AppendsPrefix};

use crate::{Failed, Sink};

/// Writes a piece into a sink until all of it was taken, or a take failed or took nothing. Then a
/// prefix of the piece was taken, and one fault is counted.
pub fn write_whole<K: Sink>(sink: &mut K, piece: &[u8]) -> Result<(), Failed>
    ensures whole { OnOk result (Appends (K.taken sink.old) (K.taken sink.new) piece.now) }
    ensures prefix { AppendsPrefix (K.taken sink.old) (K.taken sink.new) piece.now }
    ensures counted { CountsFaults (K.faults sink.old) (K.faults sink.new) result }
{
    let mut done = 0;
    while done < piece.len() {
        match sink.take(&piece[done..]) {
            Ok(0) | Err(_) => return Err(Failed),
            Ok(count) => done += count,
        }
    }
    Ok(())
}
