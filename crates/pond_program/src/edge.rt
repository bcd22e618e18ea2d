// Standard input and output, as a source and a sink.
use pond_base::{Failed, Sink, Source};
use std::io::{Read, Write};

/// A source over a reader. The bytes left are those that the reader has left, where it tells them.
#[derive(Drop)]
pub struct InputSource<R: Read + Drop> {
    inner: R,
    faults: u64,
}

impl<R: Read + Drop> InputSource<R> {
    ghost use Rattle.std.specs.Prelude.{◌≡◌};

    /// A source over a reader, of no fault yet.
    pub fn new(inner: R) -> Self
        ensures inner { result.inner ≡ inner }
        ensures faults { result.faults ≡ 0 }
    {
        InputSource { inner, faults: 0 }
    }
}

impl<R: Read + Drop> Source for InputSource<R> {
    ghost left = { λ source. R.remaining source.inner };

    ghost faults = { λ source. source.faults };

    fn take(&mut self, room: &mut [u8]) -> Result<usize, Failed> {
        match self.inner.read(room) {
            Ok(count) => Ok(count),
            Err(_) => {
                self.faults = self.faults.saturating_add(1);
                Err(Failed)
            }
        }
    }
}

/// A sink over a writer. The bytes taken are those that the writer holds, where it tells them. A
/// writer that takes nothing has failed.
#[derive(Drop)]
pub struct OutputSink<W: Write + Drop> {
    inner: W,
    faults: u64,
}

impl<W: Write + Drop> OutputSink<W> {
    ghost use Rattle.std.specs.Prelude.{◌≡◌};

    /// A sink over a writer, of no fault yet.
    pub fn new(inner: W) -> Self
        ensures inner { result.inner ≡ inner }
        ensures faults { result.faults ≡ 0 }
    {
        OutputSink { inner, faults: 0 }
    }
}

impl<W: Write + Drop> Sink for OutputSink<W> {
    ghost taken = { λ sink. W.contents sink.inner };

    ghost faults = { λ sink. sink.faults };

    fn take(&mut self, piece: &[u8]) -> Result<usize, Failed> {
        match self.inner.write(piece) {
            Ok(count) if count > 0 => Ok(count),
            _ => {
                self.faults = self.faults.saturating_add(1);
                Err(Failed)
            }
        }
    }
}
