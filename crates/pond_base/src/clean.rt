// A source and a sink that never fail.
ghost use Rattle.std.specs.Prelude.{◌≡◌, ◌<◌, ℕ, List, Option, length, min, Some, None, Ok};
ghost use Rattle.std.specs.Io.{ReadsAtMost, WritesAtMost};
ghost use Rattle.std.specs.Io.KnownBytes.{ReadConsumes, WriteAppends};
ghost use Rattle.pond_base.specs.Outside.{CountsFaults, CountsTakes};

use crate::memory_source::copy_front;
use crate::{Failed, Sink, Source};
use std::marker::Model;

/// A source over bytes in memory that gives as many as the room takes. It never fails.
#[derive(Drop)]
pub struct CleanSource {
    bytes: Vec<u8>,
    given: usize,
}

// Contracts see the bytes that are left.
impl Model for CleanSource {
    ghost use Rattle.std.specs.Prelude.{◌≤◌, List, ℕ, drop, vec_len};

    ghost Value = { List ℕ };

    ghost view = { λ source. drop source.given source.bytes.items };

    ghost invariant = { λ source. source.given ≤ vec_len source.bytes };
}

impl CleanSource {
    /// A source of these bytes. Takes no memory.
    pub fn new(bytes: Vec<u8>) -> CleanSource
        ensures { result ≡ bytes.items }
    {
        CleanSource { bytes, given: 0 }
    }
}

impl Source for CleanSource {
    ghost left = { λ left. Some left };

    ghost faults = { λ _. 0 };

    fn take(&mut self, room: &mut [u8]) -> Result<usize, Failed>
        requires { 0 < length room.old }
        ensures bound { ReadsAtMost result room.new }
        ensures bytes { ReadConsumes (Some self.old) (Some self.new) result room.new }
        ensures counted { CountsFaults 0 0 result }

        ensures most { result ≡ Ok (min (length room.old) (length self.old)) }
    {
        let count = copy_front(&self.bytes[self.given..], room.len(), room);
        self.given += count;
        Ok(count)
    }
}

/// A sink that takes each piece whole, keeps none of it and tells no content. It never fails.
#[derive(Clone, Copy, Debug, Drop)]
pub struct CleanSink;

impl CleanSink {
    /// A sink. Takes no memory.
    pub fn new() -> CleanSink {
        CleanSink
    }
}

impl Sink for CleanSink {
    ghost taken = { λ _. None };

    ghost faults = { λ _. 0 };

    fn take(&mut self, piece: &[u8]) -> Result<usize, Failed>
        requires { 0 < length piece.now }
        ensures bound { WritesAtMost result piece.now }
        ensures bytes { let none : Option (List ℕ) = None in WriteAppends none none result piece.now }
        ensures counted { CountsTakes 0 0 result }

        ensures whole { result ≡ Ok (length piece.now) }
    {
        Ok(piece.len())
    }
}
