// A sink in memory whose takes can be made to fail.
ghost use Rattle.std.specs.Prelude.{◌≡◌, ◌<◌, length, Some, IfOk};
ghost use Rattle.std.specs.Io.{WritesAtMost};
ghost use Rattle.std.specs.Io.KnownBytes.{WriteAppends};
ghost use Rattle.pond_base.specs.Memory.{unwritten, FailsAsListedOrFull, TakesMost, GoesOnWriting};
ghost use Rattle.pond_base.specs.Outside.{CountsTakes};

use crate::{Failed, OutOfMemory, Sink};
use std::alloc::Global;
use std::marker::Model;

/// A sink in memory, for tests: it has room for so many bytes and takes at most so many a take, and
/// the takes whose numbers are listed fail.
#[derive(Drop)]
pub struct MemorySink {
    bytes: Vec<u8>,
    room: usize,
    most: usize,
    fails: Vec<u64>,
    takes: u64,
    faults: u64,
}

// Contracts see the bytes taken, how the sink was set up, and its counts.
impl Model for MemorySink {
    ghost use Rattle.std.specs.Prelude.{◌<◌, ◌≤◌, vec_len, vec_capacity};
    ghost use Rattle.pond_base.specs.Memory.{MemoryWritten};

    ghost Value = { MemoryWritten };

    ghost view = { λ sink. record {
      taken = sink.bytes.items;
      room = sink.room;
      most = sink.most;
      fails = sink.fails.items;
      takes = sink.takes;
      faults = sink.faults;
    } };

    ghost invariant = { λ sink.
        (vec_len sink.bytes ≤ sink.room) × (sink.room ≤ vec_capacity sink.bytes) × (0 < sink.most) };
}

impl MemorySink {
    /// A sink with room for `room` bytes. A take takes as many as `most`, its piece and what is left
    /// of the room allow, and fails where nothing is left; the takes whose numbers, counted from 1,
    /// stand in `fails` fail too.
    pub fn new(
        alloc: Global,
        room: usize,
        most: usize,
        fails: Vec<u64>,
    ) -> Result<MemorySink, OutOfMemory>
        requires { 0 < most }
        ensures { IfOk result (λ sink. sink ≡ unwritten room most fails.items) }
    {
        let bytes = Vec::with_capacity(alloc, room)?;
        Ok(MemorySink {
            bytes,
            room,
            most,
            fails,
            takes: 0,
            faults: 0,
        })
    }

    /// The bytes taken so far.
    pub fn taken(&self) -> &[u8]
        ensures { result.now ≡ self.now.taken }
    {
        &self.bytes
    }
}

impl Sink for MemorySink {
    ghost taken = { λ sink. Some sink.taken };

    ghost faults = { λ sink. sink.faults };

    fn take(&mut self, piece: &[u8]) -> Result<usize, Failed>
        requires { 0 < length piece.now }
        ensures bound { WritesAtMost result piece.now }
        ensures bytes { WriteAppends (Some self.old.taken) (Some self.new.taken) result piece.now }
        ensures counted { CountsTakes self.old.faults self.new.faults result }

        ensures listed { FailsAsListedOrFull self.old result }
        ensures most { TakesMost self.old (length piece.now) result }
        ensures goes_on { GoesOnWriting self.old self.new }
    {
        self.takes = self.takes.saturating_add(1);
        let left = self.room - self.bytes.len();
        if left == 0 || self.fails.contains(&self.takes) {
            self.faults = self.faults.saturating_add(1);
            return Err(Failed);
        }
        let count = self.most.min(piece.len()).min(left);
        // The room was had when the sink was made.
        match self.bytes.extend_from_slice(&piece[..count]) {
            Ok(()) => Ok(count),
            Err(_) => unreachable!(),
        }
    }
}
