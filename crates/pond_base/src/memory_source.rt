// A source in memory whose takes can be made to fail.
ghost use Rattle.std.specs.Prelude.{◌≡◌, ◌<◌, take, min, length, Some};
ghost use Rattle.std.specs.Io.{ReadsAtMost};
ghost use Rattle.std.specs.Io.KnownBytes.{ReadConsumes};
ghost use Rattle.pond_base.specs.Memory.{unread, FailsAsListed, GivesMost, GoesOnReading};
ghost use Rattle.pond_base.specs.Outside.{CountsFaults};

use crate::{Failed, Source};
use std::marker::Model;

/// A source over bytes in memory, for tests: it gives at most so many bytes a take, and the takes
/// whose numbers are listed fail.
#[derive(Drop)]
pub struct MemorySource {
    bytes: Vec<u8>,
    given: usize,
    most: usize,
    fails: Vec<u64>,
    takes: u64,
    faults: u64,
}

// Contracts see the bytes that are left, how the source was set up, and its counts.
impl Model for MemorySource {
    ghost use Rattle.std.specs.Prelude.{◌<◌, ◌≤◌, drop, vec_len};
    ghost use Rattle.pond_base.specs.Memory.{MemoryRead};

    ghost Value = { MemoryRead };

    ghost view = { λ source. record {
      left = drop source.given source.bytes.items;
      most = source.most;
      fails = source.fails.items;
      takes = source.takes;
      faults = source.faults;
    } };

    ghost invariant = { λ source. (source.given ≤ vec_len source.bytes) × (0 < source.most) };
}

impl MemorySource {
    /// A source of these bytes. A take gives as many as `most`, its room and what is left allow; the
    /// takes whose numbers, counted from 1, stand in `fails` fail. Takes no memory.
    pub fn new(bytes: Vec<u8>, most: usize, fails: Vec<u64>) -> MemorySource
        requires { 0 < most }
        ensures { result ≡ unread bytes.items most fails.items }
    {
        MemorySource {
            bytes,
            given: 0,
            most,
            fails,
            takes: 0,
            faults: 0,
        }
    }
}

impl Source for MemorySource {
    ghost left = { λ source. Some source.left };

    ghost faults = { λ source. source.faults };

    fn take(&mut self, room: &mut [u8]) -> Result<usize, Failed>
        requires { 0 < length room.old }
        ensures bound { ReadsAtMost result room.new }
        ensures bytes { ReadConsumes (Some self.old.left) (Some self.new.left) result room.new }
        ensures counted { CountsFaults self.old.faults self.new.faults result }

        ensures listed { FailsAsListed self.old result }
        ensures most { GivesMost self.old (length room.old) result }
        ensures goes_on { GoesOnReading self.old self.new }
    {
        self.takes = self.takes.saturating_add(1);
        if self.fails.contains(&self.takes) {
            self.faults = self.faults.saturating_add(1);
            return Err(Failed);
        }
        let count = copy_front(&self.bytes[self.given..], self.most, room);
        self.given += count;
        Ok(count)
    }
}

/// Copies as many bytes as there are, as `most` allows and as the room takes, and answers how many.
pub(crate) fn copy_front(bytes: &[u8], most: usize, room: &mut [u8]) -> usize
    ensures count { result ≡ min (min most (length room.old)) (length bytes.now) }
    ensures same { take result room.new ≡ take result bytes.now }
{
    let count = most.min(room.len()).min(bytes.len());
    room[..count].copy_from_slice(&bytes[..count]);
    count
}
