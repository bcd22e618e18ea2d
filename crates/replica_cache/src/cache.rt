// A cache of strings.
ghost use Rattle.std.specs.Prelude.{◌≡◌, ◌≤◌, ◌<◌, [], length, Some, None, IfOk, OnOk, OnErr};
ghost use Rattle.std.specs.Borrow.{sem};
ghost use Rattle.std.specs.Option.{option_copied};
ghost use Rattle.replica_model.specs.Caches.{kept_as, with_front, touched, names_of};
ghost use Rattle.replica_cache.specs.Touches.{Touches};

use bytes::Bytes;
use lru::LruCache;
use pond_base::{Items, Name, OutOfMemory};
use std::alloc::Global;
use std::marker::Model;
use std::num::NonZeroUsize;

/// Strings under names, at most so many, the most recently used first. Contracts see the list of entries
/// and the size.
#[derive(Drop)]
pub struct Cache {
    alloc: Global,
    entries: LruCache<Name, Bytes>,
}

impl Model for Cache {
    ghost use Rattle.replica_model.specs.Caches.{Cached, coded_cached};

    ghost Value = { Cached };

    ghost coded = { coded_cached };

    ghost view = { λ cache. record { entries = cache.entries.entries; size = cache.entries.cap } };
}

impl Cache {
    /// A cache with nothing in it and room for so many strings, 1 to 4,096. Takes memory as it fills.
    pub fn new(alloc: Global, size: u32) -> Result<Cache, OutOfMemory>
        requires some { 1 ≤ size }
        requires most { size ≤ 4096 }
        ensures entries { IfOk result (λ cache. cache.entries ≡ []) }
        ensures size { IfOk result (λ cache. cache.size ≡ size) }
    {
        let Some(size) = NonZeroUsize::new(size as usize) else {
            return Err(OutOfMemory);
        };
        let entries = LruCache::sparse(alloc, size)?;
        Ok(Cache { alloc, entries })
    }

    /// The string under a name, and `None` exactly where none stands there. Changes nothing, and takes no
    /// memory.
    pub fn peek(&self, name: Name) -> Option<&Bytes>
        ensures { option_copied result ≡ kept_as self.now.entries name }
    {
        self.entries.peek(&name)
    }

    /// The string under a name, and `None` exactly where none stands there. The entry goes to the front.
    /// Takes no memory.
    pub fn get(&mut self, name: Name) -> Option<&Bytes>
        ensures* touches { sem 𝓛 (Touches self.entry name) }
        ensures value { option_copied result ≡ kept_as self.old.entries name }
    {
        self.entries.get(&name)
    }

    /// Moves the entry of a name to the front, where there is one. Takes no memory.
    pub fn touch(&mut self, name: Name)
        ensures entries { self.new.entries ≡ touched self.old.entries name }
        ensures size { self.new.size ≡ self.old.size }
    {
        self.entries.promote(&name);
    }

    /// Puts a string under a name, in front and in place of what stands there. Where that is one more than
    /// there is room for, the least recently used entry goes.
    pub fn put(&mut self, name: Name, bytes: Bytes) -> Result<(), OutOfMemory>
        ensures put { OnOk result (self.new.entries ≡ with_front self.old.size self.old.entries name bytes) }
        ensures size { self.new.size ≡ self.old.size }
        ensures unchanged { OnErr result (self.new ≡ self.old) }
    {
        let _count = self.entries.len();
        match self.entries.put(name, bytes) {
            Ok(_) => Ok(()),
            Err(_) => Err(OutOfMemory),
        }
    }

    /// The names of the strings, the most recently used first.
    pub fn names(&self) -> Result<Items<Name>, OutOfMemory>
        ensures names { IfOk result (λ names. names ≡ names_of self.now.entries) }
        ensures few { length self.now.entries ≤ self.now.size }
    {
        let _count = self.entries.len();
        let mut names = Items::new(self.alloc);
        for (name, _bytes) in self.entries.iter() {
            names.push(*name)?;
        }
        Ok(names)
    }
}
