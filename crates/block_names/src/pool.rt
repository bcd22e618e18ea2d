// Strings under names that others claim.
ghost use Rattle.std.specs.Prelude.{◌≡◌, OnOk, OnErr};
ghost use Rattle.std.specs.Option.{option_copied};
ghost use Rattle.std.specs.FinMap as map;
ghost use Rattle.block_names.specs.Held.{held_of, with_first};

use bytes::Bytes;
use pond_base::{Name, OutOfMemory};
use std::alloc::Global;
use std::collections::BTreeMap;
use std::marker::Model;

/// A map from names to strings in which the first string that is put under a name stays. Nothing says
/// that a string has the name under which it stands. Contracts see the map.
#[derive(Drop)]
pub struct Pool {
    strings: BTreeMap<Name, Bytes>,
}

impl Model for Pool {
    ghost use Rattle.block_names.specs.Held.{Held, coded_held, held_of};

    ghost Value = { Held };

    ghost coded = { coded_held };

    ghost view = { λ pool. held_of pool.strings.entries };
}

impl Pool {
    /// A pool with nothing in it. Takes no memory.
    pub fn new(alloc: Global) -> Pool
        ensures { result ≡ map.empty }
    {
        Pool {
            strings: BTreeMap::new(alloc),
        }
    }

    /// Puts a string under a name, where nothing is there yet.
    pub fn put(&mut self, name: Name, bytes: Bytes) -> Result<(), OutOfMemory>
        ensures put { OnOk result (self.new ≡ with_first self.old name bytes) }
        ensures unchanged { OnErr result (self.new ≡ self.old) }
    {
        if self.strings.contains_key(&name) {
            return Ok(());
        }
        self.strings.insert(name, bytes)?;
        Ok(())
    }

    /// The string under a name, and `None` exactly where none was put there. Takes no memory.
    pub fn get(&self, name: Name) -> Option<&Bytes>
        ensures { option_copied result ≡ map.get self.now name }
    {
        self.strings.get(&name)
    }
}
