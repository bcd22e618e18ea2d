// One store of strings under names.
ghost use Rattle.std.specs.Prelude.{◌≡◌, [], IfOk, OnOk, OnErr, IfErr, length, Contains};
ghost use Rattle.std.specs.Option.{option_copied};
ghost use Rattle.std.specs.FinMap as map;
ghost use Rattle.block_names.specs.Clashes.{AreHeld};
ghost use Rattle.block_names.specs.Growth.{Grew, IsClashIn, keep_all};
ghost use Rattle.fragment_store.specs.Pairs.{AreOrdered, offered, replaced, placed, spoiled, spoil_all, spoiled_strings};

use block_names::{Book, Hash160, NameFault};
use bytes::Bytes;
use pond_base::{Name, OutOfMemory};
use std::alloc::Global;
use std::collections::BTreeMap;
use std::marker::Model;

/// Strings under names, at most 4,294,967,295 of them.
#[derive(Drop)]
pub(crate) struct Store {
    strings: BTreeMap<Name, Bytes>,
}

// Contracts see the pairs of name and string, in rising order of name.
impl Model for Store {
    ghost use Rattle.std.specs.Prelude.{◌<◌, ◌^◌, ℕ, length};
    ghost use Rattle.std.specs.Coded.{coded_list, coded×, coded_ℕ};
    ghost use Rattle.fragment_store.specs.Pairs.{Pairs};

    ghost Value = { Pairs };

    ghost coded = { coded_list (coded× (coded_list coded_ℕ) (coded_list coded_ℕ)) };

    ghost view = { λ store. store.strings.entries };

    ghost invariant = { λ store. length store.strings.entries < 2 ^ 32 };
}

impl Store {
    /// A store with nothing in it.
    pub(crate) fn new(alloc: Global) -> Store
        ensures { result ≡ [] }
    {
        Store {
            strings: BTreeMap::new(alloc),
        }
    }

    /// The string under a name, and `None` exactly where none stands there.
    pub(crate) fn offered(&self, name: Name) -> Option<&Bytes>
        ensures { option_copied result ≡ offered self.now name }
    {
        self.strings.get(&name)
    }

    /// How many strings there are, under names that rise.
    pub(crate) fn count(&self) -> u32
        ensures number { result ≡ length self.now }
        ensures ordered { AreOrdered self.now }
    {
        self.strings.len() as u32
    }

    /// Puts a string under a name, in place of what is there.
    pub(crate) fn replace(&mut self, name: Name, bytes: Bytes) -> Result<(), OutOfMemory>
        ensures replaced { OnOk result (self.new ≡ replaced self.old name bytes) }
        ensures unchanged { OnErr result (self.new ≡ self.old) }
    {
        if self.strings.len() >= u32::MAX as usize {
            return Err(OutOfMemory);
        }
        self.strings.insert(name, bytes)?;
        Ok(())
    }

    /// Puts a string under a name, where nothing is there.
    pub(crate) fn place(&mut self, name: Name, bytes: Bytes) -> Result<(), OutOfMemory>
        ensures placed { OnOk result (self.new ≡ placed self.old name bytes) }
        ensures unchanged { OnErr result (self.new ≡ self.old) }
    {
        if self.strings.contains_key(&name) {
            return Ok(());
        }
        self.replace(name, bytes)
    }

    /// The store with the last byte of each string changed. The strings that this makes are named.
    pub(crate) fn spoiled<H: Hash160 + Drop>(
        &self,
        alloc: Global,
        book: &mut Book<H>,
    ) -> Result<Store, NameFault>
        ensures spoiled { IfOk result (λ store. store ≡ spoil_all self.now) }
        ensures held { OnOk result (book.new.held ≡ keep_all H.naming (spoiled_strings self.now) book.old.held) }
        ensures all { OnOk result (AreHeld H.naming book.new.held (spoiled_strings self.now)) }
        ensures grew { Grew H.naming book.old.held (Contains (spoiled_strings self.now)) book.new.held }
        ensures fault { IfErr result (IsClashIn H.naming book.new.held (Contains (spoiled_strings self.now))) }
    {
        let _count = self.strings.len();
        let mut store = Store::new(alloc);
        for (name, bytes) in self.strings.iter() {
            store.put_spoiled(alloc, book, *name, bytes)?;
        }
        Ok(store)
    }

    // Puts a string with its last byte changed, which is named, under a name.
    fn put_spoiled<H: Hash160 + Drop>(
        &mut self,
        alloc: Global,
        book: &mut Book<H>,
        name: Name,
        bytes: &[u8],
    ) -> Result<(), NameFault>
        ensures replaced { OnOk result (self.new ≡ replaced self.old name (spoiled bytes.now)) }
        ensures held { OnOk result (book.new.held ≡ map.insert book.old.held (H.naming (spoiled bytes.now)) (spoiled bytes.now)) }
        ensures grew { Grew H.naming book.old.held (λ string. string ≡ spoiled bytes.now) book.new.held }
        ensures fault { IfErr result (IsClashIn H.naming book.new.held (λ string. string ≡ spoiled bytes.now)) }
    {
        let string = spoiled_copy(alloc, bytes)?;
        book.name(&string)?;
        self.replace(name, string)?;
        Ok(())
    }
}

// The bytes with the last one changed.
fn spoiled_copy(alloc: Global, bytes: &[u8]) -> Result<Bytes, OutOfMemory>
    ensures { IfOk result (λ copy. copy ≡ spoiled bytes.now) }
{
    let Some((last, front)) = bytes.split_last() else {
        return Ok(Bytes::new());
    };
    let mut copy = Vec::new(alloc);
    copy.extend_from_slice(front)?;
    copy.push(*last ^ 1)?;
    Ok(Bytes::from_vec(copy)?)
}
