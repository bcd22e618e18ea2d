// The stores of fragments.
ghost use Rattle.std.specs.Prelude.{◌≡◌, ◌<◌, [], IfOk, OnOk, OnErr, IfErr, length, Contains, slice_set, replicate};
ghost use Rattle.std.specs.Option.{option_copied};
ghost use Rattle.block_names.specs.Clashes.{AreHeld, NoneClash, IsClashAmong};
ghost use Rattle.block_names.specs.Growth.{Grew, IsClashIn, keep_all};
ghost use Rattle.fragment_store.specs.Pairs.{AreOrdered, offered, replaced, placed, spoil_all, spoiled_at, store_at};

use crate::store::Store;
use block_names::{Book, Hash160, NameFault};
use bytes::Bytes;
use pond_base::{Name, OutOfMemory};
use std::alloc::Global;
use std::marker::Model;

/// Stores of strings under names, numbered from 0. A store has room for 4,294,967,295 strings, and a
/// call that finds it full answers want of memory. Contracts see the list of stores, each as the list of
/// its pairs of name and string in rising order of name.
#[derive(Drop)]
pub struct Stores {
    alloc: Global,
    stores: Vec<Store>,
}

impl Model for Stores {
    ghost use Rattle.std.specs.Prelude.{List};
    ghost use Rattle.fragment_store.specs.Pairs.{Pairs};

    ghost Value = { List Pairs };

    ghost view = { λ stores. stores.stores.items };
}

impl Stores {
    /// So many stores with nothing in them.
    pub fn new(alloc: Global, n: u8) -> Result<Stores, OutOfMemory>
        ensures { IfOk result (λ stores. stores ≡ replicate n []) }
    {
        let mut stores = Vec::new(alloc);
        for _index in 0..n {
            stores.push(Store::new(alloc))?;
        }
        Ok(Stores { alloc, stores })
    }

    /// The string that a store holds under a name, and `None` exactly where none stands there. Takes no
    /// memory.
    pub fn offered(&self, store: u8, name: Name) -> Option<&Bytes>
        requires { store < length self.now }
        ensures { option_copied result ≡ offered (store_at self.now store) name }
    {
        self.stores[store as usize].offered(name)
    }

    /// How many strings a store holds, under names that rise. Takes no memory.
    pub fn count(&self, store: u8) -> u32
        requires { store < length self.now }
        ensures number { result ≡ length (store_at self.now store) }
        ensures ordered { AreOrdered (store_at self.now store) }
    {
        self.stores[store as usize].count()
    }

    /// Puts a string under a name in a store, where nothing is there yet. A string that is there stays,
    /// and every other store is as it was.
    pub fn place(&mut self, store: u8, name: Name, bytes: Bytes) -> Result<(), OutOfMemory>
        requires { store < length self.old }
        ensures placed { OnOk result (self.new ≡ slice_set self.old store (placed (store_at self.old store) name bytes)) }
        ensures unchanged { OnErr result (self.new ≡ self.old) }
    {
        self.stores[store as usize].place(name, bytes)
    }

    /// Puts a string under a name in a store, in place of what is there. Every other store is as it was.
    pub fn replace(&mut self, store: u8, name: Name, bytes: Bytes) -> Result<(), OutOfMemory>
        requires { store < length self.old }
        ensures replaced { OnOk result (self.new ≡ slice_set self.old store (replaced (store_at self.old store) name bytes)) }
        ensures unchanged { OnErr result (self.new ≡ self.old) }
    {
        self.stores[store as usize].replace(name, bytes)
    }

    /// Empties a store. Every other store is as it was. Takes no memory.
    pub fn drop_all(&mut self, store: u8)
        requires { store < length self.old }
        ensures { self.new ≡ slice_set self.old store [] }
    {
        self.stores[store as usize] = Store::new(self.alloc);
    }

    /// Changes the last byte of each string of a store by exclusive or with 1, under its old name; an
    /// empty string stays as it is. The strings that this makes are named, and the answer is a clash
    /// exactly where two different strings of one name are among them and those that the book held, or
    /// want of memory. Every other store is as it was, and after a fault this one too; strings that were
    /// named before the fault stay in the book.
    pub fn spoil<H: Hash160 + Drop>(
        &mut self,
        book: &mut Book<H>,
        store: u8,
    ) -> Result<(), NameFault>
        requires { store < length self.old }
        ensures spoiled { OnOk result (self.new ≡ slice_set self.old store (spoil_all (store_at self.old store))) }
        ensures held { OnOk result (book.new.held ≡ keep_all H.naming (spoiled_at self.old store) book.old.held) }
        ensures all { OnOk result (AreHeld H.naming book.new.held (spoiled_at self.old store)) }
        ensures apart { OnOk result (NoneClash H.naming book.old.held (Contains (spoiled_at self.old store))) }
        ensures grew { Grew H.naming book.old.held (Contains (spoiled_at self.old store)) book.new.held }
        ensures fault { IfErr result (IsClashIn H.naming book.new.held (Contains (spoiled_at self.old store))) }
        ensures clash { IfErr result (IsClashAmong H.naming book.old.held (Contains (spoiled_at self.old store))) }
        ensures unchanged { OnErr result (self.new ≡ self.old) }
    {
        let spoiled = self.stores[store as usize].spoiled(self.alloc, book)?;
        self.stores[store as usize] = spoiled;
        Ok(())
    }
}
