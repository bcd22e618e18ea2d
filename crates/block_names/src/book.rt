// The book of names.
ghost use Rattle.std.specs.Prelude.{◌≡◌, IfOk, OnOk, OnErr, IfErr, IsTrue, IsSome, ◌↔◌};
ghost use Rattle.std.specs.FinMap as map;
ghost use Rattle.block_names.specs.Held.{held_of, one_more, IsNamed};
ghost use Rattle.block_names.specs.Growth.{IsFree, IsFaultAt, Grew, IsClashIn};

use crate::{Hash160, NameFault};
use bytes::Bytes;
use pond_base::Name;
use std::alloc::Global;
use std::collections::BTreeMap;
use std::marker::Model;

/// The strings that were named, each under its name, and a count of namings. Contracts see the map
/// from names to strings, `held`, and the count, `namings`.
#[derive(Drop)]
pub struct Book<H: Hash160 + Drop> {
    alloc: Global,
    hash: H,
    strings: BTreeMap<Name, Bytes>,
    namings: u64,
}

impl<H: Hash160 + Drop> Model for Book<H> {
    ghost use Rattle.block_names.specs.Held.{BookView, coded_book, held_of, IsNamed};

    ghost Value = { BookView };

    ghost coded = { coded_book };

    ghost view = { λ book. record { held = held_of book.strings.entries; namings = book.namings } };

    ghost invariant = { λ book. IsNamed H.naming (held_of book.strings.entries) };
}

impl<H: Hash160 + Drop> Book<H> {
    /// A book that holds nothing, over a hash. Takes no memory.
    pub fn new(alloc: Global, hash: H) -> Book<H>
        ensures held { result.held ≡ map.empty }
        ensures namings { result.namings ≡ 0 }
    {
        Book {
            alloc,
            hash,
            strings: BTreeMap::new(alloc),
            namings: 0,
        }
    }

    /// The name of a string, which the book holds from then on. Exactly where the book holds a
    /// different string of that name the answer is a clash of the two, or want of memory. After a fault
    /// the book is as it was.
    pub fn name(&mut self, bytes: &[u8]) -> Result<Name, NameFault>
        ensures named { IfOk result (λ name. name ≡ H.naming bytes.now) }
        ensures held { OnOk result (self.new.held ≡ map.insert self.old.held (H.naming bytes.now) bytes.now) }
        ensures counted { OnOk result (self.new.namings ≡ one_more self.old.namings) }
        ensures free { OnOk result (IsFree self.old.held (H.naming bytes.now) bytes.now) }
        ensures grew { Grew H.naming self.old.held (λ string. string ≡ bytes.now) self.new.held }
        ensures fault { IfErr result (IsClashIn H.naming self.new.held (λ string. string ≡ bytes.now)) }
        ensures unchanged { OnErr result (self.new ≡ self.old) }
    {
        let name = self.hash.hash(bytes);
        keep(self.alloc, &mut self.strings, name, bytes)?;
        self.namings = self.namings.saturating_add(1);
        Ok(name)
    }

    /// Whether the book holds a string of this name. Each string that it holds stands under its own
    /// name. Takes no memory.
    pub fn holds(&self, name: Name) -> bool
        ensures held { IsTrue result ↔ IsSome (map.get self.now.held name) }
        ensures named { IsNamed H.naming self.now.held }
    {
        self.strings.contains_key(&name)
    }

    /// How often the book answered a name; the count stays at its greatest value. Takes no memory.
    pub fn namings(&self) -> u64
        ensures { result ≡ self.now.namings }
    {
        self.namings
    }
}

// Keeps a string under a name, where no different one is there.
fn keep(
    alloc: Global,
    strings: &mut BTreeMap<Name, Bytes>,
    name: Name,
    bytes: &[u8],
) -> Result<(), NameFault>
    ensures held { OnOk result (held_of strings.new.entries ≡ map.insert (held_of strings.old.entries) name bytes.now) }
    ensures free { OnOk result (IsFree (held_of strings.old.entries) name bytes.now) }
    ensures fault { IfErr result (IsFaultAt (held_of strings.old.entries) name bytes.now) }
    ensures unchanged { OnErr result (strings.new.entries ≡ strings.old.entries) }
{
    if let Some(held) = strings.get(&name) {
        if held.as_slice() == bytes {
            return Ok(());
        }
        return Err(NameFault::Clash {
            old: held.clone()?,
            new: Bytes::copy_from_slice(alloc, bytes)?,
        });
    }
    let string = Bytes::copy_from_slice(alloc, bytes)?;
    strings.insert(name, string)?;
    Ok(())
}
