//! Tables that are kept from one block to the next.

ghost use Rattle.std.specs.Prelude.{◌≡◌, ℕ, ◌==◌, if◌then◌else◌, ◌<◌, ◌≤◌, List, [], ◌∷◌, ◌++◌, length, IfOk, OnOk, OnErr, IfSome, IsSome, IsNone, All, Contains, map, vec_len};
ghost use Rattle.gf_lanes.specs.ProductRows.{AreProducts};
ghost use Rattle.cauchy_code.specs.Code.{part_length, Indexes, AllLong, AreRows, Bytes as AreBytes};
ghost use Rattle.cauchy_code.specs.Systematic.{table_of};
ghost use Rattle.cauchy_code.specs.Kept.{Kept, staying};

use crate::Code;
use crate::order::indexes;
use crate::products::serve;
use bytes::Bytes;
use pond_base::OutOfMemory;
use std::alloc::Global;
use std::marker::Model;

/// The table for the rows `xs` of a code.
#[derive(Drop)]
struct Entry {
    code: Code,
    xs: Vec<u8>,
    table: Vec<Vec<u8>>,
    ghost right: { map (λ w. w.items) table.items ≡ table_of code xs.items },
}

/// A code with the tables for lists of indexes that were met, so that the next block with the same
/// indexes in the same order needs no elimination.
#[derive(Drop)]
pub struct Inverses {
    alloc: Global,
    code: Code,
    size: u32,
    // The table of products, and no bytes before parts came that need it.
    products: Vec<u8>,
    entries: Vec<Entry>,
}

// Contracts see the code, the greatest number of tables, and the lists of indexes that are kept.
impl Model for Inverses {
    ghost Value = { Kept };

    ghost view = { λ i. record { code = i.code; size = i.size; lists = map (λ e. e.xs.items) i.entries.items } };

    ghost invariant = { λ i. (1 ≤ i.size) × (vec_len i.entries ≤ i.size) × (0 < vec_len i.products → AreProducts i.products.items) × All (λ e. e.code ≡ i.code) i.entries.items };
}

/// The table that is kept for the rows `xs`.
fn find<'a>(entries: &'a [Entry], code: &Code, xs: &[u8]) -> Option<&'a [Vec<u8>]>
    requires { All (λ e. e.code ≡ code.now) entries.now }
    ensures table { IfSome result (λ t. map (λ w. w.items) t.now ≡ table_of code.now xs.now) }
    ensures some { IsSome result → Contains (map (λ e. e.xs.items) entries.now) xs.now }
    ensures none { IsNone result → Contains (map (λ e. e.xs.items) entries.now) xs.now → ⊥ }
{
    for entry in entries {
        if entry.xs.as_slice() == xs {
            return Some(&entry.table);
        }
    }
    None
}

/// Adds an entry; where there are `size` already, all of them go first.
fn keep(
    alloc: Global,
    entries: &mut Vec<Entry>,
    size: usize,
    entry: Entry,
) -> Result<(), OutOfMemory>
    ensures ok { OnOk result (entries.new.items ≡ (if length entries.old.items == size then [] else entries.old.items) ++ entry ∷ []) }
    ensures err { OnErr result (entries.new.items ≡ entries.old.items) }
{
    if entries.len() == size {
        let mut fresh = Vec::new(alloc);
        fresh.push(entry)?;
        *entries = fresh;
    } else {
        entries.push(entry)?;
    }
    Ok(())
}

impl Inverses {
    /// No table is kept yet, and at most `size` will be.
    pub fn new(alloc: Global, code: &Code, size: u32) -> Result<Self, OutOfMemory>
        requires { 1 ≤ size }
        ensures { IfOk result (λ i. (i.code ≡ code.now) × (i.size ≡ size) × (i.lists ≡ [])) }
    {
        Ok(Inverses {
            alloc,
            code: *code,
            size,
            products: Vec::new(alloc),
            entries: Vec::new(alloc),
        })
    }

    /// How many tables are kept. Takes no memory.
    pub fn kept(&self) -> u32
        ensures kept { result ≡ length self.now.lists }
        ensures within { result ≤ self.now.size }
    {
        let _size = self.size;
        self.entries.len() as u32
    }

    /// The one block of `size` bytes of which the parts are rows, where there is one, as
    /// `Code::rebuild` gives it. The table for a list of indexes that isn't kept is added; where as
    /// many are kept as may be, all of them go first.
    pub fn rebuild(&mut self, size: usize, parts: &[(u8, Bytes)]) -> Result<Vec<u8>, OutOfMemory>
        requires many { length parts.now ≡ self.old.code.m }
        requires indexes { Indexes self.old.code.n (map (λ p. p.0) parts.now) }
        requires long { AllLong (part_length self.old.code.m size) (map (λ p. p.1) parts.now) }
        ensures block { IfOk result (λ v. (block : List ℕ) → AreBytes block → length block ≡ size → AreRows self.old.code block parts.now → v.items ≡ block) }

        // What is kept afterwards.
        ensures code { self.new.code ≡ self.old.code }
        ensures size { self.new.size ≡ self.old.size }
        ensures known { OnOk result (Contains self.old.lists (map (λ p. p.0) parts.now) → self.new.lists ≡ self.old.lists) }
        ensures added { OnOk result ((Contains self.old.lists (map (λ p. p.0) parts.now) → ⊥) → self.new.lists ≡ staying self.old ++ map (λ p. p.0) parts.now ∷ []) }
        ensures err { OnErr result (self.new.lists ≡ self.old.lists) }
    {
        let code = self.code;
        let alloc = self.alloc;
        serve(alloc, &mut self.products, code.part_len(size))?;
        let xs = indexes(alloc, parts)?;
        if let Some(table) = find(&self.entries, &code, &xs) {
            return code.rebuild_with(alloc, &self.products, size, parts, table);
        }
        let table = code.table(alloc, &xs)?;
        let block = code.rebuild_with(alloc, &self.products, size, parts, &table)?;
        let entry = Entry { code, xs, table };
        keep(alloc, &mut self.entries, self.size as usize, entry)?;
        Ok(block)
    }
}
