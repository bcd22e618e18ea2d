//! The code: its numbers, its rows, and the block back from any `m` of them.

ghost use Rattle.std.specs.Prelude.{◌≡◌, ℕ, Bool, true, false, ◌+◌, ◌*◌, ◌<◌, ◌≤◌, List, length, slice_index, IfOk, map, ◌↔◌, IfSome, IsSome};
ghost use Rattle.std.specs.List.{range_with_len};
ghost use Rattle.gf_lanes.specs.ProductRows.{Serves};
ghost use Rattle.cauchy_code.specs.Code.{Parameters, is_part, cauchy_row, row, part_length, Indexes, AllLong, AreRows, Bytes as AreBytes};
ghost use Rattle.cauchy_code.specs.Systematic.{table_of};
ghost use Rattle.cauchy_code.specs.Table.{given_part};

use crate::combine::{Four, apply, combine, combine_four, part};
use crate::mixed::mixed;
use crate::order::{given, indexes, joined, others};
use crate::products::products_for;
use crate::table::row_factors;
use bytes::Bytes;
use pond_base::OutOfMemory;
use std::alloc::Global;
use std::marker::Model;

/// A Cauchy code: a block is cut into `m` parts, and any `m` of its `n` rows give it back. In the
/// systematic code the first `m` rows are the parts themselves.
#[derive(Clone, Copy, Drop)]
pub struct Code {
    m: u8,
    n: u8,
    systematic: bool,
}

// Contracts see the numbers of the code and whether it is systematic.
impl Model for Code {
    ghost Value = { Parameters };

    ghost view = { λ code. record { m = code.m; n = code.n; systematic = code.systematic } };

    ghost invariant = { λ code. (1 ≤ code.m) × (code.m ≤ 32) × (code.m ≤ code.n) × (code.n ≤ 64) };

    ghost inverse = { λ code. record { m = code.m; n = code.n; systematic = code.systematic } };
}

/// A block, and zeros up to `size` bytes.
fn padded(alloc: Global, block: &[u8], size: usize) -> Result<Vec<u8>, OutOfMemory>
    requires { length block.now ≤ size }
    ensures size { IfOk result (λ v. length v.items ≡ size) }
    ensures bytes { IfOk result (λ v. (i : ℕ) → slice_index v.items i ≡ slice_index block.now i) }
{
    let mut bytes = Vec::with_capacity(alloc, size)?;
    bytes.extend_from_slice(block)?;
    bytes.resize(size, 0)?;
    Ok(bytes)
}

/// `count` numbers from `start` on.
fn numbers(alloc: Global, start: u8, count: u8) -> Result<Vec<u8>, OutOfMemory>
    requires { start + count < 256 }
    ensures { IfOk result (λ v. v.items ≡ range_with_len start count) }
{
    let mut numbers = Vec::with_capacity(alloc, count as usize)?;
    for k in 0..count {
        numbers.push(start + k)?;
    }
    Ok(numbers)
}

impl Code {
    /// The code of which each row is a sum of parts. `None` exactly outside 1 <= m <= 32 and
    /// m <= n <= 64. Takes no memory.
    pub fn new(m: u8, n: u8) -> Option<Self>
        ensures code { IfSome result (λ code. (code.m ≡ m) × (code.n ≡ n) × (code.systematic ≡ false)) }
        ensures when { IsSome result ↔ (1 ≤ m) × (m ≤ 32) × (m ≤ n) × (n ≤ 64) }
    {
        if 1 <= m && m <= 32 && m <= n && n <= 64 {
            Some(Code {
                m,
                n,
                systematic: false,
            })
        } else {
            None
        }
    }

    /// The code of which the first `m` rows are the parts. `None` exactly where `new` gives it.
    /// Takes no memory.
    pub fn systematic(m: u8, n: u8) -> Option<Self>
        ensures code { IfSome result (λ code. (code.m ≡ m) × (code.n ≡ n) × (code.systematic ≡ true)) }
        ensures when { IsSome result ↔ (1 ≤ m) × (m ≤ 32) × (m ≤ n) × (n ≤ 64) }
    {
        if 1 <= m && m <= 32 && m <= n && n <= 64 {
            Some(Code {
                m,
                n,
                systematic: true,
            })
        } else {
            None
        }
    }

    /// How many rows give a block back, at least 1 and at most 32. Takes no memory.
    pub fn m(&self) -> u8
        ensures value { result ≡ self.now.m }
        ensures some { 1 ≤ result }
        ensures few { result ≤ 32 }
    {
        self.m
    }

    /// How many rows there are, at least `m` and at most 64. Takes no memory.
    pub fn n(&self) -> u8
        ensures value { result ≡ self.now.n }
        ensures enough { self.now.m ≤ result }
        ensures few { result ≤ 64 }
    {
        self.n
    }

    /// Whether the first `m` rows are the parts. Takes no memory.
    pub fn is_systematic(&self) -> bool
        ensures { result ≡ self.now.systematic }
    {
        self.systematic
    }

    /// The length of each part of a block of `size` bytes. Takes no memory.
    pub fn part_len(&self, size: usize) -> usize
        ensures { result ≡ part_length self.now.m size }
    {
        size.div_ceil(self.m as usize)
    }

    /// Whether row `index` is a part itself.
    pub(crate) fn is_part(&self, index: u8) -> bool
        ensures { result ≡ is_part self.now index }
    {
        self.systematic && index < self.m
    }

    /// Row `index` of a block: as many bytes as each part has.
    pub fn row(&self, alloc: Global, index: u8, block: &[u8]) -> Result<Vec<u8>, OutOfMemory>
        requires { index < self.now.n }
        ensures { IfOk result (λ v. v.items ≡ row self.now block.now index) }
    {
        let m = self.m();
        let n = self.n();
        let len = self.part_len(block.len());
        if self.is_part(index) {
            return part(alloc, block, index as usize * len, len);
        }
        let points = numbers(alloc, n, m)?;
        let factors = row_factors(alloc, index, &points)?;
        combine(alloc, &factors, block, len)
    }

    /// Four rows from `index` on, as sums of the parts.
    fn four_rows(
        &self,
        alloc: Global,
        products: &[u8],
        index: u8,
        points: &[u8],
        parts: &[u8],
        part_len: usize,
    ) -> Result<Four, OutOfMemory>
        requires products { Serves products.now part_len }
        requires there { index + 4 ≤ self.now.n }
        requires points { points.now ≡ range_with_len self.now.n self.now.m }
        requires whole { self.now.m * part_len ≤ length parts.now }
        ensures first { IfOk result (λ r. r.first.items ≡ given_part self.now.m part_len parts.now (cauchy_row index points.now)) }
        ensures second { IfOk result (λ r. r.second.items ≡ given_part self.now.m part_len parts.now (cauchy_row (index + 1) points.now)) }
        ensures third { IfOk result (λ r. r.third.items ≡ given_part self.now.m part_len parts.now (cauchy_row (index + 2) points.now)) }
        ensures fourth { IfOk result (λ r. r.fourth.items ≡ given_part self.now.m part_len parts.now (cauchy_row (index + 3) points.now)) }
    {
        let _n = self.n();
        let first = row_factors(alloc, index, points)?;
        let second = row_factors(alloc, index + 1, points)?;
        let third = row_factors(alloc, index + 2, points)?;
        let fourth = row_factors(alloc, index + 3, points)?;
        combine_four(
            alloc, products, &first, &second, &third, &fourth, parts, part_len,
        )
    }

    /// All rows of a block, in the order of their indexes.
    pub fn encode(&self, alloc: Global, block: &[u8]) -> Result<Vec<Vec<u8>>, OutOfMemory>
        ensures { IfOk result (λ v. map (λ r. r.items) v.items ≡ map (row self.now block.now) (range_with_len 0 self.now.n)) }
    {
        let m = self.m();
        let n = self.n();
        let len = self.part_len(block.len());
        let products = products_for(alloc, len)?;
        let points = numbers(alloc, n, m)?;
        let parts = padded(alloc, block, m as usize * len)?;
        let mut rows = Vec::with_capacity(alloc, n as usize)?;
        let mut i = 0;
        while i < n {
            if n - i >= 4 && !self.is_part(i) {
                let four = self.four_rows(alloc, &products, i, &points, &parts, len)?;
                rows.push(four.first)?;
                rows.push(four.second)?;
                rows.push(four.third)?;
                rows.push(four.fourth)?;
                i += 4;
            } else {
                rows.push(self.row(alloc, i, block)?)?;
                i += 1;
            }
        }
        Ok(rows)
    }

    /// The table that gives the parts back from the rows `xs`, those that are parts first.
    pub(crate) fn table(&self, alloc: Global, xs: &[u8]) -> Result<Vec<Vec<u8>>, OutOfMemory>
        requires many { length xs.now ≡ self.now.m }
        requires indexes { Indexes self.now.n xs.now }
        ensures { IfOk result (λ t. map (λ w. w.items) t.items ≡ table_of self.now xs.now) }
    {
        let m = self.m();
        let n = self.n();
        let parts = given(alloc, self, xs)?;
        let sums = others(alloc, self, xs)?;
        let columns = numbers(alloc, 0, m)?;
        mixed(alloc, n, &parts, &sums, &columns)
    }

    /// The block, by the table for the parts' indexes.
    pub(crate) fn rebuild_with(
        &self,
        alloc: Global,
        products: &[u8],
        size: usize,
        parts: &[(u8, Bytes)],
        table: &[Vec<u8>],
    ) -> Result<Vec<u8>, OutOfMemory>
        requires products { Serves products.now (part_length self.now.m size) }
        requires many { length parts.now ≡ self.now.m }
        requires indexes { Indexes self.now.n (map (λ p. p.0) parts.now) }
        requires long { AllLong (part_length self.now.m size) (map (λ p. p.1) parts.now) }
        requires right { map (λ w. w.items) table.now ≡ table_of self.now (map (λ p. p.0) parts.now) }
        ensures { IfOk result (λ v. (block : List ℕ) → AreBytes block → length block ≡ size → AreRows self.now block parts.now → v.items ≡ block) }
    {
        let _m = self.m();
        let _n = self.n();
        let rows = joined(alloc, self, parts)?;
        let mut block = apply(alloc, products, table, &rows, self.part_len(size))?;
        block.truncate(size);
        Ok(block)
    }

    /// The one block of `size` bytes of which the parts are rows, where there is one. A part is the
    /// index of its row and the row's bytes; the indexes are different, and may come in any order.
    /// Where the parts are no block's rows, the bytes of the result mean nothing.
    pub fn rebuild(
        &self,
        alloc: Global,
        size: usize,
        parts: &[(u8, Bytes)],
    ) -> Result<Vec<u8>, OutOfMemory>
        requires many { length parts.now ≡ self.now.m }
        requires indexes { Indexes self.now.n (map (λ p. p.0) parts.now) }
        requires long { AllLong (part_length self.now.m size) (map (λ p. p.1) parts.now) }
        ensures { IfOk result (λ v. (block : List ℕ) → AreBytes block → length block ≡ size → AreRows self.now block parts.now → v.items ≡ block) }
    {
        let xs = indexes(alloc, parts)?;
        let table = self.table(alloc, &xs)?;
        let products = products_for(alloc, self.part_len(size))?;
        self.rebuild_with(alloc, &products, size, parts, &table)
    }
}
