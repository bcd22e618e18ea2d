//! Sums of parts.

ghost use Rattle.std.specs.Prelude.{◌≡◌, ℕ, ◌+◌, ◌*◌, ◌<◌, ◌≤◌, ◌^◌, length, slice_index, EachIndex, bit_xor, IfOk, IsTrue, map};
ghost use Rattle.std.specs.List.{range_with_len};
ghost use Rattle.gf256.specs.Field.{product};
ghost use Rattle.gf_lanes.specs.ProductRows.{Serves};
ghost use Rattle.cauchy_code.specs.Code.{dot, column};
ghost use Rattle.cauchy_code.specs.Table.{IsWide, given_part, given_parts};

use gf_lanes::{add_row, sum_four};
use pond_base::OutOfMemory;
use std::alloc::Global;

/// Adds `c` times the part that begins at `start` to `sum`. Zeros follow the bytes.
fn add_part(sum: &mut [u8], c: u8, bytes: &[u8], start: usize)
    ensures { EachIndex sum.new (λ j. slice_index sum.new j ≡ bit_xor (slice_index sum.old j) (product c (slice_index bytes.now (start + j)))) }
{
    if start < bytes.len() {
        let rest = &bytes[start..];
        let count = rest.len().min(sum.len());
        add_row(&mut sum[..count], c, &rest[..count]);
    }
}

/// The sum of the parts, each times its factor. The parts stand one after another, `part_len` bytes each.
pub fn combine(
    alloc: Global,
    factors: &[u8],
    bytes: &[u8],
    part_len: usize,
) -> Result<Vec<u8>, OutOfMemory>
    requires { length factors.now * part_len < 2 ^ 64 }
    ensures { IfOk result (λ v. v.items ≡ map (λ j. dot factors.now (column (length factors.now) part_len bytes.now j)) (range_with_len 0 part_len)) }
{
    let mut sum = vec![in alloc; 0; part_len]?;
    for (k, c) in factors.iter().enumerate() {
        add_part(&mut sum, *c, bytes, k * part_len);
    }
    Ok(sum)
}

/// A part of a block: the bytes from `start` on, and zeros where the block has ended.
pub fn part(
    alloc: Global,
    block: &[u8],
    start: usize,
    part_len: usize,
) -> Result<Vec<u8>, OutOfMemory>
    ensures { IfOk result (λ v. v.items ≡ map (λ j. slice_index block.now (start + j)) (range_with_len 0 part_len)) }
{
    let mut part = vec![in alloc; 0; part_len]?;
    add_part(&mut part, 1, block, start);
    Ok(part)
}

/// Four sums of parts.
#[derive(Drop)]
pub struct Four {
    pub first: Vec<u8>,
    pub second: Vec<u8>,
    pub third: Vec<u8>,
    pub fourth: Vec<u8>,
}

/// Four sums of the parts, as `combine` makes one. No part may end early here.
pub fn combine_four(
    alloc: Global,
    products: &[u8],
    first: &[u8],
    second: &[u8],
    third: &[u8],
    fourth: &[u8],
    bytes: &[u8],
    part_len: usize,
) -> Result<Four, OutOfMemory>
    requires products { Serves products.now part_len }
    requires many_second { length second.now ≡ length first.now }
    requires many_third { length third.now ≡ length first.now }
    requires many_fourth { length fourth.now ≡ length first.now }
    requires whole { length first.now * part_len ≤ length bytes.now }
    ensures first { IfOk result (λ r. r.first.items ≡ given_part (length first.now) part_len bytes.now first.now) }
    ensures second { IfOk result (λ r. r.second.items ≡ given_part (length first.now) part_len bytes.now second.now) }
    ensures third { IfOk result (λ r. r.third.items ≡ given_part (length first.now) part_len bytes.now third.now) }
    ensures fourth { IfOk result (λ r. r.fourth.items ≡ given_part (length first.now) part_len bytes.now fourth.now) }
{
    let mut a = vec![in alloc; 0; part_len]?;
    let mut b = vec![in alloc; 0; part_len]?;
    let mut c = vec![in alloc; 0; part_len]?;
    let mut d = vec![in alloc; 0; part_len]?;
    sum_four(
        products, first, second, third, fourth, bytes, &mut a, &mut b, &mut c, &mut d,
    );
    Ok(Four {
        first: a,
        second: b,
        third: c,
        fourth: d,
    })
}

/// Whether half of the factors or more are zero, so that one sum by itself is faster.
fn is_sparse(factors: &[u8]) -> bool {
    let zeros = factors.iter().filter(|c| **c == 0).count();
    zeros >= factors.len() - zeros
}

/// Whether the table has four more rows from `from` on, and none of them is sparse.
fn are_four_sums(table: &[Vec<u8>], from: usize) -> bool
    requires { from < length table.now }
    ensures { IsTrue result → from + 4 ≤ length table.now }
{
    table.len() - from >= 4 && table[from..from + 4].iter().all(|w| !is_sparse(w))
}

/// The parts that a table gives of rows that stand one after another, four at a time where all four
/// are sums of many rows.
pub fn apply(
    alloc: Global,
    products: &[u8],
    table: &[Vec<u8>],
    rows: &[u8],
    part_len: usize,
) -> Result<Vec<u8>, OutOfMemory>
    requires products { Serves products.now part_len }
    requires square { IsWide (length table.now) (map (λ w. w.items) table.now) }
    requires fits { length table.now * part_len < 2 ^ 64 }
    requires whole { length table.now * part_len ≤ length rows.now }
    ensures { IfOk result (λ v. v.items ≡ given_parts (length table.now) part_len rows.now (map (λ w. w.items) table.now)) }
{
    let mut block = Vec::with_capacity(alloc, table.len() * part_len)?;
    let mut done = 0;
    while done < table.len() {
        if are_four_sums(table, done) {
            let parts = combine_four(
                alloc,
                products,
                &table[done],
                &table[done + 1],
                &table[done + 2],
                &table[done + 3],
                rows,
                part_len,
            )?;
            block.extend_from_slice(&parts.first)?;
            block.extend_from_slice(&parts.second)?;
            block.extend_from_slice(&parts.third)?;
            block.extend_from_slice(&parts.fourth)?;
            done += 4;
        } else {
            let part = combine(alloc, &table[done], rows, part_len)?;
            block.extend_from_slice(&part)?;
            done += 1;
        }
    }
    Ok(block)
}
