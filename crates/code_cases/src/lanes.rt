// Sums of rows by lanes beside the plain sums, at each length and for each factor.
ghost use Rattle.std.specs.Prelude.{◌≡◌, ◌*◌, length, IfOk};
ghost use Rattle.gf_lanes.specs.ProductRows.{AreProducts, Serves};

use crate::telling::{Broken, holds};
use gf_lanes::{LANES, TABLE_BYTES, add_row, add_row_plain, fill_products, sum_four};
use std::alloc::Global;

// So many bytes that are not in order.
fn mixed_bytes(alloc: Global, count: usize) -> Result<Vec<u8>, Broken> {
    let mut bytes = Vec::new(alloc);
    for j in 0..count {
        bytes.push(((j % 256) as u8).wrapping_mul(89) ^ 0x5a)?;
    }
    Ok(bytes)
}

fn by_lanes(alloc: Global, c: u8, row: &[u8]) -> Result<Vec<u8>, Broken> {
    let mut sum = vec![in alloc; 0xc3; row.len()]?;
    add_row(sum.as_mut_slice(), c, row);
    Ok(sum)
}

fn plainly(alloc: Global, c: u8, row: &[u8]) -> Result<Vec<u8>, Broken> {
    let mut sum = vec![in alloc; 0xc3; row.len()]?;
    add_row_plain(sum.as_mut_slice(), c, row);
    Ok(sum)
}

fn is_plain_sum(alloc: Global, c: u8, row: &[u8]) -> Result<bool, Broken> {
    let sum = by_lanes(alloc, c, row)?;
    let plain = plainly(alloc, c, row)?;
    Ok(sum.as_slice() == plain.as_slice())
}

// Whether both sums of each factor's product with a row are equal.
fn are_equal(alloc: Global, row: &[u8]) -> bool {
    for c in 0..=255u8 {
        if !matches!(is_plain_sum(alloc, c, row), Ok(true)) {
            return false;
        }
    }
    true
}

fn is_summed(alloc: Global, count: usize) -> bool {
    match mixed_bytes(alloc, count) {
        Ok(row) => row.len() == count && are_equal(alloc, row.as_slice()),
        Err(_) => false,
    }
}

#[test]
fn lanes_are_the_plain_sum(rt: HostRuntime) {
    for count in 0..=100 {
        holds(&rt, is_summed(rt.alloc(), count), "some count of bytes");
    }
}

#[test]
fn a_row_times_three(rt: HostRuntime) {
    let mut sum = [0x01, 0x02, 0x80];
    add_row(&mut sum, 3, &[0x10, 0x80, 0xff]);
    assert_eq!(rt; sum, [0x31, 0x9f, 0x9c]);
}

// The factors of three parts in four rows.
const FACTORS: [[u8; 3]; 4] = [[2, 1, 0], [0x8e, 3, 0xff], [0, 0, 0], [0x80, 0x1d, 7]];

// Four rows of `len` bytes one after the other, each a sum of three parts, by lanes.
fn four_by_lanes(alloc: Global, table: &[u8], parts: &[u8], len: usize) -> Result<Vec<u8>, Broken>
    requires { Serves table.now len }
{
    if len > 100 || parts.len() != 3 * len {
        return Err(Broken::Unfit);
    }
    let mut rows = vec![in alloc; 0xc3; 4 * len]?;
    sum_into(table, parts, len, rows.as_mut_slice());
    Ok(rows)
}

fn sum_into(table: &[u8], parts: &[u8], len: usize, rows: &mut [u8])
    requires table { Serves table.now len }
    requires parts { length parts.now ≡ 3 * len }
    requires rows { length rows.old ≡ 4 * len }
{
    let (front, back) = rows.split_at_mut(2 * len);
    let (first, second) = front.split_at_mut(len);
    let (third, fourth) = back.split_at_mut(len);
    sum_four(
        table,
        &FACTORS[0],
        &FACTORS[1],
        &FACTORS[2],
        &FACTORS[3],
        parts,
        first,
        second,
        third,
        fourth,
    );
}

// The same, plainly.
fn four_plainly(alloc: Global, parts: &[u8], len: usize) -> Result<Vec<u8>, Broken> {
    let mut rows = Vec::new(alloc);
    for factors in &FACTORS {
        let row = plain_row(alloc, factors, parts, len)?;
        rows.extend_from_slice(row.as_slice())?;
    }
    Ok(rows)
}

fn plain_row(
    alloc: Global,
    factors: &[u8; 3],
    parts: &[u8],
    len: usize,
) -> Result<Vec<u8>, Broken> {
    if len > 100 || parts.len() != 3 * len {
        return Err(Broken::Unfit);
    }
    let mut row = vec![in alloc; 0; len]?;
    add_row_plain(row.as_mut_slice(), factors[0], &parts[..len]);
    add_row_plain(row.as_mut_slice(), factors[1], &parts[len..2 * len]);
    add_row_plain(row.as_mut_slice(), factors[2], &parts[2 * len..]);
    Ok(row)
}

fn products(alloc: Global) -> Result<Vec<u8>, Broken>
    ensures { IfOk result (λ table. AreProducts table.items) }
{
    let mut table = vec![in alloc; 0xc3; TABLE_BYTES]?;
    fill_products(table.as_mut_slice());
    Ok(table)
}

// Whether both ways of summing rows of `len` bytes give the same.
fn are_plain_sums(alloc: Global, table: &[u8], len: usize) -> Result<bool, Broken>
    requires { Serves table.now len }
{
    let parts = mixed_bytes(alloc, len.saturating_mul(3))?;
    let sums = four_by_lanes(alloc, table, parts.as_slice(), len)?;
    let plain = four_plainly(alloc, parts.as_slice(), len)?;
    Ok(sums.len() == len.saturating_mul(4) && sums.as_slice() == plain.as_slice())
}

// How many of the first lengths give plain sums, up to the first that does not.
fn plain_sums(alloc: Global, table: &[u8], lengths: usize) -> usize
    requires { AreProducts table.now }
{
    for len in 0..lengths {
        if !matches!(are_plain_sums(alloc, table, len), Ok(true)) {
            return len;
        }
    }
    lengths
}

#[test]
fn four_rows_are_plain_sums(rt: HostRuntime) {
    let sums = match products(rt.alloc()) {
        Ok(table) => plain_sums(rt.alloc(), table.as_slice(), 71),
        Err(_) => 0,
    };
    holds(&rt, sums == 71, "some length up to 70");
}

#[test]
fn four_short_rows_need_no_table(rt: HostRuntime) {
    for len in 0..LANES {
        let sums = are_plain_sums(rt.alloc(), &[], len);
        holds(
            &rt,
            matches!(sums, Ok(true)),
            "some length below that of a lane",
        );
    }
}
