//! Blocks of 32 bytes, lane by lane. A product with a byte is the sum of two products that are looked
//! up: one by the byte's low four bits, one by its high four.

ghost use Rattle.std.specs.Prelude.{◌≡◌, ℕ, ◌+◌, ◌*◌, ◌/◌, ◌%◌, ◌<◌, ◌≤◌, length, slice_index, bit_and, bit_xor};
ghost use Rattle.gf256.specs.Field.{product};
ghost use Rattle.gf_lanes.specs.Lanes.{HasLanes, Repeats};
ghost use Rattle.gf_lanes.specs.ProductRows.{AreProducts};

use std::simd::prelude::*;

/// How many bytes are summed at once. Sums of shorter rows look nothing up in a table of products.
pub const LANES: usize = 32;

/// 255 at each lane whose number has bit 0, and 0 at the others.
const BIT_0: [u8; 32] = [
    0, 255, 0, 255, 0, 255, 0, 255, 0, 255, 0, 255, 0, 255, 0, 255, 0, 255, 0, 255, 0, 255, 0, 255,
    0, 255, 0, 255, 0, 255, 0, 255,
];

/// The same by bit 1.
const BIT_1: [u8; 32] = [
    0, 0, 255, 255, 0, 0, 255, 255, 0, 0, 255, 255, 0, 0, 255, 255, 0, 0, 255, 255, 0, 0, 255, 255,
    0, 0, 255, 255, 0, 0, 255, 255,
];

/// The same by bit 2.
const BIT_2: [u8; 32] = [
    0, 0, 0, 0, 255, 255, 255, 255, 0, 0, 0, 0, 255, 255, 255, 255, 0, 0, 0, 0, 255, 255, 255, 255,
    0, 0, 0, 0, 255, 255, 255, 255,
];

/// The same by bit 3.
const BIT_3: [u8; 32] = [
    0, 0, 0, 0, 0, 0, 0, 0, 255, 255, 255, 255, 255, 255, 255, 255, 0, 0, 0, 0, 0, 0, 0, 0, 255,
    255, 255, 255, 255, 255, 255, 255,
];

/// Twice `a`.
fn double(a: u8) -> u8
    ensures { result ≡ product a 2 }
{
    if a < 128 {
        2 * a
    } else {
        (2 * (a - 128)) ^ 0x1d
    }
}

/// Sixteen times `a`.
pub(crate) fn times_sixteen(a: u8) -> u8
    ensures { result ≡ product a 16 }
{
    double(double(double(double(a))))
}

/// `a` where the mask has 255, and 0 where it has 0.
#[inline(always)]
fn masked(a: u8, mask: &[u8; 32]) -> u8x32
    ensures { HasLanes result (λ k. bit_and a (slice_index mask.now k)) }
{
    u8x32::splat(a) & u8x32::from_slice(mask)
}

/// The products of `c` and each byte below 16, twice over.
#[inline(always)]
pub(crate) fn products(c: u8) -> u8x32
    ensures each { (k : ℕ) → k < 16 → slice_index result k ≡ product c k }
    ensures again { Repeats result }
{
    let two = double(c);
    let four = double(two);
    let eight = double(four);
    let low = sum(masked(c, &BIT_0), masked(two, &BIT_1));
    let high = sum(masked(four, &BIT_2), masked(eight, &BIT_3));
    sum(low, high)
}

/// The 32 bytes from `at` on.
#[inline(always)]
pub(crate) fn load(bytes: &[u8], at: usize) -> u8x32
    requires { at + 32 ≤ length bytes.now }
    ensures { HasLanes result (λ k. slice_index bytes.now (at + k)) }
{
    u8x32::from_slice(&bytes[at..])
}

/// What the table holds at the low four bits of each lane.
#[inline(always)]
fn by_low_bits(table: u8x32, v: u8x32) -> u8x32
    requires { Repeats table }
    ensures { HasLanes result (λ k. slice_index table (slice_index v k % 16)) }
{
    table.swizzle_dyn_within::<16>(v & u8x32::splat(15))
}

/// What the table holds at the high four bits of each lane.
#[inline(always)]
fn by_high_bits(table: u8x32, v: u8x32) -> u8x32
    requires { Repeats table }
    ensures { HasLanes result (λ k. slice_index table (slice_index v k / 16)) }
{
    table.swizzle_dyn_within::<16>(v >> u8x32::splat(4))
}

/// The sum at each lane.
#[inline(always)]
pub(crate) fn sum(a: u8x32, b: u8x32) -> u8x32
    ensures { HasLanes result (λ k. bit_xor (slice_index a k) (slice_index b k)) }
{
    a ^ b
}

/// Writes the lanes from `at` on.
#[inline(always)]
pub(crate) fn store(out: &mut [u8], at: usize, v: u8x32)
    requires { at + 32 ≤ length out.old }
    ensures inside { (k : ℕ) → k < 32 → slice_index out.new (at + k) ≡ slice_index v k }
    ensures before { (k : ℕ) → k < at → slice_index out.new k ≡ slice_index out.old k }
    ensures after { (k : ℕ) → at + 32 ≤ k → slice_index out.new k ≡ slice_index out.old k }
{
    v.copy_to_slice(&mut out[at..]);
}

/// Writes the first 16 lanes from `at` on.
#[inline(always)]
pub(crate) fn store_half(out: &mut [u8], at: usize, v: u8x32)
    requires long { length v ≡ 32 }
    requires room { at + 16 ≤ length out.old }
    ensures inside { (k : ℕ) → k < 16 → slice_index out.new (at + k) ≡ slice_index v k }
    ensures before { (k : ℕ) → k < at → slice_index out.new k ≡ slice_index out.old k }
    ensures after { (k : ℕ) → at + 16 ≤ k → slice_index out.new k ≡ slice_index out.old k }
{
    v.extract::<0, 16>().copy_to_slice(&mut out[at..]);
}

/// The 16 bytes from `at` on, twice over.
#[inline(always)]
fn twice(bytes: &[u8], at: usize) -> u8x32
    requires { at + 16 ≤ length bytes.now }
    ensures { HasLanes result (λ k. slice_index bytes.now (at + k % 16)) }
{
    u8x16::from_slice(&bytes[at..]).swizzle([
        0, 1, 2, 3, 4, 5, 6, 7, 8, 9, 10, 11, 12, 13, 14, 15, 0, 1, 2, 3, 4, 5, 6, 7, 8, 9, 10, 11,
        12, 13, 14, 15,
    ])
}

/// The product of `c` and each lane, looked up.
#[inline(always)]
pub(crate) fn times(table: &[u8], c: u8, v: u8x32) -> u8x32
    requires long { length v ≡ 32 }
    requires table { AreProducts table.now }
    ensures { HasLanes result (λ k. product c (slice_index v k)) }
{
    let at = 32 * c as usize;
    let low = by_low_bits(twice(table, at), v);
    let high = by_high_bits(twice(table, at + 16), v);
    sum(low, high)
}

/// No sum yet.
#[inline(always)]
pub(crate) fn zeros() -> u8x32
    ensures { HasLanes result (λ _. 0) }
{
    u8x32::splat(0)
}

/// Adds to 32 bytes of `acc` what the tables hold at the low and the high bits of those of `row`.
#[inline(always)]
pub(crate) fn add_block(acc: &mut [u8], at: usize, low: u8x32, high: u8x32, row: &[u8])
    requires room { at + 32 ≤ length acc.old }
    requires same { length acc.old ≡ length row.now }
    requires low_again { Repeats low }
    requires high_again { Repeats high }
    ensures inside { (k : ℕ) → k < 32 → slice_index acc.new (at + k) ≡ bit_xor (slice_index acc.old (at + k)) (bit_xor (slice_index low (slice_index row.now (at + k) % 16)) (slice_index high (slice_index row.now (at + k) / 16))) }
    ensures before { (k : ℕ) → k < at → slice_index acc.new k ≡ slice_index acc.old k }
    ensures after { (k : ℕ) → at + 32 ≤ k → slice_index acc.new k ≡ slice_index acc.old k }
{
    let bytes = load(row, at);
    let products = sum(by_low_bits(low, bytes), by_high_bits(high, bytes));
    let added = sum(load(acc, at), products);
    store(acc, at, added);
}
