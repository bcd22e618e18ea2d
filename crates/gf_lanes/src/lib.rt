//! Sums of rows of bytes in the field of 256 elements: one row is added to another, each of its bytes
//! times one factor.
//!
//! This layer stands on the field's product. `add_row_plain` is the definition's plain program, a
//! product a byte; `add_row` has the same contract and sums 32 bytes at a time by lanes. The code
//! above rests on that one clause, which says each place of the sum. No call here takes memory.
#![tactic(auto)]

ghost use Rattle.std.specs.Prelude.{◌≡◌, length, slice_index, EachIndex, bit_xor};
ghost use Rattle.gf256.specs.Field.{product};

mod four;
mod lanes;
mod product_table;

pub use four::sum_four;
use gf256::mul;
pub use lanes::LANES;
use lanes::{add_block, products, times_sixteen};
pub use product_table::{TABLE_BYTES, fill_products};

/// Adds `c` times `row` to `acc`, place by place: each byte of `acc` becomes its sum with the product
/// of `c` and the byte of `row` at its place.
pub fn add_row_plain(acc: &mut [u8], c: u8, row: &[u8])
    requires { length acc.old ≡ length row.now }
    ensures { EachIndex acc.new (λ j. slice_index acc.new j ≡ bit_xor (slice_index acc.old j) (product c (slice_index row.now j))) }
{
    for (j, byte) in row.iter().enumerate() {
        acc[j] ^= mul(c, *byte);
    }
}

/// Adds `row` to `acc`, place by place.
fn add_copy(acc: &mut [u8], row: &[u8])
    requires { length acc.old ≡ length row.now }
    ensures { EachIndex acc.new (λ j. slice_index acc.new j ≡ bit_xor (slice_index acc.old j) (slice_index row.now j)) }
{
    for (j, byte) in row.iter().enumerate() {
        acc[j] ^= *byte;
    }
}

/// The sum of `add_row_plain`, 32 bytes at a time and byte by byte for what is left. A factor of 0
/// costs nothing, and a factor of 1 no product.
pub fn add_row(acc: &mut [u8], c: u8, row: &[u8])
    requires { length acc.old ≡ length row.now }
    ensures { EachIndex acc.new (λ j. slice_index acc.new j ≡ bit_xor (slice_index acc.old j) (product c (slice_index row.now j))) }
{
    if c == 0 {
        return;
    }
    if c == 1 {
        add_copy(acc, row);
        return;
    }
    if row.len() < LANES {
        add_row_plain(acc, c, row);
        return;
    }
    let low = products(c);
    let high = products(times_sixteen(c));
    let blocks = row.len() / LANES;
    for block in 0..blocks {
        add_block(acc, LANES * block, low, high, row);
    }
    for j in LANES * blocks..row.len() {
        acc[j] ^= mul(c, row[j]);
    }
}
