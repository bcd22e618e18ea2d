//! Products that are made once and then looked up. The bytes are the caller's, so that nothing here takes
//! memory.

ghost use Rattle.std.specs.Prelude.{◌≡◌, ℕ, ◌+◌, ◌*◌, ◌^◌, ◌<◌, ◌≤◌, length, slice_index, bit_xor};
ghost use Rattle.gf_lanes.specs.ProductRows.{IsRow, AreRows, AreProducts};

use crate::lanes::{load, products, store, store_half, sum, times_sixteen};

/// How many bytes a table of products has: for each byte its products with the bytes below 16, and with 16
/// times these.
pub const TABLE_BYTES: usize = 8192;

/// Writes row `c`.
fn put_row(bytes: &mut [u8], c: u8)
    requires { length bytes.old ≡ 8192 }
    ensures here { IsRow bytes.new c }
    ensures before { (k : ℕ) → k < 32 * c → slice_index bytes.new k ≡ slice_index bytes.old k }
{
    let at = 32 * c as usize;
    store_half(bytes, at, products(c));
    store_half(bytes, at + 16, products(times_sixteen(c)));
}

/// Writes the sum of two rows.
fn put_sum(bytes: &mut [u8], a: usize, b: usize)
    requires long { length bytes.old ≡ 8192 }
    requires within { a + b < 256 }
    ensures here { (k : ℕ) → k < 32 → slice_index bytes.new (32 * (a + b) + k) ≡ bit_xor (slice_index bytes.old (32 * a + k)) (slice_index bytes.old (32 * b + k)) }
    ensures before { (k : ℕ) → k < 32 * (a + b) → slice_index bytes.new k ≡ slice_index bytes.old k }
{
    let both = sum(load(bytes, 32 * a), load(bytes, 32 * b));
    store(bytes, 32 * (a + b), both);
}

/// The rows from 2 to the power of `bit` on, as many again as stand.
fn double_rows(bytes: &mut [u8], bit: u32)
    requires low { bit < 8 }
    requires long { length bytes.old ≡ 8192 }
    requires rows { AreRows bytes.old (2 ^ bit) }
    ensures { AreRows bytes.new (2 ^ (bit + 1)) }
{
    let power = 1usize << bit;
    put_row(bytes, power as u8);
    for rest in 1..power {
        put_sum(bytes, power, rest);
    }
}

/// Makes the bytes the table of products. What they held before is lost. Takes no memory.
pub fn fill_products(bytes: &mut [u8])
    requires { length bytes.old ≡ 8192 }
    ensures { AreProducts bytes.new }
{
    put_row(bytes, 0);
    for bit in 0..8u32 {
        double_rows(bytes, bit);
    }
}
