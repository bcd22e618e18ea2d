//! Sums of parts for four rows at once. Each byte of a part is loaded and split into its low and its
//! high four bits once for all four, and the sums stay in registers over the parts.

ghost use Rattle.std.specs.Prelude.{◌≡◌, ℕ, ◌+◌, ◌*◌, ◌<◌, ◌≤◌, length, slice_index, EachIndex};
ghost use Rattle.gf_lanes.specs.Lanes.{HasLanes};
ghost use Rattle.gf_lanes.specs.ProductRows.{AreProducts, Serves};
ghost use Rattle.gf_lanes.specs.Sums.{sum_to, part_sum};

use crate::lanes::{LANES, load, store, sum, times, zeros};
use gf256::mul;
use std::simd::prelude::*;

/// What four rows hold at 32 places.
#[derive(Clone, Copy, Drop)]
struct Four {
    first: u8x32,
    second: u8x32,
    third: u8x32,
    fourth: u8x32,
}

/// The four sums at the 32 places from `at` on.
#[inline(always)]
fn sums_at(
    table: &[u8],
    first: &[u8],
    second: &[u8],
    third: &[u8],
    fourth: &[u8],
    parts: &[u8],
    part_len: usize,
    at: usize,
) -> Four
    requires table { AreProducts table.now }
    requires same_second { length second.now ≡ length first.now }
    requires same_third { length third.now ≡ length first.now }
    requires same_fourth { length fourth.now ≡ length first.now }
    requires whole { length first.now * part_len ≤ length parts.now }
    requires room { at + 32 ≤ part_len }
    ensures first { HasLanes result.first (λ q. part_sum first.now parts.now part_len (at + q)) }
    ensures second { HasLanes result.second (λ q. part_sum second.now parts.now part_len (at + q)) }
    ensures third { HasLanes result.third (λ q. part_sum third.now parts.now part_len (at + q)) }
    ensures fourth { HasLanes result.fourth (λ q. part_sum fourth.now parts.now part_len (at + q)) }
{
    let mut sums = Four {
        first: zeros(),
        second: zeros(),
        third: zeros(),
        fourth: zeros(),
    };
    for (k, c) in first.iter().enumerate() {
        let bytes = load(parts, k * part_len + at);
        sums.first = sum(sums.first, times(table, *c, bytes));
        sums.second = sum(sums.second, times(table, second[k], bytes));
        sums.third = sum(sums.third, times(table, third[k], bytes));
        sums.fourth = sum(sums.fourth, times(table, fourth[k], bytes));
    }
    sums
}

/// The sum at place `j`.
fn sum_at(factors: &[u8], parts: &[u8], part_len: usize, j: usize) -> u8
    requires whole { length factors.now * part_len ≤ length parts.now }
    requires room { j < part_len }
    ensures { result ≡ part_sum factors.now parts.now part_len j }
{
    let mut sum = 0;
    for (k, c) in factors.iter().enumerate() {
        sum ^= mul(*c, parts[k * part_len + j]);
    }
    sum
}

/// Makes four rows: each is the sum of the parts, each part times the row's factor for it. The parts
/// stand one after another, and are as long as the rows. What the rows held before is lost. Only rows of
/// 32 bytes or more need the table of products.
pub fn sum_four(
    table: &[u8],
    first_factors: &[u8],
    second_factors: &[u8],
    third_factors: &[u8],
    fourth_factors: &[u8],
    parts: &[u8],
    first: &mut [u8],
    second: &mut [u8],
    third: &mut [u8],
    fourth: &mut [u8],
)
    requires table { Serves table.now (length first.old) }
    requires many_second { length second_factors.now ≡ length first_factors.now }
    requires many_third { length third_factors.now ≡ length first_factors.now }
    requires many_fourth { length fourth_factors.now ≡ length first_factors.now }
    requires long_second { length second.old ≡ length first.old }
    requires long_third { length third.old ≡ length first.old }
    requires long_fourth { length fourth.old ≡ length first.old }
    requires whole { length first_factors.now * length first.old ≤ length parts.now }
    ensures first { EachIndex first.new (λ j. slice_index first.new j ≡ part_sum first_factors.now parts.now (length first.old) j) }
    ensures second { EachIndex second.new (λ j. slice_index second.new j ≡ part_sum second_factors.now parts.now (length first.old) j) }
    ensures third { EachIndex third.new (λ j. slice_index third.new j ≡ part_sum third_factors.now parts.now (length first.old) j) }
    ensures fourth { EachIndex fourth.new (λ j. slice_index fourth.new j ≡ part_sum fourth_factors.now parts.now (length first.old) j) }
{
    let part_len = first.len();
    let blocks = part_len / LANES;
    for block in 0..blocks {
        let at = LANES * block;
        let sums = sums_at(
            table,
            first_factors,
            second_factors,
            third_factors,
            fourth_factors,
            parts,
            part_len,
            at,
        );
        store(first, at, sums.first);
        store(second, at, sums.second);
        store(third, at, sums.third);
        store(fourth, at, sums.fourth);
    }
    for j in LANES * blocks..part_len {
        first[j] = sum_at(first_factors, parts, part_len, j);
        second[j] = sum_at(second_factors, parts, part_len, j);
        third[j] = sum_at(third_factors, parts, part_len, j);
        fourth[j] = sum_at(fourth_factors, parts, part_len, j);
    }
}
