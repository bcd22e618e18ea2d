// Blocks that are rebuilt from their rows.
ghost use Rattle.std.specs.Prelude.{◌≡◌, ◌≢◌, ℕ, ◌+◌, ◌<◌, ◌≤◌, List, [], ◌∷◌, length, IfOk, map};
ghost use Rattle.std.specs.List.{range_with_len};
ghost use Rattle.cauchy_code.specs.Code.{part_length, AllLong};

use crate::codes::code_of;
use crate::telling::{Broken, add_number, digits_of, holds, same};
use bytes::Bytes;
use cauchy_code::{Code, Inverses};
use pond_base::OutOfMemory;
use std::alloc::Global;

// Whether the code 2 of 3 is systematic, and two rows of the block 01 02: their indexes and their bytes.
const PAIRS: &[(bool, u8, u8, u8, u8)] = &[
    (false, 0, 0x7a, 1, 0xdd),
    (false, 1, 0xdd, 2, 0xf5),
    (false, 2, 0xf5, 0, 0x7a),
    (true, 0, 0x01, 1, 0x02),
    (true, 1, 0x02, 0, 0x01),
    (true, 1, 0x02, 2, 0xf5),
    (true, 2, 0xf5, 1, 0x02),
    (true, 2, 0xf5, 0, 0x01),
    (true, 0, 0x01, 2, 0xf5),
];

// Two parts of one byte.
fn two_parts(alloc: Global, a: u8, x: u8, b: u8, y: u8) -> Result<[(u8, Bytes); 2], OutOfMemory>
    ensures { IfOk result (λ r. ((p : ℕ × List ℕ) × (q : ℕ × List ℕ) × (r ≡ p ∷ q ∷ []) × (p.0 ≡ a) × (q.0 ≡ b) × (length p.1 ≡ 1) × (length q.1 ≡ 1))) }
{
    let first = Bytes::copy_from_slice(alloc, &[x])?;
    let second = Bytes::copy_from_slice(alloc, &[y])?;
    Ok([(a, first), (b, second)])
}

fn rebuilt(alloc: Global, code: &Code, a: u8, x: u8, b: u8, y: u8) -> Result<Vec<u8>, OutOfMemory>
    requires two { code.now.m ≡ 2 }
    requires first { a < code.now.n }
    requires second { b < code.now.n }
    requires differ { a ≢ b }
{
    let parts = two_parts(alloc, a, x, b, y)?;
    code.rebuild(alloc, 2, &parts)
}

fn pair_rebuilt(alloc: Global, code: &Code, a: u8, x: u8, b: u8, y: u8) -> Result<String, Broken> {
    if code.m() != 2 || a >= code.n() || b >= code.n() || a == b {
        return Err(Broken::Unfit);
    }
    let block = rebuilt(alloc, code, a, x, b, y)?;
    digits_of(alloc, block.as_slice())
}

fn of_pair(alloc: Global, systematic: bool, a: u8, x: u8, b: u8, y: u8) -> Result<String, Broken> {
    let code = code_of(systematic, 2, 3)?;
    pair_rebuilt(alloc, &code, a, x, b, y)
}

#[test]
fn pairs_rebuild(rt: HostRuntime) {
    for (systematic, a, x, b, y) in PAIRS {
        same(
            &rt,
            of_pair(rt.alloc(), *systematic, *a, *x, *b, *y),
            "0102",
        );
    }
}

// Two rows of the block 01 02 by the code 2 of 3, one list after the other.
const KEPT: &[(u8, u8, u8, u8)] = &[
    (0, 0x7a, 1, 0xdd),
    (0, 0x7a, 1, 0xdd),
    (1, 0xdd, 2, 0xf5),
    (0, 0x7a, 1, 0xdd),
];

// How many lists may be kept, and how many are after each of `KEPT` was rebuilt with those before.
const KEPT_COUNTS: &[(u32, &str)] = &[(8, " 1 1 2 2"), (1, " 1 1 1 1")];

fn rebuilt_again(
    alloc: Global,
    inverses: &mut Inverses,
    a: u8,
    x: u8,
    b: u8,
    y: u8,
) -> Result<Vec<u8>, Broken>
    requires two { inverses.old.code.m ≡ 2 }
    requires three { inverses.old.code.n ≡ 3 }
    ensures { inverses.new.code ≡ inverses.old.code }
{
    if a > 2 || b > 2 || a == b {
        return Err(Broken::Unfit);
    }
    let parts = two_parts(alloc, a, x, b, y)?;
    Ok(inverses.rebuild(2, &parts)?)
}

fn add_kept(alloc: Global, text: &mut String, block: &[u8], kept: u32) -> Result<(), Broken> {
    if block != [1, 2].as_slice() {
        text.push_str(" not rebuilt")?;
    }
    add_number(alloc, text, " ", kept as u64)
}

// The counts of lists that are kept after each of `KEPT`, where so many may be kept.
fn kept_of(alloc: Global, code: &Code, size: u32) -> Result<String, Broken>
    requires two { code.now.m ≡ 2 }
    requires three { code.now.n ≡ 3 }
    requires some { 1 ≤ size }
{
    let mut inverses = Inverses::new(alloc, code, size)?;
    let mut text = String::new(alloc);
    for (a, x, b, y) in KEPT {
        let block = rebuilt_again(alloc, &mut inverses, *a, *x, *b, *y)?;
        add_kept(alloc, &mut text, block.as_slice(), inverses.kept())?;
    }
    Ok(text)
}

fn kept(alloc: Global, size: u32) -> Result<String, Broken> {
    let code = code_of(false, 2, 3)?;
    if size == 0 || code.m() != 2 || code.n() != 3 {
        return Err(Broken::Unfit);
    }
    kept_of(alloc, &code, size)
}

#[test]
fn kept_lists(rt: HostRuntime) {
    for (size, text) in KEPT_COUNTS {
        same(&rt, kept(rt.alloc(), *size), text);
    }
}

// The rows from `from` on, as many as rebuild.
fn rows_from(
    alloc: Global,
    code: &Code,
    from: u8,
    block: &[u8],
) -> Result<Vec<(u8, Bytes)>, OutOfMemory>
    requires there { from + code.now.m ≤ code.now.n }
    requires few { code.now.n ≤ 64 }
    ensures { IfOk result (λ v. (map (λ p. p.0) v.items ≡ range_with_len from code.now.m) × AllLong (part_length code.now.m (length block.now)) (map (λ p. p.1) v.items)) }
{
    let mut parts = Vec::new(alloc);
    for k in 0..code.m() {
        let row = code.row(alloc, from + k, block)?;
        let bytes = Bytes::copy_from_slice(alloc, &row)?;
        parts.push((from + k, bytes))?;
    }
    Ok(parts)
}

fn rebuilt_from(alloc: Global, code: &Code, from: u8, block: &[u8]) -> Result<Vec<u8>, OutOfMemory>
    requires { from + code.now.m ≤ code.now.n }
{
    let _n = code.n();
    let parts = rows_from(alloc, code, from, block)?;
    code.rebuild(alloc, block.len(), &parts)
}

fn rebuilt_by_last(
    alloc: Global,
    systematic: bool,
    from: u8,
    block: &[u8],
) -> Result<Vec<u8>, Broken> {
    let code = code_of(systematic, 32, 64)?;
    if code.m() != 32 || code.n() != 64 || from > 32 {
        return Err(Broken::Unfit);
    }
    Ok(rebuilt_from(alloc, &code, from, block)?)
}

fn mixed_block(alloc: Global) -> Result<Vec<u8>, Broken> {
    let mut block = Vec::new(alloc);
    for j in 0..8193u32 {
        block.push((j.wrapping_mul(2_654_435_761) >> 24) as u8)?;
    }
    Ok(block)
}

// Whether a code is systematic, and the first of the rows that rebuild the block.
const LAST: &[(bool, u8)] = &[(false, 32), (false, 7), (true, 32), (true, 7)];

fn is_rebuilt(alloc: Global, systematic: bool, from: u8, block: &[u8]) -> bool {
    match rebuilt_by_last(alloc, systematic, from, block) {
        Ok(rebuilt) => block.len() == 8193 && rebuilt.as_slice() == block,
        Err(_) => false,
    }
}

// How many of the rows of `LAST` rebuild the block, up to the first that does not.
fn rebuilt_count(alloc: Global, block: &[u8]) -> usize {
    let mut count: usize = 0;
    for (systematic, from) in LAST {
        if !is_rebuilt(alloc, *systematic, *from, block) {
            return count;
        }
        count = count.saturating_add(1);
    }
    count
}

#[test]
fn last_rows_of_the_largest_code(rt: HostRuntime) {
    let count = match mixed_block(rt.alloc()) {
        Ok(block) => rebuilt_count(rt.alloc(), block.as_slice()),
        Err(_) => 0,
    };
    holds(&rt, count == LAST.len(), "some row of the last");
}
