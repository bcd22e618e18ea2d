//! How fast rows are added, and blocks encoded and rebuilt.

ghost use Rattle.std.specs.Prelude.{◌≡◌, ℕ, ◌+◌, ◌≤◌, length, map, IfOk};
ghost use Rattle.std.specs.List.{range_with_len};
ghost use Rattle.cauchy_code.specs.Code.{part_length, AllLong};

use crate::no_memory;
use crate::rows::{rebuild, rebuild_kept, rows_from};
use bytes::Bytes;
use cauchy_code::{Code, Inverses};
use gf_lanes::{add_row, add_row_plain};
use pond_base::OutOfMemory;
use std::alloc::Global;
use std::io;
use std::rt::Runtime;
use std::time::Instant;

/// How often each is done in a round.
const TIMES: u32 = 100;

/// How many rounds there are. The fastest counts.
const ROUNDS: u32 = 100;

/// Adds a row again and again, by lanes.
fn add_again(acc: &mut [u8], row: &[u8])
    requires { length acc.old ≡ length row.now }
{
    for _ in 0..TIMES {
        add_row(acc, 0x8e, row);
    }
}

/// Adds a row again and again, a product a byte.
fn add_plain_again(acc: &mut [u8], row: &[u8])
    requires { length acc.old ≡ length row.now }
{
    for _ in 0..TIMES {
        add_row_plain(acc, 0x8e, row);
    }
}

/// Encodes the block again and again.
fn encode_again(alloc: Global, code: &Code, block: &[u8]) -> Result<(), OutOfMemory> {
    for _ in 0..TIMES {
        code.encode(alloc, block)?;
    }
    Ok(())
}

/// Rebuilds the block again and again.
fn rebuild_again(
    alloc: Global,
    code: &Code,
    from: u8,
    size: usize,
    parts: &[(u8, Bytes)],
) -> Result<(), OutOfMemory>
    requires there { from + code.now.m ≤ code.now.n }
    requires indexes { map (λ p. p.0) parts.now ≡ range_with_len from code.now.m }
    requires long { AllLong (part_length code.now.m size) (map (λ p. p.1) parts.now) }
{
    for _ in 0..TIMES {
        rebuild(alloc, code, from, size, parts)?;
    }
    Ok(())
}

/// Rebuilds the block again and again, with tables that are kept.
fn rebuild_kept_again(
    inverses: &mut Inverses,
    from: u8,
    size: usize,
    parts: &[(u8, Bytes)],
) -> Result<(), OutOfMemory>
    requires there { from + inverses.old.code.m ≤ inverses.old.code.n }
    requires indexes { map (λ p. p.0) parts.now ≡ range_with_len from inverses.old.code.m }
    requires long { AllLong (part_length inverses.old.code.m size) (map (λ p. p.1) parts.now) }
    ensures { inverses.new.code ≡ inverses.old.code }
{
    for _ in 0..TIMES {
        rebuild_kept(inverses, from, size, parts)?;
    }
    Ok(())
}

/// Kilobytes in a second, where `size` bytes were done in each time of a round.
fn kilobytes(start: &Instant, rt: &impl Runtime, size: usize) -> io::Result<u64> {
    let nanos = u64::try_from(start.elapsed(rt)?.as_nanos()).unwrap_or(u64::MAX);
    Ok((size as u64).saturating_mul(1_000_000 * TIMES as u64) / nanos.max(1))
}

/// A row of its own.
fn copied(alloc: Global, row: &[u8]) -> Result<Vec<u8>, OutOfMemory>
    ensures { IfOk result (λ v. length v.items ≡ length row.now) }
{
    let mut copy = Vec::with_capacity(alloc, row.len())?;
    copy.extend_from_slice(row)?;
    Ok(copy)
}

/// Prints how fast a row is added to another, by lanes and plainly, in bytes of the row.
pub fn measure_rows(rt: &impl Runtime, alloc: Global, row: &[u8]) -> io::Result<()> {
    let mut sum = copied(alloc, row).map_err(no_memory)?;
    add_rows(rt, &mut sum, row)
}

/// The same, where the row to which it is added stands.
fn add_rows(rt: &impl Runtime, acc: &mut [u8], row: &[u8]) -> io::Result<()>
    requires { length acc.old ≡ length row.now }
{
    let mut lanes = 0;
    let mut plain = 0;
    for _ in 0..ROUNDS {
        let start = Instant::now(rt)?;
        add_again(acc, row);
        lanes = kilobytes(&start, rt, row.len())?.max(lanes);
        let start = Instant::now(rt)?;
        add_plain_again(acc, row);
        plain = kilobytes(&start, rt, row.len())?.max(plain);
    }
    println!(rt;
        "kB/s of rows of {} bytes: lanes {lanes}, plain {plain}",
        row.len()
    )
}

/// The fastest round of rebuilding with tables that are kept.
fn fastest_kept(
    rt: &impl Runtime,
    inverses: &mut Inverses,
    from: u8,
    size: usize,
    parts: &[(u8, Bytes)],
) -> io::Result<u64>
    requires there { from + inverses.old.code.m ≤ inverses.old.code.n }
    requires indexes { map (λ p. p.0) parts.now ≡ range_with_len from inverses.old.code.m }
    requires long { AllLong (part_length inverses.old.code.m size) (map (λ p. p.1) parts.now) }
{
    let mut fastest = 0;
    for _ in 0..ROUNDS {
        let start = Instant::now(rt)?;
        rebuild_kept_again(inverses, from, size, parts).map_err(no_memory)?;
        fastest = kilobytes(&start, rt, size)?.max(fastest);
    }
    Ok(fastest)
}

/// Prints how fast the block is encoded and rebuilt from its last rows.
pub fn measure(rt: &impl Runtime, alloc: Global, code: &Code, block: &[u8]) -> io::Result<()> {
    let from = code.n() - code.m();
    let parts = rows_from(alloc, code, from, block).map_err(no_memory)?;
    let mut encode = 0;
    let mut rebuild = 0;
    for _ in 0..ROUNDS {
        let start = Instant::now(rt)?;
        encode_again(alloc, code, block).map_err(no_memory)?;
        encode = kilobytes(&start, rt, block.len())?.max(encode);
        let start = Instant::now(rt)?;
        rebuild_again(alloc, code, from, block.len(), &parts).map_err(no_memory)?;
        rebuild = kilobytes(&start, rt, block.len())?.max(rebuild);
    }
    let mut inverses = Inverses::new(alloc, code, 1).map_err(no_memory)?;
    let kept = fastest_kept(rt, &mut inverses, from, block.len(), &parts)?;
    println!(rt;
        "  kB/s of blocks of {} bytes: encode {encode}, rebuild {rebuild}, with kept tables {kept}",
        block.len()
    )
}
