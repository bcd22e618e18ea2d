// How many reads there are in a second.
use crate::no_memory;
use crate::reading::{Count, read_board, read_locked};
use std::alloc::Global;
use std::io;
use std::rt::Runtime;
use std::sync::Wait;
use std::thread::Threads;
use std::time::Instant;

/// How many rounds there are. The fastest counts.
const ROUNDS: u32 = 5;

/// How often each reader reads in a round.
const READS: u32 = 100_000;

/// How many microseconds the fastest round takes.
fn fastest<R: Runtime + Threads + Wait + Sync>(
    rt: &R,
    alloc: Global,
    count: Count,
    locked: bool,
) -> io::Result<u64> {
    let mut fastest = u64::MAX;
    for _round in 0..ROUNDS {
        let start = Instant::now(rt)?;
        let answers = if locked {
            read_locked(rt, alloc, count)
        } else {
            read_board(rt, alloc, count)
        };
        if answers.is_none() {
            return Err(no_memory());
        }
        let micros = u64::try_from(start.elapsed(rt)?.as_micros()).unwrap_or(u64::MAX);
        fastest = micros.min(fastest);
    }
    Ok(fastest.max(1))
}

/// How many reads there are in a second, by how long they all took.
fn a_second(count: Count, micros: u64) -> u64 {
    u64::from(count.readers)
        .saturating_mul(u64::from(count.reads))
        .saturating_mul(1_000_000)
        / micros.max(1)
}

/// Prints the reads of a second with so many readers beside a writer.
fn compare<R: Runtime + Threads + Wait + Sync>(
    rt: &R,
    alloc: Global,
    readers: u32,
) -> io::Result<()> {
    let count = Count {
        readers,
        reads: READS,
        before: 16,
        beside: 100_000,
    };
    let board = a_second(count, fastest(rt, alloc, count, false)?);
    let lock = a_second(count, fastest(rt, alloc, count, true)?);
    println!(rt;
        "  {readers} readers: {board} reads a second on the board, {lock} behind the lock, {} percent",
        board.saturating_mul(100) / lock.max(1)
    )
}

/// Prints how long a read takes on a board of so many entries.
fn one_reader<R: Runtime + Threads + Wait + Sync>(
    rt: &R,
    alloc: Global,
    entries: u32,
) -> io::Result<()> {
    let count = Count {
        readers: 1,
        reads: READS,
        before: entries,
        beside: 0,
    };
    let micros = fastest(rt, alloc, count, false)?;
    println!(rt; "  {entries} entries: {READS} reads in {micros} microseconds")
}

/// Prints all figures.
pub fn measure<R: Runtime + Threads + Wait + Sync>(rt: &R, alloc: Global) -> io::Result<()> {
    for entries in [16, 1_024] {
        one_reader(rt, alloc, entries)?;
    }
    for readers in [2, 4] {
        compare(rt, alloc, readers)?;
    }
    Ok(())
}
