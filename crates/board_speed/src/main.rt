//! Versions are read by several threads while another one publishes: on a board, which is read without a
//! lock, and in the same list and map behind a lock.
//!
//! With the argument `time` it says how many reads there are in a second, with two readers and with four,
//! and what one read takes by how many entries there are.
#![tactic(auto)]

mod filling;
mod locked;
mod reading;
mod timing;

use reading::{Count, read_board, read_locked};
use std::{env, io};
use timing::measure;

fn no_memory() -> io::Error {
    io::Error::from(io::ErrorKind::OutOfMemory)
}

fn main(rt: HostRuntime) -> io::Result<()> {
    let alloc = rt.alloc();
    let mut timed = false;
    for arg in env::args(&rt)?.skip(1) {
        timed = timed || arg.as_str() == "time";
    }
    let count = Count {
        readers: 2,
        reads: 1_000,
        before: 16,
        beside: 100,
    };
    let Some(answers) = read_board(&rt, alloc, count) else {
        return Err(no_memory());
    };
    println!(rt; "board: 2 readers, {answers} answers")?;
    let Some(answers) = read_locked(&rt, alloc, count) else {
        return Err(no_memory());
    };
    println!(rt; "lock: 2 readers, {answers} answers")?;
    if timed {
        measure(&rt, alloc)?;
    }
    Ok(())
}
