//! Encodes a block of 8,192 bytes and rebuilds it from its last rows, by the codes 16 of 32 and 4 of 8.
//!
//! With the argument `time` it says how fast: kilobytes of block in a second, on one processor, of that
//! block and of one as short as a root string.
#![tactic(auto)]

mod rows;
mod timing;

use cauchy_code::Code;
use pond_base::OutOfMemory;
use rows::{rebuild, rows_from};
use std::alloc::Global;
use std::{env, io};
use timing::{measure, measure_rows};

/// How many bytes the block has.
const SIZE: usize = 8192;

/// How many bytes a root string has.
const ROOT: usize = 54;

/// Want of memory, as the outside names it.
fn no_memory(_error: OutOfMemory) -> io::Error {
    io::Error::from(io::ErrorKind::OutOfMemory)
}

/// A block whose bytes differ from place to place.
fn block(alloc: Global) -> Result<Vec<u8>, OutOfMemory> {
    let mut block = Vec::new(alloc);
    for j in 0..SIZE as u32 {
        block.push((j.wrapping_mul(2_654_435_761) >> 24) as u8)?;
    }
    Ok(block)
}

/// Whether the last rows of a block give it back.
fn comes_back(alloc: Global, code: &Code, block: &[u8]) -> Result<bool, OutOfMemory> {
    let from = code.n() - code.m();
    let parts = rows_from(alloc, code, from, block)?;
    let rebuilt = rebuild(alloc, code, from, block.len(), &parts)?;
    Ok(rebuilt.as_slice() == block)
}

fn main(rt: HostRuntime) -> io::Result<()> {
    let alloc = rt.alloc();
    let block = block(alloc).map_err(no_memory)?;
    let mut timed = false;
    for arg in env::args(&rt)?.skip(1) {
        timed = timed || arg.as_str() == "time";
    }
    if timed {
        measure_rows(&rt, alloc, &block[..block.len().min(512)])?;
    }
    for (m, n) in [(16, 32), (4, 8)] {
        for code in [Code::new(m, n), Code::systematic(m, n)] {
            let Some(code) = code else {
                continue;
            };
            let kind = if code.is_systematic() {
                "systematic"
            } else {
                "sums"
            };
            if comes_back(alloc, &code, &block).map_err(no_memory)? {
                println!(rt; "{m} of {n}, {kind}: the last rows give the block back")?;
            }
            if timed {
                measure(&rt, alloc, &code, &block)?;
                measure(&rt, alloc, &code, &block[..block.len().min(ROOT)])?;
            }
        }
    }
    Ok(())
}
