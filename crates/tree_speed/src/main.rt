//! Replaces one byte of an object by each of a thousand calls of `apply`, where the object has 64 KiB and
//! where it has 1 MiB, with leaves of 64 bytes.
//!
//! With the argument `time` it says how long the calls take.
#![tactic(auto)]

mod editing;
mod timing;

use editing::count;
use std::{env, io};
use timing::measure;

fn main(rt: HostRuntime) -> io::Result<()> {
    let alloc = rt.alloc();
    let mut timed = false;
    for arg in env::args(&rt)?.skip(1) {
        timed = timed || arg.as_str() == "time";
    }
    for size in [65_536, 1_048_576] {
        let Some(namings) = count(alloc, size) else {
            return Err(io::Error::from(io::ErrorKind::OutOfMemory));
        };
        println!(rt; "{size} bytes: 1000 replaces, {namings} namings")?;
        if timed {
            measure(&rt, alloc, size)?;
        }
    }
    Ok(())
}
