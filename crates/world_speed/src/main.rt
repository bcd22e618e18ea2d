//! Ten members of a ring with f = 3 are handed 1,024 requests of sixteen clients, and all messages that
//! these cause.
//!
//! With the argument `time` it says how long that takes, for fewer requests too.
#![tactic(auto)]

mod feeding;
mod timing;

use feeding::feed;
use std::{env, io};
use timing::measure;

fn main(rt: HostRuntime) -> io::Result<()> {
    let alloc = rt.alloc();
    let mut timed = false;
    for arg in env::args(&rt)?.skip(1) {
        timed = timed || arg.as_str() == "time";
    }
    let Some(fed) = feed(&rt, alloc, 1_024) else {
        return Err(io::Error::from(io::ErrorKind::OutOfMemory));
    };
    println!(rt;
        "requests {} deliveries {} executed {} versions {}",
        fed.requests, fed.deliveries, fed.executed, fed.versions
    )?;
    if timed {
        measure(&rt, alloc)?;
    }
    Ok(())
}
