// How long a world takes.
use crate::feeding::feed;
use std::alloc::Global;
use std::io;
use std::rt::Runtime;
use std::thread::Threads;
use std::time::Instant;

/// Prints how long it takes to hand in requests, for several numbers of them.
pub fn measure<R: Runtime + Threads>(rt: &R, alloc: Global) -> io::Result<()> {
    for requests in [128, 256, 512, 1_024] {
        let start = Instant::now(rt)?;
        let Some(fed) = feed(rt, alloc, requests) else {
            return Err(io::Error::from(io::ErrorKind::OutOfMemory));
        };
        let micros = u64::try_from(start.elapsed(rt)?.as_micros()).unwrap_or(u64::MAX);
        println!(rt;
            "  {requests} requests, {} deliveries: {micros} microseconds",
            fed.deliveries
        )?;
    }
    Ok(())
}
