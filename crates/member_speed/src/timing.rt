// How long a ring takes.
use crate::feeding::feed;
use std::alloc::Global;
use std::io;
use std::rt::Runtime;
use std::time::Instant;

/// Prints how long it takes to hand in requests, for several numbers of them.
pub fn measure(rt: &impl Runtime, alloc: Global) -> io::Result<()> {
    for requests in [1_024, 2_048, 4_096, 8_192] {
        let start = Instant::now(rt)?;
        let Some(fed) = feed(alloc, requests) else {
            return Err(io::Error::from(io::ErrorKind::OutOfMemory));
        };
        let micros = u64::try_from(start.elapsed(rt)?.as_micros()).unwrap_or(u64::MAX);
        println!(rt;
            "  {requests} requests, {} deliveries: {micros} microseconds, kept slots {}",
            fed.deliveries, fed.kept
        )?;
    }
    Ok(())
}
