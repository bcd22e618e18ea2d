// How long edits take.
ghost use Rattle.cow_tree.specs.Versions.{IsTreeIn};

use crate::editing::{object, replace_each};
use block_names::{Book, Hash160, Sha1Hash};
use cow_tree::Tree;
use std::alloc::Global;
use std::io;
use std::rt::Runtime;
use std::time::Instant;

/// How many rounds there are. The fastest counts.
const ROUNDS: u32 = 9;

fn no_memory() -> io::Error {
    io::Error::from(io::ErrorKind::OutOfMemory)
}

/// How many microseconds the calls of the fastest round take.
fn fastest<H: Hash160 + Drop>(
    rt: &impl Runtime,
    alloc: Global,
    book: &mut Book<H>,
    tree: Tree,
) -> io::Result<u64>
    requires { IsTreeIn H.naming book.old.held tree }
{
    let mut tree = tree;
    let mut fastest = u64::MAX;
    for round in 0..ROUNDS {
        let start = Instant::now(rt)?;
        let Some(next) = replace_each(alloc, book, tree, round + 1) else {
            return Err(no_memory());
        };
        tree = next;
        let micros = u64::try_from(start.elapsed(rt)?.as_micros()).unwrap_or(u64::MAX);
        fastest = micros.min(fastest);
    }
    Ok(fastest)
}

/// Prints how long the calls of a round take on an object of so many bytes.
pub fn measure(rt: &impl Runtime, alloc: Global, size: usize) -> io::Result<()> {
    let mut book = Book::new(alloc, Sha1Hash);
    let Some(tree) = object(alloc, &mut book, size) else {
        return Err(no_memory());
    };
    let micros = fastest(rt, alloc, &mut book, tree)?;
    println!(rt; "  1000 calls: {micros} microseconds")
}
