// Known digests, what a book holds and counts, clashes, and pools.
use crate::telling::{Broken, add, decoded, digits_of, digits_of_name, holds, line, number, same};
use block_names::{Book, FoldHash, Hash160, NameFault, Pool, Sha1Hash, StepFault};
use bytes::Bytes;
use pond_base::{Name, OutOfMemory};
use std::alloc::Global;

// Strings, and their names under SHA-1.
const DIGESTS: &[(&str, &str)] = &[
    ("", "da39a3ee5e6b4b0d3255bfef95601890afd80709"),
    ("616263", "a9993e364706816aba3e25717850c26c9cd0d89d"),
];

// Strings whose folded name is SHA-1 of the bytes 01 and 61.
const FOLDED: &[&str] = &["0161ee", "01ee61", "ee0161"];

const OF_01_61: &str = "d7df14c970b8fe33527b5f9c9243f8017d85dc8c";

fn digest<H: Hash160>(alloc: Global, hash: &H, digits: &str) -> Result<String, Broken> {
    let bytes = decoded(alloc, digits)?;
    digits_of_name(alloc, hash.hash(bytes.as_slice()))
}

#[test]
fn known_digests(rt: HostRuntime) {
    for (digits, name) in DIGESTS {
        same(&rt, digest(rt.alloc(), &Sha1Hash, digits), name);
    }
    for digits in FOLDED {
        same(&rt, digest(rt.alloc(), &FoldHash, digits), OF_01_61);
    }
}

// Strings that are named one after the other, and for each its name or the two strings of the clash, and
// the count of namings then.
const NAMED: &[(&str, &str)] = &[
    ("616263", "a9993e364706816aba3e25717850c26c9cd0d89d 1"),
    ("616263", "a9993e364706816aba3e25717850c26c9cd0d89d 2"),
    ("616264", "cb4cc28df0fdbe0ecf9d9662e294b118092a5735 3"),
];

const CLASHING: &[(&str, &str)] = &[
    ("0161ee", "d7df14c970b8fe33527b5f9c9243f8017d85dc8c 1"),
    ("01ee61", "clash 0161ee 01ee61 1"),
    ("0161ee", "d7df14c970b8fe33527b5f9c9243f8017d85dc8c 2"),
];

fn named<H: Hash160 + Drop>(
    alloc: Global,
    book: &mut Book<H>,
    digits: &str,
) -> Result<String, Broken> {
    let bytes = decoded(alloc, digits)?;
    match book.name(bytes.as_slice()) {
        Ok(name) => digits_of_name(alloc, name),
        Err(NameFault::Clash { old, new }) => clash(alloc, &old, &new),
        Err(NameFault::Memory) => Err(Broken::Memory),
    }
}

fn clash(alloc: Global, old: &Bytes, new: &Bytes) -> Result<String, Broken> {
    let mut text = line(alloc, "clash ")?;
    add(&mut text, digits_of(alloc, old.as_slice()))?;
    add(&mut text, line(alloc, " "))?;
    add(&mut text, digits_of(alloc, new.as_slice()))?;
    Ok(text)
}

fn named_and_counted<H: Hash160 + Drop>(
    alloc: Global,
    book: &mut Book<H>,
    digits: &str,
) -> Result<String, Broken> {
    let mut text = named(alloc, book, digits)?;
    add(&mut text, line(alloc, " "))?;
    add(&mut text, number(alloc, book.namings()))?;
    Ok(text)
}

#[test]
fn names_are_counted(rt: HostRuntime) {
    let mut book = Book::new(rt.alloc(), Sha1Hash);
    for (digits, text) in NAMED {
        same(&rt, named_and_counted(rt.alloc(), &mut book, digits), text);
    }
}

#[test]
fn two_strings_of_one_name_clash(rt: HostRuntime) {
    let mut book = Book::new(rt.alloc(), FoldHash);
    for (digits, text) in CLASHING {
        same(&rt, named_and_counted(rt.alloc(), &mut book, digits), text);
    }
}

// Whether a name is held just from when its string is named.
fn is_held_once_named(book: &mut Book<Sha1Hash>) -> bool {
    let name = Sha1Hash.hash(b"abc");
    let before = book.holds(name);
    match book.name(b"abc") {
        Ok(named) => !before && named == name && book.holds(name),
        Err(_) => false,
    }
}

#[test]
fn names_are_held(rt: HostRuntime) {
    let mut book = Book::new(rt.alloc(), Sha1Hash);
    holds(&rt, is_held_once_named(&mut book), "abc");
}

fn clash_of(alloc: Global) -> Result<NameFault, Broken> {
    let old = Bytes::copy_from_slice(alloc, b"old")?;
    let new = Bytes::copy_from_slice(alloc, b"new")?;
    Ok(NameFault::Clash { old, new })
}

fn step_fault(alloc: Global, fault: &StepFault) -> Result<String, Broken> {
    match fault {
        StepFault::Clash { old, new } => clash(alloc, old, new),
        StepFault::Ended => line(alloc, "ended"),
        StepFault::Memory => line(alloc, "memory"),
    }
}

fn step_clash(alloc: Global) -> Result<String, Broken> {
    let fault = StepFault::from(clash_of(alloc)?);
    step_fault(alloc, &fault)
}

#[test]
fn faults_of_steps(rt: HostRuntime) {
    same(&rt, step_clash(rt.alloc()), "clash 6f6c64 6e6577");
    let named = StepFault::from(NameFault::Memory);
    same(&rt, step_fault(rt.alloc(), &named), "memory");
    let memory = StepFault::from(OutOfMemory);
    same(&rt, step_fault(rt.alloc(), &memory), "memory");
}

#[test]
fn faults_of_names(rt: HostRuntime) {
    let memory = matches!(NameFault::from(OutOfMemory), NameFault::Memory);
    holds(&rt, memory, "out of memory");
}

fn held(alloc: Global, pool: &Pool, name: Name) -> Result<String, Broken> {
    match pool.get(name) {
        Some(bytes) => digits_of(alloc, bytes.as_slice()),
        None => line(alloc, "none"),
    }
}

// What a pool holds under a name once a string was put there.
fn put(alloc: Global, pool: &mut Pool, name: Name, bytes: &[u8]) -> Result<String, Broken> {
    pool.put(name, Bytes::copy_from_slice(alloc, bytes)?)?;
    held(alloc, pool, name)
}

#[test]
fn the_first_string_stays(rt: HostRuntime) {
    let mut pool = Pool::new(rt.alloc());
    let name = Name::from_bytes([7; 20]);
    same(&rt, held(rt.alloc(), &pool, name), "none");
    same(
        &rt,
        put(rt.alloc(), &mut pool, name, b"first"),
        "6669727374",
    );
    same(
        &rt,
        put(rt.alloc(), &mut pool, name, b"second"),
        "6669727374",
    );
}
