// Steps with three stores, and what is told of them.
ghost use Rattle.std.specs.Prelude.{◌≡◌, ◌<◌, length};

use crate::telling::{Broken, add, decoded, digits_of, line, number, same};
use block_names::{Book, FoldHash, NameFault};
use bytes::Bytes;
use fragment_store::Stores;
use pond_base::Name;
use std::alloc::Global;
use std::process::Abort;

// What is done with a store. A name is its one byte, twenty times, and a string its digits.
enum Act {
    Place(u8, &'static str),
    Replace(u8, &'static str),
    Drop,
    Spoil,
    Offered(u8),
    Count,
}

// The store, what is done with it, and what is told. The names are those of strings without their bytes
// `ee`, so that `61ee` and `61` have one name.
const STEPS: &[(u8, Act, &str)] = &[
    (0, Act::Place(1, "61ef"), "put"),
    (0, Act::Place(2, "0401dd"), "put"),
    // A place that is taken stays.
    (0, Act::Place(1, "00"), "put"),
    (0, Act::Offered(1), "61ef"),
    (0, Act::Count, "2"),
    // The other stores are as they were.
    (1, Act::Offered(1), "none"),
    (1, Act::Count, "0"),
    (0, Act::Replace(2, "60"), "put"),
    (0, Act::Offered(2), "60"),
    (0, Act::Count, "2"),
    // Spoiling changes the last byte; an empty string stays.
    (2, Act::Place(9, "0402f5"), "put"),
    (2, Act::Place(8, "00"), "put"),
    (2, Act::Spoil, "spoiled"),
    (2, Act::Offered(9), "0402f4"),
    (2, Act::Offered(8), "01"),
    (1, Act::Place(3, ""), "put"),
    (1, Act::Spoil, "spoiled"),
    (1, Act::Offered(3), ""),
    // Two strings of one name are made: the store holds what it held.
    (0, Act::Spoil, "clash 61ee 61"),
    (0, Act::Offered(1), "61ef"),
    (0, Act::Offered(2), "60"),
    (2, Act::Drop, "dropped"),
    (2, Act::Count, "0"),
    (2, Act::Offered(9), "none"),
    (0, Act::Count, "2"),
];

fn name(byte: u8) -> Name {
    Name::from_bytes([byte; 20])
}

fn string(alloc: Global, digits: &str) -> Result<Bytes, Broken> {
    let bytes = decoded(alloc, digits)?;
    Ok(Bytes::from_vec(bytes)?)
}

fn place(
    alloc: Global,
    stores: &mut Stores,
    store: u8,
    byte: u8,
    digits: &str,
) -> Result<String, Broken>
    requires { store < length stores.old }
    ensures { length stores.new ≡ length stores.old }
{
    let string = string(alloc, digits)?;
    stores.place(store, name(byte), string)?;
    line(alloc, "put")
}

fn replace(
    alloc: Global,
    stores: &mut Stores,
    store: u8,
    byte: u8,
    digits: &str,
) -> Result<String, Broken>
    requires { store < length stores.old }
    ensures { length stores.new ≡ length stores.old }
{
    let string = string(alloc, digits)?;
    stores.replace(store, name(byte), string)?;
    line(alloc, "put")
}

fn clash(alloc: Global, old: &Bytes, new: &Bytes) -> Result<String, Broken> {
    let mut text = line(alloc, "clash ")?;
    add(&mut text, digits_of(alloc, old.as_slice()))?;
    text.push_str(" ")?;
    add(&mut text, digits_of(alloc, new.as_slice()))?;
    Ok(text)
}

fn spoil(
    alloc: Global,
    book: &mut Book<FoldHash>,
    stores: &mut Stores,
    store: u8,
) -> Result<String, Broken>
    requires { store < length stores.old }
    ensures { length stores.new ≡ length stores.old }
{
    match stores.spoil(book, store) {
        Ok(()) => line(alloc, "spoiled"),
        Err(NameFault::Clash { old, new }) => clash(alloc, &old, &new),
        Err(NameFault::Memory) => Err(Broken::Memory),
    }
}

fn offered(alloc: Global, stores: &Stores, store: u8, byte: u8) -> Result<String, Broken>
    requires { store < length stores.now }
{
    match stores.offered(store, name(byte)) {
        Some(string) => digits_of(alloc, string.as_slice()),
        None => line(alloc, "none"),
    }
}

fn done(
    alloc: Global,
    book: &mut Book<FoldHash>,
    stores: &mut Stores,
    store: u8,
    act: &Act,
) -> Result<String, Broken>
    requires { store < length stores.old }
    ensures { length stores.new ≡ length stores.old }
{
    match act {
        Act::Place(byte, digits) => place(alloc, stores, store, *byte, digits),
        Act::Replace(byte, digits) => replace(alloc, stores, store, *byte, digits),
        Act::Spoil => spoil(alloc, book, stores, store),
        Act::Offered(byte) => offered(alloc, stores, store, *byte),
        Act::Count => number(alloc, stores.count(store) as u64),
        Act::Drop => {
            stores.drop_all(store);
            line(alloc, "dropped")
        }
    }
}

// What one step tells.
fn step(
    alloc: Global,
    book: &mut Book<FoldHash>,
    stores: &mut Stores,
    store: u8,
    act: &Act,
) -> Result<String, Broken>
    requires { length stores.old ≡ 3 }
    ensures { length stores.new ≡ 3 }
{
    if store >= 3 {
        return Err(Broken::Unfit);
    }
    done(alloc, book, stores, store, act)
}

// Does all steps, and compares what each tells.
fn run_all(rt: &impl Abort, alloc: Global, book: &mut Book<FoldHash>, stores: &mut Stores)
    requires { length stores.old ≡ 3 }
{
    for (store, act, told) in STEPS {
        same(rt, step(alloc, book, stores, *store, act), told);
    }
}

#[test]
fn stores_change_one_at_a_time(rt: HostRuntime) {
    let mut book = Book::new(rt.alloc(), FoldHash);
    match Stores::new(rt.alloc(), 3) {
        Ok(mut stores) => run_all(&rt, rt.alloc(), &mut book, &mut stores),
        Err(_) => same(&rt, Err(Broken::Memory), "three stores"),
    }
}
