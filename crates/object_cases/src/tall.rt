// Many appends: an object that is full, and a tree of height 3.
ghost use Rattle.std.specs.Prelude.{OnOk};
ghost use Rattle.object_fold.specs.Executed.{AreKnown};

use crate::objects::run;
use crate::telling::{Broken, add, add_number, decoded, same};
use block_names::{Book, Hash160, Pool, Sha1Hash};
use bytes::Bytes;
use cow_tree::Tree;
use object_fold::Objects;
use pond_base::{Label, Version};
use std::alloc::Global;

// The string of an append to the object `a`, by client 0.
fn append_string(alloc: Global, number: u32, content: &[u8]) -> Result<Vec<u8>, Broken> {
    let Ok(count) = u32::try_from(content.len()) else {
        return Err(Broken::Unfit);
    };
    let mut string = decoded(alloc, "0600")?;
    string.extend_from_slice(&number.to_be_bytes())?;
    string.extend_from_slice(b"\x01a\x01\0\x01\x02")?;
    string.extend_from_slice(&count.to_be_bytes())?;
    string.extend_from_slice(content)?;
    Ok(string)
}

// Appends a content by client 0's request of a number, and tells the outcome.
fn append<H: Hash160 + Drop>(
    alloc: Global,
    book: &mut Book<H>,
    objects: &mut Objects,
    number: u32,
    content: &[u8],
) -> Result<String, Broken>
    requires { AreKnown H.naming book.old.held objects.old }
    ensures { OnOk result (AreKnown H.naming book.new.held objects.new) }
{
    let string = append_string(alloc, number, content)?;
    run(alloc, book, objects, string.as_slice())
}

// Appends a content by the requests of the numbers up to another one, and tells what came of some of them.
fn fill<H: Hash160 + Drop>(
    alloc: Global,
    book: &mut Book<H>,
    objects: &mut Objects,
    content: &[u8],
    numbers: (u32, u32),
    told: &[u32],
    out: &mut String,
) -> Result<(), Broken>
    requires { AreKnown H.naming book.old.held objects.old }
    ensures { OnOk result (AreKnown H.naming book.new.held objects.new) }
{
    for number in numbers.0..numbers.1 {
        let line = append(alloc, book, objects, number, content)?;
        if told.contains(&number) {
            out.push_str(line.as_str())?;
        }
    }
    Ok(())
}

// The outcomes of the first and the last of 16 appends and of one of a byte, and the number of versions.
const FULL: &str = "made 1 e5b7def672fabc40e4c3594aa1f3028dc87921bf\n\
                    made 16 e9ae402f1eb6b898c4a3e9f644ca38c5c956016a\n\
                    too long\n\
                    versions 16";

// Appends 16 times a content that fills the object, and then a byte.
fn fill_whole<H: Hash160 + Drop>(
    alloc: Global,
    book: &mut Book<H>,
    objects: &mut Objects,
    content: &[u8],
) -> Result<String, Broken>
    requires { AreKnown H.naming book.old.held objects.old }
{
    let mut text = String::new(alloc);
    fill(alloc, book, objects, content, (1, 17), &[1, 16], &mut text)?;
    fill(alloc, book, objects, b"x", (17, 18), &[17], &mut text)?;
    add_number(alloc, &mut text, "versions ", objects.made().len() as u64)?;
    Ok(text)
}

fn full_of(alloc: Global, content: &[u8]) -> Result<String, Broken> {
    let mut book = Book::new(alloc, Sha1Hash);
    let mut objects = Objects::new(alloc, &mut book, 8192)?;
    fill_whole(alloc, &mut book, &mut objects, content)
}

fn full(alloc: Global) -> Result<String, Broken> {
    let content = vec![in alloc; b'x'; 65536]?;
    full_of(alloc, content.as_slice())
}

#[test]
fn full_object(rt: HostRuntime) {
    same(&rt, full(rt.alloc()), FULL);
}

// The bytes that scripts write as `gen:0:COUNT`.
fn generated(alloc: Global, count: usize) -> Result<Vec<u8>, Broken> {
    let mut bytes = Vec::new(alloc);
    let mut state: u32 = 0;
    for _byte in 0..count {
        state = state.wrapping_mul(1_664_525).wrapping_add(1_013_904_223);
        bytes.push((state >> 24) as u8)?;
    }
    Ok(bytes)
}

// Version 5 after four appends of `gen:0:65536` and one of `gen:0:1`, with blocks of 64 bytes.
const TALL: &str = "made 5 da3fa83759fde556a22630d2505145fb3574789e\n\
                    named 5 length 262145 height 3 strings 4166 new 5";

fn tall_of(alloc: Global, content: &[u8]) -> Result<String, Broken> {
    let mut book = Book::new(alloc, Sha1Hash);
    let mut objects = Objects::new(alloc, &mut book, 64)?;
    fill_tall(alloc, &mut book, &mut objects, content)
}

fn tall(alloc: Global) -> Result<String, Broken> {
    let content = generated(alloc, 65536)?;
    tall_of(alloc, content.as_slice())
}

// Appends a content four times, and then `gen:0:1`.
fn fill_tall<H: Hash160 + Drop>(
    alloc: Global,
    book: &mut Book<H>,
    objects: &mut Objects,
    content: &[u8],
) -> Result<String, Broken>
    requires { AreKnown H.naming book.old.held objects.old }
{
    let mut text = String::new(alloc);
    fill(alloc, book, objects, content, (1, 5), &[], &mut text)?;
    let before = book.namings();
    last_append(alloc, book, objects, &mut text)?;
    let named = book.namings().saturating_sub(before);
    add_number(alloc, &mut text, "named ", named)?;
    add(&mut text, last_line(alloc, objects))?;
    Ok(text)
}

fn last_append<H: Hash160 + Drop>(
    alloc: Global,
    book: &mut Book<H>,
    objects: &mut Objects,
    text: &mut String,
) -> Result<(), Broken>
    requires { AreKnown H.naming book.old.held objects.old }
{
    let byte = generated(alloc, 1)?;
    fill(alloc, book, objects, byte.as_slice(), (5, 6), &[5], text)
}

fn last_line(alloc: Global, objects: &Objects) -> Result<String, Broken> {
    let label = Label::read(b"a")?;
    match (
        objects.tree(&label, Version(4)),
        objects.tree(&label, Version(5)),
    ) {
        (Some(before), Some(tree)) => tree_line(alloc, before, tree),
        _ => Err(Broken::Unfit),
    }
}

fn tree_line(alloc: Global, before: &Tree, tree: &Tree) -> Result<String, Broken> {
    let mut text = String::new(alloc);
    add_number(alloc, &mut text, " length ", tree.root().length as u64)?;
    add_number(alloc, &mut text, " height ", tree.root().height as u64)?;
    add_number(alloc, &mut text, " strings ", tree.strings()?.len() as u64)?;
    add_number(
        alloc,
        &mut text,
        " new ",
        new_strings(alloc, before, tree)? as u64,
    )?;
    Ok(text)
}

fn put_all(pool: &mut Pool, strings: &[Bytes]) -> Result<(), Broken> {
    for string in strings {
        pool.put(Sha1Hash.hash(string.as_slice()), string.clone()?)?;
    }
    Ok(())
}

// How many strings a pool lacks.
fn lacking(pool: &Pool, strings: &[Bytes]) -> usize {
    let mut count: usize = 0;
    for string in strings {
        if pool.get(Sha1Hash.hash(string.as_slice())).is_none() {
            count = count.saturating_add(1);
        }
    }
    count
}

fn put_tree(pool: &mut Pool, tree: &Tree) -> Result<(), Broken> {
    let strings = tree.strings()?;
    put_all(pool, strings.as_slice())
}

// How many strings of a tree a pool lacks.
fn lacking_of(pool: &Pool, tree: &Tree) -> Result<usize, Broken> {
    let strings = tree.strings()?;
    Ok(lacking(pool, strings.as_slice()))
}

// How many strings of a tree are none of another one's.
fn new_strings(alloc: Global, before: &Tree, tree: &Tree) -> Result<usize, Broken> {
    let mut pool = Pool::new(alloc);
    put_tree(&mut pool, before)?;
    lacking_of(&pool, tree)
}

#[test]
fn tree_of_height_3(rt: HostRuntime) {
    same(&rt, tall(rt.alloc()), TALL);
}
