// Labels, lists, and fields that are read one after the other.
use crate::telling::{Broken, add, decoded, digits_of, digits_of_name, holds, line, number, same};
use pond_base::{BadLabel, Duplicate, Fields, Items, Label, Name, Short};
use std::alloc::Global;

const LABELS: &[&str] = &["a", "_0z", "abcdefghijklmnopqrstuvwxyz012345"];

const NO_LABELS: &[&str] = &["", "A", "a b", "a-b", "abcdefghijklmnopqrstuvwxyz0123456"];

// Whether a text is read as a label of its bytes.
fn is_label(text: &str) -> bool {
    match Label::read(text.as_bytes()) {
        Ok(label) => label.bytes() == text.as_bytes(),
        Err(BadLabel) => false,
    }
}

fn is_refused(text: &str) -> bool {
    match Label::read(text.as_bytes()) {
        Ok(_) => false,
        Err(BadLabel) => true,
    }
}

fn is_before(text: &[u8], other: &[u8]) -> bool {
    match (Label::read(text), Label::read(other)) {
        (Ok(label), Ok(other)) => label < other,
        _ => false,
    }
}

#[test]
fn labels(rt: HostRuntime) {
    for text in LABELS {
        holds(&rt, is_label(text), text);
    }
    for text in NO_LABELS {
        holds(&rt, is_refused(text), text);
    }
    holds(&rt, is_before(b"a", b"a0"), "a and a0");
}

// What is taken from the fields.
enum Take {
    Byte,
    Number,
    Name,
    Bytes(usize),
}

// A byte, a number, a name, and three bytes more.
const FIELDS: &str = "0100000102\
                      0707070707070707070707070707070707070707\
                      070707";

// The takes, one after the other.
const TAKES: &[Take] = &[
    Take::Byte,
    Take::Number,
    Take::Name,
    Take::Name,
    Take::Number,
    Take::Bytes(4),
    Take::Bytes(3),
    Take::Byte,
];

// How many bytes are left before them, and what each gives.
const TAKEN: &str =
    "28 1 258 0707070707070707070707070707070707070707 short short short 070707 short";

fn told(alloc: Global, fields: &mut Fields, take: &Take) -> Result<String, Broken> {
    match take {
        Take::Byte => byte(alloc, fields),
        Take::Number => four_bytes(alloc, fields),
        Take::Name => name(alloc, fields),
        Take::Bytes(count) => bytes(alloc, fields, *count),
    }
}

fn byte(alloc: Global, fields: &mut Fields) -> Result<String, Broken> {
    match fields.take_u8() {
        Ok(byte) => number(alloc, byte as u64),
        Err(Short) => line(alloc, "short"),
    }
}

fn four_bytes(alloc: Global, fields: &mut Fields) -> Result<String, Broken> {
    match fields.take_u32() {
        Ok(four) => number(alloc, four as u64),
        Err(Short) => line(alloc, "short"),
    }
}

fn name(alloc: Global, fields: &mut Fields) -> Result<String, Broken> {
    match fields.take_name() {
        Ok(name) => digits_of_name(alloc, name),
        Err(Short) => line(alloc, "short"),
    }
}

fn bytes(alloc: Global, fields: &mut Fields, count: usize) -> Result<String, Broken> {
    match fields.take_bytes(count) {
        Ok(bytes) => digits_of(alloc, bytes),
        Err(Short) => line(alloc, "short"),
    }
}

fn taken(alloc: Global, fields: &mut Fields) -> Result<String, Broken> {
    let mut text = number(alloc, fields.left() as u64)?;
    for take in TAKES {
        add(&mut text, line(alloc, " "))?;
        add(&mut text, told(alloc, fields, take))?;
    }
    Ok(text)
}

fn taken_of_all(alloc: Global) -> Result<String, Broken> {
    let bytes = decoded(alloc, FIELDS)?;
    let mut fields = Fields::new(bytes.as_slice());
    taken(alloc, &mut fields)
}

#[test]
fn fields_are_read_in_order(rt: HostRuntime) {
    same(&rt, taken_of_all(rt.alloc()), TAKEN);
}

fn add_label(labels: &mut Items<Label>, text: &[u8]) -> Result<(), Broken> {
    labels.push(Label::read(text)?)?;
    Ok(())
}

fn two_labels(alloc: Global) -> Result<Items<Label>, Broken> {
    let mut labels = Items::new(alloc);
    add_label(&mut labels, b"a")?;
    add_label(&mut labels, b"b")?;
    Ok(labels)
}

fn label_digits(alloc: Global, label: Option<&Label>) -> Result<String, Broken> {
    match label {
        Some(label) => digits_of(alloc, label.bytes()),
        None => line(alloc, "none"),
    }
}

// What stands at each place of a list, and behind its last.
fn told_labels(alloc: Global, labels: &Items<Label>) -> Result<String, Broken> {
    let mut text = String::new(alloc);
    for at in 0..labels.len() {
        add(&mut text, label_digits(alloc, labels.get(at)))?;
    }
    add(&mut text, label_digits(alloc, labels.get(labels.len())))?;
    Ok(text)
}

fn told_copy(alloc: Global, labels: &Items<Label>) -> Result<String, Broken> {
    let copy = labels.duplicate()?;
    if copy.as_slice() != labels.as_slice() {
        return line(alloc, "another list");
    }
    let again = Items::from_vec(copy.into_vec());
    told_labels(alloc, &again)
}

fn told_two_labels(alloc: Global) -> Result<String, Broken> {
    let labels = two_labels(alloc)?;
    told_copy(alloc, &labels)
}

#[test]
fn lists_are_copied_whole(rt: HostRuntime) {
    same(&rt, told_two_labels(rt.alloc()), "6162none");
}

fn is_copied(name: Name) -> bool {
    match name.duplicate() {
        Ok(copy) => copy == name,
        Err(_) => false,
    }
}

#[test]
fn empty_lists_and_names(rt: HostRuntime) {
    let none: Items<Label> = Items::new(rt.alloc());
    holds(&rt, none.is_empty(), "the empty list");
    holds(&rt, is_copied(Name::from_bytes([9; 20])), "a name");
}
