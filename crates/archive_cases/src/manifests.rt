// Strings that are manifests, with what they say, and strings that are none.
use crate::telling::{
    Broken, add, add_number, decoded, digits_of, digits_of_name, line, number, same,
};
use manifest::{Entry, Manifest, find, read, read_then_written, write};
use pond_base::Name;
use std::alloc::Global;

// The string of a manifest in hexadecimal digits, and what it says: its code, its version and its object;
// of each entry the name, the length and the names of the fragments. Another program wrote both.
const MANIFESTS: &[(&str, &str)] = &[
    // Code 2 of 3, one entry.
    (
        "050102030000000177ee788a1f0154f00220849b81a423673e293a36000000010ca623e2855f2c75\
         c842ad302fe820e41b4d197d00000002ea0782c2249c3781e5ded147a02d2fdbaa47c0df3176e47d\
         5a020d6a7ebf6f2db4075dbea57875c8c68817463857e20cb36b8d1a3656978ecf287c37",
        "plain 2 3 version 1 77ee788a1f0154f00220849b81a423673e293a36\n\
         0ca623e2855f2c75c842ad302fe820e41b4d197d \
         2 ea0782c2249c3781e5ded147a02d2fdbaa47c0df \
         3176e47d5a020d6a7ebf6f2db4075dbea57875c8 \
         c68817463857e20cb36b8d1a3656978ecf287c37\n",
    ),
    // The systematic code 2 of 3, two entries.
    (
        "05020202030000010277ee788a1f0154f00220849b81a423673e293a36000000020ca623e2855f2c\
         75c842ad302fe820e41b4d197d000000028e3de112949b5f2f27a8b365d7137dbfd296e67466ab84\
         3d140c8aee3deeef3a2acfb50e4fd15805c68817463857e20cb36b8d1a3656978ecf287c37000000\
         00000000000000000000000000000000000000000301010101010101010101010101010101010101\
         01020202020202020202020202020202020202020203030303030303030303030303030303030303\
         03",
        "systematic 2 3 version 258 77ee788a1f0154f00220849b81a423673e293a36\n\
         0ca623e2855f2c75c842ad302fe820e41b4d197d \
         2 8e3de112949b5f2f27a8b365d7137dbfd296e674 \
         66ab843d140c8aee3deeef3a2acfb50e4fd15805 \
         c68817463857e20cb36b8d1a3656978ecf287c37\n\
         0000000000000000000000000000000000000000 \
         3 0101010101010101010101010101010101010101 \
         0202020202020202020202020202020202020202 \
         0303030303030303030303030303030303030303\n",
    ),
    // Code 1 of 1, the last version, no entry.
    (
        "05010101ffffffff77ee788a1f0154f00220849b81a423673e293a3600000000",
        "plain 1 1 version 4294967295 77ee788a1f0154f00220849b81a423673e293a36\n",
    ),
    // The systematic code 32 of 64, no entry.
    (
        "05020220400000000177ee788a1f0154f00220849b81a423673e293a3600000000",
        "systematic 32 64 version 1 77ee788a1f0154f00220849b81a423673e293a36\n",
    ),
];

// Strings that spell no manifest.
const NO_MANIFESTS: &[&str] = &[
    // Nothing.
    "",
    // A byte more.
    "05010101ffffffff77ee788a1f0154f00220849b81a423673e293a360000000000",
    // A byte less.
    "050102030000000177ee788a1f0154f00220849b81a423673e293a36000000010ca623e2855f2c75\
     c842ad302fe820e41b4d197d00000002ea0782c2249c3781e5ded147a02d2fdbaa47c0df3176e47d\
     5a020d6a7ebf6f2db4075dbea57875c8c68817463857e20cb36b8d1a3656978ecf287c",
    // Another kind.
    "04010101ffffffff77ee788a1f0154f00220849b81a423673e293a3600000000",
    // A third code.
    "05030101ffffffff77ee788a1f0154f00220849b81a423673e293a3600000000",
    // Half of the second form.
    "05020101ffffffff77ee788a1f0154f00220849b81a423673e293a3600000000",
    // The second form begun as the first.
    "0501020101ffffffff77ee788a1f0154f00220849b81a423673e293a3600000000",
    // M 0.
    "050100010000000177ee788a1f0154f00220849b81a423673e293a3600000000",
    // M 33.
    "050121400000000177ee788a1f0154f00220849b81a423673e293a3600000000",
    // N below m.
    "050102010000000177ee788a1f0154f00220849b81a423673e293a3600000000",
    // N 65.
    "050101410000000177ee788a1f0154f00220849b81a423673e293a3600000000",
    // Version 0.
    "050101010000000077ee788a1f0154f00220849b81a423673e293a3600000000",
    // An entry that is not there.
    "05010101ffffffff77ee788a1f0154f00220849b81a423673e293a3600000001",
    // An entry that is not counted.
    "050102030000000177ee788a1f0154f00220849b81a423673e293a36000000000ca623e2855f2c75\
     c842ad302fe820e41b4d197d00000002ea0782c2249c3781e5ded147a02d2fdbaa47c0df3176e47d\
     5a020d6a7ebf6f2db4075dbea57875c8c68817463857e20cb36b8d1a3656978ecf287c37",
    // An entry of length 0.
    "050101010000000177ee788a1f0154f00220849b81a423673e293a36000000010101010101010101\
     010101010101010101010101000000000202020202020202020202020202020202020202",
];

fn code_word(systematic: bool) -> &'static str {
    if systematic { "systematic" } else { "plain" }
}

fn add_name(alloc: Global, text: &mut String, name: Name) -> Result<(), Broken> {
    text.push_str(" ")?;
    add(text, digits_of_name(alloc, name))
}

// Tells what stands in front of the entries.
fn head(alloc: Global, manifest: &Manifest) -> Result<String, Broken> {
    let mut text = String::new(alloc);
    text.push_str(code_word(manifest.systematic))?;
    add_number(alloc, &mut text, " ", manifest.m as u64)?;
    add_number(alloc, &mut text, " ", manifest.n as u64)?;
    add_number(alloc, &mut text, " version ", manifest.version.0 as u64)?;
    add_name(alloc, &mut text, manifest.object)?;
    text.push_str("\n")?;
    Ok(text)
}

fn add_names(alloc: Global, text: &mut String, names: &[Name]) -> Result<(), Broken> {
    for name in names {
        add_name(alloc, text, *name)?;
    }
    Ok(())
}

// Tells an entry.
fn entry_line(alloc: Global, entry: &Entry) -> Result<String, Broken> {
    let mut text = digits_of_name(alloc, entry.name)?;
    add_number(alloc, &mut text, " ", entry.length as u64)?;
    add_names(alloc, &mut text, entry.fragments.as_slice())?;
    text.push_str("\n")?;
    Ok(text)
}

fn said(alloc: Global, manifest: &Manifest) -> Result<String, Broken> {
    let mut text = head(alloc, manifest)?;
    for entry in manifest.entries.as_slice() {
        add(&mut text, entry_line(alloc, entry))?;
    }
    Ok(text)
}

// Tells what a string says that is a manifest.
fn told(alloc: Global, digits: &str) -> Result<String, Broken> {
    let bytes = decoded(alloc, digits)?;
    match read(alloc, bytes.as_slice())? {
        Some(manifest) => said(alloc, &manifest),
        None => line(alloc, "none"),
    }
}

// Reads a manifest and writes it again.
fn rewritten(alloc: Global, digits: &str) -> Result<String, Broken> {
    let bytes = decoded(alloc, digits)?;
    read_then_written();
    match read(alloc, bytes.as_slice())? {
        Some(manifest) => digits_of(alloc, write(alloc, &manifest)?.as_slice()),
        None => line(alloc, "none"),
    }
}

// Tells the length of the string of a name that a manifest lists.
fn length_of(alloc: Global, manifest: &Manifest, byte: u8) -> Result<String, Broken> {
    match find(manifest, Name::from_bytes([byte; 20])) {
        Some(entry) => number(alloc, entry.length as u64),
        None => line(alloc, "none"),
    }
}

fn found(alloc: Global, digits: &str, byte: u8) -> Result<String, Broken> {
    let bytes = decoded(alloc, digits)?;
    match read(alloc, bytes.as_slice())? {
        Some(manifest) => length_of(alloc, &manifest, byte),
        None => Err(Broken::Unfit),
    }
}

#[test]
fn manifests_are_read_and_written(rt: HostRuntime) {
    for (digits, text) in MANIFESTS {
        same(&rt, told(rt.alloc(), digits), text);
        same(&rt, rewritten(rt.alloc(), digits), digits);
    }
}

#[test]
fn other_strings_are_no_manifests(rt: HostRuntime) {
    for digits in NO_MANIFESTS {
        same(&rt, told(rt.alloc(), digits), "none");
    }
}

// Of three entries the first and the last have one name.
const TWICE: &str =
    "050101010000000177ee788a1f0154f00220849b81a423673e293a36000000030101010101010101\
                     01010101010101010101010100000005090909090909090909090909090909090909090902020202\
                     02020202020202020202020202020202000000060909090909090909090909090909090909090909\
                     01010101010101010101010101010101010101010000000709090909090909090909090909090909\
                     09090909";

#[test]
fn the_first_entry_of_a_name_is_found(rt: HostRuntime) {
    for (byte, length) in [(1, "5"), (2, "6"), (9, "none")] {
        same(&rt, found(rt.alloc(), TWICE, byte), length);
    }
}
