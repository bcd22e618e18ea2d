// The strings of trees, written out by hand, and what each reader refuses.
use crate::telling::{Broken, decoded, digits_of, holds, line, number, same};
use pond_base::{Label, Name, Version};
use std::alloc::Global;
use tree_format::{
    Inner, Malformed, Root, is_root, read_inner, read_leaf, read_root, write_inner, write_label,
    write_leaf, write_root,
};

// Contents, and their leaf strings.
const LEAVES: &[(&str, &str)] = &[("6869", "016869"), ("00", "0100")];

// The first bytes of a string, how long it is with zeros behind them, and how many bytes of content are
// read of it, where it is a leaf string.
const LEAF_LENGTHS: &[(&str, usize, &str)] = &[
    ("", 0, "none"),
    ("01", 1, "none"),
    ("026869", 3, "none"),
    ("016869", 3, "2"),
    ("01", 8193, "8192"),
    ("01", 8194, "none"),
];

fn leaf_string(alloc: Global, content: &[u8]) -> Result<String, Broken> {
    if content.is_empty() || content.len() > 8192 {
        return Err(Broken::Unfit);
    }
    let string = write_leaf(alloc, content)?;
    digits_of(alloc, string.as_slice())
}

fn written_leaf(alloc: Global, digits: &str) -> Result<String, Broken> {
    let content = decoded(alloc, digits)?;
    leaf_string(alloc, content.as_slice())
}

fn content_of(alloc: Global, digits: &str) -> Result<String, Broken> {
    let string = decoded(alloc, digits)?;
    digits_of(alloc, read_leaf(string.as_slice())?)
}

// Bytes, with zeros behind them up to a length.
fn padded(alloc: Global, digits: &str, length: usize) -> Result<Vec<u8>, Broken> {
    let mut bytes = decoded(alloc, digits)?;
    for _byte in bytes.len()..length {
        bytes.push(0)?;
    }
    Ok(bytes)
}

fn leaf_length(alloc: Global, digits: &str, length: usize) -> Result<String, Broken> {
    let string = padded(alloc, digits, length)?;
    match read_leaf(string.as_slice()) {
        Ok(content) => number(alloc, content.len() as u64),
        Err(Malformed) => line(alloc, "none"),
    }
}

#[test]
fn leaf_strings(rt: HostRuntime) {
    for (content, string) in LEAVES {
        same(&rt, written_leaf(rt.alloc(), content), string);
        same(&rt, content_of(rt.alloc(), string), content);
    }
    for (digits, length, read) in LEAF_LENGTHS {
        same(&rt, leaf_length(rt.alloc(), digits, *length), read);
    }
}

// The inner string of the names of sevens and of nines.
const INNER: &str = "0202\
                     0707070707070707070707070707070707070707\
                     0909090909090909090909090909090909090909";

// The first bytes of a string, how long it is with zeros behind them, and how many names are read of it,
// where it is an inner string.
const INNER_LENGTHS: &[(&str, usize, &str)] = &[
    ("0240", 1281, "none"),
    ("0240", 1282, "64"),
    ("0240", 1283, "none"),
    ("0240", 1302, "none"),
    ("0241", 1302, "none"),
    ("0200", 2, "none"),
    ("0201", 22, "1"),
    ("0101", 22, "none"),
];

fn sevens() -> Name {
    Name::from_bytes([7; 20])
}

fn nines() -> Name {
    Name::from_bytes([9; 20])
}

fn inner_length(alloc: Global, digits: &str, length: usize) -> Result<String, Broken> {
    let string = padded(alloc, digits, length)?;
    match read_inner(string.as_slice()) {
        Ok(inner) => number(alloc, inner.count() as u64),
        Err(Malformed) => line(alloc, "none"),
    }
}

fn written_inner(alloc: Global) -> Result<String, Broken> {
    let string = write_inner(alloc, &[sevens(), nines()])?;
    digits_of(alloc, string.as_slice())
}

fn sevens_and_nines(inner: &Inner) -> &'static str {
    if inner.count() == 2 && inner.name(0) == sevens() && inner.name(1) == nines() {
        "sevens and nines"
    } else {
        "other names"
    }
}

fn inner_names(alloc: Global, digits: &str) -> Result<String, Broken> {
    let string = decoded(alloc, digits)?;
    let inner = read_inner(string.as_slice())?;
    line(alloc, sevens_and_nines(&inner))
}

#[test]
fn inner_strings(rt: HostRuntime) {
    same(&rt, written_inner(rt.alloc()), INNER);
    same(&rt, inner_names(rt.alloc(), INNER), "sevens and nines");
    for (digits, length, read) in INNER_LENGTHS {
        same(&rt, inner_length(rt.alloc(), digits, *length), read);
    }
}

// The root string of version 258, of 65 bytes in blocks of 64, of height 1, with the top of sevens, after
// the version of nines.
const ROOT: &str = "03000001020000004100000040\
                    01\
                    0707070707070707070707070707070707070707\
                    0909090909090909090909090909090909090909";

// The same less its last byte, with one byte more, of height 0, and of the kind of an inner string.
const NO_ROOTS: &[&str] = &[
    "03000001020000004100000040\
     01\
     0707070707070707070707070707070707070707\
     09090909090909090909090909090909090909",
    "03000001020000004100000040\
     01\
     0707070707070707070707070707070707070707\
     090909090909090909090909090909090909090900",
    "03000001020000004100000040\
     00\
     0707070707070707070707070707070707070707\
     0909090909090909090909090909090909090909",
    "02000001020000004100000040\
     01\
     0707070707070707070707070707070707070707\
     0909090909090909090909090909090909090909",
];

fn root_258() -> Root {
    Root {
        version: Version(258),
        length: 65,
        block: 64,
        height: 1,
        top: sevens(),
        previous: nines(),
    }
}

fn written_root(alloc: Global, root: &Root) -> Result<String, Broken> {
    if !is_root(root) {
        return Err(Broken::Unfit);
    }
    let string = write_root(alloc, root)?;
    digits_of(alloc, string.as_slice())
}

fn is_258(root: &Root) -> &'static str {
    if *root == root_258() {
        "version 258"
    } else {
        "another root"
    }
}

fn told_root(alloc: Global, digits: &str) -> Result<String, Broken> {
    let string = decoded(alloc, digits)?;
    match read_root(string.as_slice()) {
        Ok(root) => line(alloc, is_258(&root)),
        Err(Malformed) => line(alloc, "none"),
    }
}

#[test]
fn root_strings(rt: HostRuntime) {
    same(&rt, written_root(rt.alloc(), &root_258()), ROOT);
    same(&rt, told_root(rt.alloc(), ROOT), "version 258");
    for digits in NO_ROOTS {
        same(&rt, told_root(rt.alloc(), digits), "none");
    }
}

// The length of a version and of its blocks, and the height of its tree.
const HEIGHTS: &[(u32, u32, &str)] = &[
    (0, 64, "0"),
    (64, 64, "0"),
    (65, 64, "1"),
    (4_096, 64, "1"),
    (4_097, 64, "2"),
    (262_144, 64, "2"),
    (262_145, 64, "3"),
    (1_048_576, 64, "3"),
    (1_048_576, 8_192, "2"),
];

// The heights below 4 with which a root of version 1 is one.
fn heights_of(alloc: Global, length: u32, block: u32) -> Result<String, Broken> {
    let top = if length == 0 { 0 } else { 7 };
    let mut heights = String::new(alloc);
    for (height, digit) in [(0, "0"), (1, "1"), (2, "2"), (3, "3")] {
        if is_root_of(1, length, block, height, top, 9) {
            heights.push_str(digit)?;
        }
    }
    Ok(heights)
}

fn is_root_of(version: u32, length: u32, block: u32, height: u8, top: u8, previous: u8) -> bool {
    is_root(&Root {
        version: Version(version),
        length,
        block,
        height,
        top: Name::from_bytes([top; 20]),
        previous: Name::from_bytes([previous; 20]),
    })
}

#[test]
fn root_heights(rt: HostRuntime) {
    for (length, block, height) in HEIGHTS {
        same(&rt, heights_of(rt.alloc(), *length, *block), height);
    }
}

// A root of version 0 and of height 0: its length, its block, each byte of its top and of the name of the
// version before, and whether it is one.
const FIRSTS: &[(u32, u32, u8, u8, bool)] = &[
    (0, 64, 0, 0, true),
    (0, 8_192, 0, 0, true),
    (0, 64, 7, 0, false),
    (0, 64, 0, 7, false),
    (1, 64, 7, 0, false),
    (0, 63, 0, 0, false),
    (0, 8_193, 0, 0, false),
];

#[test]
fn roots_of_version_0(rt: HostRuntime) {
    for (length, block, top, previous, expected) in FIRSTS {
        let found = is_root_of(0, *length, *block, 0, *top, *previous);
        holds(&rt, found == *expected, "a row of first roots");
    }
}

fn label_string(alloc: Global, text: &[u8]) -> Result<String, Broken> {
    let string = write_label(alloc, &Label::read(text)?)?;
    digits_of(alloc, string.as_slice())
}

#[test]
fn label_strings(rt: HostRuntime) {
    same(&rt, label_string(rt.alloc(), b"a0"), "076130");
}
