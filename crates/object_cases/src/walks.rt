// Walks over a version of 4,097 bytes, with names that another program gave, and what each asks for.
use crate::telling::{Broken, add, add_number, digits_of_name, same};
use block_names::{Hash160, NameFault, Pool, Sha1Hash};
use bytes::Bytes;
use cow_tree::{Lookup, Span, Walked, needed_strings_are_strings, walk};
use pond_base::{Items, Name, Version};
use std::alloc::Global;
use tree_format::{Root, is_root, write_inner, write_leaf, write_root};

const BLOCK: u32 = 64;

const LENGTH: u32 = 4097;

// A pool, of which a string is found under its own name alone, and the names that were asked for.
#[derive(Drop)]
struct Kept<H: Hash160 + Drop> {
    hash: H,
    pool: Pool,
    asked: Items<Name>,
}

impl<H: Hash160 + Drop> Lookup for Kept<H> {
    ghost use Rattle.std.specs.Prelude.{◌≡◌, List, ◌∷◌, [], ◌++◌, None, Some, false};
    ghost use Rattle.std.specs.Option.{option_map_or};
    ghost use Rattle.std.specs.Str.{bytes_eq};
    ghost use Rattle.std.specs.FinMap as map;
    ghost use Rattle.std.proofs.Common.{rules, sym, ap, ◌∙◌};

    type State = Items<Name>;

    ghost naming = { H.naming };

    ghost state = { λ kept. kept.asked };

    ghost met = { λ _. None };

    ghost knows = { λ kept string. map.get kept.pool (H.naming string) ≡ Some string };

    ghost finds = { λ kept asked name. (option_map_or (λ string. bytes_eq (H.naming string) name) (map.get kept.pool name) false, asked ++ name ∷ []) };

    ghost ready = { λ _. Unit {0} };

    ghost after = { λ before now. now.pool ≡ before.pool };

    fn find(&mut self, name: Name) -> Result<Option<Bytes>, NameFault> {
        let Ok(()) = self.asked.push(name) else {
            return Err(NameFault::Memory);
        };
        let Some(string) = self.pool.get(name) else {
            return Ok(None);
        };
        if self.hash.hash(string.as_slice()) != name {
            return Ok(None);
        }
        match string.clone() {
            Ok(string) => Ok(Some(string)),
            Err(_) => Err(NameFault::Memory),
        }
    }

    ghost same = { Prim.search rules };

    ghost then = { Prim.search rules };

    ghost calm = { Prim.search rules };

    ghost long = { H.long };

    ghost one = { λ kept a b known other same. let held = sym known ∙ ap (λ name. map.get kept.pool name) same ∙ other in Prim.cc };
}

// Puts a string under its name.
fn put(pool: &mut Pool, string: Bytes) -> Result<Name, Broken> {
    let name = Sha1Hash.hash(string.as_slice());
    pool.put(name, string)?;
    Ok(name)
}

// The bytes of the version, of which the one at k is k modulo 251.
fn content(alloc: Global) -> Result<Vec<u8>, Broken> {
    let mut content = Vec::new(alloc);
    for place in 0..LENGTH {
        content.push((place % 251) as u8)?;
    }
    Ok(content)
}

// Puts a leaf string where it is not to be lacking, and gives its name.
fn put_leaf(alloc: Global, pool: &mut Pool, leaf: &[u8], lacks: bool) -> Result<Name, Broken> {
    if leaf.is_empty() || leaf.len() > 8192 {
        return Err(Broken::Unfit);
    }
    let string = write_leaf(alloc, leaf)?;
    if lacks {
        return Ok(Sha1Hash.hash(string.as_slice()));
    }
    put(pool, string)
}

// Puts the leaf strings of the version, but for those at some places, and gives the names of all.
fn put_leaves(alloc: Global, pool: &mut Pool, lacks: &[usize]) -> Result<Vec<Name>, Broken> {
    let content = content(alloc)?;
    let mut names = Vec::new(alloc);
    for leaf in content.as_slice().chunks(BLOCK as usize) {
        let name = put_leaf(alloc, pool, leaf, lacks.contains(&names.len()))?;
        names.push(name)?;
    }
    Ok(names)
}

fn put_inner(alloc: Global, pool: &mut Pool, names: &[Name]) -> Result<Name, Broken> {
    if names.is_empty() || names.len() > 64 {
        return Err(Broken::Unfit);
    }
    put(pool, write_inner(alloc, names)?)
}

// Puts the inner strings over names, and gives their names.
fn put_above(alloc: Global, pool: &mut Pool, names: &[Name]) -> Result<Vec<Name>, Broken> {
    let mut above = Vec::new(alloc);
    for some in names.chunks(64) {
        above.push(put_inner(alloc, pool, some)?)?;
    }
    Ok(above)
}

fn put_root(alloc: Global, pool: &mut Pool, root: &Root) -> Result<Name, Broken> {
    if !is_root(root) {
        return Err(Broken::Unfit);
    }
    put(pool, write_root(alloc, root)?)
}

// The root of version 0.
fn empty_root() -> Root {
    let nothing = Name::from_bytes([0; 20]);
    Root {
        version: Version(0),
        length: 0,
        block: BLOCK,
        height: 0,
        top: nothing,
        previous: nothing,
    }
}

// Puts the root strings of version 0 and of the version, and gives the name of the version.
fn put_roots(alloc: Global, pool: &mut Pool, top: Name) -> Result<Name, Broken> {
    let previous = put_root(alloc, pool, &empty_root())?;
    let root = Root {
        version: Version(1),
        length: LENGTH,
        block: BLOCK,
        height: 2,
        top,
        previous,
    };
    put_root(alloc, pool, &root)
}

// What the strings of the version are called.
#[derive(Drop)]
struct Names {
    version: Name,
    top: Name,
    inner: Vec<Name>,
    leaves: Vec<Name>,
}

// Puts all strings of the version, but for its leaves at some places.
fn put_version(alloc: Global, pool: &mut Pool, lacks: &[usize]) -> Result<Names, Broken> {
    let leaves = put_leaves(alloc, pool, lacks)?;
    let inner = put_above(alloc, pool, leaves.as_slice())?;
    let top = put_inner(alloc, pool, inner.as_slice())?;
    let version = put_roots(alloc, pool, top)?;
    Ok(Names {
        version,
        top,
        inner,
        leaves,
    })
}

fn kept_of(alloc: Global, pool: Pool) -> Kept<Sha1Hash> {
    Kept {
        hash: Sha1Hash,
        pool,
        asked: Items::new(alloc),
    }
}

// The names of the version, of its top, of the first inner string, and of the first and the last leaf.
const NAMES: &str = "b47357d4e7307fcc0cfb481612a9a3e6df011c2d \
                     231d0fa2d1a0e39a5f295b901e139cef6affe576 \
                     59953ca1d16d8b522883d43e18853f3da05669ad \
                     fc2b366bf31c5bc190f32a4603f8d1fba4a1068b \
                     19940339f7099a8ec4fdba70aed371c97499b332 ";

fn told_names(alloc: Global, names: &[Name]) -> Result<String, Broken> {
    let mut text = String::new(alloc);
    for name in names {
        add(&mut text, digits_of_name(alloc, *name))?;
        text.push_str(" ")?;
    }
    Ok(text)
}

fn some_names(alloc: Global, names: &Names) -> Result<String, Broken> {
    match (
        names.inner.first(),
        names.leaves.first(),
        names.leaves.last(),
    ) {
        (Some(inner), Some(first), Some(last)) => {
            told_names(alloc, &[names.version, names.top, *inner, *first, *last])
        }
        _ => Err(Broken::Unfit),
    }
}

fn names_of(alloc: Global) -> Result<String, Broken> {
    let mut pool = Pool::new(alloc);
    let names = put_version(alloc, &mut pool, &[])?;
    some_names(alloc, &names)
}

#[test]
fn names_of_the_version(rt: HostRuntime) {
    same(&rt, names_of(rt.alloc()), NAMES);
}

// Whether names are all those of the version in the order in which a walk needs them.
fn are_needed(found: &[Name], names: &Names) -> bool {
    let ([first, second], Some((last, others))) = (
        names.inner.as_slice(),
        names.leaves.split_last(),
    ) else {
        return false;
    };
    match found {
        [version, top, inner, leaves @ .., other, leaf] => {
            [*version, *top, *inner] == [names.version, names.top, *first]
                && leaves == others
                && [*other, *leaf] == [*second, *last]
        }
        _ => false,
    }
}

// The place behind bytes that are those of the version from a place on.
fn end_of(bytes: &[u8], from: usize) -> Option<usize> {
    let mut place = from;
    for byte in bytes {
        if *byte != (place % 251) as u8 {
            return None;
        }
        place = place.saturating_add(1);
    }
    Some(place)
}

fn whole_line(
    alloc: Global,
    version: Version,
    bytes: &[u8],
    from: usize,
) -> Result<String, Broken> {
    let mut text = String::new(alloc);
    match end_of(bytes, from) {
        Some(to) => add_number(alloc, &mut text, "bytes to ", to as u64)?,
        None => text.push_str("other bytes")?,
    }
    add_number(alloc, &mut text, " of version ", version.0 as u64)?;
    Ok(text)
}

fn missing_line(alloc: Global, name: Name) -> Result<String, Broken> {
    let mut text = String::new(alloc);
    text.push_str("missing ")?;
    add(&mut text, digits_of_name(alloc, name))?;
    Ok(text)
}

// What a walk comes to: up to where it has the bytes of the version from a place on, or the missing name.
fn walked(
    alloc: Global,
    kept: &mut Kept<Sha1Hash>,
    name: Name,
    span: Span,
    from: usize,
) -> Result<String, Broken> {
    match walk(alloc, name, span, kept)? {
        Walked::Whole { root, bytes } => whole_line(alloc, root.version, bytes.as_slice(), from),
        Walked::Missing(name) => missing_line(alloc, name),
    }
}

// The same, and how many names were asked for.
fn walked_and_asked(
    alloc: Global,
    kept: &mut Kept<Sha1Hash>,
    name: Name,
    span: Span,
    from: usize,
) -> Result<String, Broken> {
    let mut text = walked(alloc, kept, name, span, from)?;
    add_number(alloc, &mut text, " asked ", kept.asked.len() as u64)?;
    Ok(text)
}

// The same over the version, and whether it asks for all names in their order.
fn all_walked(alloc: Global, kept: &mut Kept<Sha1Hash>, names: &Names) -> Result<String, Broken> {
    let mut text = walked_and_asked(alloc, kept, names.version, Span::All, 0)?;
    if are_needed(kept.asked.as_slice(), names) {
        text.push_str(" in order")?;
    }
    Ok(text)
}

fn all_of(alloc: Global) -> Result<String, Broken> {
    let mut pool = Pool::new(alloc);
    let names = put_version(alloc, &mut pool, &[])?;
    let mut kept = kept_of(alloc, pool);
    all_walked(alloc, &mut kept, &names)
}

#[test]
fn all_bytes(rt: HostRuntime) {
    let text = "bytes to 4097 of version 1 asked 69 in order";
    same(&rt, all_of(rt.alloc()), text);
    needed_strings_are_strings();
}

// An offset and a count, the place of the first byte, and what is told.
const PARTS: &[(u32, u32, usize, &str)] = &[
    (4095, 2, 4095, "bytes to 4097 of version 1 asked 6"),
    (4095, 1, 4095, "bytes to 4096 of version 1 asked 4"),
    (64, 64, 64, "bytes to 128 of version 1 asked 4"),
    (63, 66, 63, "bytes to 129 of version 1 asked 6"),
    (4096, u32::MAX, 4096, "bytes to 4097 of version 1 asked 4"),
    (100, 0, 100, "bytes to 100 of version 1 asked 1"),
    (4097, 5, 4097, "bytes to 4097 of version 1 asked 1"),
    (
        u32::MAX,
        u32::MAX,
        4097,
        "bytes to 4097 of version 1 asked 1",
    ),
];

// Puts all strings of the version, but for its leaves at some places, and gives its name.
fn put_lacking(alloc: Global, pool: &mut Pool, lacks: &[usize]) -> Result<Name, Broken> {
    let names = put_version(alloc, pool, lacks)?;
    Ok(names.version)
}

// What is told of a walk over the version without some leaves.
fn walked_lacking(
    alloc: Global,
    lacks: &[usize],
    span: Span,
    from: usize,
) -> Result<String, Broken> {
    let mut pool = Pool::new(alloc);
    let version = put_lacking(alloc, &mut pool, lacks)?;
    let mut kept = kept_of(alloc, pool);
    walked_and_asked(alloc, &mut kept, version, span, from)
}

fn part(alloc: Global, offset: u32, count: u32, from: usize) -> Result<String, Broken> {
    walked_lacking(alloc, &[], Span::Part { offset, count }, from)
}

#[test]
fn parts_ask_for_what_they_meet(rt: HostRuntime) {
    for (offset, count, from, text) in PARTS {
        same(&rt, part(rt.alloc(), *offset, *count, *from), text);
    }
}

#[test]
fn the_first_missing_name_is_told(rt: HostRuntime) {
    // The name of the leaf at place 3.
    let text = "missing 280d487ded79f6e67c2a22d69a8ee1b6e5d1111a asked 7";
    same(
        &rt,
        walked_lacking(rt.alloc(), &[3, 10], Span::All, 0),
        text,
    );
}
