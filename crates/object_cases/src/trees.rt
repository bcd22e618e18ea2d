// Edits of trees, with names and counts that a plain program gave, and trees that are shared.
ghost use Rattle.std.specs.Prelude.{◌≡◌, List, ℕ, length, IfOk, IsOk, IsTrue};
ghost use Rattle.guarded_update.specs.declared.update.Action.TheVariants.{Replace, Append, Truncate, Splice};
ghost use Rattle.object_model.specs.Updates.{act};
ghost use Rattle.cow_tree.specs.Versions.{IsTreeIn};

use crate::telling::{Broken, add, add_number, decoded, digits_of_name, line, same};
use block_names::{Book, Hash160, Sha1Hash};
use bytes::Bytes;
use cow_tree::{Tree, trees_stay};
use guarded_update::Action;
use std::alloc::Global;
use std::slice;
use std::thread::{self, Threads};

// An edit, with its content in digits.
enum Edit {
    Replace(u32, &'static str),
    Append(&'static str),
    Truncate(u32),
    Splice(u32, u32, &'static str),
}

fn action_of(alloc: Global, edit: &Edit) -> Result<Action, Broken> {
    match edit {
        Edit::Replace(offset, digits) => replace(alloc, *offset, digits),
        Edit::Append(digits) => append(alloc, digits),
        Edit::Truncate(length) => Ok(Action::Truncate { length: *length }),
        Edit::Splice(offset, remove, digits) => splice(alloc, *offset, *remove, digits),
    }
}

fn content(alloc: Global, digits: &str) -> Result<Bytes, Broken> {
    Ok(Bytes::from_vec(decoded(alloc, digits)?)?)
}

fn replace(alloc: Global, offset: u32, digits: &str) -> Result<Action, Broken> {
    let content = content(alloc, digits)?;
    Ok(Action::Replace { offset, content })
}

fn append(alloc: Global, digits: &str) -> Result<Action, Broken> {
    let content = content(alloc, digits)?;
    Ok(Action::Append { content })
}

fn splice(alloc: Global, offset: u32, remove: u32, digits: &str) -> Result<Action, Broken> {
    let content = content(alloc, digits)?;
    Ok(Action::Splice {
        offset,
        remove,
        content,
    })
}

// So many bytes of the sequence that begins 3c 47 d1 aa.
fn sequence(alloc: Global, length: usize) -> Result<Bytes, Broken> {
    let mut content = Vec::new(alloc);
    let mut state: u32 = 0;
    for _byte in 0..length {
        state = state.wrapping_mul(1_664_525).wrapping_add(1_013_904_223);
        content.push((state >> 24) as u8)?;
    }
    Ok(Bytes::from_vec(content)?)
}

// Version 1, of so many bytes of the sequence, with leaves of 64 bytes.
fn filled<H: Hash160 + Drop>(
    alloc: Global,
    book: &mut Book<H>,
    length: usize,
) -> Result<Tree, Broken>
    ensures { IfOk result (IsTreeIn H.naming book.new.held) }
{
    let content = sequence(alloc, length)?;
    let empty = Tree::first(alloc, book, 64)?;
    edited(book, &empty, Action::Append { content })
}

// The next version by an edit that can be done.
fn edited<H: Hash160 + Drop>(book: &mut Book<H>, tree: &Tree, edit: Action) -> Result<Tree, Broken>
    requires { IsTreeIn H.naming book.old.held tree.now }
    ensures { IfOk result (IsTreeIn H.naming book.new.held) }
{
    let length = tree.bytes()?.len();
    if tree.root().version.0 > 1000 || !can_be_done(&edit, length) {
        return Err(Broken::Unfit);
    }
    Ok(tree.apply(book, slice::from_ref(&edit))?)
}

// Whether an edit can be done on so many bytes.
fn can_be_done(edit: &Action, count: usize) -> bool
    ensures { IsTrue result → (bytes : List ℕ) → length bytes ≡ count → IsOk (act edit.now bytes) }
{
    match edit {
        Action::Replace { offset, content } => can_replace(*offset, content, count),
        Action::Append { content } => can_append(content, count),
        Action::Truncate { length } => can_truncate(*length, count),
        Action::Splice {
            offset,
            remove,
            content,
        } => can_splice(*offset, *remove, content, count),
    }
}

fn can_replace(offset: u32, content: &Bytes, count: usize) -> bool
    ensures { IsTrue result → (bytes : List ℕ) → length bytes ≡ count → IsOk (act (Replace offset content.now) bytes) }
{
    offset as usize + content.len() <= count
}

fn can_append(content: &Bytes, count: usize) -> bool
    ensures { IsTrue result → (bytes : List ℕ) → length bytes ≡ count → IsOk (act (Append content.now) bytes) }
{
    count.saturating_add(content.len()) <= 1_048_576
}

fn can_truncate(kept: u32, count: usize) -> bool
    ensures { IsTrue result → (bytes : List ℕ) → length bytes ≡ count → IsOk (act (Truncate kept) bytes) }
{
    kept as usize <= count
}

fn can_splice(offset: u32, remove: u32, content: &Bytes, count: usize) -> bool
    ensures { IsTrue result → (bytes : List ℕ) → length bytes ≡ count → IsOk (act (Splice offset remove content.now) bytes) }
{
    let taken = offset as usize + remove as usize;
    taken <= count && (count - remove as usize).saturating_add(content.len()) <= 1_048_576
}

// The bytes of version 1, its height, its strings and the namings with that of version 0.
const HEIGHTS: &[(usize, &str)] = &[
    (0, "0 height 0 strings 1 namings 2"),
    (1, "1 height 0 strings 2 namings 3"),
    (64, "64 height 0 strings 2 namings 3"),
    (65, "65 height 1 strings 4 namings 5"),
    (4096, "4096 height 1 strings 66 namings 67"),
    (4097, "4097 height 2 strings 69 namings 70"),
];

fn tree_line(alloc: Global, tree: &Tree, namings: u64) -> Result<String, Broken> {
    let mut text = String::new(alloc);
    add_number(alloc, &mut text, "", tree.root().length as u64)?;
    add_number(alloc, &mut text, " height ", tree.root().height as u64)?;
    add_number(alloc, &mut text, " strings ", tree.strings()?.len() as u64)?;
    add_number(alloc, &mut text, " namings ", namings)?;
    Ok(text)
}

fn told_filled(alloc: Global, length: usize) -> Result<String, Broken> {
    let mut book = Book::new(alloc, Sha1Hash);
    let tree = filled(alloc, &mut book, length)?;
    tree_line(alloc, &tree, book.namings())
}

#[test]
fn tree_heights(rt: HostRuntime) {
    for (length, text) in HEIGHTS {
        same(&rt, told_filled(rt.alloc(), *length), text);
    }
    trees_stay();
}

// The bytes of version 1, an edit, and of version 2 its name, the length of its content, its strings, how
// many of them were named, and how many of them have no other owner than version 2 did. A new string is
// named; the others share the memory of version 1.
const EDITS: &[(usize, Edit, &str)] = &[
    (
        4097,
        Edit::Replace(0, "00"),
        "ea875a6499c1513a153c6401ddd120c6776ebb5d length 4097 strings 69 named 4 unshared 4",
    ),
    (
        4160,
        Edit::Splice(2080, 0, "21"),
        "68dd2c89c3f72276153a38196356a89ae90df178 length 4161 strings 70 named 38 unshared 38",
    ),
    (
        65,
        Edit::Truncate(64),
        "1061df7c1e864a605d364477694244373ff41811 length 64 strings 2 named 1 unshared 1",
    ),
    (
        65,
        Edit::Append("68656c6c6f"),
        "da0ec7b5a112931128406d703d0afb5948626a73 length 70 strings 4 named 3 unshared 3",
    ),
];

// Version 2 of a tree by an edit.
fn next<H: Hash160 + Drop>(
    alloc: Global,
    book: &mut Book<H>,
    tree: &Tree,
    edit: &Edit,
) -> Result<Tree, Broken>
    requires { IsTreeIn H.naming book.old.held tree.now }
{
    edited(book, tree, action_of(alloc, edit)?)
}

// What is told of version 2 while version 1 is there.
fn told_next<H: Hash160 + Drop>(
    alloc: Global,
    book: &mut Book<H>,
    tree: &Tree,
    edit: &Edit,
) -> Result<String, Broken>
    requires { IsTreeIn H.naming book.old.held tree.now }
{
    let before = book.namings();
    let second = next(alloc, book, tree, edit)?;
    told(alloc, second, book.namings().saturating_sub(before))
}

fn made(alloc: Global, length: usize, edit: &Edit) -> Result<String, Broken> {
    let mut book = Book::new(alloc, Sha1Hash);
    let first = filled(alloc, &mut book, length)?;
    told_next(alloc, &mut book, &first, edit)
}

fn told(alloc: Global, tree: Tree, named: u64) -> Result<String, Broken> {
    let mut text = content_line(alloc, &tree)?;
    add(&mut text, strings_line(alloc, tree, named))?;
    Ok(text)
}

fn content_line(alloc: Global, tree: &Tree) -> Result<String, Broken> {
    let mut text = digits_of_name(alloc, tree.name())?;
    add_number(alloc, &mut text, " length ", tree.bytes()?.len() as u64)?;
    Ok(text)
}

fn strings_line(alloc: Global, tree: Tree, named: u64) -> Result<String, Broken> {
    let strings = tree.strings()?;
    drop(tree);
    owners_line(alloc, strings.as_slice(), named)
}

fn owners_line(alloc: Global, strings: &[Bytes], named: u64) -> Result<String, Broken> {
    let mut text = String::new(alloc);
    add_number(alloc, &mut text, " strings ", strings.len() as u64)?;
    add_number(alloc, &mut text, " named ", named)?;
    add_number(alloc, &mut text, " unshared ", unshared(strings) as u64)?;
    Ok(text)
}

// How many of the strings have no other owner.
fn unshared(strings: &[Bytes]) -> usize {
    let mut count: usize = 0;
    for string in strings {
        if string.is_unique() {
            count = count.saturating_add(1);
        }
    }
    count
}

#[test]
fn edits_share_what_stays(rt: HostRuntime) {
    for (length, edit, text) in EDITS {
        same(&rt, made(rt.alloc(), *length, edit), text);
    }
}

// The bytes of version 1, an edit, and how many nodes of version 2 and then of version 1 no other tree
// holds.
const OWN: &[(usize, Edit, &str)] = &[
    (8192, Edit::Replace(64, "0000"), "3 and 3"),
    (4095, Edit::Append("2122"), "5 and 2"),
    (8192, Edit::Truncate(4096), "0 and 66"),
    (8192, Edit::Splice(5000, 0, "21"), "54 and 52"),
];

fn own_nodes(alloc: Global, second: &Tree, first: &Tree) -> Result<String, Broken> {
    let mut text = String::new(alloc);
    add_number(alloc, &mut text, "", second.own_nodes() as u64)?;
    add_number(alloc, &mut text, " and ", first.own_nodes() as u64)?;
    Ok(text)
}

fn own_of<H: Hash160 + Drop>(
    alloc: Global,
    book: &mut Book<H>,
    tree: &Tree,
    edit: &Edit,
) -> Result<String, Broken>
    requires { IsTreeIn H.naming book.old.held tree.now }
{
    let second = next(alloc, book, tree, edit)?;
    own_nodes(alloc, &second, tree)
}

fn own(alloc: Global, length: usize, edit: &Edit) -> Result<String, Broken> {
    let mut book = Book::new(alloc, Sha1Hash);
    let first = filled(alloc, &mut book, length)?;
    own_of(alloc, &mut book, &first, edit)
}

#[test]
fn nodes_of_one_tree(rt: HostRuntime) {
    for (length, edit, text) in OWN {
        same(&rt, own(rt.alloc(), *length, edit), text);
    }
}

// The names of the leaves of version 1, of 65 bytes, and of none behind them.
const LEAVES: &str = "58e455a416509ac0121c86dd23fa8d2cc9cd1a87 \
                      754da6b34a4b1c42f5aa7ef08123ca5b5ac72f03 \
                      none ";

fn leaf_digits(alloc: Global, tree: &Tree, place: u32) -> Result<String, Broken> {
    match tree.leaf_name(place) {
        Some(name) => digits_of_name(alloc, name),
        None => line(alloc, "none"),
    }
}

fn leaves_of(alloc: Global, tree: &Tree) -> Result<String, Broken> {
    let mut text = String::new(alloc);
    for place in 0..3 {
        add(&mut text, leaf_digits(alloc, tree, place))?;
        text.push_str(" ")?;
    }
    Ok(text)
}

fn told_leaves(alloc: Global) -> Result<String, Broken> {
    let mut book = Book::new(alloc, Sha1Hash);
    let tree = filled(alloc, &mut book, 65)?;
    leaves_of(alloc, &tree)
}

#[test]
fn leaf_names(rt: HostRuntime) {
    same(&rt, told_leaves(rt.alloc()), LEAVES);
}

// Version 2 by an edit of the shared tree after the tree itself is gone.
fn made_of_shared(alloc: Global, length: usize, edit: &Edit) -> Result<String, Broken> {
    let mut book = Book::new(alloc, Sha1Hash);
    let shared = shared(alloc, &mut book, length)?;
    told_next(alloc, &mut book, &shared, edit)
}

fn shared<H: Hash160 + Drop>(
    alloc: Global,
    book: &mut Book<H>,
    length: usize,
) -> Result<Tree, Broken>
    ensures { IfOk result (IsTreeIn H.naming book.new.held) }
{
    let tree = filled(alloc, book, length)?;
    Ok(tree.share()?)
}

#[test]
fn shared_trees_are_edited_alike(rt: HostRuntime) {
    for (length, edit, text) in EDITS {
        same(&rt, made_of_shared(rt.alloc(), *length, edit), text);
    }
}

// What two threads read of a tree and of one that shares its memory, at once.
fn read_by_two<R: Threads>(
    rt: &R,
    tree: &Tree,
    shared: Tree,
    expected: &[u8],
) -> Result<&'static str, Broken> {
    let (here, there) = thread::join(rt, || tree.bytes(), move || shared.bytes());
    if here?.as_slice() == expected && there?.as_slice() == expected {
        Ok("the sequence twice")
    } else {
        Ok("other bytes")
    }
}

fn told_by_two<R: Threads>(rt: &R, alloc: Global, tree: &Tree) -> Result<String, Broken> {
    let expected = sequence(alloc, 4097)?;
    line(
        alloc,
        read_by_two(rt, tree, tree.share()?, expected.as_slice())?,
    )
}

fn shared_by_two<R: Threads>(rt: &R, alloc: Global) -> Result<String, Broken> {
    let mut book = Book::new(alloc, Sha1Hash);
    let tree = filled(alloc, &mut book, 4097)?;
    told_by_two(rt, alloc, &tree)
}

#[test]
fn a_tree_shared_by_two_threads(rt: HostRuntime) {
    same(&rt, shared_by_two(&rt, rt.alloc()), "the sequence twice");
}
