// Edits of one object.
ghost use Rattle.std.specs.Prelude.{IfSome};
ghost use Rattle.cow_tree.specs.Versions.{IsTreeIn};

use block_names::{Book, Hash160, Sha1Hash};
use bytes::Bytes;
use cow_tree::Tree;
use guarded_update::Action;
use pond_base::limits::MOST_OBJECT_BYTES;
use std::alloc::Global;

/// How many bytes a leaf has.
const BLOCK: u32 = 64;

/// How many calls there are in a round.
const CALLS: u32 = 1_000;

/// The object with so many zero bytes behind its bytes; `None` where it would be too long.
fn append<H: Hash160 + Drop>(
    alloc: Global,
    book: &mut Book<H>,
    tree: &Tree,
    count: usize,
) -> Option<Tree>
    requires { IsTreeIn H.naming book.old.held tree.now }
    ensures { IfSome result (IsTreeIn H.naming book.new.held) }
{
    let content = Bytes::from_vec(Vec::from_elem(alloc, 0, count).ok()?).ok()?;
    if tree.root().version.0 == u32::MAX {
        return None;
    }
    if tree.root().length as usize + content.len() > MOST_OBJECT_BYTES {
        return None;
    }
    tree.apply(book, &[Action::Append { content }]).ok()
}

/// The object with a byte at a place; `None` where it has no such place.
fn put_byte<H: Hash160 + Drop>(
    alloc: Global,
    book: &mut Book<H>,
    tree: &Tree,
    place: u32,
    byte: u8,
) -> Option<Tree>
    requires { IsTreeIn H.naming book.old.held tree.now }
    ensures { IfSome result (IsTreeIn H.naming book.new.held) }
{
    let content = Bytes::copy_from_slice(alloc, &[byte]).ok()?;
    if tree.root().version.0 == u32::MAX {
        return None;
    }
    if place as usize + content.len() > tree.root().length as usize {
        return None;
    }
    tree.apply(
        book,
        &[Action::Replace {
            offset: place,
            content,
        }],
    )
    .ok()
}

/// An object of so many bytes, which is version 1.
pub fn object<H: Hash160 + Drop>(alloc: Global, book: &mut Book<H>, size: usize) -> Option<Tree>
    ensures { IfSome result (IsTreeIn H.naming book.new.held) }
{
    let first = Tree::first(alloc, book, BLOCK).ok()?;
    append(alloc, book, &first, size)
}

/// The object after a thousand calls, each of which puts another byte at a place of its own.
pub fn replace_each<H: Hash160 + Drop>(
    alloc: Global,
    book: &mut Book<H>,
    tree: Tree,
    round: u32,
) -> Option<Tree>
    requires { IsTreeIn H.naming book.old.held tree }
    ensures { IfSome result (IsTreeIn H.naming book.new.held) }
{
    let mut tree = tree;
    for call in 0..CALLS {
        let place = call.wrapping_mul(7_919) % tree.root().length.max(1);
        let byte = ((call % 199).wrapping_add(round) % 256) as u8;
        tree = put_byte(alloc, book, &tree, place, byte)?;
    }
    Some(tree)
}

/// How many strings a book names for an object of so many bytes and the calls of a round.
pub fn count(alloc: Global, size: usize) -> Option<u64> {
    let mut book = Book::new(alloc, Sha1Hash);
    let tree = object(alloc, &mut book, size)?;
    let _edited = replace_each(alloc, &mut book, tree, 1)?;
    Some(book.namings())
}
