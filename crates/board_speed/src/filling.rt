// Entries of eight labels, whose versions have 1,024 bytes each.
ghost use Rattle.std.specs.Prelude.{◌≡◌, ℕ, List, length, IsOk, IsTrue};
ghost use Rattle.guarded_update.specs.declared.update.Action.TheVariants.{Append};
ghost use Rattle.object_model.specs.Updates.{act};
ghost use Rattle.cow_tree.specs.Versions.{IsTreeIn};

use block_names::{Book, Hash160, Sha1Hash};
use bytes::Bytes;
use cow_tree::Tree;
use guarded_update::Action;
use pond_base::{Label, Version};
use std::alloc::Global;
use std::slice;
use version_board::BoardEntry;

/// How many bytes each version has.
const SIZE: usize = 1_024;

/// The tree of a version, with leaves of 64 bytes. All entries share it.
pub fn tree(alloc: Global) -> Option<Tree> {
    let content = Bytes::from_vec(Vec::from_elem(alloc, 120, SIZE).ok()?).ok()?;
    let mut book = Book::new(alloc, Sha1Hash);
    grown(alloc, &mut book, content)
}

fn grown<H: Hash160 + Drop>(alloc: Global, book: &mut Book<H>, content: Bytes) -> Option<Tree> {
    let first = Tree::first(alloc, book, 64).ok()?;
    filled(book, &first, content)
}

fn filled<H: Hash160 + Drop>(book: &mut Book<H>, tree: &Tree, content: Bytes) -> Option<Tree>
    requires { IsTreeIn H.naming book.old.held tree.now }
{
    let count = tree.bytes().ok()?.len();
    if tree.root().version.0 > 0 || !fits(&content, count) {
        return None;
    }
    let edit = Action::Append { content };
    tree.apply(book, slice::from_ref(&edit)).ok()
}

fn fits(content: &Bytes, count: usize) -> bool
    ensures { IsTrue result → (bytes : List ℕ) → length bytes ≡ count → IsOk (act (Append content.now) bytes) }
{
    count.saturating_add(content.len()) <= 1_048_576
}

/// The label of an entry or a read, by its number.
pub fn label(number: u32) -> Option<Label> {
    let labels = [b"a", b"b", b"c", b"d", b"e", b"f", b"g", b"h"];
    Label::read(labels[(number % 8) as usize]).ok()
}

/// The entry of a number.
pub fn entry(tree: &Tree, number: u32) -> Option<BoardEntry> {
    Some(BoardEntry {
        label: label(number)?,
        version: Version(number / 8 + 1),
        tree: tree.share().ok()?,
    })
}
