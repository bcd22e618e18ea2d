// The trees of all objects.
ghost use Rattle.std.specs.Prelude.{◌≡◌, [], ◌∷◌, ◌++◌, None, List, ℕ, length, slice_get, OnOk, option_map};
ghost use Rattle.std.specs.Option.{option_copied};
ghost use Rattle.object_fold.specs.Shelves.{trees_in, later_at, last_tree, newest_in, HasOneMore, HasOneLater};

use cow_tree::Tree;
use pond_base::{Items, Label, OutOfMemory, Version};
use std::alloc::Global;
use std::collections::BTreeMap;
use std::marker::Model;

/// The trees of the versions of all objects. Contracts see the tree of version 0, and the later ones
/// under their labels.
#[derive(Drop)]
pub(crate) struct Shelf {
    alloc: Global,
    first: Tree,
    later: BTreeMap<Label, Items<Tree>>,
}

impl Model for Shelf {
    ghost use Rattle.object_fold.specs.Views.{ShelfView};

    ghost Value = { ShelfView };

    ghost view = { λ shelf. record { first = shelf.first; later = shelf.later.entries } };
}

impl Shelf {
    pub(crate) fn new(alloc: Global, first: Tree) -> Shelf
        ensures { result ≡ record { first = first; later = [] } }
    {
        Shelf {
            alloc,
            first,
            later: BTreeMap::new(alloc),
        }
    }

    /// The newest version of an object.
    pub(crate) fn newest(&self, label: &Label) -> &Tree
        ensures { result.now ≡ newest_in self.now label.now }
    {
        match self.later.get(label) {
            Some(trees) => last_of(&self.first, trees.as_slice()),
            None => &self.first,
        }
    }

    /// The version of an object of a number, and `None` exactly where there is no such version.
    pub(crate) fn at(&self, label: &Label, version: Version) -> Option<&Tree>
        ensures { option_copied result ≡ slice_get (trees_in self.now label.now) version.0 }
    {
        if version.0 == 0 {
            return Some(&self.first);
        }
        match self.later.get(label) {
            Some(trees) => trees.get((version.0 - 1) as usize),
            None => None,
        }
    }

    /// Adds the next version of an object.
    pub(crate) fn add(&mut self, label: &Label, tree: Tree) -> Result<(), OutOfMemory>
        ensures { OnOk result (HasOneMore self.old self.new label.now tree) }
    {
        match self.later.get_mut(label) {
            Some(trees) => trees.push(tree),
            None => add_first(self.alloc, &mut self.later, label, tree),
        }
    }
}

// The last of the trees, or another where there is none.
fn last_of<'a>(first: &'a Tree, trees: &'a [Tree]) -> &'a Tree
    ensures { result.now ≡ last_tree first.now trees.now }
{
    match trees.last() {
        Some(tree) => tree,
        None => first,
    }
}

// Adds the first version of an object after version 0.
fn add_first(
    alloc: Global,
    later: &mut BTreeMap<Label, Items<Tree>>,
    label: &Label,
    tree: Tree,
) -> Result<(), OutOfMemory>
    requires { later_at later.old.entries label.now ≡ [] }
    ensures { OnOk result (HasOneLater later.old.entries later.new.entries label.now tree) }
{
    let mut trees = Items::new(alloc);
    trees.push(tree)?;
    later.insert(*label, trees)?;
    Ok(())
}
