// The strings that versions added.
ghost use Rattle.std.specs.Prelude.{◌≡◌, ◌++◌, [], slice_get, IfOk, OnOk};
ghost use Rattle.std.specs.Option.{option_copied};
ghost use Rattle.cow_tree.specs.Rows.{names_in};
ghost use Rattle.object_fold.specs.Added.{strings_at, added_in, HasJust, TakesNew, AddsStrings, AddsUnder};

use cow_tree::Node;
use pond_base::{Items, Label, Name, OutOfMemory, Version};
use std::alloc::Global;
use std::collections::{BTreeMap, BTreeSet};
use std::marker::Model;

// The names of the strings of an object, and what each version above version 0 added.
#[derive(Drop)]
pub(crate) struct Strings {
    names: BTreeSet<Name>,
    added: Items<Items<Node>>,
}

impl Model for Strings {
    ghost use Rattle.object_fold.specs.Views.{StringsView};

    ghost Value = { StringsView };

    ghost view = { λ strings. record { names = strings.names.keys; added = strings.added } };
}

impl Strings {
    // Those of an object that has version 0 alone, which added some nodes.
    fn new(alloc: Global, first: &[Node]) -> Result<Strings, OutOfMemory>
        ensures names { IfOk result (λ strings. HasJust strings.names (names_in first.now)) }
        ensures added { IfOk result (λ strings. strings.added ≡ []) }
    {
        let mut names = BTreeSet::new(alloc);
        let _first = take_new(alloc, &mut names, first)?;
        Ok(Strings {
            names,
            added: Items::new(alloc),
        })
    }

    // Adds those of the nodes that are new.
    fn add(&mut self, alloc: Global, changed: &[Node]) -> Result<(), OutOfMemory>
        ensures { OnOk result (AddsStrings self.old self.new changed.now) }
    {
        let taken = take_new(alloc, &mut self.names, changed)?;
        self.added.push(taken)
    }
}

// Puts the names of nodes into a set. The answer is the nodes whose name was new in it.
fn take_new(
    alloc: Global,
    names: &mut BTreeSet<Name>,
    nodes: &[Node],
) -> Result<Items<Node>, OutOfMemory>
    ensures { IfOk result (TakesNew names.old.keys names.new.keys nodes.now) }
{
    let mut taken = Items::new(alloc);
    for node in nodes {
        if names.insert(node.name())? {
            taken.push(node.share()?)?;
        }
    }
    Ok(taken)
}

/// What each version of all objects added. Contracts see what version 0 added, and the strings of
/// objects with later versions under their labels.
#[derive(Drop)]
pub(crate) struct Added {
    alloc: Global,
    first: Items<Node>,
    later: BTreeMap<Label, Strings>,
}

impl Model for Added {
    ghost use Rattle.object_fold.specs.Views.{AddedView};

    ghost Value = { AddedView };

    ghost view = { λ added. record { first = added.first; later = added.later.entries } };
}

impl Added {
    pub(crate) fn new(alloc: Global, first: Items<Node>) -> Added
        ensures { result ≡ record { first = first; later = [] } }
    {
        Added {
            alloc,
            first,
            later: BTreeMap::new(alloc),
        }
    }

    /// What the version of an object of a number added, and `None` exactly where there is no such
    /// version.
    pub(crate) fn at(&self, label: &Label, version: Version) -> Option<&[Node]>
        ensures { option_copied result ≡ slice_get (added_in self.now label.now) version.0 }
    {
        if version.0 == 0 {
            return Some(self.first.as_slice());
        }
        match self.later.get(label) {
            Some(strings) => list_at(strings.added.as_slice(), (version.0 - 1) as usize),
            None => None,
        }
    }

    /// Adds what is new of some nodes, as what the next version of an object adds.
    pub(crate) fn add(&mut self, label: &Label, changed: &[Node]) -> Result<(), OutOfMemory>
        ensures { OnOk result (AddsUnder self.old self.new label.now changed.now) }
    {
        match self.later.get_mut(label) {
            Some(strings) => strings.add(self.alloc, changed),
            None => add_first(
                self.alloc,
                &mut self.later,
                self.first.as_slice(),
                label,
                changed,
            ),
        }
    }
}

// Adds what is new of some nodes, as what the first version of an object after version 0 adds.
fn add_first(
    alloc: Global,
    later: &mut BTreeMap<Label, Strings>,
    first: &[Node],
    label: &Label,
    changed: &[Node],
) -> Result<(), OutOfMemory>
    requires { strings_at (record { first = first.now; later = later.old.entries }) label.now ≡ record { names = names_in first.now; added = [] } }
    ensures { OnOk result (AddsUnder (record { first = first.now; later = later.old.entries }) (record { first = first.now; later = later.new.entries }) label.now changed.now) }
{
    let mut strings = Strings::new(alloc, first)?;
    strings.add(alloc, changed)?;
    later.insert(*label, strings)?;
    Ok(())
}

// The list at a place, where there is one.
fn list_at(lists: &[Items<Node>], place: usize) -> Option<&[Node]>
    ensures { option_copied result ≡ slice_get lists.now place }
{
    match lists.get(place) {
        Some(list) => Some(list.as_slice()),
        None => None,
    }
}
