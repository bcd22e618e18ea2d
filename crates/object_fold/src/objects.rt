// All objects, and the execution of requests on them.
ghost use Rattle.std.specs.Prelude.{◌≡◌, ◌+◌, ◌<◌, ◌≤◌, ◌^◌, [], ◌∷◌, List, ℕ, length, Contains, IfOk, IfErr, IfSome, OnOk};
ghost use Rattle.std.specs.Option.{option_copied};
ghost use Rattle.block_names.specs.Held.{Held};
ghost use Rattle.block_names.specs.Growth.{Grew, IsClashIn, keep_all};
ghost use Rattle.block_names.specs.Clashes.{AreHeld};
ghost use Rattle.object_model.specs.Trees.{version_strings};
ghost use Rattle.object_model.specs.Folds.{Refuses, made_by, versions_after};
ghost use Rattle.cow_tree.specs.Versions.{IsTreeIn};
ghost use Rattle.object_fold.specs.Shelves.{tree_at};
ghost use Rattle.object_fold.specs.Added.{added_at};
ghost use Rattle.object_fold.specs.Choice.{refusal_of};
ghost use Rattle.object_fold.specs.Executed.{AreAfter, AreKnown, ForAfter, KeepsTree, in_order, most_named};
ghost use Rattle.object_model.specs.Outcomes.{outcome_of, outcome_after, strings_named};

use crate::added::Added;
use crate::decision::decide;
use crate::fate::Refused;
use crate::seen::Seen;
use crate::shelf::Shelf;
use block_names::{Book, Hash160, NameFault};
use cow_tree::{Node, Tree};
use guarded_update::Request;
use pond_base::{Items, Label, OutOfMemory, Version};
use ring_message::Outcome;
use std::alloc::Global;
use std::marker::Model;

/// The objects after executed requests. Which requests these are is the relation `AreAfter` of the
/// objects and a list of requests, the newest first.
#[derive(Drop)]
pub struct Objects {
    trees: Shelf,
    added: Added,
    seen: Seen,
    made: Items<(Label, Version)>,
}

impl Model for Objects {
    ghost use Rattle.object_fold.specs.Views.{ObjectsView};

    ghost Value = { ObjectsView };

    ghost view = { λ objects. record { trees = objects.trees; added = objects.added; seen = objects.seen; made = objects.made } };
}

impl Objects {
    /// The objects before any request, each with version 0 alone. Their leaves will have `block` bytes.
    /// The one string that is named is the root string of version 0.
    pub fn new<H: Hash160 + Drop>(
        alloc: Global,
        book: &mut Book<H>,
        block: u32,
    ) -> Result<Objects, NameFault>
        requires least { 64 ≤ block }
        requires most { block ≤ 8192 }
        ensures after { IfOk result (AreAfter H.naming block []) }
        ensures known { IfOk result (AreKnown H.naming book.new.held) }
        ensures held { OnOk result (book.new.held ≡ keep_all H.naming (version_strings H.naming block [] []) book.old.held) }
        ensures all { OnOk result (AreHeld H.naming book.new.held (version_strings H.naming block [] [])) }
        ensures grew { Grew H.naming book.old.held (Contains (version_strings H.naming block [] [])) book.new.held }
        ensures counted { book.new.namings ≤ book.old.namings + 1 }
        ensures fault { IfErr result (IsClashIn H.naming book.new.held (Contains (version_strings H.naming block [] []))) }
    {
        let first = Tree::first(alloc, book, block)?;
        let strings = first.changed_nodes(&first)?;
        Ok(Objects {
            trees: Shelf::new(alloc, first),
            added: Added::new(alloc, strings),
            seen: Seen::new(alloc),
            made: Items::new(alloc),
        })
    }

    /// Executes a request: where its client and number were executed before nothing is done; else the
    /// first clause whose guards all hold of the newest version decides, and its actions make the next
    /// version, or the first that fails does not. Strings are named only where a version is made, and
    /// then at most (t + 1)(h + 2) + 1 of them, where t leaves differ from the leaf at their place in the
    /// newest version or have none there, and h is the greater height. After a fault the objects are
    /// not to be used again.
    pub fn execute<H: Hash160 + Drop>(
        &mut self,
        book: &mut Book<H>,
        request: &Request,
    ) -> Result<Outcome, NameFault>
        requires known { AreKnown H.naming book.old.held self.old }
        requires room { length self.old.made + 1 < 2 ^ 32 }
        ensures outcome { IfOk result (λ outcome. ForAfter H.naming self.old (λ block earlier. outcome ≡ outcome_after H.naming block request.now earlier)) }
        ensures after { OnOk result (ForAfter H.naming self.old (λ block earlier. AreAfter H.naming block (request.now ∷ earlier) self.new)) }
        ensures known { OnOk result (AreKnown H.naming book.new.held self.new) }
        ensures held { OnOk result (ForAfter H.naming self.old (λ block earlier. book.new.held ≡ keep_all H.naming (strings_named H.naming block request.now earlier) book.old.held)) }
        ensures all { OnOk result (ForAfter H.naming self.old (λ block earlier. AreHeld H.naming book.new.held (strings_named H.naming block request.now earlier))) }
        ensures grew { ForAfter H.naming self.old (λ block earlier. Grew H.naming book.old.held (Contains (strings_named H.naming block request.now earlier)) book.new.held) }
        ensures counted { ForAfter H.naming self.old (λ block earlier. book.new.namings ≤ book.old.namings + most_named H.naming block request.now earlier) }
        ensures fault { IfErr result (λ fault. ForAfter H.naming self.old (λ block earlier. IsClashIn H.naming book.new.held (Contains (strings_named H.naming block request.now earlier)) fault)) }
    {
        if self.seen.has(request) {
            return Ok(Outcome::Repeat);
        }
        let clauses = request.update.clauses.as_slice();
        let actions = match decide(self.trees.newest(&request.label), clauses) {
            Ok(actions) => actions,
            Err(refused) => {
                self.seen.add(request.client, request.number)?;
                return Ok(told(refused));
            }
        };
        let newest = self.trees.newest(&request.label);
        let tree = match newest.apply(book, actions) {
            Ok(tree) => tree,
            Err(fault) => return Err(fault),
        };
        let changed = tree.changed_nodes(newest)?;
        let outcome = Outcome::Made {
            version: tree.root().version,
            name: tree.name(),
        };
        self.keep(request, tree, changed.as_slice())?;
        Ok(outcome)
    }

    /// The version of an object of a number, and `None` exactly where the object has no such version.
    /// Takes no memory.
    pub fn tree(&self, label: &Label, version: Version) -> Option<&Tree>
        ensures tree { (h : List ℕ → List ℕ) → ForAfter h self.now (λ block requests. option_copied result ≡ tree_at h block (versions_after h block label.now requests) version.0) }
        ensures known { (h : List ℕ → List ℕ) (held : Held) → AreKnown h held self.now → IfSome result (λ tree. IsTreeIn h held tree.now) }
    {
        self.trees.at(label, version)
    }

    /// The number of the newest version of an object. Takes no memory.
    pub fn last(&self, label: &Label) -> Version
        ensures { (h : List ℕ → List ℕ) → ForAfter h self.now (λ block requests. length (versions_after h block label.now requests) ≡ result.0 + 1) }
    {
        self.trees.newest(label).root().version
    }

    /// The versions that were made, each by its label and number, in order of making. Takes no memory.
    pub fn made(&self) -> &[(Label, Version)]
        ensures value { result.now ≡ self.now.made }
        ensures order { (h : List ℕ → List ℕ) → ForAfter h self.now (λ block requests. result.now ≡ in_order (made_by h block requests)) }
    {
        self.made.as_slice()
    }

    /// The strings that the version of an object of a number added: those that stand in it and in no
    /// lower one, under their names, once each and in the order of the tree; `None` exactly where the
    /// object has no such version. Takes no memory.
    pub fn added(&self, label: &Label, version: Version) -> Option<&[Node]>
        ensures { (h : List ℕ → List ℕ) → ForAfter h self.now (λ block requests. option_copied result ≡ added_at h block (versions_after h block label.now requests) version.0) }
    {
        self.added.at(label, version)
    }

    // Keeps the version that a request made, and of some nodes those that are new.
    fn keep(&mut self, request: &Request, tree: Tree, changed: &[Node]) -> Result<(), OutOfMemory>
        ensures { OnOk result (KeepsTree self.old self.new request.now tree changed.now) }
    {
        let version = tree.root().version;
        self.trees.add(&request.label, tree)?;
        self.added.add(&request.label, changed)?;
        self.made.push((request.label, version))?;
        self.seen.add(request.client, request.number)?;
        Ok(())
    }
}

// An update that was refused, as an outcome.
fn told(refused: Refused) -> Outcome
    ensures { (h : List ℕ → List ℕ) (block : ℕ) (versions : List (List ℕ)) → result ≡ outcome_of h block (Refuses (refusal_of refused)) versions }
{
    match refused {
        Refused::NoClause => Outcome::NoClause,
        Refused::OutOfRange => Outcome::OutOfRange,
        Refused::TooLong => Outcome::TooLong,
    }
}
