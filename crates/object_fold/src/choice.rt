// The clause that decides.
ghost use Rattle.std.specs.Prelude.{◌≡◌, ◌∷◌, List, ℕ};
ghost use Rattle.std.specs.List.{list_all};
ghost use Rattle.std.specs.Option.{option_copied};
ghost use Rattle.object_model.specs.Updates.{holds};
ghost use Rattle.cow_tree.specs.Versions.{StandsFor};
ghost use Rattle.object_fold.specs.Choice.{chosen, is_this};

use cow_tree::Tree;
use guarded_update::{Action, Clause, Guard};
use pond_base::{Items, Name};

/// The actions of the first clause whose guards all hold of a version.
pub(crate) fn choose<'a>(tree: &Tree, clauses: &'a [Clause]) -> Option<&'a Items<Action>>
    ensures { (h : List ℕ → List ℕ) (block : ℕ) (content : List ℕ) (older : List (List ℕ)) → StandsFor h block tree.now content older
        → option_copied result ≡ chosen h block clauses.now (content ∷ older) }
{
    for clause in clauses {
        if all_hold(tree, clause.guards.as_slice()) {
            return Some(&clause.actions);
        }
    }
    None
}

// Whether all of the guards hold of a version.
fn all_hold(tree: &Tree, guards: &[Guard]) -> bool
    ensures { (h : List ℕ → List ℕ) (block : ℕ) (content : List ℕ) (older : List (List ℕ)) → StandsFor h block tree.now content older
        → result ≡ list_all (holds h block (content ∷ older)) guards.now }
{
    for guard in guards {
        if !guard_holds(tree, guard) {
            return false;
        }
    }
    true
}

// Whether a guard holds of a version.
fn guard_holds(tree: &Tree, guard: &Guard) -> bool
    ensures { (h : List ℕ → List ℕ) (block : ℕ) (content : List ℕ) (older : List (List ℕ)) → StandsFor h block tree.now content older
        → result ≡ holds h block (content ∷ older) guard.now }
{
    match guard {
        Guard::VersionIs(version) => tree.root().version == *version,
        Guard::SizeIs(size) => tree.root().length == *size,
        Guard::BlockIs { place, name } => is_name(tree.leaf_name(*place), *name),
    }
}

// Whether a name was found, and it is this one.
fn is_name(found: Option<Name>, name: Name) -> bool
    ensures { result ≡ is_this found name }
{
    match found {
        Some(found) => found == name,
        None => false,
    }
}
