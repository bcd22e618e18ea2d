// What the shape of a version prints.
ghost use Rattle.std.specs.Prelude.{◌≡◌, ◌∷◌, ℕ, List, length, string_bytes, IfOk};
ghost use Rattle.object_model.specs.Folds.{versions_after};
ghost use Rattle.object_model.specs.Trees.{new_strings};
ghost use Rattle.object_fold.specs.Executed.{ForAfter};
ghost use Rattle.cow_tree.specs.Versions.{StandsFor};
ghost use Rattle.text_model.specs.Blocks as model;

use cow_tree::Tree;
use object_fold::Objects;
use pond_base::{Label, OutOfMemory, Version};
use std::alloc::Global;

/// The shape of a version of an object: its number, its length, its height, how many strings it has, and
/// how many of them no older version of the object has; or `no version` where there is none of that
/// number. Fails only where memory runs out.
pub fn shape_text(
    alloc: Global,
    objects: &Objects,
    label: &Label,
    version: Version,
) -> Result<String, OutOfMemory>
    ensures { IfOk result (λ printed. (h : List ℕ → List ℕ) → ForAfter h objects.now (λ block done. string_bytes printed ≡ model.shape_text h block (model.up_to version.0 (versions_after h block label.now done)))) }
{
    match objects.tree(label, version) {
        None => Ok(String::from_str(alloc, "no version\n")?),
        Some(tree) => shape_line(alloc, tree, count_added(objects, label, version)),
    }
}

// How many strings a version added, none where there is no such version.
fn count_added(objects: &Objects, label: &Label, version: Version) -> usize
    ensures { (h : List ℕ → List ℕ) → ForAfter h objects.now (λ block done. (content : List ℕ) (older : List (List ℕ)) → model.up_to version.0 (versions_after h block label.now done) ≡ content ∷ older
        → result ≡ length (new_strings h block content older)) }
{
    match objects.added(label, version) {
        Some(added) => added.len(),
        None => 0,
    }
}

// The line of a version, which added so many strings.
fn shape_line(alloc: Global, tree: &Tree, fresh: usize) -> Result<String, OutOfMemory>
    ensures { IfOk result (λ printed. (h : List ℕ → List ℕ) (block : ℕ) (content : List ℕ) (older : List (List ℕ)) → StandsFor h block tree.now content older → fresh ≡ length (new_strings h block content older)
        → string_bytes printed ≡ model.shape_line h block content older) }
{
    let root = tree.root();
    let count = tree.strings()?.len();
    let version = root.version.0;
    let length = root.length;
    let height = root.height;
    Ok(format!(in alloc;
        "version {version} length {length} height {height} strings {count} new {fresh}\n"
    )?)
}
