//! Versions of objects as trees of strings that share what did not change, and walks over trees whose
//! strings are somewhere else.
//!
//! A [`Tree`] is one version. It stands on the strings of `tree_format`, the book of `block_names` and
//! the definitions of `object_model`. A tree stands for a list of versions, the newest first: that is a
//! relation, `StandsFor`, which the contracts quantify over, and the older versions are not kept in it.
//! A new version shares with the older one the nodes of what did not change, and the book's count rises by
//! at most (t + 1)(h + 2) + 1, where t leaves changed and h is the greater height. The layer above uses
//! that `apply` takes the tree of a list of versions to the tree of that list and the changed bytes,
//! that `changed_nodes` gives the nodes where two trees differ, and that a tree stays one as the book
//! grows.
//!
//! A [`walk`] goes over the tree of a version from its name alone. It asks a [`Lookup`] for the strings,
//! which finds some of them and need not be trusted: it comes to the wanted bytes of that very version,
//! or to the first needed name for which no string was found. What it asked for, and in which order, is
//! known afterwards too.
#![tactic(auto)]

mod building;
mod changed;
mod contents;
mod draft;
mod edits;
mod inners;
mod leaf_naming;
mod leaf_row;
mod leaves;
mod lookup;
mod node;
mod own;
mod row;
mod rows;
mod shared;
mod span;
mod tree;
mod walk_nodes;
mod walking;

pub use lookup::Lookup;
pub use node::Node;
pub use span::Span;
pub use tree::{Tree, trees_stay};
pub use walking::{Walked, needed_strings_are_strings, walk};
