//! Replicas as definitions: bounded caches, lies, offers up a tree of replicas, and pushes down it.
//!
//! It stands on the strings of tree_format and the rows of object_model. A replica has a parent, which is
//! a member of the ring or a replica of lower number, and keeps a cache of strings, lies, and for each
//! label a version. `Caches` says how a cache of bounded size changes, `Replicas` what a replica is,
//! `Offers` what a replica gives that is asked for a name, `Walks` how the strings below a name are
//! walked, `Trees` how the tree of a version is, and `Pushes` what a push makes. Each of these takes as
//! one value what the members answer and which places are cut. There is no code but types; each function
//! is a law of the definitions. The layers above prove that their calls answer and change just so.
#![tactic(auto)]

mod laws;
mod places;

pub use laws::{
    chains_go_up, kept_strings_are_found, names_are_kept, no_more_than_the_size, offers_are_named,
    touching_finds_the_same, walks_are_short, walks_follow_the_tree,
};
pub use places::{Last, Place, Push};
