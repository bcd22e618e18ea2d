//! A cache of strings with room for so many, the most recently used first.
//!
//! It stands on the kit's `lru`, and on the definitions of `replica_model`. Nothing says that a string
//! has the name under which it stands; the layer above puts in what it named. It uses the equations of
//! the calls: what a look-up finds, and what a touch and a put make of the list of entries.
#![tactic(auto)]

mod cache;

pub use cache::Cache;
