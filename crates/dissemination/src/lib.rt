//! Replicas of versions, in trees below the members of the ring.
//!
//! It stands on `replica_cache` for the cache of a replica, on `block_names` for the book in which all
//! strings that come are named, and on the definitions of `replica_model`. A [`Grove`] is a forest of
//! replicas, each below a member or a replica of lower number; a [`Parents`] lends what the members give
//! and says which places are cut. The layers above use the equations of the calls: what an offer and a
//! push answer, what they make of the caches, and what the book holds after them.
#![tactic(auto)]

mod asking;
mod grove;
mod parents;
mod pushing;
mod replica;
mod walking;

pub use grove::Grove;
pub use parents::Parents;
pub use replica_model::{Place, Push};
