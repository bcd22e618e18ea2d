//! The stores of fragments: strings under names, placed, dropped and spoiled.
//!
//! It stands on `block_names`, since the strings that a spoiling makes are named. [`Stores`] are
//! numbered from 0, and each is seen as the list of its pairs of name and string. Nothing says that a
//! string has the name under which it stands: a store holds what it is given, and a spoiled store keeps
//! the old names. The layers above use the equations of the calls, each of which says what one store
//! becomes and that every other store is as before, and the laws, functions without code, which say what
//! is then offered under each name.
#![tactic(auto)]

mod laws;
mod store;
mod stores;

pub use laws::{
    placed_counts, placed_offers, replaced_again, replaced_offers, spoiled_counts, spoiled_offers,
};
pub use stores::Stores;
