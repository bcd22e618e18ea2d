//! The cases of the crates that every other one stands on: `pond_base`, `block_names`, `tree_format`,
//! `guarded_update` and `ring_message`. Bytes stand in tables, and what is made of them as text.
#![tactic(auto)]

#[cfg(test)]
mod lists;
#[cfg(test)]
mod messages;
#[cfg(test)]
mod names;
#[cfg(test)]
mod outside;
#[cfg(test)]
mod strings;
#[cfg(test)]
mod telling;
#[cfg(test)]
mod updates;
