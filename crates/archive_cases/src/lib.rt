//! The cases of `manifest` and `fragment_store`: strings that another program wrote, in tables, and
//! steps with stores, with what is told of them.
#![tactic(auto)]

#[cfg(test)]
mod manifests;
#[cfg(test)]
mod stores;
#[cfg(test)]
mod telling;
