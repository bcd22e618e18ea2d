//! The cases of `replica_cache` and `dissemination`: steps with five replicas, in tables, with what is told
//! of each.
#![tactic(auto)]

#[cfg(test)]
mod acting;
#[cfg(test)]
mod cases;
#[cfg(test)]
mod ring;
#[cfg(test)]
mod strings;
#[cfg(test)]
mod telling;
