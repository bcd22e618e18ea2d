//! The cases of the program: calls in memory, with the status, its line and what the sink took, and
//! runs that end at a clash. Scripts with a text stand in the folder `scripts`, as files.
#![tactic(auto)]

#[cfg(test)]
mod calls;
#[cfg(test)]
mod clashes;
#[cfg(test)]
mod edges;
