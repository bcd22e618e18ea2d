//! The cases of `object_fold` and `cow_tree`: requests as strings, and what came of them as text; edits of
//! trees, with names and counts that another program gave; walks; and a tree that two threads share.
#![tactic(auto)]

#[cfg(test)]
mod objects;
#[cfg(test)]
mod tall;
#[cfg(test)]
mod telling;
#[cfg(test)]
mod trees;
#[cfg(test)]
mod walks;
