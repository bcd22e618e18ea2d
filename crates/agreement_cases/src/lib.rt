//! The cases of agreement: votes, requests, messages and events, and what is told of them.
#![tactic(auto)]

#[cfg(test)]
mod clients;
#[cfg(test)]
mod coming;
#[cfg(test)]
mod ends;
#[cfg(test)]
mod members;
#[cfg(test)]
mod orders;
#[cfg(test)]
mod sites;
#[cfg(test)]
mod telling;
#[cfg(test)]
mod votes;
