//! The cases of what threads share: boards of versions, machines behind a lock, queues of jobs with their
//! workers, and votes on shared words.
#![tactic(auto)]

#[cfg(test)]
mod boards;
#[cfg(test)]
mod halls;
#[cfg(test)]
mod queues;
#[cfg(test)]
mod telling;
#[cfg(test)]
mod votes;
