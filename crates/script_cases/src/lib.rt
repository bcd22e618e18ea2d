//! The cases of the reading and printing of scripts: texts, words and values, and what is told of them.
#![tactic(auto)]

#[cfg(test)]
mod printing;
#[cfg(test)]
mod requests;
#[cfg(test)]
mod texts;
#[cfg(test)]
mod words;
