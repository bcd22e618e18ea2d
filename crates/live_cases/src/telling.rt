// What is told of a case, beside what is expected.
use block_names::NameFault;
use bytes::Bytes;
use hex::FromHexError;
use pond_base::{BadLabel, OutOfMemory};
use std::alloc::{AllocError, AllocFailed, Global};
use std::process::Abort;

// Why a case was not told: memory ran out, its text is not spelled so, or no call takes it.
#[derive(Clone, Copy)]
pub enum Broken {
    Memory,
    Spelling,
    Unfit,
}

impl From<AllocError> for Broken {
    fn from(_error: AllocError) -> Broken {
        Broken::Memory
    }
}

impl<T: Drop> From<AllocFailed<T>> for Broken {
    fn from(_error: AllocFailed<T>) -> Broken {
        Broken::Memory
    }
}

impl From<OutOfMemory> for Broken {
    fn from(_error: OutOfMemory) -> Broken {
        Broken::Memory
    }
}

impl From<NameFault> for Broken {
    fn from(error: NameFault) -> Broken {
        match error {
            NameFault::Memory => Broken::Memory,
            NameFault::Clash { old: _, new: _ } => Broken::Unfit,
        }
    }
}

impl From<BadLabel> for Broken {
    fn from(_error: BadLabel) -> Broken {
        Broken::Spelling
    }
}

impl From<FromHexError> for Broken {
    fn from(_error: FromHexError) -> Broken {
        Broken::Spelling
    }
}

fn why(broken: Broken) -> &'static str {
    match broken {
        Broken::Memory => "no memory",
        Broken::Spelling => "not spelled so",
        Broken::Unfit => "no call takes it",
    }
}

// Compares what is told with what is expected.
pub fn same(rt: &impl Abort, told: Result<String, Broken>, expected: &str) {
    match told {
        Ok(text) => assert_eq!(rt; text.as_str(), expected),
        Err(broken) => assert_eq!(rt; why(broken), expected),
    }
}

pub fn line(alloc: Global, text: &str) -> Result<String, Broken> {
    Ok(String::from_str(alloc, text)?)
}

pub fn number(alloc: Global, number: u64) -> Result<String, Broken> {
    Ok(format!(in alloc; "{number}")?)
}

// A word, and a number behind it.
pub fn numbered(alloc: Global, word: &str, number: u32) -> Result<String, Broken> {
    Ok(format!(in alloc; "{word}{number}")?)
}

pub fn decoded(alloc: Global, digits: &str) -> Result<Vec<u8>, Broken> {
    Ok(hex::decode(alloc, digits)?)
}

pub fn bytes_of(alloc: Global, digits: &str) -> Result<Bytes, Broken> {
    Ok(Bytes::from_vec(decoded(alloc, digits)?)?)
}

pub fn digits_of(alloc: Global, bytes: &[u8]) -> Result<String, Broken> {
    Ok(hex::encode(alloc, bytes)?)
}

// Adds what is told to a text.
pub fn add(text: &mut String, told: Result<String, Broken>) -> Result<(), Broken> {
    let told = told?;
    text.push_str(told.as_str())?;
    Ok(())
}

// Adds a word, and a number behind it.
pub fn add_number(alloc: Global, text: &mut String, word: &str, value: u64) -> Result<(), Broken> {
    text.push_str(word)?;
    add(text, number(alloc, value))
}

// Adds a word, and bytes behind it in digits.
pub fn add_bytes(alloc: Global, text: &mut String, word: &str, bytes: &[u8]) -> Result<(), Broken> {
    text.push_str(word)?;
    add(text, digits_of(alloc, bytes))
}

pub fn truth(fact: bool) -> &'static str {
    if fact { "true" } else { "false" }
}
