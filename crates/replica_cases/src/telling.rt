// What is told of a case, beside what is expected.
use hex::FromHexError;
use pond_base::{Name, OutOfMemory};
use std::alloc::{AllocError, AllocFailed, Global};
use std::process::Abort;

// Why a case was not told: memory ran out, its text is not spelled so, or no call takes it.
#[derive(Clone, Copy)]
pub enum Broken {
    Memory,
    Spelling,
    Unfit,
}

impl From<AllocError> for Broken {
    fn from(_error: AllocError) -> Broken {
        Broken::Memory
    }
}

impl<T: Drop> From<AllocFailed<T>> for Broken {
    fn from(_error: AllocFailed<T>) -> Broken {
        Broken::Memory
    }
}

impl From<OutOfMemory> for Broken {
    fn from(_error: OutOfMemory) -> Broken {
        Broken::Memory
    }
}

impl From<FromHexError> for Broken {
    fn from(_error: FromHexError) -> Broken {
        Broken::Spelling
    }
}

fn why(broken: Broken) -> &'static str {
    match broken {
        Broken::Memory => "no memory",
        Broken::Spelling => "not spelled so",
        Broken::Unfit => "no call takes it",
    }
}

// Compares what is told with what is expected.
pub fn same(rt: &impl Abort, told: Result<String, Broken>, expected: &str) {
    match told {
        Ok(text) => assert_eq!(rt; text.as_str(), expected),
        Err(broken) => assert_eq!(rt; why(broken), expected),
    }
}

pub fn line(alloc: Global, text: &str) -> Result<String, Broken> {
    Ok(String::from_str(alloc, text)?)
}

pub fn number(alloc: Global, number: u64) -> Result<String, Broken> {
    Ok(format!(in alloc; "{number}")?)
}

pub fn decoded(alloc: Global, digits: &str) -> Result<Vec<u8>, Broken> {
    Ok(hex::decode(alloc, digits)?)
}

pub fn digits_of(alloc: Global, bytes: &[u8]) -> Result<String, Broken> {
    Ok(hex::encode(alloc, bytes)?)
}

pub fn digits_of_name(alloc: Global, name: Name) -> Result<String, Broken> {
    digits_of(alloc, name.bytes().as_slice())
}

// Adds what is told to a text.
pub fn add(text: &mut String, told: Result<String, Broken>) -> Result<(), Broken> {
    let told = told?;
    text.push_str(told.as_str())?;
    Ok(())
}

// Adds a word, and a number behind it.
pub fn add_number(alloc: Global, text: &mut String, word: &str, value: u64) -> Result<(), Broken> {
    text.push_str(word)?;
    add(text, number(alloc, value))
}
