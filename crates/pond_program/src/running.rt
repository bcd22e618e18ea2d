// The program over the words, the standard input and the standard output of a runtime.
use crate::edge::{InputSource, OutputSink};
use crate::status::Status;
use crate::top::pond;
use std::alloc::Global;
use std::env::Args;
use std::rt::Env;
use std::thread::Threads;
use std::{env, io};

/// Runs the program with the words that it was called with behind its name, over standard input and
/// output. Words that are not text are none that the program knows; where memory runs out before they
/// are had, the answer is `Memory`.
pub fn run_words<R: Env + AllocGlobal + Input + Print + Threads>(rt: &R) -> Status {
    let words = match env::args(rt) {
        Ok(args) => words_of(rt.alloc(), args),
        Err(error) => Err(no_words(error.kind())),
    };
    match words {
        Ok(words) => {
            let mut source = InputSource::new(rt.reader());
            let mut sink = OutputSink::new(io::writer(rt));
            pond(rt, rt.alloc(), &words, &mut source, &mut sink)
        }
        Err(status) => status,
    }
}

// The words behind the program's name.
fn words_of(alloc: Global, args: Args) -> Result<Vec<String>, Status> {
    let mut words = Vec::new(alloc);
    for word in args.skip(1) {
        if words.push(word).is_err() {
            return Err(Status::Memory);
        }
    }
    Ok(words)
}

// What the program answers where it cannot have its words.
fn no_words(kind: io::ErrorKind) -> Status {
    match kind {
        io::ErrorKind::OutOfMemory => Status::Memory,
        _ => Status::Usage,
    }
}
