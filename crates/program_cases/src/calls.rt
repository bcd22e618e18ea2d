// Calls of the program over sources and sinks in memory.
ghost use Rattle.std.specs.Prelude.{◌<◌};

use pond_base::{MemorySink, MemorySource};
use pond_program::{Status, pond};
use std::alloc::{AllocError, Global};
use std::test::Fail;
use std::thread::Threads;

const SCRIPT: &[u8] = b"pond 1\nring 0\nsubmit 0 a append 6869\nsettle\nread 0 a\n";

const TEXT: &[u8] = b"version 1 length 2 6869\n";

const USAGE: &str = "2 pond: usage: pond run";

// A sink that takes all, as much as a piece has.
fn wide(alloc: Global) -> Result<MemorySink, Fail> {
    Ok(MemorySink::new(alloc, 1000, 1000, Vec::new(alloc))?)
}

// The takes that fail: one, or none where it is 0.
fn failing(alloc: Global, take: u64) -> Result<Vec<u64>, Fail> {
    Ok(vec![in alloc; take]?)
}

fn words(alloc: Global, given: &[&str]) -> Result<Vec<String>, AllocError> {
    let mut words = Vec::new(alloc);
    for word in given {
        words.push(String::from_str(alloc, word)?)?;
    }
    Ok(words)
}

// The exit status, and behind it the line that tells it.
fn told(alloc: Global, status: &Status) -> Result<String, Fail> {
    let exit = status.exit();
    Ok(format!(in alloc; "{exit} {status}")?)
}

// What a call with the word `run` answers.
fn answer<R: Threads>(
    rt: &R,
    alloc: Global,
    mut source: MemorySource,
    sink: &mut MemorySink,
) -> Result<String, Fail> {
    let run = words(alloc, &["run"])?;
    told(alloc, &pond(rt, alloc, &run, &mut source, sink))
}

// A script of some first lines, one line so many times, and last lines.
fn repeated(
    alloc: Global,
    first: &[u8],
    line: &[u8],
    count: usize,
    last: &[u8],
) -> Result<Vec<u8>, Fail> {
    let mut script = first.to_vec(alloc)?;
    for _ in 0..count {
        script.extend_from_slice(line)?;
    }
    script.extend_from_slice(last)?;
    Ok(script)
}

// First lines, a line so many times, last lines, and what the program answers: nothing is written.
const UNWRITTEN: &[(&[u8], &[u8], usize, &[u8], &str)] = &[
    (b"pond 1\nring 0\n", b"", 0, b"", "0 "),
    (
        b"pond 1\nring 0\nread 0\n",
        b"",
        0,
        b"",
        "3 pond: line 3: words",
    ),
    (
        b"pond 1\nring 1\nfaulty 0\nfaulty 1\n",
        b"",
        0,
        b"",
        "3 pond: line 4: full",
    ),
    (b"", b"", 0, b"", "3 pond: line 1: order"),
    (
        b"pond 1\nring 0\nread 0 ",
        b"a",
        33,
        b"\n",
        "3 pond: line 3: word",
    ),
    (
        b"pond 1\nring 0\nblock 64\n",
        b"submit 0 a append 61\n",
        1025,
        b"",
        "3 pond: line 1028: full",
    ),
    (
        b"pond 1\nring 0\n",
        b"submit 0 a delete 0 1\n",
        1,
        b"settle\n",
        "0 ",
    ),
    (b"", b"#", 1_048_576, b"", "3 pond: line 2: order"),
    (b"", b"#", 1_048_577, b"", "8 pond: script too large"),
];

#[test]
fn nothing_is_written(rt: HostRuntime) -> Result<(), Fail> {
    let alloc = rt.alloc();
    for (first, line, count, last, wanted) in UNWRITTEN {
        let script = repeated(alloc, first, line, *count, last)?;
        let mut sink = wide(alloc)?;
        let answered = answer(
            &rt,
            alloc,
            MemorySource::new(script, 4096, Vec::new(alloc)),
            &mut sink,
        )?;
        assert_eq!(rt; answered.as_str(), *wanted);
        assert_eq!(rt; sink.taken(), b"".as_slice());
    }
    Ok(())
}

// Sixteen appends of 65,536 bytes leave room for 30 lines of the least load, and not for 31.
#[test]
fn splices_fill_the_load(rt: HostRuntime) -> Result<(), Fail> {
    let alloc = rt.alloc();
    let appends = repeated(
        alloc,
        b"pond 1\nring 0\n",
        b"submit 0 a append gen:0:65536\n",
        16,
        b"",
    )?;
    let script = repeated(alloc, &appends, b"submit 0 a delete 0 1\n", 31, b"")?;
    let source = MemorySource::new(script, 4096, Vec::new(alloc));
    let answered = answer(&rt, alloc, source, &mut wide(alloc)?)?;
    assert_eq!(rt; answered.as_str(), "3 pond: line 49: full");
    Ok(())
}

// How many bytes of the script the source has, and what is answered and written.
const CUT: &[(usize, &str, &[u8])] = &[
    (0, "3 pond: line 1: order", b""),
    (2, "3 pond: line 1: verb", b""),
    (5, "3 pond: line 1: words", b""),
    (6, "3 pond: line 2: order", b""),
    (13, "0 ", b""),
    (32, "3 pond: line 3: words", b""),
    (33, "3 pond: line 3: word", b""),
    (34, "0 ", b""),
    (35, "3 pond: line 3: word", b""),
    (36, "0 ", b""),
    (40, "3 pond: line 4: verb", b""),
    (43, "0 ", b""),
    (51, "3 pond: line 5: words", b""),
    (52, "0 ", TEXT),
    (53, "0 ", TEXT),
];

#[test]
fn cut_scripts(rt: HostRuntime) -> Result<(), Fail> {
    let alloc = rt.alloc();
    for (count, wanted, text) in CUT {
        let Some(first) = SCRIPT.get(..*count) else {
            return Err(Fail::new("the script is longer"));
        };
        let mut sink = wide(alloc)?;
        let source = MemorySource::new(first.to_vec(alloc)?, 7, Vec::new(alloc));
        let answered = answer(&rt, alloc, source, &mut sink)?;
        assert_eq!(rt; answered.as_str(), *wanted);
        assert_eq!(rt; sink.taken(), *text);
    }
    Ok(())
}

#[test]
fn other_words_are_told_the_usage(rt: HostRuntime) -> Result<(), Fail> {
    let alloc = rt.alloc();
    for given in [[].as_slice(), &["run", "x"], &["walk"]] {
        let given = words(alloc, given)?;
        let mut source = MemorySource::new(SCRIPT.to_vec(alloc)?, 7, Vec::new(alloc));
        let status = pond(&rt, alloc, &given, &mut source, &mut wide(alloc)?);
        assert_eq!(rt; told(alloc, &status)?.as_str(), USAGE);
    }
    Ok(())
}

// A script with two reads, whose text has 24 and 25 bytes.
const READS: &[u8] = b"pond 1\nring 0\nsubmit 0 a append 6869\nsettle\nread 0 a\n\
submit 0 a append 6a\nsettle\nread 0 a\n";

const READS_TEXT: &[u8] = b"version 1 length 2 6869\nversion 2 length 3 68696a\n";

// The 91 bytes come 16 at a time, so the seventh take finds the end. No later take fails.
#[test]
fn each_take_of_the_source_fails(rt: HostRuntime) -> Result<(), Fail> {
    let alloc = rt.alloc();
    for take in 1..8 {
        let mut sink = wide(alloc)?;
        let source = MemorySource::new(READS.to_vec(alloc)?, 16, failing(alloc, take)?);
        let answered = answer(&rt, alloc, source, &mut sink)?;
        assert_eq!(rt; answered.as_str(), "4 pond: read fault", "take {take}");
        assert_eq!(rt; sink.taken(), b"".as_slice());
    }
    let mut sink = wide(alloc)?;
    let source = MemorySource::new(READS.to_vec(alloc)?, 16, failing(alloc, 8)?);
    let answered = answer(&rt, alloc, source, &mut sink)?;
    assert_eq!(rt; answered.as_str(), "0 ");
    assert_eq!(rt; sink.taken(), READS_TEXT);
    Ok(())
}

// How many bytes were taken before each take of a sink that takes five at a time: each line by itself.
const TAKEN: &[usize] = &[0, 5, 10, 15, 20, 24, 29, 34, 39, 44];

#[test]
fn each_take_of_the_sink_fails(rt: HostRuntime) -> Result<(), Fail> {
    let alloc = rt.alloc();
    let mut take: u64 = 0;
    for taken in TAKEN {
        take = take.saturating_add(1);
        let mut sink = MemorySink::new(alloc, 1000, 5, failing(alloc, take)?)?;
        let source = MemorySource::new(READS.to_vec(alloc)?, 16, Vec::new(alloc));
        let answered = answer(&rt, alloc, source, &mut sink)?;
        assert_eq!(rt; answered.as_str(), "5 ", "take {take}");
        assert_eq!(rt; Some(sink.taken()), READS_TEXT.get(..*taken), "take {take}");
    }
    Ok(())
}

#[test]
fn the_room_of_the_sink_ends(rt: HostRuntime) -> Result<(), Fail> {
    let alloc = rt.alloc();
    let mut sink = MemorySink::new(alloc, 3, 3, Vec::new(alloc))?;
    let source = MemorySource::new(SCRIPT.to_vec(alloc)?, 8, Vec::new(alloc));
    let answered = answer(&rt, alloc, source, &mut sink)?;
    assert_eq!(rt; answered.as_str(), "5 ");
    assert_eq!(rt; sink.taken(), b"ver".as_slice());
    Ok(())
}
