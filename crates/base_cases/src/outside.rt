// Sources and sinks: what each take gives, which takes fail, and what is read and written as a whole.
use crate::telling::{Broken, add, digits_of, line, number, same};
use pond_base::{
    CleanSink, CleanSource, Failed, MemorySink, MemorySource, Sink, Source, Unread, read_whole,
    write_whole,
};
use std::alloc::Global;

// The bytes `pond` in a source: the most bytes of a take, the room of each take, the numbers of the
// takes that fail, and what each of five takes gives.
const SOURCES: &[(usize, usize, &[u64], &str)] = &[
    (3, 4, &[], "706f6e;64;;;;"),
    (3, 4, &[1], "failed;706f6e;64;;;"),
    (3, 4, &[2], "706f6e;failed;64;;;"),
    (3, 4, &[3], "706f6e;64;failed;;;"),
    (3, 4, &[4], "706f6e;64;;failed;;"),
    (3, 4, &[5], "706f6e;64;;;failed;"),
    (3, 4, &[6], "706f6e;64;;;;"),
    (3, 4, &[0, 4, 2], "706f6e;failed;64;failed;;"),
    (
        3,
        4,
        &[1, 2, 3, 4, 5],
        "failed;failed;failed;failed;failed;",
    ),
    (3, 2, &[2], "706f;failed;6e64;;;"),
    (9, 4, &[2], "706f6e64;failed;;;;"),
];

fn failed(alloc: Global) -> Result<String, Broken> {
    line(alloc, "failed;")
}

fn given(alloc: Global, bytes: &[u8]) -> Result<String, Broken> {
    let mut text = digits_of(alloc, bytes)?;
    text.push_str(";")?;
    Ok(text)
}

// A take of a source, into a room of so many bytes.
fn take_of<S: Source>(alloc: Global, source: &mut S, room: usize) -> Result<String, Broken> {
    if room == 0 {
        return Err(Broken::Unfit);
    }
    let mut bytes = vec![in alloc; 0; room]?;
    match source.take(bytes.as_mut_slice()) {
        Ok(count) => given(alloc, &bytes[..count]),
        Err(Failed) => failed(alloc),
    }
}

fn takes_of<S: Source>(alloc: Global, source: &mut S, room: usize) -> Result<String, Broken> {
    let mut text = String::new(alloc);
    for _take in 0..5 {
        add(&mut text, take_of(alloc, source, room))?;
    }
    Ok(text)
}

fn source_of(alloc: Global, most: usize, fails: &[u64]) -> Result<MemorySource, Broken> {
    if most == 0 {
        return Err(Broken::Unfit);
    }
    let fails = fails.to_vec(alloc)?;
    Ok(MemorySource::new(b"pond".to_vec(alloc)?, most, fails))
}

fn told_source(alloc: Global, most: usize, room: usize, fails: &[u64]) -> Result<String, Broken> {
    let mut source = source_of(alloc, most, fails)?;
    takes_of(alloc, &mut source, room)
}

#[test]
fn the_listed_takes_of_sources_fail(rt: HostRuntime) {
    for (most, room, fails, text) in SOURCES {
        same(&rt, told_source(rt.alloc(), *most, *room, fails), text);
    }
}

// The room of each take of a source that is clean, and what each of five takes gives.
const CLEAN: &[(usize, &str)] = &[
    (1, "70;6f;6e;64;;"),
    (3, "706f6e;64;;;;"),
    (9, "706f6e64;;;;;"),
];

fn told_clean(alloc: Global, room: usize) -> Result<String, Broken> {
    let mut source = CleanSource::new(b"pond".to_vec(alloc)?);
    takes_of(alloc, &mut source, room)
}

#[test]
fn clean_sources_give_what_the_room_takes(rt: HostRuntime) {
    for (room, text) in CLEAN {
        same(&rt, told_clean(rt.alloc(), *room), text);
    }
}

// The bytes `ponds` for a sink: its room, the most bytes of a take, the numbers of the takes that fail,
// and how many bytes each of at most five takes takes, until all were taken; then the bytes taken.
const SINKS: &[(usize, usize, &[u64], &str)] = &[
    (4, 3, &[], "3;1;failed;failed;failed;706f6e64;"),
    (4, 3, &[2], "3;failed;1;failed;failed;706f6e64;"),
    (9, 3, &[], "3;2;706f6e6473;"),
    (9, 3, &[1], "failed;3;2;706f6e6473;"),
    (9, 3, &[2], "3;failed;2;706f6e6473;"),
    (9, 3, &[3], "3;2;706f6e6473;"),
    (9, 3, &[3, 0, 1], "failed;3;failed;2;706f6e6473;"),
    (
        9,
        1,
        &[1, 2, 3, 4, 5],
        "failed;failed;failed;failed;failed;;",
    ),
    (9, 1, &[3, 4], "1;1;failed;failed;1;706f6e;"),
    (9, 9, &[], "5;706f6e6473;"),
    (0, 9, &[], "failed;failed;failed;failed;failed;;"),
];

// A take of a sink, of what is left of a piece after some bytes, and how many bytes are done then.
fn put_into<K: Sink>(alloc: Global, sink: &mut K, done: &mut usize) -> Result<String, Broken> {
    let piece = b"ponds".as_slice();
    if *done >= piece.len() {
        return Ok(String::new(alloc));
    }
    match sink.take(&piece[*done..]) {
        Ok(count) => {
            *done = done.saturating_add(count);
            count_of(alloc, count)
        }
        Err(Failed) => failed(alloc),
    }
}

fn count_of(alloc: Global, count: usize) -> Result<String, Broken> {
    let mut text = number(alloc, count as u64)?;
    text.push_str(";")?;
    Ok(text)
}

fn puts_into<K: Sink>(alloc: Global, sink: &mut K) -> Result<String, Broken> {
    let mut text = String::new(alloc);
    let mut done = 0;
    for _take in 0..5 {
        add(&mut text, put_into(alloc, sink, &mut done))?;
    }
    Ok(text)
}

fn sink_of(alloc: Global, room: usize, most: usize, fails: &[u64]) -> Result<MemorySink, Broken> {
    if most == 0 {
        return Err(Broken::Unfit);
    }
    Ok(MemorySink::new(alloc, room, most, fails.to_vec(alloc)?)?)
}

fn told_sink(alloc: Global, room: usize, most: usize, fails: &[u64]) -> Result<String, Broken> {
    let mut sink = sink_of(alloc, room, most, fails)?;
    puts_and_taken(alloc, &mut sink)
}

fn puts_and_taken(alloc: Global, sink: &mut MemorySink) -> Result<String, Broken> {
    let mut text = puts_into(alloc, sink)?;
    add(&mut text, given(alloc, sink.taken()))?;
    Ok(text)
}

#[test]
fn the_listed_takes_of_sinks_fail(rt: HostRuntime) {
    for (room, most, fails, text) in SINKS {
        same(&rt, told_sink(rt.alloc(), *room, *most, fails), text);
    }
}

#[test]
fn clean_sinks_take_all(rt: HostRuntime) {
    let mut sink = CleanSink::new();
    same(&rt, puts_into(rt.alloc(), &mut sink), "5;");
    let mut other = CleanSink::new();
    same(&rt, written(rt.alloc(), &mut other, b"pond"), "written;");
}

// `pond` read whole: the most bytes of a take, the takes that fail, the most bytes that are allowed, what
// was read, and what the next take gives then. Five takes of a byte read it, the last of which is at the
// end.
const WHOLES: &[(usize, &[u64], usize, &str)] = &[
    (1, &[], 9, "706f6e64;;"),
    (1, &[1], 9, "failed;70;"),
    (1, &[2], 9, "failed;6f;"),
    (1, &[3], 9, "failed;6e;"),
    (1, &[4], 9, "failed;64;"),
    (1, &[5], 9, "failed;;"),
    (1, &[6], 9, "706f6e64;failed;"),
    (1, &[1, 2], 9, "failed;failed;"),
    (1, &[], 4, "706f6e64;;"),
    (1, &[], 3, "too large;;"),
    (1, &[], 0, "too large;6f;"),
    (3, &[], 3, "too large;;"),
    (3, &[2], 4, "failed;64;"),
];

fn whole<S: Source>(alloc: Global, source: &mut S, most: usize) -> Result<String, Broken> {
    if most > 9 {
        return Err(Broken::Unfit);
    }
    match read_whole(alloc, source, most) {
        Ok(bytes) => given(alloc, bytes.as_slice()),
        Err(Unread::Failed) => failed(alloc),
        Err(Unread::TooLarge) => line(alloc, "too large;"),
        Err(Unread::Memory) => Err(Broken::Memory),
    }
}

fn whole_and_next<S: Source>(alloc: Global, source: &mut S, most: usize) -> Result<String, Broken> {
    let mut text = whole(alloc, source, most)?;
    add(&mut text, take_of(alloc, source, 1))?;
    Ok(text)
}

fn told_whole(alloc: Global, most: usize, fails: &[u64], allowed: usize) -> Result<String, Broken> {
    let mut source = source_of(alloc, most, fails)?;
    whole_and_next(alloc, &mut source, allowed)
}

#[test]
fn wholes_are_read_to_the_first_fault(rt: HostRuntime) {
    for (most, fails, allowed, text) in WHOLES {
        same(&rt, told_whole(rt.alloc(), *most, fails, *allowed), text);
    }
}

fn told_clean_whole(alloc: Global, allowed: usize) -> Result<String, Broken> {
    let mut source = CleanSource::new(b"pond".to_vec(alloc)?);
    whole(alloc, &mut source, allowed)
}

#[test]
fn clean_wholes_are_read(rt: HostRuntime) {
    same(&rt, told_clean_whole(rt.alloc(), 4), "706f6e64;");
    same(&rt, told_clean_whole(rt.alloc(), 3), "too large;");
}

// `pond` and then `s` written whole: the room of the sink, the most bytes of a take, the takes that fail,
// and for each of the two whether it was written, with the bytes taken so far. Four takes of a byte write
// `pond`.
const WRITES: &[(usize, usize, &[u64], &str)] = &[
    (4, 3, &[], "written;706f6e64;failed;706f6e64;"),
    (9, 1, &[], "written;706f6e64;written;706f6e6473;"),
    (9, 1, &[1], "failed;;written;73;"),
    (9, 1, &[2], "failed;70;written;7073;"),
    (9, 1, &[3], "failed;706f;written;706f73;"),
    (9, 1, &[4], "failed;706f6e;written;706f6e73;"),
    (9, 1, &[5], "written;706f6e64;failed;706f6e64;"),
    (9, 1, &[6], "written;706f6e64;written;706f6e6473;"),
    (9, 1, &[2, 3], "failed;70;failed;70;"),
];

fn written<K: Sink>(alloc: Global, sink: &mut K, piece: &[u8]) -> Result<String, Broken> {
    match write_whole(sink, piece) {
        Ok(()) => line(alloc, "written;"),
        Err(Failed) => failed(alloc),
    }
}

fn add_written(
    alloc: Global,
    sink: &mut MemorySink,
    piece: &[u8],
    text: &mut String,
) -> Result<(), Broken> {
    add(text, written(alloc, sink, piece))?;
    add(text, given(alloc, sink.taken()))
}

fn both_written(alloc: Global, sink: &mut MemorySink) -> Result<String, Broken> {
    let mut text = String::new(alloc);
    add_written(alloc, sink, b"pond", &mut text)?;
    add_written(alloc, sink, b"s", &mut text)?;
    Ok(text)
}

fn told_writes(alloc: Global, room: usize, most: usize, fails: &[u64]) -> Result<String, Broken> {
    let mut sink = sink_of(alloc, room, most, fails)?;
    both_written(alloc, &mut sink)
}

#[test]
fn wholes_are_written_to_the_first_fault(rt: HostRuntime) {
    for (room, most, fails, text) in WRITES {
        same(&rt, told_writes(rt.alloc(), *room, *most, fails), text);
    }
}
