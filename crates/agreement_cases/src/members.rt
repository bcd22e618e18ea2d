// Messages that one member takes, with what it owes for each. Names are SHA-1 digests, from another
// program.
use crate::telling::{Broken, add, add_number, bytes_of, digits_of, line, same};
use block_names::{Book, Sha1Hash};
use bytes::Bytes;
use pond_base::{ClientId, MemberId, Party, Seq};
use ring_member::Member;
use ring_message::Out;
use std::alloc::Global;
use std::process::Abort;

const M0: Party = Party::Member(MemberId(0));

const M1: Party = Party::Member(MemberId(1));

const M2: Party = Party::Member(MemberId(2));

const M3: Party = Party::Member(MemberId(3));

const C0: Party = Party::Client(ClientId(0));

const C1: Party = Party::Client(ClientId(1));

// Request 1 of client 0, and its name.
const FIRST: &str = "060000000001016101000102000000026869";

const FIRST_NAME: &str = "39385fe3df34475f6937fbad6a1b573b4fbcafc5";

// Request 2 of client 0.
const SECOND: &str = "060000000002016101000102000000026869";

// Request 1 of client 1, and its name.
const OTHER: &str = "060100000001016201000102000000026869";

const OTHER_NAME: &str = "2778d40ad2e25af6241ef2521a72a19293ce5fd6";

// Who sends what, by a head and the rest; the messages that the member then sends to each of four
// members; and then how many requests are executed, and of how many slots above something is kept.
type Row = (
    Party,
    (&'static str, &'static str),
    &'static [(&'static str, &'static str)],
    u32,
    u32,
);

// A member of a ring that tolerates one fault, what it takes, and the requests of its slots from 0 on.
const CASES: &[(u8, &[Row], &[&str])] = &[
    // Member 0 orders one request here, and another one elsewhere.
    (
        1,
        &[
            (C0, ("11", FIRST), &[], 0, 0),
            (C1, ("11", OTHER), &[], 0, 0),
            (
                M0,
                ("1200000001", FIRST),
                &[("1300000001", FIRST_NAME)],
                0,
                1,
            ),
            (M1, ("1300000001", FIRST_NAME), &[], 0, 1),
            (M2, ("1300000001", OTHER_NAME), &[], 0, 1),
            (M3, ("1300000001", OTHER_NAME), &[], 0, 1),
            (M2, ("1400000001", OTHER_NAME), &[], 0, 1),
            (M3, ("1400000001", OTHER_NAME), &[], 0, 1),
        ],
        &["none", "none"],
    ),
    // All that is sent of one request where member 3 is cut off, and a vote that comes late.
    (
        1,
        &[
            (C0, ("11", FIRST), &[], 0, 0),
            (
                M0,
                ("1200000001", FIRST),
                &[("1300000001", FIRST_NAME)],
                0,
                1,
            ),
            (M0, ("1300000001", FIRST_NAME), &[], 0, 1),
            (M1, ("1300000001", FIRST_NAME), &[], 0, 1),
            (
                M2,
                ("1300000001", FIRST_NAME),
                &[("1400000001", FIRST_NAME)],
                0,
                1,
            ),
            (M0, ("1400000001", FIRST_NAME), &[], 0, 1),
            (M1, ("1400000001", FIRST_NAME), &[], 0, 1),
            (M2, ("1400000001", FIRST_NAME), &[], 1, 0),
            (M2, ("1400000001", FIRST_NAME), &[], 1, 0),
        ],
        &["none", FIRST, "none"],
    ),
    // The same after votes for a later slot.
    (
        1,
        &[
            (M2, ("1300000005", OTHER_NAME), &[], 0, 1),
            (M2, ("1300000005", OTHER_NAME), &[], 0, 1),
            (M3, ("1300000005", OTHER_NAME), &[], 0, 1),
            (C0, ("11", FIRST), &[], 0, 1),
            (
                M0,
                ("1200000001", FIRST),
                &[("1300000001", FIRST_NAME)],
                0,
                2,
            ),
            (M0, ("1300000001", FIRST_NAME), &[], 0, 2),
            (M1, ("1300000001", FIRST_NAME), &[], 0, 2),
            (
                M2,
                ("1300000001", FIRST_NAME),
                &[("1400000001", FIRST_NAME)],
                0,
                2,
            ),
            (M0, ("1400000001", FIRST_NAME), &[], 0, 2),
            (M1, ("1400000001", FIRST_NAME), &[], 0, 2),
            (M2, ("1400000001", FIRST_NAME), &[], 1, 1),
        ],
        &["none", FIRST, "none"],
    ),
    // Member 0 orders each request once, in the order of its client's numbers.
    (
        0,
        &[
            (C0, ("11", SECOND), &[], 0, 0),
            (
                C0,
                ("11", FIRST),
                &[("1200000001", FIRST), ("1200000002", SECOND)],
                0,
                0,
            ),
            (C0, ("11", FIRST), &[], 0, 0),
            (C1, ("11", OTHER), &[("1200000003", OTHER)], 0, 0),
        ],
        &["none", "none"],
    ),
    // A request that comes last, and before that from another client.
    (
        2,
        &[
            (M0, ("1300000001", FIRST_NAME), &[], 0, 1),
            (M0, ("1400000001", FIRST_NAME), &[], 0, 1),
            (M1, ("1300000001", FIRST_NAME), &[], 0, 1),
            (M1, ("1400000001", FIRST_NAME), &[], 0, 1),
            (M3, ("1300000001", FIRST_NAME), &[], 0, 1),
            (M3, ("1400000001", FIRST_NAME), &[], 0, 1),
            (M0, ("1200000001", FIRST), &[], 0, 1),
            (C1, ("11", FIRST), &[], 0, 1),
            (
                C0,
                ("11", FIRST),
                &[("1300000001", FIRST_NAME), ("1400000001", FIRST_NAME)],
                1,
                0,
            ),
        ],
        &["none", FIRST, "none"],
    ),
];

// Bytes that are no message, or none that changes anything, whoever sends them.
const FOREIGN: &[(&str, &str)] = &[
    ("", ""),
    ("13", ""),
    ("18", ""),
    ("1106", ""),
    ("1300000000", FIRST_NAME),
    ("1300000001", "00"),
    ("1400010001", FIRST_NAME),
    ("130000000100", FIRST_NAME),
    ("1200000001", "06"),
];

fn joined(alloc: Global, head: &str, rest: &str) -> Result<Bytes, Broken> {
    let mut digits = line(alloc, head)?;
    digits.push_str(rest)?;
    bytes_of(alloc, digits.as_str())
}

// Hands bytes to a member, and answers what it sends.
fn hand(
    member: &mut Member,
    book: &mut Book<Sha1Hash>,
    from: Party,
    bytes: &Bytes,
) -> Result<Vec<Out>, Broken> {
    Ok(member.take(book, from, bytes)?)
}

// Adds a message to a member as a line.
fn add_line(
    alloc: Global,
    text: &mut String,
    to: u8,
    head: &str,
    rest: &str,
) -> Result<(), Broken> {
    add_number(alloc, text, "m", to as u64)?;
    text.push_str(" ")?;
    text.push_str(head)?;
    text.push_str(rest)?;
    text.push_str("\n")?;
    Ok(())
}

fn add_sent(alloc: Global, text: &mut String, out: &Out) -> Result<(), Broken> {
    let digits = digits_of(alloc, out.bytes.as_slice())?;
    match out.to {
        Party::Member(member) => add_line(alloc, text, member.0, digits.as_str(), ""),
        Party::Client(_) => Err(Broken::Unfit),
    }
}

fn sent(alloc: Global, outs: &[Out]) -> Result<String, Broken> {
    let mut text = String::new(alloc);
    for out in outs {
        add_sent(alloc, &mut text, out)?;
    }
    Ok(text)
}

fn add_to_each(alloc: Global, text: &mut String, head: &str, rest: &str) -> Result<(), Broken> {
    for to in 0..4 {
        add_line(alloc, text, to, head, rest)?;
    }
    Ok(())
}

// The messages, each to each of four members, and then two counts.
fn wanted_text(
    alloc: Global,
    messages: &[(&str, &str)],
    executed: u32,
    kept: u32,
) -> Result<String, Broken> {
    let mut text = String::new(alloc);
    for (head, rest) in messages {
        add_to_each(alloc, &mut text, head, rest)?;
    }
    add_counts(alloc, &mut text, executed, kept)?;
    Ok(text)
}

fn add_counts(alloc: Global, text: &mut String, executed: u32, kept: u32) -> Result<(), Broken> {
    add_number(alloc, text, "executed ", executed as u64)?;
    add_number(alloc, text, " kept ", kept as u64)
}

// The request of a slot, or none.
fn request(alloc: Global, member: &Member, seq: usize) -> Result<String, Broken> {
    if seq > 65_536 {
        return Err(Broken::Unfit);
    }
    match member.request(Seq(seq as u32)) {
        Some(string) => digits_of(alloc, string.as_slice()),
        None => line(alloc, "none"),
    }
}

// The requests of as many slots from 0 on, one behind the other.
fn requests(alloc: Global, member: &Member, count: usize) -> Result<String, Broken> {
    let mut text = String::new(alloc);
    for seq in 0..count {
        add(&mut text, request(alloc, member, seq))?;
        text.push_str(" ")?;
    }
    Ok(text)
}

fn words(alloc: Global, words: &[&str]) -> Result<String, Broken> {
    let mut text = String::new(alloc);
    for word in words {
        text.push_str(word)?;
        text.push_str(" ")?;
    }
    Ok(text)
}

// Hands the bytes of a row to a member, and tells what it sends.
fn told_sent(
    alloc: Global,
    member: &mut Member,
    book: &mut Book<Sha1Hash>,
    from: Party,
    pieces: (&str, &str),
) -> Result<String, Broken> {
    let bytes = joined(alloc, pieces.0, pieces.1)?;
    let outs = hand(member, book, from, &bytes)?;
    sent(alloc, outs.as_slice())
}

// The same, and how many requests are executed, and of how many slots something is kept then.
fn told(
    alloc: Global,
    member: &mut Member,
    book: &mut Book<Sha1Hash>,
    from: Party,
    pieces: (&str, &str),
) -> Result<String, Broken> {
    let mut text = told_sent(alloc, member, book, from, pieces)?;
    add_counts(alloc, &mut text, member.executed(), member.kept_slots())?;
    Ok(text)
}

fn is_wanted(rt: &impl Abort, told: Result<String, Broken>, wanted: Result<String, Broken>) {
    match wanted {
        Ok(text) => same(rt, told, text.as_str()),
        Err(_) => same(rt, wanted, "what is wanted"),
    }
}

// What is told of each row of a case, and is wanted.
fn run(
    rt: &impl Abort,
    alloc: Global,
    member: &mut Member,
    book: &mut Book<Sha1Hash>,
    rows: &[Row],
) {
    for (from, pieces, messages, executed, kept) in rows {
        let wanted = wanted_text(alloc, messages, *executed, *kept);
        is_wanted(rt, told(alloc, member, book, *from, *pieces), wanted);
    }
}

fn run_case(rt: &impl Abort, alloc: Global, id: u8, rows: &[Row], slots: &[&str]) {
    let mut book = Book::new(alloc, Sha1Hash);
    let mut member = Member::new(alloc, MemberId(id), 1);
    run(rt, alloc, &mut member, &mut book, rows);
    is_wanted(
        rt,
        requests(alloc, &member, slots.len()),
        words(alloc, slots),
    );
}

#[test]
fn cases(rt: HostRuntime) {
    for (id, rows, slots) in CASES {
        run_case(&rt, rt.alloc(), *id, rows, slots);
    }
}

// What is told of foreign bytes of three parties.
fn foreign(
    alloc: Global,
    member: &mut Member,
    book: &mut Book<Sha1Hash>,
    pieces: (&str, &str),
) -> Result<String, Broken> {
    let mut text = String::new(alloc);
    for from in [M0, M2, C0] {
        add(&mut text, told_sent(alloc, member, book, from, pieces))?;
    }
    add_counts(alloc, &mut text, member.executed(), member.kept_slots())?;
    Ok(text)
}

#[test]
fn foreign_bytes_change_nothing(rt: HostRuntime) {
    let mut book = Book::new(rt.alloc(), Sha1Hash);
    let mut member = Member::new(rt.alloc(), MemberId(1), 1);
    for pieces in FOREIGN {
        let told = foreign(rt.alloc(), &mut member, &mut book, *pieces);
        same(&rt, told, "executed 0 kept 0");
    }
}
