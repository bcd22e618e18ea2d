// Messages of each kind as bytes that were written by hand, and bytes that are no message.
ghost use Rattle.ring_message.specs.Grammar.{MessageFits};

use crate::telling::{Broken, add, decoded, digits_of, digits_of_name, line, number, same};
use bytes::Bytes;
use pond_base::{MemberId, Name, Party, Seq, Version};
use ring_message::{Message, Out, Outcome, read, write};
use std::alloc::Global;

// Bytes, and the message that they are. The request is client 0's request 1, an append of 6869 to the
// object 'a'.
const MESSAGES: &[(&str, &str)] = &[
    (
        "11060000000001016101000102000000026869",
        "request 060000000001016101000102000000026869",
    ),
    (
        "1200010000060000000001016101000102000000026869",
        "order 65536 060000000001016101000102000000026869",
    ),
    (
        "13000001020909090909090909090909090909090909090909",
        "prepare 258 0909090909090909090909090909090909090909",
    ),
    (
        "14000001020909090909090909090909090909090909090909",
        "commit 258 0909090909090909090909090909090909090909",
    ),
    (
        "150000000301000000020707070707070707070707070707070707070707",
        "reply 3 made 2 0707070707070707070707070707070707070707",
    ),
    ("150000000302", "reply 3 no clause"),
    ("150000000303", "reply 3 out of range"),
    ("150000000304", "reply 3 too long"),
    ("150000000305", "reply 3 repeat"),
    (
        "16\
         0909090909090909090909090909090909090909\
         00000005\
         0707070707070707070707070707070707070707",
        "heart 0909090909090909090909090909090909090909 \
         5 0707070707070707070707070707070707070707",
    ),
    (
        "17\
         0909090909090909090909090909090909090909\
         00000005\
         0707070707070707070707070707070707070707",
        "sealed 0909090909090909090909090909090909090909 \
         5 0707070707070707070707070707070707070707",
    ),
];

const NO_MESSAGES: &[&str] = &[
    // Nothing, and kinds with nothing behind them or of no message.
    "",
    "13",
    "18",
    "10",
    "1300",
    // A request and an order whose strings are no requests, or cut or too long by a byte.
    "1106",
    "11",
    "110600000000010161010001020000000268",
    "1106000000000101610100010200000002686900",
    "120000000106",
    "12000000010600000000010161010001020000000268",
    // The slots 0 and 65,537.
    "1200000000060000000001016101000102000000026869",
    "1200010001060000000001016101000102000000026869",
    "13000000000909090909090909090909090909090909090909",
    "13000100010909090909090909090909090909090909090909",
    "14000000000909090909090909090909090909090909090909",
    // Votes a byte too short and a byte too long.
    "130000010209090909090909090909090909090909090909",
    "1300000102090909090909090909090909090909090909090900",
    "140000010209090909090909090909090909090909090909",
    // A reply to request 0, one without an outcome, of no kind, too long, and of version 0.
    "150000000002",
    "1500000003",
    "150000000306",
    "15000000030200",
    "150000000301000000000707070707070707070707070707070707070707",
    "1500000003010000000207070707070707070707070707070707070707",
    // Version 0, and a mark a byte too short.
    "160909090909090909090909090909090909090909000000000707070707070707070707070707070707070707",
    "1709090909090909090909090909090909090909090000000507070707070707070707070707070707070707",
];

fn bytes_of(alloc: Global, digits: &str) -> Result<Bytes, Broken> {
    Ok(Bytes::from_vec(decoded(alloc, digits)?)?)
}

// A message as text.
fn told(alloc: Global, message: &Message) -> Result<String, Broken> {
    match message {
        Message::Request(request) => request_line(alloc, request.as_slice()),
        Message::PrePrepare { seq, request } => order_line(alloc, seq.0, request.as_slice()),
        Message::Prepare { seq, name } => vote_line(alloc, "prepare", seq.0, *name),
        Message::Commit { seq, name } => vote_line(alloc, "commit", seq.0, *name),
        Message::Reply { number, outcome } => reply_line(alloc, *number, *outcome),
        Message::Heart {
            object,
            version,
            name,
        } => mark_line(alloc, "heart", *object, version.0, *name),
        Message::Sealed {
            object,
            version,
            manifest,
        } => mark_line(alloc, "sealed", *object, version.0, *manifest),
    }
}

fn request_line(alloc: Global, request: &[u8]) -> Result<String, Broken> {
    let mut text = line(alloc, "request ")?;
    add(&mut text, digits_of(alloc, request))?;
    Ok(text)
}

// A word, and a number behind it.
fn numbered(alloc: Global, kind: &str, value: u32) -> Result<String, Broken> {
    let mut text = line(alloc, kind)?;
    text.push_str(" ")?;
    add(&mut text, number(alloc, value as u64))?;
    text.push_str(" ")?;
    Ok(text)
}

fn order_line(alloc: Global, slot: u32, request: &[u8]) -> Result<String, Broken> {
    let mut text = numbered(alloc, "order", slot)?;
    add(&mut text, digits_of(alloc, request))?;
    Ok(text)
}

fn vote_line(alloc: Global, kind: &str, slot: u32, name: Name) -> Result<String, Broken> {
    let mut text = numbered(alloc, kind, slot)?;
    add(&mut text, digits_of_name(alloc, name))?;
    Ok(text)
}

fn reply_line(alloc: Global, value: u32, outcome: Outcome) -> Result<String, Broken> {
    let mut text = numbered(alloc, "reply", value)?;
    add(&mut text, outcome_text(alloc, outcome))?;
    Ok(text)
}

fn outcome_text(alloc: Global, outcome: Outcome) -> Result<String, Broken> {
    match outcome {
        Outcome::Made { version, name } => vote_line(alloc, "made", version.0, name),
        Outcome::NoClause => line(alloc, "no clause"),
        Outcome::OutOfRange => line(alloc, "out of range"),
        Outcome::TooLong => line(alloc, "too long"),
        Outcome::Repeat => line(alloc, "repeat"),
    }
}

fn mark_line(
    alloc: Global,
    kind: &str,
    object: Name,
    version: u32,
    name: Name,
) -> Result<String, Broken> {
    let mut text = line(alloc, kind)?;
    text.push_str(" ")?;
    add(&mut text, digits_of_name(alloc, object))?;
    add(&mut text, vote_line(alloc, "", version, name))?;
    Ok(text)
}

fn written(alloc: Global, message: &Message) -> Result<String, Broken>
    requires { MessageFits message.now }
{
    let bytes = write(alloc, message)?;
    digits_of(alloc, bytes.as_slice())
}

fn told_digits(alloc: Global, digits: &str) -> Result<String, Broken> {
    let bytes = bytes_of(alloc, digits)?;
    match read(alloc, &bytes)? {
        Some(message) => told(alloc, &message),
        None => line(alloc, "no message"),
    }
}

fn written_again(alloc: Global, digits: &str) -> Result<String, Broken> {
    let bytes = bytes_of(alloc, digits)?;
    match read(alloc, &bytes)? {
        Some(message) => written(alloc, &message),
        None => line(alloc, "no message"),
    }
}

#[test]
fn messages_are_read_and_written(rt: HostRuntime) {
    for (digits, text) in MESSAGES {
        same(&rt, told_digits(rt.alloc(), digits), text);
        same(&rt, written_again(rt.alloc(), digits), digits);
    }
}

#[test]
fn other_bytes_are_no_message(rt: HostRuntime) {
    for digits in NO_MESSAGES {
        same(&rt, told_digits(rt.alloc(), digits), "no message");
    }
}

fn nines() -> Name {
    Name::from_bytes([9; 20])
}

fn prepare_digits(alloc: Global) -> Result<String, Broken> {
    let vote = Message::Prepare {
        seq: Seq(258),
        name: nines(),
    };
    written(alloc, &vote)
}

fn commit_digits(alloc: Global) -> Result<String, Broken> {
    let vote = Message::Commit {
        seq: Seq(258),
        name: nines(),
    };
    written(alloc, &vote)
}

fn heart_digits(alloc: Global) -> Result<String, Broken> {
    let heart = Message::Heart {
        object: nines(),
        version: Version(5),
        name: Name::from_bytes([7; 20]),
    };
    written(alloc, &heart)
}

#[test]
fn messages_that_were_made_here(rt: HostRuntime) {
    let prepare = "13000001020909090909090909090909090909090909090909";
    same(&rt, prepare_digits(rt.alloc()), prepare);
    let commit = "14000001020909090909090909090909090909090909090909";
    same(&rt, commit_digits(rt.alloc()), commit);
    let heart = "16\
                 0909090909090909090909090909090909090909\
                 00000005\
                 0707070707070707070707070707070707070707";
    same(&rt, heart_digits(rt.alloc()), heart);
}

fn told_out(alloc: Global) -> Result<String, Broken> {
    let out = Out {
        to: Party::Member(MemberId(2)),
        bytes: bytes_of(alloc, "150000000305")?,
    };
    line(alloc, about(&out))
}

fn about(out: &Out) -> &'static str {
    if out.to == Party::Member(MemberId(2)) && out.bytes.len() == 6 {
        "6 bytes for member 2"
    } else {
        "other bytes"
    }
}

#[test]
fn bytes_for_a_party(rt: HostRuntime) {
    same(&rt, told_out(rt.alloc()), "6 bytes for member 2");
}
