// The writing of messages.
ghost use Rattle.std.specs.Prelude.{◌≡◌, ◌++◌, ◌∷◌, [], IfOk, OnOk};
ghost use Rattle.guarded_update.specs.Spelling.{number};
ghost use Rattle.ring_message.specs.Grammar.{MessageFits, HasPlaces, IsMessage, IsNumber, IsName, OutcomeHasPlaces};
ghost use Rattle.ring_message.specs.Spelling.{outcome_string, mark_string, message_string};

use crate::{Message, Outcome};
use bytes::Bytes;
use pond_base::{Name, OutOfMemory, Version};
use std::alloc::Global;

/// The bytes of a message that fits the grammar: its slot is from 1 to 65,536, its numbers of requests
/// and versions are from 1 on, and its request is one's spelling. What is written is in the grammar, so
/// that it is read again.
pub fn write(alloc: Global, message: &Message) -> Result<Bytes, OutOfMemory>
    requires { MessageFits message.now }
    ensures string { IfOk result (λ string. string ≡ message_string message.now) }
    ensures allowed { OnOk result (IsMessage message.now) }
{
    let mut out = Vec::new(alloc);
    write_message(message, &mut out)?;
    Ok(Bytes::from_vec(out)?)
}

// Adds the bytes of a message.
fn write_message(message: &Message, out: &mut Vec<u8>) -> Result<(), OutOfMemory>
    ensures added { OnOk result (out.new.items ≡ out.old.items ++ message_string message.now) }
    ensures places { OnOk result (HasPlaces message.now) }
{
    match message {
        Message::Request(request) => write_bytes(0x11, request.as_slice(), out),
        Message::PrePrepare { seq, request } => {
            write_numbered(0x12, seq.0, request.as_slice(), out)
        }
        Message::Prepare { seq, name } => write_numbered(0x13, seq.0, &name.bytes(), out),
        Message::Commit { seq, name } => write_numbered(0x14, seq.0, &name.bytes(), out),
        Message::Reply { number, outcome } => write_reply(*number, outcome, out),
        Message::Heart {
            object,
            version,
            name,
        } => write_mark(0x16, object, *version, name, out),
        Message::Sealed {
            object,
            version,
            manifest,
        } => write_mark(0x17, object, *version, manifest, out),
    }
}

// Adds a kind, and bytes.
fn write_bytes(kind: u8, bytes: &[u8], out: &mut Vec<u8>) -> Result<(), OutOfMemory>
    ensures { OnOk result (out.new.items ≡ out.old.items ++ kind ∷ bytes.now) }
{
    out.push(kind)?;
    out.extend_from_slice(bytes)?;
    Ok(())
}

// Adds a kind, a number, and bytes.
fn write_numbered(kind: u8, count: u32, bytes: &[u8], out: &mut Vec<u8>) -> Result<(), OutOfMemory>
    ensures { OnOk result (out.new.items ≡ out.old.items ++ kind ∷ number count ++ bytes.now) }
{
    out.push(kind)?;
    out.extend_from_slice(&count.to_be_bytes())?;
    out.extend_from_slice(bytes)?;
    Ok(())
}

// Adds a reply to a client's request of this number.
fn write_reply(count: u32, outcome: &Outcome, out: &mut Vec<u8>) -> Result<(), OutOfMemory>
    ensures added { OnOk result (out.new.items ≡ out.old.items ++ 21 ∷ number count ++ outcome_string outcome.now) }
    ensures number { OnOk result (IsNumber count) }
    ensures places { OnOk result (OutcomeHasPlaces outcome.now) }
{
    write_numbered(0x15, count, &[], out)?;
    write_outcome(outcome, out)
}

// Adds an outcome.
fn write_outcome(outcome: &Outcome, out: &mut Vec<u8>) -> Result<(), OutOfMemory>
    ensures added { OnOk result (out.new.items ≡ out.old.items ++ outcome_string outcome.now) }
    ensures places { OnOk result (OutcomeHasPlaces outcome.now) }
{
    match outcome {
        Outcome::Made { version, name } => write_numbered(1, version.0, &name.bytes(), out),
        Outcome::NoClause => write_bytes(2, &[], out),
        Outcome::OutOfRange => write_bytes(3, &[], out),
        Outcome::TooLong => write_bytes(4, &[], out),
        Outcome::Repeat => write_bytes(5, &[], out),
    }
}

// Adds a kind, and what a version of an object is told with.
fn write_mark(
    kind: u8,
    object: &Name,
    version: Version,
    name: &Name,
    out: &mut Vec<u8>,
) -> Result<(), OutOfMemory>
    ensures added { OnOk result (out.new.items ≡ out.old.items ++ kind ∷ mark_string object.now version.0 name.now) }
    ensures object { OnOk result (IsName object.now) }
    ensures version { OnOk result (IsNumber version.0) }
    ensures name { OnOk result (IsName name.now) }
{
    out.push(kind)?;
    out.extend_from_slice(&object.bytes())?;
    out.extend_from_slice(&version.0.to_be_bytes())?;
    out.extend_from_slice(&name.bytes())?;
    Ok(())
}
