// The reading of messages.
ghost use Rattle.std.specs.Prelude.{◌≡◌, ◌≤◌, ◌++◌, ◌∷◌, List, ℕ, length, drop, Some, IfOk, IfSome};
ghost use Rattle.guarded_update.specs.Spelling.{number};
ghost use Rattle.ring_message.specs.declared.message.Message.{Message};
ghost use Rattle.ring_message.specs.declared.message.Message.TheVariants.{Request, PrePrepare};
ghost use Rattle.ring_message.specs.declared.outcome.Outcome.{Outcome};
ghost use Rattle.ring_message.specs.declared.outcome.Outcome.TheVariants.{Made};
ghost use Rattle.ring_message.specs.Grammar.{IsRequestString, IsSlot, IsName, IsNumber, OutcomeFits, OutcomeHasPlaces, IsMessage, HasNoRequest};
ghost use Rattle.ring_message.specs.Spelling.{outcome_string, mark_string, message_string};

use crate::{Message, Outcome};
use bytes::Bytes;
use guarded_update::RequestFault;
use pond_base::limits::MOST_SLOTS;
use pond_base::{Fields, Name, OutOfMemory, Seq, Version};
use std::alloc::Global;

/// The message that the bytes spell as a whole, and `None` exactly where they spell none. A request in
/// a message shares its bytes.
pub fn read(alloc: Global, bytes: &Bytes) -> Result<Option<Message>, OutOfMemory>
    ensures read { IfOk result (λ found. IfSome found (λ message. (bytes.now ≡ message_string message) × IsMessage message)) }
    ensures spelled { (message : Message) → IsMessage message → bytes.now ≡ message_string message → IfOk result (λ found. found ≡ Some message) }
{
    let mut fields = Fields::new(bytes.as_slice());
    match fields.take_u8() {
        Ok(0x11) => read_asking(alloc, bytes),
        Ok(0x12) => read_order(alloc, bytes, &mut fields),
        Ok(kind) => Ok(read_news(kind, &mut fields)),
        Err(_) => Ok(None),
    }
}

// A client's request, whose string is all behind the kind.
fn read_asking(alloc: Global, bytes: &Bytes) -> Result<Option<Message>, OutOfMemory>
    requires { 1 ≤ length bytes.now }
    ensures read { IfOk result (λ found. IfSome found (λ message. (17 ∷ drop 1 bytes.now ≡ message_string message) × IsMessage message)) }
    ensures spelled { IsRequestString (drop 1 bytes.now) → IfOk result (λ found. found ≡ Some (Request (drop 1 bytes.now))) }
{
    match read_request(alloc, bytes, 1)? {
        Some(request) => Ok(Some(Message::Request(request))),
        None => Ok(None),
    }
}

// An order of a request, whose string is all behind the number of the slot.
fn read_order(
    alloc: Global,
    bytes: &Bytes,
    fields: &mut Fields,
) -> Result<Option<Message>, OutOfMemory>
    requires { bytes.now ≡ 18 ∷ fields.old }
    ensures read { IfOk result (λ found. IfSome found (λ message. (bytes.now ≡ message_string message) × IsMessage message)) }
    ensures spelled { (seq : ℕ) (request : List ℕ) → IsSlot seq → IsRequestString request → fields.old ≡ number seq ++ request
        → IfOk result (λ found. found ≡ Some (PrePrepare (record { 0 = seq }) request)) }
{
    let Some(seq) = read_seq(fields) else {
        return Ok(None);
    };
    match read_request(alloc, bytes, 5)? {
        Some(request) => Ok(Some(Message::PrePrepare { seq, request })),
        None => Ok(None),
    }
}

// The request that is spelled from a place on, and `None` exactly where none is.
fn read_request(alloc: Global, bytes: &Bytes, at: usize) -> Result<Option<Bytes>, OutOfMemory>
    requires { at ≤ length bytes.now }
    ensures read { IfOk result (λ found. IfSome found (λ request. (request ≡ drop at bytes.now) × IsRequestString request)) }
    ensures spelled { IsRequestString (drop at bytes.now) → IfOk result (λ found. found ≡ Some (drop at bytes.now)) }
{
    let request = bytes.slice(at..)?;
    match guarded_update::read(alloc, request.as_slice()) {
        Ok(_) => Ok(Some(request)),
        Err(RequestFault::BadRequest) => Ok(None),
        Err(RequestFault::Memory) => Err(OutOfMemory),
    }
}

// The message of a kind without a request whose fields are all that is left, and `None` exactly where
// there is none.
fn read_news(kind: u8, fields: &mut Fields) -> Option<Message>
    ensures read { IfSome result (λ message. (kind ∷ fields.old ≡ message_string message) × IsMessage message) }
    ensures spelled { (message : Message) → IsMessage message → HasNoRequest message → kind ∷ fields.old ≡ message_string message → result ≡ Some message }
{
    match kind {
        0x13 => {
            let (seq, name) = read_vote(fields)?;
            Some(Message::Prepare { seq, name })
        }
        0x14 => {
            let (seq, name) = read_vote(fields)?;
            Some(Message::Commit { seq, name })
        }
        0x15 => {
            let number = read_count(fields)?;
            let outcome = read_outcome(fields)?;
            Some(Message::Reply { number, outcome })
        }
        0x16 => {
            let (object, version, name) = read_mark(fields)?;
            Some(Message::Heart {
                object,
                version,
                name,
            })
        }
        0x17 => {
            let (object, version, manifest) = read_mark(fields)?;
            Some(Message::Sealed {
                object,
                version,
                manifest,
            })
        }
        _ => None,
    }
}

// Takes the number of a slot.
fn read_seq(fields: &mut Fields) -> Option<Seq>
    ensures read { IfSome result (λ seq. (fields.old ≡ number seq.0 ++ fields.new) × IsSlot seq.0) }
    ensures spelled { (seq : ℕ) (rest : List ℕ) → IsSlot seq → fields.old ≡ number seq ++ rest → (result ≡ Some (record { 0 = seq })) × (fields.new ≡ rest) }
{
    let Ok(seq) = fields.take_u32() else {
        return None;
    };
    if seq < 1 || seq > MOST_SLOTS {
        return None;
    }
    Some(Seq(seq))
}

// Takes a number from 1 on.
fn read_count(fields: &mut Fields) -> Option<u32>
    ensures read { IfSome result (λ count. (fields.old ≡ number count ++ fields.new) × (1 ≤ count) × IsNumber count) }
    ensures spelled { (count : ℕ) (rest : List ℕ) → 1 ≤ count → IsNumber count → fields.old ≡ number count ++ rest → (result ≡ Some count) × (fields.new ≡ rest) }
{
    let Ok(count) = fields.take_u32() else {
        return None;
    };
    if count < 1 {
        return None;
    }
    Some(count)
}

// The name that is all that is left.
fn read_name(fields: &mut Fields) -> Option<Name>
    ensures read { IfSome result (λ name. (fields.old ≡ name) × IsName name) }
    ensures spelled { (name : List ℕ) → IsName name → fields.old ≡ name → result ≡ Some name }
{
    let Ok(name) = fields.take_name() else {
        return None;
    };
    if fields.left() != 0 {
        return None;
    }
    Some(name)
}

// The slot and the name of a vote, which are all that is left.
fn read_vote(fields: &mut Fields) -> Option<(Seq, Name)>
    ensures read { IfSome result (λ vote. (fields.old ≡ number vote.0.0 ++ vote.1) × IsSlot vote.0.0 × IsName vote.1) }
    ensures spelled { (seq : ℕ) (name : List ℕ) → IsSlot seq → IsName name → fields.old ≡ number seq ++ name → result ≡ Some (record { 0 = seq }, name) }
{
    let seq = read_seq(fields)?;
    let name = read_name(fields)?;
    Some((seq, name))
}

// What a version of an object is told with, which is all that is left.
fn read_mark(fields: &mut Fields) -> Option<(Name, Version, Name)>
    ensures read { IfSome result (λ mark. (fields.old ≡ mark_string mark.0 mark.1.0 mark.2) × (1 ≤ mark.1.0) × IsName mark.0 × IsNumber mark.1.0 × IsName mark.2) }
    ensures spelled { (object : List ℕ) (version : ℕ) (name : List ℕ) → 1 ≤ version → IsName object → IsNumber version → IsName name
        → fields.old ≡ mark_string object version name → result ≡ Some (object, record { 0 = version }, name) }
{
    let Ok(object) = fields.take_name() else {
        return None;
    };
    let version = read_count(fields)?;
    let name = read_name(fields)?;
    Some((object, Version(version), name))
}

// The outcome that is all that is left.
fn read_outcome(fields: &mut Fields) -> Option<Outcome>
    ensures read { IfSome result (λ outcome. (fields.old ≡ outcome_string outcome) × OutcomeFits outcome × OutcomeHasPlaces outcome) }
    ensures spelled { (outcome : Outcome) → OutcomeFits outcome → OutcomeHasPlaces outcome → fields.old ≡ outcome_string outcome → result ≡ Some outcome }
{
    let Ok(kind) = fields.take_u8() else {
        return None;
    };
    if kind == 1 {
        return read_made(fields);
    }
    if fields.left() != 0 {
        return None;
    }
    match kind {
        2 => Some(Outcome::NoClause),
        3 => Some(Outcome::OutOfRange),
        4 => Some(Outcome::TooLong),
        5 => Some(Outcome::Repeat),
        _ => None,
    }
}

// The version that was made, which is all that is left.
fn read_made(fields: &mut Fields) -> Option<Outcome>
    ensures read { IfSome result (λ outcome. (1 ∷ fields.old ≡ outcome_string outcome) × OutcomeFits outcome × OutcomeHasPlaces outcome) }
    ensures spelled { (version : ℕ) (name : List ℕ) → 1 ≤ version → IsNumber version → IsName name → fields.old ≡ number version ++ name
        → result ≡ Some (Made (record { 0 = version }) name) }
{
    let version = Version(read_count(fields)?);
    let name = read_name(fields)?;
    Some(Outcome::Made { version, name })
}
