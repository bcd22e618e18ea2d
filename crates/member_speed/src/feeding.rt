// Requests handed to a ring by hand.
use block_names::{Book, Sha1Hash};
use bytes::Bytes;
use pond_base::{ClientId, MemberId, Party};
use ring_member::Member;
use ring_message::Out;
use std::alloc::Global;

/// How many letters one request causes at most.
const MOST_LETTERS: usize = 4_096;

/// What became of the requests that were handed in.
#[derive(Clone, Copy, Debug)]
pub struct Fed {
    pub requests: u32,
    /// How many letters were delivered.
    pub deliveries: u64,
    /// How many requests the members executed, the fewest of all.
    pub executed: u32,
    /// How many slots something is kept of, the most of all members.
    pub kept: u32,
}

/// A letter on its way.
#[derive(Drop)]
struct Letter {
    from: Party,
    to: Party,
    bytes: Bytes,
}

/// The bytes of a client's message with its request of this number: an append of two bytes.
fn request(alloc: Global, client: u8, number: u32) -> Option<Bytes> {
    let mut out = Vec::new(alloc);
    out.extend_from_slice(&[0x11, 0x06, client]).ok()?;
    out.extend_from_slice(&number.to_be_bytes()).ok()?;
    out.extend_from_slice(&[1, b'a', 1, 0, 1, 2, 0, 0, 0, 2, b'h', b'i'])
        .ok()?;
    Bytes::from_vec(out).ok()
}

/// Adds what a party sends.
fn post(letters: &mut Vec<Letter>, from: Party, sent: Vec<Out>) -> Option<()> {
    for out in sent {
        letters
            .push(Letter {
                from,
                to: out.to,
                bytes: out.bytes,
            })
            .ok()?;
    }
    Some(())
}

/// Delivers a letter, and adds what its receiver sends.
fn deliver(
    members: &mut [Member],
    book: &mut Book<Sha1Hash>,
    letters: &mut Vec<Letter>,
    at: usize,
) -> Option<()> {
    let letter = letters.get(at)?;
    let Party::Member(MemberId(id)) = letter.to else {
        return Some(());
    };
    let member = members.get_mut(usize::from(id))?;
    let sent = member.take(book, letter.from, &letter.bytes).ok()?;
    post(letters, Party::Member(MemberId(id)), sent)
}

/// Delivers all letters in order of sending, those too that are sent meanwhile, and answers how many.
fn deliver_all(
    members: &mut [Member],
    book: &mut Book<Sha1Hash>,
    letters: &mut Vec<Letter>,
) -> Option<usize> {
    for at in 0..MOST_LETTERS {
        if at >= letters.len() {
            return Some(at);
        }
        deliver(members, book, letters, at)?;
    }
    None
}

/// Hands so many requests of sixteen clients to a ring of four members, one after the other, each with
/// all that it causes.
pub fn feed(alloc: Global, requests: u32) -> Option<Fed> {
    let mut book = Book::new(alloc, Sha1Hash);
    let mut members = Vec::new(alloc);
    for id in 0..4 {
        members.push(Member::new(alloc, MemberId(id), 1)).ok()?;
    }
    let mut deliveries: u64 = 0;
    for count in 0..requests {
        let client = (count % 16) as u8;
        let bytes = request(alloc, client, count / 16 + 1)?;
        let mut letters = Vec::new(alloc);
        for id in 0..4 {
            letters
                .push(Letter {
                    from: Party::Client(ClientId(client)),
                    to: Party::Member(MemberId(id)),
                    bytes: bytes.clone().ok()?,
                })
                .ok()?;
        }
        let delivered = deliver_all(&mut members, &mut book, &mut letters)?;
        deliveries = deliveries.wrapping_add(delivered as u64);
    }
    let mut fed = Fed {
        requests,
        deliveries,
        executed: u32::MAX,
        kept: 0,
    };
    for member in &members {
        fed.executed = fed.executed.min(member.executed());
        fed.kept = fed.kept.max(member.kept_slots());
    }
    Some(fed)
}
