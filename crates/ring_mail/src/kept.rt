// The messages that are kept.
ghost use Rattle.std.specs.Prelude.{◌≡◌, ◌≤◌, length};

use bytes::Bytes;
use pond_base::Party;
use std::collections::BTreeSet;

/// A message of a link, with its number in the order of sending.
#[derive(Debug, Drop)]
pub(crate) struct Kept {
    pub(crate) bytes: Bytes,
    pub(crate) number: u32,
    pub(crate) delivered: bool,
}

/// Where a message stands: its sender, its receiver, and its place, counted from 0, among the messages
/// from the one to the other.
#[derive(Clone, Copy, Debug, PartialEq, Eq)]
pub struct Note {
    pub from: Party,
    pub to: Party,
    pub place: u32,
}

/// The numbers of the messages that wait, by the links on which they were sent, and which seats are
/// muted. The first message of each link whose sender and receiver are not muted stands in one order
/// with those of the other links.
#[derive(Drop)]
pub struct Queue {
    pub(crate) waiting: Vec<BTreeSet<u32>>,
    // Of the first message of each link: its number times the count of links, and its link.
    pub(crate) heads: BTreeSet<u64>,
    pub(crate) muted: Vec<bool>,
    ghost links: { length waiting.items ≡ 676 },
    ghost seats: { length muted.items ≡ 26 },
}

/// The messages that were sent, by their links, and the order in which they were sent; and what is passed
/// over: messages from and to muted parties, and lost messages, which may be named before they are sent.
#[derive(Drop)]
pub struct Mail {
    pub(crate) links: Vec<Vec<Kept>>,
    pub(crate) order: Vec<Note>,
    // So many of the first messages were all delivered.
    pub(crate) front: usize,
    // The places of each link that were lost.
    pub(crate) lost: Vec<BTreeSet<u32>>,
    pub(crate) queue: Queue,
    ghost all: { length links.items ≡ 676 },
    ghost few: { length order.items ≤ 4294967295 },
    ghost within: { front ≤ length order.items },
    ghost lose: { length lost.items ≡ 676 },
}
