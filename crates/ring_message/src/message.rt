// Messages, and where they go.
use crate::Outcome;
use bytes::Bytes;
use pond_base::{Name, Party, Seq, Version};

/// What a party of the ring is sent.
#[derive(Debug, Drop)]
pub enum Message {
    /// A client's request, as its string.
    Request(Bytes),
    /// The primary's order of a request, as its string, into a slot.
    PrePrepare {
        seq: Seq,
        request: Bytes,
    },
    /// A member's first vote for the request of this name in a slot.
    Prepare {
        seq: Seq,
        name: Name,
    },
    /// A member's second vote for the request of this name in a slot.
    Commit {
        seq: Seq,
        name: Name,
    },
    /// What became of the client's request of this number.
    Reply {
        number: u32,
        outcome: Outcome,
    },
    /// A version of an object, with the name of its root.
    Heart {
        object: Name,
        version: Version,
        name: Name,
    },
    /// A version of an object that was archived, with the name of its manifest.
    Sealed {
        object: Name,
        version: Version,
        manifest: Name,
    },
}

/// Bytes that are sent to a party.
#[derive(Debug, Drop)]
pub struct Out {
    pub to: Party,
    pub bytes: Bytes,
}
