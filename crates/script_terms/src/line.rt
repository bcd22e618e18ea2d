// The events of a script.
use bytes::Bytes;
use guarded_update::Action;
use pond_base::{ClientId, Items, Label, MemberId, Name, Party, Seq, Version};

/// An event of a script.
#[derive(Debug, Drop)]
pub enum Line {
    /// The client sends a new request for the object of the label.
    Submit {
        client: ClientId,
        label: Label,
        clauses: Items<LineClause>,
    },
    /// The client sends its request of the number again.
    Resubmit {
        client: ClientId,
        number: u32,
    },
    /// The message at a place, from 1, among those that a party sent to another is delivered.
    Deliver {
        from: Party,
        to: Party,
        place: u32,
    },
    /// From now on that message is passed over where all that was sent is delivered.
    Lose {
        from: Party,
        to: Party,
        place: u32,
    },
    /// All that was sent is delivered.
    Settle,
    /// From now on messages from and to the party are passed over there.
    Mute {
        party: Party,
    },
    /// From now on they are no more.
    Unmute {
        party: Party,
    },
    /// The faulty member sends an order of the client's request of the number for a slot.
    ForgeOrder {
        member: MemberId,
        to: Party,
        seq: Seq,
        client: ClientId,
        number: u32,
    },
    /// It sends a prepare of that request's name for a slot.
    ForgePrepare {
        member: MemberId,
        to: Party,
        seq: Seq,
        client: ClientId,
        number: u32,
    },
    /// It sends a commit of that request's name for a slot.
    ForgeCommit {
        member: MemberId,
        to: Party,
        seq: Seq,
        client: ClientId,
        number: u32,
    },
    /// It sends a heart: that the version of the label's object has the root of this name.
    ForgeHeart {
        member: MemberId,
        to: Party,
        label: Label,
        version: Version,
        name: Name,
    },
    /// It sends any bytes.
    ForgeRaw {
        member: MemberId,
        to: Party,
        bytes: Bytes,
    },
    /// From now on reads, pushes and offers do not reach the place; the ring's messages do.
    Cut {
        spot: Spot,
    },
    /// From now on they reach it again.
    Mend {
        spot: Spot,
    },
    /// The client reads the last version that it knows.
    Read {
        client: ClientId,
        label: Label,
    },
    /// What the member executed is shown.
    ShowMember {
        member: MemberId,
    },
    /// What the client believes is shown.
    ShowClient {
        client: ClientId,
    },
    /// What the member holds of the version is shown.
    ShowVersion {
        member: MemberId,
        label: Label,
        version: Version,
    },
    /// The last deliveries are shown.
    ShowRecent,
}

/// A place that can be cut off.
#[derive(Clone, Copy, Debug, PartialEq, Eq)]
pub enum Spot {
    /// A member of the ring.
    Member(MemberId),
}

/// Guards, and the actions that are done one after the other where all of them hold.
#[derive(Debug, Drop)]
pub struct LineClause {
    pub guards: Items<LineGuard>,
    pub actions: Items<Action>,
}

/// What must hold of the last version of an object, with the contents that the script writes.
#[derive(Debug, Drop)]
pub enum LineGuard {
    /// It has this number.
    VersionIs(Version),
    /// It has so many bytes.
    SizeIs(u32),
    /// It has a leaf with this content at this place, counted from 0.
    BlockIs { place: u32, content: Bytes },
}
