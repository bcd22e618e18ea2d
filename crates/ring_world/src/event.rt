// What may happen in a world.
use bytes::Bytes;
use guarded_update::Update;
use pond_base::{ClientId, Label, MemberId, Party};

/// One event of a world.
#[derive(Debug, Drop)]
pub enum Event {
    /// A client sends its next request, an update of the object of a label, to every member.
    Submit {
        client: ClientId,
        label: Label,
        update: Update,
    },
    /// A client sends its request of this number to every member once more.
    Resubmit {
        client: ClientId,
        number: u32,
    },
    /// The message at this place, counted from 1, among those from the one party to the other in the
    /// order of sending, is delivered. At place 0 there is none.
    Deliver {
        from: Party,
        to: Party,
        place: u32,
    },
    /// A faulty member sends any bytes, under its own name.
    Forge {
        member: MemberId,
        to: Party,
        bytes: Bytes,
    },
}
