// Equal copies of events.
use crate::event::Event;
use pond_base::{Duplicate, OutOfMemory};

impl Duplicate for Event {
    fn duplicate(&self) -> Result<Event, OutOfMemory> {
        match self {
            Event::Submit {
                client,
                label,
                update,
            } => Ok(Event::Submit {
                client: *client,
                label: *label,
                update: update.duplicate()?,
            }),
            Event::Resubmit { client, number } => Ok(Event::Resubmit {
                client: *client,
                number: *number,
            }),
            Event::Deliver { from, to, place } => Ok(Event::Deliver {
                from: *from,
                to: *to,
                place: *place,
            }),
            Event::Forge { member, to, bytes } => Ok(Event::Forge {
                member: *member,
                to: *to,
                bytes: bytes.clone()?,
            }),
        }
    }
}
