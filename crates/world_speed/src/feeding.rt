// Requests handed to a world.
use block_names::Sha1Hash;
use bytes::Bytes;
use guarded_update::{Action, Clause, Setup, Update};
use pond_base::{ClientId, Items, Label, MemberId};
use pond_world::Site;
use ring_world::Event;
use std::alloc::Global;
use std::thread::Threads;

/// What became of the requests that were handed in.
#[derive(Clone, Copy, Debug)]
pub struct Fed {
    pub requests: u32,
    /// How many messages were delivered.
    pub deliveries: u32,
    /// How many requests the members executed, the fewest of all.
    pub executed: u32,
    /// How many versions they made of objects.
    pub versions: usize,
}

/// The next request of a client: an append of two bytes to an object.
fn append(alloc: Global, client: u8, label: &[u8]) -> Option<Event> {
    let mut actions = Items::new(alloc);
    actions
        .push(Action::Append {
            content: Bytes::copy_from_slice(alloc, b"hi").ok()?,
        })
        .ok()?;
    let mut clauses = Items::new(alloc);
    clauses
        .push(Clause {
            guards: Items::new(alloc),
            actions,
        })
        .ok()?;
    Some(Event::Submit {
        client: ClientId(client),
        label: Label::read(label).ok()?,
        update: Update { clauses },
    })
}

/// Does the next event.
fn step<R: Threads>(rt: &R, site: &mut Site<Sha1Hash>, event: Event) -> Option<()> {
    if !site.world().may(&event) {
        return None;
    }
    site.step(rt, event).ok()?;
    Some(())
}

/// Hands in so many requests of sixteen clients in turn.
fn submit<R: Threads>(
    rt: &R,
    alloc: Global,
    site: &mut Site<Sha1Hash>,
    requests: u32,
) -> Option<()> {
    let labels = [b"a", b"b", b"c", b"d", b"e", b"f", b"g", b"h"];
    for count in 0..requests {
        let label = labels[(count % 8) as usize];
        let event = append(alloc, (count % 16) as u8, label)?;
        step(rt, site, event)?;
    }
    Some(())
}

/// The site of a ring of ten members before any event.
fn open(alloc: Global) -> Option<Site<Sha1Hash>> {
    let setup = Setup {
        f: 3,
        faulty: Items::new(alloc),
        clients: 16,
        block: 4_096,
        m: 4,
        n: 8,
        newer: None,
    };
    Site::open(alloc, Sha1Hash, &setup).ok()
}

/// How many requests the members executed, the fewest of all.
fn fewest(site: &Site<Sha1Hash>) -> Option<u32> {
    let mut executed = u32::MAX;
    for id in 0..10 {
        executed = executed.min(site.world().node(MemberId(id))?.executed());
    }
    Some(executed)
}

/// Hands so many requests to a ring of ten members, and then all that they cause.
pub fn feed<R: Threads>(rt: &R, alloc: Global, requests: u32) -> Option<Fed> {
    let mut site = open(alloc)?;
    submit(rt, alloc, &mut site, requests)?;
    let deliveries = site.settle(rt).ok()?;
    Some(Fed {
        requests,
        deliveries,
        executed: fewest(&site)?,
        versions: site.world().committed().objects().made().len(),
    })
}
