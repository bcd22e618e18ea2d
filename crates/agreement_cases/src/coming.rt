// Which events may come next, and whether those that may do something.
ghost use Rattle.std.specs.Prelude.{IfOk};
ghost use Rattle.pond_world.specs.Setups.{IsSetup};

use block_names::Sha1Hash;
use bytes::Bytes;
use guarded_update::{Action, Clause, Setup, Update};
use pond_base::{ClientId, Items, Label, MemberId, Party};
use pond_world::Site;
use ring_world::{Event, Said};
use std::alloc::Global;
use std::test::Fail;
use std::thread::Threads;

// An event that is asked for. A client submits an update of so many clauses, each an append of one byte.
enum Ask {
    Submit(u8, u8),
    Resubmit(u8, u32),
    Deliver(Party, Party, u32),
    Forge(u8, Party),
}

const M0: Party = Party::Member(MemberId(0));

const M1: Party = Party::Member(MemberId(1));

const M4: Party = Party::Member(MemberId(4));

// Seats of members and clients are counted in one: were there so many members, this one would sit where
// client 2 does.
const M12: Party = Party::Member(MemberId(12));

const C0: Party = Party::Client(ClientId(0));

const C2: Party = Party::Client(ClientId(2));

const C3: Party = Party::Client(ClientId(3));

const C16: Party = Party::Client(ClientId(16));

// How many faults a ring of three clients tolerates, a member, who is faulty where faults are tolerated,
// the events that are asked for, and what came of each: n where it may not come, and of those that may, and
// come, 0 where there was nothing to do, and else y.
const CASES: &[(u8, u8, &[Ask], &str)] = &[
    // No party outside the ring takes the message of client 2 away, and none stands at place 0.
    (
        0,
        0,
        &[
            Ask::Deliver(C2, M0, 1),
            Ask::Submit(2, 1),
            Ask::Deliver(M12, M0, 1),
            Ask::Deliver(M0, M12, 1),
            Ask::Deliver(M1, M0, 1),
            Ask::Deliver(M0, C3, 1),
            Ask::Deliver(C16, M0, 1),
            Ask::Deliver(C2, M0, 0),
            Ask::Deliver(C2, M0, 4_294_967_295),
            Ask::Deliver(C2, M0, 1),
        ],
        "0ynnnnn00y",
    ),
    // A request is a declared client's, and one that was submitted.
    (
        0,
        0,
        &[
            Ask::Submit(3, 1),
            Ask::Submit(16, 1),
            Ask::Submit(0, 0),
            Ask::Submit(0, 17),
            Ask::Resubmit(0, 1),
            Ask::Submit(0, 16),
            Ask::Resubmit(0, 0),
            Ask::Resubmit(0, 1),
            Ask::Resubmit(0, 2),
            Ask::Resubmit(1, 1),
            Ask::Forge(0, C0),
        ],
        "nnnnnynynnn",
    ),
    // Only a faulty member forges.
    (
        1,
        3,
        &[
            Ask::Forge(3, C0),
            Ask::Forge(3, M1),
            Ask::Forge(3, M4),
            Ask::Forge(3, C3),
            Ask::Forge(2, C0),
            Ask::Forge(4, C0),
            Ask::Forge(12, C0),
            Ask::Deliver(Party::Member(MemberId(3)), C0, 1),
        ],
        "yynnnnny",
    ),
];

fn setup(alloc: Global, f: u8, member: u8) -> Result<Setup, Fail>
    ensures { IfOk result IsSetup }
{
    if f > 1 {
        return Err(Fail::new("more than one fault"));
    }
    let mut faulty = Items::new(alloc);
    if f == 1 {
        faulty.push(MemberId(member))?;
    }
    Ok(Setup {
        f,
        faulty,
        clients: 3,
        block: 64,
        m: 1,
        n: 2,
        newer: None,
    })
}

fn append(alloc: Global) -> Result<Clause, Fail> {
    let content = Bytes::copy_from_slice(alloc, b"a")?;
    let mut actions = Items::new(alloc);
    actions.push(Action::Append { content })?;
    Ok(Clause {
        guards: Items::new(alloc),
        actions,
    })
}

fn submit(alloc: Global, client: u8, count: u8) -> Result<Event, Fail> {
    let mut clauses = Items::new(alloc);
    for _ in 0..count {
        clauses.push(append(alloc)?)?;
    }
    Ok(Event::Submit {
        client: ClientId(client),
        label: Label::read(b"a")?,
        update: Update { clauses },
    })
}

fn event(alloc: Global, ask: &Ask) -> Result<Event, Fail> {
    match ask {
        Ask::Submit(client, count) => submit(alloc, *client, *count),
        Ask::Resubmit(client, number) => Ok(Event::Resubmit {
            client: ClientId(*client),
            number: *number,
        }),
        Ask::Deliver(from, to, place) => Ok(Event::Deliver {
            from: *from,
            to: *to,
            place: *place,
        }),
        Ask::Forge(member, to) => Ok(Event::Forge {
            member: MemberId(*member),
            to: *to,
            bytes: Bytes::copy_from_slice(alloc, b"a")?,
        }),
    }
}

// What comes of an event, where it may come.
fn after<R: Threads>(rt: &R, site: &mut Site<Sha1Hash>, event: Event) -> Result<char, Fail> {
    if !site.world().may(&event) {
        return Ok('n');
    }
    match site.step(rt, event)? {
        Said::Nothing => Ok('0'),
        Said::Sent(_) => Ok('y'),
    }
}

fn told<R: Threads>(rt: &R, alloc: Global, setup: &Setup, asks: &[Ask]) -> Result<String, Fail>
    requires { IsSetup setup.now }
{
    let mut text = String::new(alloc);
    let mut site = Site::open(alloc, Sha1Hash, setup)?;
    for ask in asks {
        text.push(after(rt, &mut site, event(alloc, ask)?)?)?;
    }
    Ok(text)
}

#[test]
fn cases(rt: HostRuntime) -> Result<(), Fail> {
    let alloc = rt.alloc();
    for (f, member, asks, wanted) in CASES {
        let setup = setup(alloc, *f, *member)?;
        assert_eq!(rt; told(&rt, alloc, &setup, asks)?.as_str(), *wanted);
    }
    Ok(())
}
