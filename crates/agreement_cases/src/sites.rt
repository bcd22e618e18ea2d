// What no script shows of a ring: what each event answers, and how many strings are named.
ghost use Rattle.std.specs.Prelude.{IfOk};
ghost use Rattle.pond_world.specs.Setups.{IsSetup};

use crate::telling::{Broken, add, add_number, bytes_of, decoded, line, same};
use block_names::Sha1Hash;
use guarded_update::Setup;
use pond_base::{ClientId, Items, MemberId, Party};
use pond_world::{Site, events_may_come, ring_is_sound, worlds_stay_known};
use ring_world::{Event, Said};
use std::alloc::Global;
use std::thread::Threads;

// What happens to a site. Client 0 submits the update of a request, or appends so many bytes to `a`.
enum Step {
    Submit(&'static str),
    AppendMany(u32),
    Resubmit(u32),
    Deliver(Party, Party, u32),
    Forge(u8, Party, &'static str),
    Settle,
    // A string is named by the site, and by one that was taken apart and put together.
    Name(&'static str),
    NameApart(&'static str),
    Namings,
    Submitted,
}

const M0: Party = Party::Member(MemberId(0));

const M1: Party = Party::Member(MemberId(1));

const C0: Party = Party::Client(ClientId(0));

// Append 61 to `a`, and replace 0 3c.
const APPEND: &str = "0600000000010161010001020000000161";

const CHANGE: &str = "06000000000201610100010100000000000000013c";

// How many faults a ring tolerates, its faulty members, what happens to it, and what is told: what each
// event answers, and whether a settle named no string, few, fewer than 69, or many.
const CASES: &[(u8, &[u8], &[Step], &str)] = &[
    // 65 leaves, of which one is changed.
    (
        0,
        &[],
        &[
            Step::AppendMany(4_097),
            Step::Settle,
            Step::Submit(CHANGE),
            Step::Settle,
            Step::Settle,
            Step::Submitted,
        ],
        "sent 1\nmany\nsent 1\nfew\nnone\nsubmitted 2\n",
    ),
    // Each of four members names the empty version; then others name strings in the same book.
    (
        1,
        &[],
        &[
            Step::Namings,
            Step::NameApart("6265747765656e"),
            Step::Namings,
            Step::Submit(APPEND),
            Step::Name("6166746572"),
        ],
        "namings 4\nnamed\nnamings 5\nsent 4\nnamed\n",
    ),
    // A request goes to four members, the primary orders it, and a lying member sends one message.
    (
        1,
        &[3],
        &[
            Step::Submit(APPEND),
            Step::Forge(3, M0, "1300"),
            Step::Deliver(M1, M0, 1),
            Step::Deliver(C0, M0, 1),
            Step::Resubmit(1),
            Step::Submitted,
        ],
        "sent 4\nsent 1\nnothing\nsent 4\nsent 4\nsubmitted 1\n",
    ),
];

fn faulty(alloc: Global, ids: &[u8]) -> Result<Items<MemberId>, Broken> {
    let mut members = Items::new(alloc);
    for id in ids {
        members.push(MemberId(*id))?;
    }
    Ok(members)
}

// A ring of one client, whose objects have leaves of 64 bytes.
fn setup(alloc: Global, f: u8, ids: &[u8]) -> Result<Setup, Broken>
    ensures { IfOk result IsSetup }
{
    let faulty = faulty(alloc, ids)?;
    if f > 3 || faulty.len() > f as usize {
        return Err(Broken::Unfit);
    }
    Ok(Setup {
        f,
        faulty,
        clients: 1,
        block: 64,
        m: 1,
        n: 2,
        newer: None,
    })
}

fn site(alloc: Global, f: u8, ids: &[u8]) -> Result<Site<Sha1Hash>, Broken> {
    let setup = setup(alloc, f, ids)?;
    Ok(Site::open(alloc, Sha1Hash, &setup)?)
}

// A submit of client 0 with the label and the update of a request.
fn submit(alloc: Global, string: &[u8]) -> Result<Event, Broken> {
    let request = guarded_update::read(alloc, string)?;
    Ok(Event::Submit {
        client: ClientId(0),
        label: request.label,
        update: request.update,
    })
}

// An append to the object `a` of so many bytes, no two of whose whole leaves are alike.
fn append_many(alloc: Global, count: u32) -> Result<Event, Broken> {
    let head = format!(in alloc; "060000000001016101000102{count:08x}")?;
    let mut string = decoded(alloc, head.as_str())?;
    for at in 0..count {
        string.push((at / 64 % 251) as u8 ^ (at % 64) as u8)?;
    }
    submit(alloc, string.as_slice())
}

fn forge(alloc: Global, member: u8, to: Party, digits: &str) -> Result<Event, Broken> {
    Ok(Event::Forge {
        member: MemberId(member),
        to,
        bytes: bytes_of(alloc, digits)?,
    })
}

fn numbered(alloc: Global, word: &str, value: u64) -> Result<String, Broken> {
    let mut text = String::new(alloc);
    add_number(alloc, &mut text, word, value)?;
    text.push_str("\n")?;
    Ok(text)
}

fn said_line(alloc: Global, said: Said) -> Result<String, Broken> {
    match said {
        Said::Nothing => line(alloc, "nothing\n"),
        Said::Sent(count) => numbered(alloc, "sent ", u64::from(count)),
    }
}

// Does an event, and tells what it answered.
fn happens<R: Threads>(
    rt: &R,
    alloc: Global,
    site: &mut Site<Sha1Hash>,
    event: Event,
) -> Result<String, Broken> {
    if !site.world().may(&event) {
        return Err(Broken::Unfit);
    }
    let said = site.step(rt, event)?;
    said_line(alloc, said)
}

fn amount(namings: u64) -> &'static str {
    if namings == 0 {
        "none\n"
    } else if namings < 69 {
        "few\n"
    } else {
        "many\n"
    }
}

fn settle<R: Threads>(rt: &R, alloc: Global, site: &mut Site<Sha1Hash>) -> Result<String, Broken> {
    let before = site.book().namings();
    site.settle(rt)?;
    line(alloc, amount(site.book().namings().saturating_sub(before)))
}

fn name(alloc: Global, site: &mut Site<Sha1Hash>, digits: &str) -> Result<String, Broken> {
    let bytes = bytes_of(alloc, digits)?;
    site.name(bytes.as_slice())?;
    line(alloc, "named\n")
}

// A site that was taken apart and put together.
fn parted(site: Site<Sha1Hash>) -> Site<Sha1Hash> {
    let (book, world) = site.into_parts();
    Site::of(book, world)
}

// How many requests client 0 has submitted.
fn submitted(alloc: Global, site: &Site<Sha1Hash>) -> Result<String, Broken> {
    let client = ClientId(0);
    if !site.world().may(&Event::Resubmit { client, number: 1 }) {
        return Err(Broken::Unfit);
    }
    numbered(
        alloc,
        "submitted ",
        u64::from(site.world().submitted(client)),
    )
}

fn event(alloc: Global, step: &Step) -> Result<Event, Broken> {
    match step {
        Step::Submit(digits) => submit(alloc, bytes_of(alloc, digits)?.as_slice()),
        Step::AppendMany(count) => append_many(alloc, *count),
        Step::Resubmit(number) => Ok(Event::Resubmit {
            client: ClientId(0),
            number: *number,
        }),
        Step::Deliver(from, to, place) => Ok(Event::Deliver {
            from: *from,
            to: *to,
            place: *place,
        }),
        Step::Forge(member, to, digits) => forge(alloc, *member, *to, digits),
        _ => Err(Broken::Unfit),
    }
}

// What a step tells.
fn run_step<R: Threads>(
    rt: &R,
    alloc: Global,
    site: &mut Site<Sha1Hash>,
    step: &Step,
) -> Result<String, Broken> {
    match step {
        Step::Settle => settle(rt, alloc, site),
        Step::Name(digits) | Step::NameApart(digits) => name(alloc, site, digits),
        Step::Namings => numbered(alloc, "namings ", site.book().namings()),
        Step::Submitted => submitted(alloc, site),
        _ => happens(rt, alloc, site, event(alloc, step)?),
    }
}

// A site before a step: where a string is to be named apart, it is taken apart before.
fn set_up(site: Site<Sha1Hash>, step: &Step) -> Site<Sha1Hash> {
    match step {
        Step::NameApart(_) => parted(site),
        _ => site,
    }
}

fn told<R: Threads>(
    rt: &R,
    alloc: Global,
    f: u8,
    ids: &[u8],
    steps: &[Step],
) -> Result<String, Broken> {
    let mut text = String::new(alloc);
    let mut site = site(alloc, f, ids)?;
    for step in steps {
        site = set_up(site, step);
        add(&mut text, run_step(rt, alloc, &mut site, step))?;
    }
    Ok(text)
}

#[test]
fn cases(rt: HostRuntime) {
    for (f, ids, steps, text) in CASES {
        same(&rt, told(&rt, rt.alloc(), *f, ids, steps), text);
    }
    events_may_come();
    ring_is_sound();
    worlds_stay_known();
}
