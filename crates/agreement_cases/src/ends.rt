// A world that ends at a clash, under a hash that has clashes.
ghost use Rattle.std.specs.Prelude.{◌≡◌, OnOk, false};
ghost use Rattle.pond_node.specs.Standing as node;
ghost use Rattle.pond_world.specs.Setups.{IsSetup};
ghost use Rattle.ring_world.specs.Worlds.{IsKnown};

use crate::telling::{Broken, add, add_number, decoded, digits_of, line, same, truth};
use block_names::{Book, FoldHash, Hash160, StepFault};
use guarded_update::Setup;
use pond_base::{ClientId, Items};
use pond_node::Node;
use pond_world::open;
use ring_world::{Event, Said, World};
use std::alloc::Global;
use std::thread::Threads;

// Appends of 61ee to `a` and of ee61 to `b`, a settle where there is no request, another settle, and an
// append of 61.
const STEPS: &[&str] = &[
    "0600000000010161010001020000000261ee",
    "06000000000201620100010200000002ee61",
    "",
    "",
    "0600000000030161010001020000000161",
];

// What each step answers, whether the world has then ended, and whether a string was named: when all that
// is pending is delivered, the names of two leaves clash, and from then on nothing happens.
const TEXT: &str = "sent 1 ended false named true\n\
    sent 1 ended false named true\n\
    clash 0161ee 01ee61 ended true named true\n\
    ended ended true named false\n\
    ended ended true named false\n";

// A ring of one member and one client.
fn setup(alloc: Global) -> Setup
    ensures { IsSetup result }
{
    Setup {
        f: 0,
        faulty: Items::new(alloc),
        clients: 1,
        block: 64,
        m: 1,
        n: 2,
        newer: None,
    }
}

fn submit(alloc: Global, digits: &str) -> Result<Event, Broken> {
    let string = decoded(alloc, digits)?;
    let request = guarded_update::read(alloc, string.as_slice())?;
    Ok(Event::Submit {
        client: ClientId(0),
        label: request.label,
        update: request.update,
    })
}

fn clash(alloc: Global, old: &[u8], new: &[u8]) -> Result<String, Broken> {
    let mut text = line(alloc, "clash ")?;
    add(&mut text, digits_of(alloc, old))?;
    text.push_str(" ")?;
    add(&mut text, digits_of(alloc, new))?;
    Ok(text)
}

fn fault_text(alloc: Global, fault: StepFault) -> Result<String, Broken> {
    match fault {
        StepFault::Clash { old, new } => clash(alloc, old.as_slice(), new.as_slice()),
        StepFault::Ended => line(alloc, "ended"),
        StepFault::Memory => Err(Broken::Memory),
    }
}

fn said_text(alloc: Global, said: Said) -> Result<String, Broken> {
    match said {
        Said::Nothing => line(alloc, "nothing"),
        Said::Sent(count) => sent(alloc, count as u64),
    }
}

fn sent(alloc: Global, count: u64) -> Result<String, Broken> {
    let mut text = String::new(alloc);
    add_number(alloc, &mut text, "sent ", count)?;
    Ok(text)
}

fn happens<R: Threads, H: Hash160 + Drop>(
    rt: &R,
    alloc: Global,
    world: &mut World<Node>,
    book: &mut Book<H>,
    event: Event,
) -> Result<String, Broken>
    requires { world.old.ended ≡ false → IsKnown node.IsKnown H.naming book.old.held world.old }
    ensures { OnOk result (world.new.ended ≡ false → IsKnown node.IsKnown H.naming book.new.held world.new) }
{
    if !world.may(&event) {
        return Err(Broken::Unfit);
    }
    match world.step(rt, book, event) {
        Ok(said) => said_text(alloc, said),
        Err(fault) => fault_text(alloc, fault),
    }
}

fn settle<R: Threads, H: Hash160 + Drop>(
    rt: &R,
    alloc: Global,
    world: &mut World<Node>,
    book: &mut Book<H>,
) -> Result<String, Broken>
    requires { world.old.ended ≡ false → IsKnown node.IsKnown H.naming book.old.held world.old }
    ensures { OnOk result (world.new.ended ≡ false → IsKnown node.IsKnown H.naming book.new.held world.new) }
{
    match world.settle(rt, book) {
        Ok(_) => line(alloc, "settled"),
        Err(fault) => fault_text(alloc, fault),
    }
}

fn answer<R: Threads, H: Hash160 + Drop>(
    rt: &R,
    alloc: Global,
    world: &mut World<Node>,
    book: &mut Book<H>,
    digits: &str,
) -> Result<String, Broken>
    requires { world.old.ended ≡ false → IsKnown node.IsKnown H.naming book.old.held world.old }
    ensures { OnOk result (world.new.ended ≡ false → IsKnown node.IsKnown H.naming book.new.held world.new) }
{
    if digits.is_empty() {
        return settle(rt, alloc, world, book);
    }
    happens(rt, alloc, world, book, submit(alloc, digits)?)
}

fn add_ends(text: &mut String, ended: bool, named: bool) -> Result<(), Broken> {
    text.push_str(" ended ")?;
    text.push_str(truth(ended))?;
    text.push_str(" named ")?;
    text.push_str(truth(named))?;
    text.push_str("\n")?;
    Ok(())
}

fn run<R: Threads, H: Hash160 + Drop>(
    rt: &R,
    alloc: Global,
    world: &mut World<Node>,
    book: &mut Book<H>,
    steps: &[&str],
    text: &mut String,
) -> Result<(), Broken>
    requires { world.old.ended ≡ false → IsKnown node.IsKnown H.naming book.old.held world.old }
{
    for step in steps {
        let before = book.namings();
        let answer = answer(rt, alloc, world, book, step)?;
        text.push_str(answer.as_str())?;
        add_ends(text, world.ended(), book.namings() > before)?;
    }
    Ok(())
}

fn tell<R: Threads, H: Hash160 + Drop>(
    rt: &R,
    alloc: Global,
    world: &mut World<Node>,
    book: &mut Book<H>,
) -> Result<String, Broken>
    requires { world.old.ended ≡ false → IsKnown node.IsKnown H.naming book.old.held world.old }
{
    let mut text = String::new(alloc);
    run(rt, alloc, world, book, STEPS, &mut text)?;
    Ok(text)
}

fn told<R: Threads>(rt: &R, alloc: Global) -> Result<String, Broken> {
    let mut book = Book::new(alloc, FoldHash);
    let mut world = open(alloc, &mut book, &setup(alloc))?;
    tell(rt, alloc, &mut world, &mut book)
}

#[test]
fn clash_at_execution(rt: HostRuntime) {
    same(&rt, told(&rt, rt.alloc()), TEXT);
}
