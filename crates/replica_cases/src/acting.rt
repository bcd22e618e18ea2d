// What is done with five replicas, and what is told of it.
ghost use Rattle.std.specs.Prelude.{◌≡◌, ◌<◌, length, IfOk};

use crate::ring::Ring;
use crate::strings::STRINGS;
use crate::telling::{Broken, add, add_number, decoded, digits_of, line, number, same};
use block_names::{Book, FoldHash, Hash160, NameFault};
use bytes::Bytes;
use dissemination::{Grove, Place, Push};
use pond_base::{Label, MemberId, Name};
use std::alloc::Global;
use std::process::Abort;

// A step. A string is named by its word, and a replica by its number.
pub enum Act {
    // The correct member has this version, with this root.
    Execute(u32, &'static str),
    // The correct member gives this string no more, or again.
    Withhold(&'static str),
    Give(&'static str),
    // The members are cut, or this replica is, or none.
    CutMember,
    CutReplica(u32),
    Mend,
    // A lie in place of the first string.
    Lie(u32, &'static str, &'static str),
    Push(u32),
    Offer(u32, &'static str),
    // What a replica is asked for.
    Names(u32),
    Version(u32),
    Chain(u32),
}

#[derive(Drop)]
struct Case {
    alloc: Global,
    book: Book<FoldHash>,
    grove: Grove,
    ring: Ring,
    label: Label,
}

// Five replicas: the first below the correct member, the second and the third below one another, the
// fourth below the faulty member, and the last with a cache of one.
fn forest(alloc: Global) -> Result<Grove, Broken>
    ensures { IfOk result (λ grove. length grove ≡ 5) }
{
    let mut grove = Grove::new(alloc);
    grove.plant(Place::Member(MemberId(0)), 16)?;
    grove.plant(Place::Replica(0), 16)?;
    grove.plant(Place::Replica(1), 3)?;
    grove.plant(Place::Member(MemberId(1)), 2)?;
    grove.plant(Place::Member(MemberId(0)), 1)?;
    Ok(grove)
}

// The string of a word.
fn string(alloc: Global, word: &str) -> Result<Bytes, Broken> {
    for (other, digits) in STRINGS {
        if *other == word {
            return Ok(Bytes::from_vec(decoded(alloc, digits)?)?);
        }
    }
    Err(Broken::Unfit)
}

fn name(alloc: Global, word: &str) -> Result<Name, Broken> {
    let string = string(alloc, word)?;
    Ok(FoldHash.hash(&string))
}

// The word of a string.
fn word(alloc: Global, string: &[u8]) -> Result<String, Broken> {
    let told = digits_of(alloc, string)?;
    for (word, digits) in STRINGS {
        if told.as_str() == *digits {
            return line(alloc, word);
        }
    }
    Ok(told)
}

// The first word that has a name.
fn word_of_name(alloc: Global, name: Name) -> Result<String, Broken> {
    for (word, digits) in STRINGS {
        let string = decoded(alloc, digits)?;
        if FoldHash.hash(string.as_slice()) == name {
            return line(alloc, word);
        }
    }
    Err(Broken::Unfit)
}

// Gives all strings but the last.
fn give_all(alloc: Global, ring: &mut Ring) -> Result<(), Broken> {
    for (word, digits) in STRINGS {
        if *word != "twin" {
            ring.give(Bytes::from_vec(decoded(alloc, digits)?)?)?;
        }
    }
    Ok(())
}

fn begun(alloc: Global) -> Result<Case, Broken>
    ensures { IfOk result (λ case. length case.grove ≡ 5) }
{
    let Ok(label) = Label::read(b"notes") else {
        return Err(Broken::Spelling);
    };
    let mut ring = Ring::new(alloc);
    give_all(alloc, &mut ring)?;
    Ok(Case {
        alloc,
        book: Book::new(alloc, FoldHash),
        grove: forest(alloc)?,
        ring,
        label,
    })
}

fn fault(alloc: Global, fault: &NameFault) -> Result<String, Broken> {
    let NameFault::Clash { old, new } = fault else {
        return Err(Broken::Memory);
    };
    let mut text = line(alloc, "clash ")?;
    add(&mut text, word(alloc, old))?;
    text.push_str(" ")?;
    add(&mut text, word(alloc, new))?;
    Ok(text)
}

fn pushed(alloc: Global, push: Push) -> Result<String, Broken> {
    let mut text = String::new(alloc);
    match push {
        Push::Cut => add(&mut text, line(alloc, "cut"))?,
        Push::Behind { own, parent } => {
            add_number(alloc, &mut text, "behind own ", own.0 as u64)?;
            add_number(alloc, &mut text, " parent ", parent.0 as u64)?;
        }
        Push::Took {
            version,
            put,
            missing,
        } => {
            add_number(alloc, &mut text, "took ", version.0 as u64)?;
            add_number(alloc, &mut text, " put ", put as u64)?;
            add_number(alloc, &mut text, " missing ", missing as u64)?;
        }
    }
    Ok(text)
}

fn names(alloc: Global, names: &[Name]) -> Result<String, Broken> {
    let mut text = String::new(alloc);
    for name in names {
        add(&mut text, word_of_name(alloc, *name))?;
        text.push_str(" ")?;
    }
    Ok(text)
}

fn add_place(alloc: Global, text: &mut String, place: Place) -> Result<(), Broken> {
    match place {
        Place::Member(member) => add_number(alloc, text, "member ", member.0 as u64)?,
        Place::Replica(replica) => add_number(alloc, text, "replica ", replica as u64)?,
    }
    text.push_str(" ")?;
    Ok(())
}

fn places(alloc: Global, places: &[Place]) -> Result<String, Broken> {
    let mut text = String::new(alloc);
    for place in places {
        add_place(alloc, &mut text, *place)?;
    }
    Ok(text)
}

fn push(case: &mut Case, replica: u32) -> Result<String, Broken>
    requires { replica < length case.old.grove }
    ensures { length case.new.grove ≡ length case.old.grove }
{
    match case
        .grove
        .push_from(&mut case.book, &case.ring, replica, &case.label)
    {
        Ok(push) => pushed(case.alloc, push),
        Err(cause) => fault(case.alloc, &cause),
    }
}

fn offer(case: &mut Case, replica: u32, asked: &str) -> Result<String, Broken>
    requires { replica < length case.old.grove }
    ensures { length case.new.grove ≡ length case.old.grove }
{
    let asked = name(case.alloc, asked)?;
    match case.grove.offer(&mut case.book, &case.ring, replica, asked) {
        Ok(Some(string)) => word(case.alloc, &string),
        Ok(None) => line(case.alloc, "nothing"),
        Err(cause) => fault(case.alloc, &cause),
    }
}

fn lie(case: &mut Case, replica: u32, about: &str, told: &str) -> Result<String, Broken>
    requires { replica < length case.old.grove }
    ensures { length case.new.grove ≡ length case.old.grove }
{
    let about = name(case.alloc, about)?;
    let told = string(case.alloc, told)?;
    case.grove.lie(replica, about, told)?;
    line(case.alloc, "done")
}

// What a replica is asked for, and what it does.
fn at_replica(case: &mut Case, replica: u32, act: &Act) -> Result<String, Broken>
    requires { replica < length case.old.grove }
    ensures { length case.new.grove ≡ length case.old.grove }
{
    match act {
        Act::Push(_) => push(case, replica),
        Act::Offer(_, asked) => offer(case, replica, asked),
        Act::Lie(_, about, told) => lie(case, replica, about, told),
        Act::Version(_) => number(
            case.alloc,
            case.grove.version(replica, &case.label).0 as u64,
        ),
        Act::Chain(_) => places(case.alloc, case.grove.chain(replica)?.as_slice()),
        _ => names(case.alloc, case.grove.cache(replica).names()?.as_slice()),
    }
}

// What happens to the members, and to what is cut.
fn at_ring(alloc: Global, ring: &mut Ring, act: &Act) -> Result<String, Broken> {
    match act {
        Act::Execute(version, root) => ring.execute(*version, name(alloc, root)?),
        Act::Withhold(word) => ring.withhold(name(alloc, word)?),
        Act::Give(word) => ring.give(string(alloc, word)?)?,
        Act::CutMember => ring.cut_members(),
        Act::CutReplica(replica) => ring.cut_replica(*replica),
        _ => ring.mend(),
    }
    line(alloc, "done")
}

// The replica that does something or is asked for it, if one is.
fn replica_of(act: &Act) -> Option<u32> {
    match act {
        Act::Lie(replica, _, _) | Act::Offer(replica, _) => Some(*replica),
        Act::Push(replica) | Act::Names(replica) => Some(*replica),
        Act::Version(replica) | Act::Chain(replica) => Some(*replica),
        _ => None,
    }
}

fn step(case: &mut Case, act: &Act) -> Result<String, Broken>
    requires { length case.old.grove ≡ 5 }
    ensures { length case.new.grove ≡ 5 }
{
    match replica_of(act) {
        Some(replica) if replica < 5 => at_replica(case, replica, act),
        Some(_) => Err(Broken::Unfit),
        None => at_ring(case.alloc, &mut case.ring, act),
    }
}

// Does all steps, and compares what each tells.
fn do_all(rt: &impl Abort, case: &mut Case, steps: &[(Act, &str)])
    requires { length case.old.grove ≡ 5 }
{
    for (act, told) in steps {
        same(rt, step(case, act), told);
    }
}

// The same with replicas that are new.
pub fn run_all(rt: &impl Abort, alloc: Global, steps: &[(Act, &str)]) {
    match begun(alloc) {
        Ok(mut case) => do_all(rt, &mut case, steps),
        Err(broken) => same(rt, Err(broken), "five replicas"),
    }
}
