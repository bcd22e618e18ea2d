// Votes, which of them count, and what is believed of versions.
use crate::telling::{Broken, add, add_number, line, number, same, truth};
use heartbeat::Votes;
use pond_base::{MemberId, Name, Seq, Version};
use quorum::{Phase, Tally, Window};
use std::alloc::Global;

// A sender and its vote; whether that counts, and then how many senders have first voted for 7 and 8.
const TALLY: &[(u8, u8, &str)] = &[
    (0, 7, "true 1 0"),
    (0, 7, "false 1 0"),
    (0, 8, "false 1 0"),
    (9, 7, "true 2 0"),
];

// What happens to a window: a sender's vote for 7 in a phase for a slot, or a floor.
#[derive(Clone, Copy)]
enum Step {
    Prepare(u32, u8),
    Commit(u32, u8),
    Advance(u32),
}

// Whether a vote counts, and then the floor, how many slots are kept, and how many senders have first
// voted for 7 in each phase for slot 5.
const WINDOW: &[(Step, &str)] = &[
    (Step::Advance(0), "false 0 0 0 0"),
    (Step::Prepare(5, 2), "true 0 1 1 0"),
    (Step::Prepare(5, 2), "false 0 1 1 0"),
    (Step::Prepare(5, 3), "true 0 1 2 0"),
    (Step::Advance(5), "false 5 0 0 0"),
    (Step::Commit(5, 2), "false 5 0 0 0"),
];

// A member's vote for the value of a version of object 1; then the believed value of that version, and
// the newest version of which one is believed. Two members are believed.
const HEARTS: &[(u8, u32, u8, &str)] = &[
    (0, 5, 7, "none, newest none"),
    (0, 5, 7, "none, newest none"),
    (3, 5, 7, "7, newest 5 7"),
    (1, 5, 8, "7, newest 5 7"),
    (2, 5, 8, "7, newest 5 7"),
    (0, 6, 9, "none, newest 5 7"),
    (1, 6, 9, "9, newest 6 9"),
];

fn name(byte: u8) -> Name {
    Name::from_bytes([byte; 20])
}

fn cast(alloc: Global, tally: &mut Tally, sender: u8, vote: u8) -> Result<String, Broken> {
    if sender > 9 {
        return Err(Broken::Unfit);
    }
    let mut text = line(alloc, truth(tally.cast(MemberId(sender), name(vote))))?;
    add_number(alloc, &mut text, " ", tally.count_of(name(7)) as u64)?;
    add_number(alloc, &mut text, " ", tally.count_of(name(8)) as u64)?;
    Ok(text)
}

#[test]
fn first_votes_count(rt: HostRuntime) {
    let mut tally = Tally::new();
    for (sender, vote, text) in TALLY {
        same(&rt, cast(rt.alloc(), &mut tally, *sender, *vote), text);
    }
}

fn vote(window: &mut Window, phase: Phase, seq: u32, sender: u8) -> Result<bool, Broken> {
    if sender > 9 {
        return Err(Broken::Unfit);
    }
    Ok(window.cast(phase, Seq(seq), MemberId(sender), name(7))?)
}

fn advance(window: &mut Window, floor: u32) -> Result<bool, Broken> {
    if floor < window.floor().0 {
        return Err(Broken::Unfit);
    }
    window.advance(Seq(floor));
    Ok(false)
}

fn after(window: &mut Window, step: Step) -> Result<bool, Broken> {
    match step {
        Step::Prepare(seq, sender) => vote(window, Phase::Prepare, seq, sender),
        Step::Commit(seq, sender) => vote(window, Phase::Commit, seq, sender),
        Step::Advance(floor) => advance(window, floor),
    }
}

fn told(alloc: Global, window: &mut Window, step: Step) -> Result<String, Broken> {
    let mut text = line(alloc, truth(after(window, step)?))?;
    add_number(alloc, &mut text, " ", window.floor().0 as u64)?;
    add_number(alloc, &mut text, " ", window.kept() as u64)?;
    let prepares = window.count_of(Phase::Prepare, Seq(5), name(7));
    add_number(alloc, &mut text, " ", prepares as u64)?;
    let commits = window.count_of(Phase::Commit, Seq(5), name(7));
    add_number(alloc, &mut text, " ", commits as u64)?;
    Ok(text)
}

#[test]
fn a_window_drops_what_is_not_above_its_floor(rt: HostRuntime) {
    let mut window = Window::new(rt.alloc());
    for (step, text) in WINDOW {
        same(&rt, told(rt.alloc(), &mut window, *step), text);
    }
}

fn value_text(alloc: Global, value: Option<Name>) -> Result<String, Broken> {
    match value {
        Some(value) => number(alloc, value.bytes()[0] as u64),
        None => line(alloc, "none"),
    }
}

fn newest_text(alloc: Global, newest: Option<(Version, Name)>) -> Result<String, Broken> {
    match newest {
        Some((version, value)) => version_text(alloc, version, value),
        None => line(alloc, "none"),
    }
}

fn version_text(alloc: Global, version: Version, value: Name) -> Result<String, Broken> {
    let mut text = number(alloc, version.0 as u64)?;
    add_number(alloc, &mut text, " ", value.bytes()[0] as u64)?;
    Ok(text)
}

// The believed value of a version of an object, and the newest version of which one is believed.
fn believed(alloc: Global, votes: &Votes, object: u8, version: u32) -> Result<String, Broken> {
    let mut text = value_text(alloc, votes.accepted(name(object), Version(version)))?;
    text.push_str(", newest ")?;
    add(&mut text, newest_text(alloc, votes.newest(name(object))))?;
    Ok(text)
}

fn take(
    alloc: Global,
    votes: &mut Votes,
    member: u8,
    version: u32,
    value: u8,
) -> Result<String, Broken> {
    if member > 9 {
        return Err(Broken::Unfit);
    }
    votes.take(MemberId(member), name(1), Version(version), name(value))?;
    believed(alloc, votes, 1, version)
}

#[test]
fn two_members_are_believed(rt: HostRuntime) {
    let mut votes = Votes::new(rt.alloc(), 2);
    for (member, version, value, text) in HEARTS {
        let told = take(rt.alloc(), &mut votes, *member, *version, *value);
        same(&rt, told, text);
        let other = believed(rt.alloc(), &votes, 2, *version);
        same(&rt, other, "none, newest none");
    }
}
