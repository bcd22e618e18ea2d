// A counter behind a lock: its steps, a clash, its end, and its journal.
ghost use Rattle.std.specs.Prelude.{◌≡◌, ◌↔◌, ◌+◌, ◌<◌, ◌^◌, [], ◌∷◌, false, IsErr, IsTrue};
ghost use Rattle.hall.specs.Answers.{IsEndedWhere, IsClashWhere};

use crate::telling::{Broken, add_bytes, add_number, same, truth};
use block_names::StepFault;
use bytes::Bytes;
use hall::{Hall, HallState, Machine};
use pond_base::OutOfMemory;
use std::alloc::Global;
use std::sync::Wait;
use std::thread;
use std::thread::Threads;

// The sum of the numbers that were added. The number 13 is a clash of the strings 01 and 02.
#[derive(Drop)]
pub struct Counter {
    alloc: Global,
    total: u64,
    ended: bool,
}

impl Counter {
    fn new(alloc: Global) -> Counter
        ensures total { result.total ≡ 0 }
        ensures ended { result.ended ≡ false }
    {
        Counter {
            alloc,
            total: 0,
            ended: false,
        }
    }

    fn fits(&self, number: u32) -> bool
        ensures { IsTrue result ↔ (self.now.total + number < 2 ^ 64) }
    {
        u64::from(number) <= u64::MAX - self.total
    }
}

fn clash(alloc: Global) -> Result<u64, StepFault>
    ensures clash { IsClashWhere (λ old new. (old ≡ 1 ∷ []) × (new ≡ 2 ∷ [])) result }
    ensures ended { IsEndedWhere false result }
    ensures err { IsErr result }
{
    let Ok(old) = Bytes::copy_from_slice(alloc, &[1]) else {
        return Err(StepFault::Memory);
    };
    let Ok(new) = Bytes::copy_from_slice(alloc, &[2]) else {
        return Err(StepFault::Memory);
    };
    Err(StepFault::Clash { old, new })
}

impl Machine for Counter {
    ghost use Rattle.std.specs.Prelude.{◌≡◌, ◌+◌, ◌<◌, ◌^◌, [], ◌∷◌};
    ghost use Rattle.std.specs.List.{sum};

    type Event = u32;

    type Said = u64;

    ghost ended = { λ counter. counter.ended };

    ghost allows = { λ counter number. counter.total + number < 2 ^ 64 };

    ghost stands_for = { λ counter numbers. counter.total ≡ sum numbers };

    ghost answers = { λ numbers number said. said ≡ sum numbers + number };

    ghost clashes = { λ counter number old new. (number ≡ 13) × (old ≡ 1 ∷ []) × (new ≡ 2 ∷ []) };

    fn step<R: Threads + Wait + Sync>(&mut self, _rt: &R, number: u32) -> Result<u64, StepFault> {
        if self.ended {
            return Err(StepFault::Ended);
        }
        if number == 13 {
            self.ended = true;
            return clash(self.alloc);
        }
        self.total += u64::from(number);
        Ok(self.total)
    }

    fn copy_event(number: &u32) -> Result<u32, OutOfMemory> {
        Ok(*number)
    }

    fn give_up(&mut self) {
        self.ended = true;
    }
}

// What is done to a counter behind a lock.
#[derive(Clone, Copy)]
enum Do {
    Add(u32),
    GiveUp,
}

const CASES: &[(&[Do], &str)] = &[
    (&[], "journal total 0 ended false"),
    (
        &[Do::Add(3), Do::Add(4)],
        "said 3\nsaid 7\njournal 3 4 total 7 ended false",
    ),
    (
        &[Do::Add(5), Do::Add(13), Do::Add(1), Do::Add(13)],
        "said 5\nclash 01 02\nended\nended\njournal 5 total 5 ended true",
    ),
    (
        &[Do::Add(2), Do::GiveUp, Do::Add(6)],
        "said 2\nended\njournal 2 total 2 ended true",
    ),
];

fn add_clash(alloc: Global, text: &mut String, old: &[u8], new: &[u8]) -> Result<(), Broken> {
    add_bytes(alloc, text, "clash ", old)?;
    add_bytes(alloc, text, " ", new)
}

fn add_fault(alloc: Global, text: &mut String, fault: StepFault) -> Result<(), Broken> {
    match fault {
        StepFault::Clash { old, new } => add_clash(alloc, text, old.as_slice(), new.as_slice()),
        StepFault::Ended => Ok(text.push_str("ended")?),
        StepFault::Memory => Err(Broken::Memory),
    }
}

fn add_said(alloc: Global, text: &mut String, said: Result<u64, StepFault>) -> Result<(), Broken> {
    match said {
        Ok(said) => add_number(alloc, text, "said ", said)?,
        Err(fault) => add_fault(alloc, text, fault)?,
    }
    text.push_str("\n")?;
    Ok(())
}

// A step of the locked value, where the counter has room for the number.
fn step<R: Threads + Wait + Sync>(
    rt: &R,
    hall: &Hall<Counter>,
    number: u32,
) -> Option<Result<u64, StepFault>> {
    let mut state = hall.lock(rt);
    if !state.state().fits(number) {
        return None;
    }
    Some(state.step(rt, number))
}

fn act<R: Threads + Wait + Sync>(
    rt: &R,
    alloc: Global,
    hall: &Hall<Counter>,
    what: Do,
    text: &mut String,
) -> Result<(), Broken> {
    match what {
        Do::Add(number) => match step(rt, hall, number) {
            Some(said) => add_said(alloc, text, said),
            None => Err(Broken::Unfit),
        },
        Do::GiveUp => {
            hall.lock(rt).give_up();
            Ok(())
        }
    }
}

fn add_journal(
    alloc: Global,
    text: &mut String,
    journal: &[u32],
    counter: &Counter,
) -> Result<(), Broken> {
    text.push_str("journal")?;
    for number in journal {
        add_number(alloc, text, " ", u64::from(*number))?;
    }
    add_number(alloc, text, " total ", counter.total)?;
    text.push_str(" ended ")?;
    text.push_str(truth(counter.ended))?;
    Ok(())
}

fn told<R: Threads + Wait + Sync>(rt: &R, alloc: Global, acts: &[Do]) -> Result<String, Broken> {
    let hall = Hall::new(alloc, Counter::new(alloc));
    let mut text = String::new(alloc);
    for what in acts {
        act(rt, alloc, &hall, *what, &mut text)?;
    }
    let (journal, counter) = hall.close().into_parts();
    add_journal(alloc, &mut text, journal.as_slice(), &counter)?;
    Ok(text)
}

#[test]
fn steps_clashes_and_ends(rt: HostRuntime) {
    for (acts, text) in CASES {
        same(&rt, told(&rt, rt.alloc(), acts), text);
    }
}

// A counter of two steps.
fn two_steps<R: Threads + Wait + Sync>(
    rt: &R,
    alloc: Global,
) -> Result<HallState<Counter>, Broken> {
    let hall = Hall::new(alloc, Counter::new(alloc));
    for number in [8, 9] {
        if !matches!(step(rt, &hall, number), Some(Ok(_))) {
            return Err(Broken::Unfit);
        }
    }
    Ok(hall.close())
}

// One step more of a state.
fn another<R: Threads + Wait + Sync>(
    rt: &R,
    alloc: Global,
    state: &mut HallState<Counter>,
    text: &mut String,
) -> Result<(), Broken> {
    if !state.state().fits(10) {
        return Err(Broken::Unfit);
    }
    add_said(alloc, text, state.step(rt, 10))
}

// The parts of a counter of two steps, which are taken, joined and used again.
fn told_parts<R: Threads + Wait + Sync>(rt: &R, alloc: Global) -> Result<String, Broken> {
    let mut text = String::new(alloc);
    let (journal, counter) = two_steps(rt, alloc)?.into_parts();
    add_journal(alloc, &mut text, journal.as_slice(), &counter)?;
    text.push_str("\n")?;
    let mut state = HallState::from_parts(journal, counter);
    another(rt, alloc, &mut state, &mut text)?;
    let (journal, counter) = state.into_parts();
    add_journal(alloc, &mut text, journal.as_slice(), &counter)?;
    Ok(text)
}

#[test]
fn parts_are_taken_and_joined(rt: HostRuntime) {
    same(
        &rt,
        told_parts(&rt, rt.alloc()),
        "journal 8 9 total 17 ended false\nsaid 27\njournal 8 9 10 total 27 ended false",
    );
}

fn add_each<R: Threads + Wait + Sync>(rt: &R, hall: &Hall<Counter>, numbers: &[u32]) {
    for number in numbers {
        let _said = step(rt, hall, *number);
    }
}

fn told_beside<R: Threads + Wait + Sync>(rt: &R, alloc: Global) -> Result<String, Broken> {
    let hall = Hall::new(alloc, Counter::new(alloc));
    thread::join(
        rt,
        || add_each(rt, &hall, &[1, 2, 3, 4]),
        || add_each(rt, &hall, &[10, 20, 30, 40]),
    );
    let (journal, counter) = hall.close().into_parts();
    let mut text = String::new(alloc);
    add_number(alloc, &mut text, "events ", journal.len() as u64)?;
    add_number(alloc, &mut text, " total ", counter.total)?;
    Ok(text)
}

#[test]
fn two_threads_step_one_machine(rt: HostRuntime) {
    same(&rt, told_beside(&rt, rt.alloc()), "events 8 total 110");
}
