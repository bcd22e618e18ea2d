// Queues of jobs: full and empty ones, workers, and workers beside who puts.
ghost use Rattle.stages.specs.Queues.{IsPassOf};

use crate::telling::{Broken, add_bytes, add_number, bytes_of, same};
use cauchy_code::Code;
use pond_base::{Items, Label, Version};
use stages::{ArchiveDone, ArchiveJob, Gate, JobPass, JobQueue, OpenGate, work};
use std::alloc::Global;
use std::sync::Wait;
use std::sync::atomic::{AtomicU64, Ordering};
use std::thread;
use std::thread::Threads;

// A job with one string.
fn job(alloc: Global, place: u32, digits: &str) -> Result<ArchiveJob, Broken> {
    let mut strings = Items::new(alloc);
    strings.push(bytes_of(alloc, digits)?)?;
    Ok(ArchiveJob {
        place,
        label: Label::read(b"a")?,
        version: Version(place),
        strings,
    })
}

// Puts jobs of places from 1 on until the queue gives one back.
fn fill<R: Wait>(
    rt: &R,
    alloc: Global,
    queue: &JobQueue,
    pass: &mut JobPass,
    text: &mut String,
) -> Result<(), Broken>
    requires { IsPassOf queue.now pass.old }
    ensures { IsPassOf queue.now pass.new }
{
    for place in 1..=20 {
        let job = job(alloc, place, "01")?;
        if let Err(back) = queue.put(rt, pass, job) {
            return add_number(alloc, text, "full at ", u64::from(back.place));
        }
    }
    Ok(())
}

// Takes jobs until there is none.
fn drain<R: Wait>(
    rt: &R,
    alloc: Global,
    queue: &JobQueue,
    pass: &mut JobPass,
    text: &mut String,
) -> Result<(), Broken>
    requires { IsPassOf queue.now pass.old }
    ensures { IsPassOf queue.now pass.new }
{
    for _ in 0..20 {
        match queue.take(rt, pass) {
            Some(job) => add_number(alloc, text, " ", u64::from(job.place))?,
            None => return add_number(alloc, text, " empty ", pass.empty_takes()),
        }
    }
    Ok(())
}

// How many jobs a queue has room for, and what is told of it: it is filled, drained and drained again.
const CAPACITIES: &[(u32, &str)] = &[
    (1, "full at 2 1 empty 1 empty 2"),
    (
        16,
        "full at 17 1 2 3 4 5 6 7 8 9 10 11 12 13 14 15 16 empty 1 empty 2",
    ),
];

fn told<R: Wait>(rt: &R, alloc: Global, capacity: u32) -> Result<String, Broken> {
    if capacity == 0 {
        return Err(Broken::Unfit);
    }
    let (queue, mut pass) = JobQueue::new(alloc, capacity)?;
    let mut text = String::new(alloc);
    fill(rt, alloc, &queue, &mut pass, &mut text)?;
    drain(rt, alloc, &queue, &mut pass, &mut text)?;
    drain(rt, alloc, &queue, &mut pass, &mut text)?;
    Ok(text)
}

#[test]
fn full_and_empty(rt: HostRuntime) {
    for (capacity, text) in CAPACITIES {
        same(&rt, told(&rt, rt.alloc(), *capacity), text);
    }
}

// A gate that counts how often it was passed, and adds up the stages and the turns.
#[derive(Drop)]
struct CountingGate {
    passed: AtomicU64,
    stages: AtomicU64,
    turns: AtomicU64,
}

impl Gate for CountingGate {
    fn pass(&self, stage: u32, turn: u32) {
        self.passed.fetch_add(1, Ordering::SeqCst);
        self.stages.fetch_add(u64::from(stage), Ordering::SeqCst);
        self.turns.fetch_add(u64::from(turn), Ordering::SeqCst);
    }
}

fn add_gate(alloc: Global, text: &mut String, gate: &CountingGate) -> Result<(), Broken> {
    add_number(alloc, text, "passed ", gate.passed.load(Ordering::SeqCst))?;
    add_number(alloc, text, " stages ", gate.stages.load(Ordering::SeqCst))?;
    add_number(alloc, text, " turns ", gate.turns.load(Ordering::SeqCst))
}

fn add_rows(alloc: Global, text: &mut String, done: &ArchiveDone) -> Result<(), Broken> {
    for rows in done.rows.as_slice() {
        for row in rows.as_slice() {
            add_bytes(alloc, text, " ", row.as_slice())?;
        }
    }
    Ok(())
}

fn add_done(alloc: Global, text: &mut String, done: &ArchiveDone) -> Result<(), Broken> {
    add_number(alloc, text, "", u64::from(done.place))?;
    add_number(alloc, text, " version ", u64::from(done.version.0))?;
    add_bytes(alloc, text, " label ", done.label.bytes())?;
    text.push_str(" rows")?;
    add_rows(alloc, text, done)?;
    text.push_str("\n")?;
    Ok(())
}

fn add_all(alloc: Global, text: &mut String, results: &[ArchiveDone]) -> Result<(), Broken> {
    for done in results {
        add_done(alloc, text, done)?;
    }
    Ok(())
}

// The strings of three jobs, and what a worker makes of them by the code of three rows for two parts.
const STRINGS: &[&str] = &["0102", "010203", "ff"];

const RESULTS: &str = "1 version 1 label 61 rows 7a dd f5\n\
    2 version 2 label 61 rows 3df5 7a01 8f02\n\
    3 version 3 label 61 rows 55 f1 ff\n\
    passed 3 stages 900 turns 6 empty 1";

fn put_each<R: Wait>(
    rt: &R,
    alloc: Global,
    queue: &JobQueue,
    pass: &mut JobPass,
    strings: &[&str],
) -> Result<(), Broken>
    requires { IsPassOf queue.now pass.old }
    ensures { IsPassOf queue.now pass.new }
{
    let mut place = 0u32;
    for digits in strings {
        place = place.saturating_add(1);
        let job = job(alloc, place, digits)?;
        if queue.put(rt, pass, job).is_err() {
            return Err(Broken::Unfit);
        }
    }
    Ok(())
}

// A worker's call, beside the gate that counts.
fn worked<R: Threads + Wait + Sync>(
    rt: &R,
    alloc: Global,
    queue: &JobQueue,
    pass: &mut JobPass,
    text: &mut String,
) -> Result<(), Broken>
    requires { IsPassOf queue.now pass.old }
{
    let gate = CountingGate {
        passed: AtomicU64::new(0),
        stages: AtomicU64::new(0),
        turns: AtomicU64::new(0),
    };
    let Some(code) = Code::new(2, 3) else {
        return Err(Broken::Unfit);
    };
    let results = work(rt, alloc, queue, pass, &code, &gate, 300)?;
    add_all(alloc, text, results.as_slice())?;
    add_gate(alloc, text, &gate)?;
    add_number(alloc, text, " empty ", pass.empty_takes())
}

fn told_work<R: Threads + Wait + Sync>(rt: &R, alloc: Global) -> Result<String, Broken> {
    let (queue, mut pass) = JobQueue::new(alloc, 16)?;
    let mut text = String::new(alloc);
    put_each(rt, alloc, &queue, &mut pass, STRINGS)?;
    worked(rt, alloc, &queue, &mut pass, &mut text)?;
    Ok(text)
}

#[test]
fn a_worker_does_each_job(rt: HostRuntime) {
    same(&rt, told_work(&rt, rt.alloc()), RESULTS);
}

// How many jobs are put beside two workers.
const JOBS: u32 = 24;

// Puts jobs of places from 1 on, and tells when it is over.
fn put_all<R: Wait>(
    rt: &R,
    alloc: Global,
    queue: &JobQueue,
    mut pass: JobPass,
    over: &AtomicU64,
) -> JobPass
    requires { IsPassOf queue.now pass }
    ensures { IsPassOf queue.now result }
{
    for place in 1..=JOBS {
        if let Ok(job) = job(alloc, place, "01") {
            let _put = queue.put(rt, &mut pass, job).is_ok();
        }
    }
    over.store(1, Ordering::SeqCst);
    pass
}

// Adds the places of results.
fn add_places(places: &mut Vec<u32>, results: &[ArchiveDone]) -> Result<(), Broken> {
    for done in results {
        places.push(done.place)?;
    }
    Ok(())
}

// One call of a worker.
fn work_once<R: Threads + Wait + Sync>(
    rt: &R,
    alloc: Global,
    queue: &JobQueue,
    pass: &mut JobPass,
    places: &mut Vec<u32>,
) -> Result<(), Broken>
    requires { IsPassOf queue.now pass.old }
    ensures { IsPassOf queue.now pass.new }
{
    let Some(code) = Code::new(2, 3) else {
        return Err(Broken::Unfit);
    };
    let results = work(rt, alloc, queue, pass, &code, &OpenGate, 301)?;
    add_places(places, results.as_slice())
}

// Works until no job is put any more, and then once more.
fn work_all<R: Threads + Wait + Sync>(
    rt: &R,
    alloc: Global,
    queue: &JobQueue,
    mut pass: JobPass,
    over: &AtomicU64,
) -> (JobPass, Vec<u32>)
    requires { IsPassOf queue.now pass }
    ensures { IsPassOf queue.now result.0 }
{
    let mut places = Vec::new(alloc);
    for _ in rt.forever() {
        let is_last = over.load(Ordering::SeqCst) == 1;
        let worked = work_once(rt, alloc, queue, &mut pass, &mut places);
        if is_last || worked.is_err() {
            break;
        }
        thread::yield_now();
    }
    (pass, places)
}

fn two_workers<R: Threads + Wait + Sync>(
    rt: &R,
    alloc: Global,
    queue: &JobQueue,
    one: JobPass,
    two: JobPass,
    over: &AtomicU64,
) -> ((JobPass, Vec<u32>), (JobPass, Vec<u32>))
    requires one { IsPassOf queue.now one }
    requires two { IsPassOf queue.now two }
    ensures one { IsPassOf queue.now result.0.0 }
    ensures two { IsPassOf queue.now result.1.0 }
{
    thread::join(
        rt,
        move ||
            requires { IsPassOf queue.now one }
            ensures { IsPassOf queue.entry.now result.0 }
        { work_all(rt, alloc, queue, one, over) },
        move ||
            requires { IsPassOf queue.now two }
            ensures { IsPassOf queue.entry.now result.0 }
        { work_all(rt, alloc, queue, two, over) },
    )
}

// The places of what two workers did, in order, and how many jobs were left.
fn told_places(alloc: Global, mut places: Vec<u32>) -> Result<String, Broken> {
    places.sort()?;
    let mut text = String::new(alloc);
    for place in &places {
        add_number(alloc, &mut text, " ", u64::from(*place))?;
    }
    Ok(text)
}

fn all_places(one: Vec<u32>, two: Vec<u32>) -> Result<Vec<u32>, Broken> {
    let mut places = one;
    places.extend_from_slice(two.as_slice())?;
    Ok(places)
}

fn told_beside<R: Threads + Wait + Sync>(rt: &R, alloc: Global) -> Result<String, Broken> {
    let (queue, mut first) = JobQueue::new(alloc, 32)?;
    let putter = queue.split(&mut first)?;
    let one = queue.split(&mut first)?;
    let two = queue.split(&mut first)?;
    let line = &queue;
    let over = AtomicU64::new(0);
    let flag = &over;
    let (putter, ((one, done), (two, more))) = thread::join(
        rt,
        move ||
            requires { IsPassOf line.now putter }
            ensures { IsPassOf line.entry.now result }
        { put_all(rt, alloc, line, putter, flag) },
        move ||
            requires { IsPassOf line.now one × IsPassOf line.now two }
            ensures { IsPassOf line.entry.now result.0.0 × IsPassOf line.entry.now result.1.0 }
        { two_workers(rt, alloc, line, one, two, flag) },
    );
    line.join(&mut first, putter);
    line.join(&mut first, one);
    line.join(&mut first, two);
    let mut text = told_places(alloc, all_places(done, more)?)?;
    match line.take(rt, &mut first) {
        Some(_) => text.push_str(" left")?,
        None => text.push_str(" all")?,
    }
    Ok(text)
}

#[test]
fn two_workers_beside_who_puts(rt: HostRuntime) {
    same(
        &rt,
        told_beside(&rt, rt.alloc()),
        " 1 2 3 4 5 6 7 8 9 10 11 12 13 14 15 16 17 18 19 20 21 22 23 24 all",
    );
}
