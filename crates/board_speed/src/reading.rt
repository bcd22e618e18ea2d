// Reads of several threads beside one that publishes.
ghost use Rattle.std.specs.Prelude.{◌≤◌};

use crate::filling::{entry, label, tree};
use crate::locked::Entries;
use cow_tree::Tree;
use std::alloc::Global;
use std::sync::atomic::AtomicBool;
use std::sync::atomic::Ordering::SeqCst;
use std::sync::{Mutex, Wait};
use std::thread::{self, Threads, join};
use version_board::{BoardReader, BoardWriter, open_board};

/// How many readers there are, how often each reads, how many entries are published before they begin,
/// and how many beside them, at most.
#[derive(Clone, Copy, Debug)]
pub struct Count {
    pub readers: u32,
    pub reads: u32,
    pub before: u32,
    pub beside: u32,
}

/// How many answers one reader gets.
pub fn read_each(mut reader: BoardReader, reads: u32) -> u64 {
    let mut answers = 0;
    for number in 0..reads {
        if let Some(label) = label(number) {
            if let Ok(Some(_read)) = reader.read(&label) {
                answers = u64::saturating_add(answers, 1);
            }
        }
    }
    answers
}

/// The same behind the lock.
fn read_each_locked<R: Wait>(rt: &R, entries: &Mutex<Entries>, reads: u32) -> u64 {
    let mut answers = 0;
    for number in 0..reads {
        if let Some(label) = label(number) {
            if entries.lock(rt).read(&label).is_some() {
                answers = u64::saturating_add(answers, 1);
            }
        }
    }
    answers
}

/// Publishes the entries from one number up to another, each by itself, until all has been read.
pub fn publish<R: Wait>(
    rt: &R,
    writer: &mut BoardWriter,
    tree: &Tree,
    from: u32,
    to: u32,
    done: &AtomicBool,
) -> Option<()> {
    for number in from..to {
        if done.load(SeqCst) {
            break;
        }
        writer.append(entry(tree, number)?).ok()?;
        writer.publish(rt).ok()?;
    }
    Some(())
}

fn publish_locked<R: Wait>(
    rt: &R,
    entries: &Mutex<Entries>,
    tree: &Tree,
    from: u32,
    to: u32,
    done: &AtomicBool,
) -> Option<()> {
    for number in from..to {
        if done.load(SeqCst) {
            break;
        }
        let entry = entry(tree, number)?;
        entries.lock(rt).push(entry).ok()?;
    }
    Some(())
}

fn sum(counts: &[u64]) -> u64 {
    let mut sum: u64 = 0;
    for count in counts {
        sum = sum.saturating_add(*count);
    }
    sum
}

fn beside<R: Threads + Wait + Sync>(
    rt: &R,
    writer: &mut BoardWriter,
    readers: Vec<BoardReader>,
    tree: &Tree,
    count: Count,
) -> Option<u64> {
    let done = AtomicBool::new(false);
    let told = &done;
    publish(rt, writer, tree, 0, count.before, told)?;
    let (published, counts) = join(
        rt,
        || publish(
            rt,
            writer,
            tree,
            count.before,
            count.before.saturating_add(count.beside),
            told,
        ),
        move || {
            let counts = thread::map_vec(rt, readers, &|reader| read_each(reader, count.reads));
            told.store(true, SeqCst);
            counts
        },
    );
    published?;
    Some(sum(&counts.ok()?))
}

/// How many answers readers get on a board.
pub fn read_board<R: Threads + Wait + Sync>(rt: &R, alloc: Global, count: Count) -> Option<u64> {
    if count.readers == 0 {
        return Some(0);
    }
    let tree = tree(alloc)?;
    let (mut writer, readers) = open_board(rt, alloc, count.readers).ok()?;
    let answers = beside(rt, &mut writer, readers, &tree, count);
    writer.close(rt);
    answers
}

/// The same behind a lock.
pub fn read_locked<R: Threads + Wait + Sync>(rt: &R, alloc: Global, count: Count) -> Option<u64> {
    let tree = tree(alloc)?;
    let entries = Mutex::new(Entries::new(alloc));
    let done = AtomicBool::new(false);
    publish_locked(rt, &entries, &tree, 0, count.before, &done)?;
    let (published, counts) = join(
        rt,
        || publish_locked(
            rt,
            &entries,
            &tree,
            count.before,
            count.before.saturating_add(count.beside),
            &done,
        ),
        || {
            let counts = thread::map_indices(
                rt,
                alloc,
                count.readers as usize,
                &|_reader| read_each_locked(rt, &entries, count.reads),
            );
            done.store(true, SeqCst);
            counts
        },
    );
    published?;
    Some(sum(&counts.ok()?))
}
