// Votes on shared words: by one thread, and by two.
ghost use Rattle.std.specs.Prelude.{◌≡◌, ◌≢◌, ℕ, ◌<◌, ◌≤◌, ◌+◌, ◌*◌, replicate, IfOk, OnOk};
ghost use Rattle.vote_words_model.specs.Places.{terms_of};
ghost use Rattle.vote_board.specs.Boards.{terms, IsSeatOf};

use crate::telling::{Broken, line, numbered, same};
use pond_base::MemberId;
use std::alloc::Global;
use std::process::Abort;
use std::thread::{Threads, join};
use vote_board::{CommitVote, Vote, VoteBoard, VoteSeat};

// What a member does in slot 1: it prepares a value, commits, or asks what is decided.
#[derive(Clone, Copy)]
enum Step {
    Prepare(u8, u32),
    Commit(u8),
    Decide,
}

// A step of four members, one of them possibly faulty, and what comes of it.
const ONE_SLOT: &[(Step, &str)] = &[
    (Step::Commit(0), "not prepared"),
    (Step::Prepare(0, 9), "set"),
    (Step::Prepare(1, 9), "set"),
    (Step::Commit(1), "not prepared"),
    (Step::Prepare(2, 9), "set"),
    (Step::Prepare(2, 8), "was 9"),
    (Step::Prepare(3, 8), "set"),
    (Step::Commit(0), "set 9"),
    (Step::Decide, "none"),
    (Step::Commit(1), "set 9"),
    (Step::Decide, "none"),
    (Step::Commit(3), "set 9"),
    (Step::Commit(3), "was 9"),
    (Step::Decide, "decided 9"),
    (Step::Commit(4), "no call takes it"),
    (Step::Prepare(0, 0), "no call takes it"),
];

// A board of 3f+1 members with one slot, where every value may be prepared.
fn open(alloc: Global, f: u8) -> Result<(VoteBoard, VoteSeat), Broken>
    requires { f ≤ 3 }
    ensures board { IfOk result (λ r. terms r.0 ≡ terms_of f 1 (replicate (3 * f + 1) 0)) }
    ensures seat { IfOk result (λ r. IsSeatOf r.0 r.1) }
{
    let may = vec![in alloc; 0u32; 3 * f as usize + 1]?;
    Ok(VoteBoard::new(alloc, f, 1, may)?)
}

fn prepare(
    alloc: Global,
    board: &VoteBoard,
    seat: &mut VoteSeat,
    member: u8,
    value: u32,
) -> Result<String, Broken>
    requires board { terms board.now ≡ terms_of 1 1 (replicate 4 0) }
    requires seat { IsSeatOf board.now seat.old }
    ensures { IsSeatOf board.now seat.new }
{
    if member > 3 || value == 0 {
        return Err(Broken::Unfit);
    }
    match board.prepare(seat, MemberId(member), 1, value) {
        Vote::Set => line(alloc, "set"),
        Vote::Was(found) => numbered(alloc, "was ", found),
    }
}

fn commit(
    alloc: Global,
    board: &VoteBoard,
    seat: &mut VoteSeat,
    member: u8,
) -> Result<String, Broken>
    requires board { terms board.now ≡ terms_of 1 1 (replicate 4 0) }
    requires seat { IsSeatOf board.now seat.old }
    ensures { IsSeatOf board.now seat.new }
{
    if member > 3 {
        return Err(Broken::Unfit);
    }
    match board.commit(seat, MemberId(member), 1) {
        CommitVote::Set(value) => numbered(alloc, "set ", value),
        CommitVote::Was(value) => numbered(alloc, "was ", value),
        CommitVote::NotPrepared => line(alloc, "not prepared"),
    }
}

fn decide(alloc: Global, board: &VoteBoard, seat: &mut VoteSeat) -> Result<String, Broken>
    requires board { terms board.now ≡ terms_of 1 1 (replicate 4 0) }
    requires seat { IsSeatOf board.now seat.old }
    ensures { IsSeatOf board.now seat.new }
{
    match board.decide(seat, 1) {
        Some(value) => numbered(alloc, "decided ", value),
        None => line(alloc, "none"),
    }
}

fn told(alloc: Global, board: &VoteBoard, seat: &mut VoteSeat, step: Step) -> Result<String, Broken>
    requires board { terms board.now ≡ terms_of 1 1 (replicate 4 0) }
    requires seat { IsSeatOf board.now seat.old }
    ensures { IsSeatOf board.now seat.new }
{
    match step {
        Step::Prepare(member, value) => prepare(alloc, board, seat, member, value),
        Step::Commit(member) => commit(alloc, board, seat, member),
        Step::Decide => decide(alloc, board, seat),
    }
}

// The steps of the row by one seat, and then the decision of another, split off before them.
fn walk(rt: &impl Abort, alloc: Global, board: &VoteBoard, seat: &mut VoteSeat)
    requires board { terms board.now ≡ terms_of 1 1 (replicate 4 0) }
    requires seat { IsSeatOf board.now seat.old }
{
    let Ok(mut other) = board.split(seat) else {
        return;
    };
    for (step, text) in ONE_SLOT {
        same(rt, told(alloc, board, seat, *step), text);
    }
    same(rt, decide(alloc, board, &mut other), "decided 9");
    board.learn(seat, other);
    same(rt, decide(alloc, board, seat), "decided 9");
}

#[test]
fn votes_one_thread(rt: HostRuntime) {
    match open(rt.alloc(), 1) {
        Ok((board, mut seat)) => walk(&rt, rt.alloc(), &board, &mut seat),
        Err(broken) => same(&rt, Err(broken), ""),
    }
}

// Votes for a value in slot 1 in each member's name, and what is then decided.
fn cast_all(board: &VoteBoard, mut seat: VoteSeat, f: u8, value: u32) -> (Option<u32>, VoteSeat)
    requires few { f ≤ 3 }
    requires board { terms board.now ≡ terms_of f 1 (replicate (3 * f + 1) 0) }
    requires seat { IsSeatOf board.now seat }
    requires value { value ≢ 0 }
    ensures { IsSeatOf board.now result.1 }
{
    for member in 0..3 * f + 1 {
        board.prepare(&mut seat, MemberId(member), 1, value);
    }
    for voter in 0..3 * f + 1 {
        board.commit(&mut seat, MemberId(voter), 1);
    }
    let decided = board.decide(&mut seat, 1);
    (decided, seat)
}

// Whether two threads that vote for two values find one value decided.
fn raced<R: Threads + Sync>(
    rt: &R,
    alloc: Global,
    f: u8,
    first: u32,
    second: u32,
) -> Result<String, Broken>
    requires few { f ≤ 3 }
    requires values { (first ≢ 0) × (second ≢ 0) }
{
    let (board, mut one) = open(alloc, f)?;
    let two = board.split(&mut one)?;
    let shared = &board;
    let ((a, mut one), (b, two)) = join(
        rt,
        move || -> (Option<u32>, VoteSeat)
            requires { (f ≤ 3) × (terms shared.now ≡ terms_of f 1 (replicate (3 * f + 1) 0))
                × IsSeatOf shared.now one × (first ≢ 0) }
            ensures { IsSeatOf shared.entry.now result.1 }
        { cast_all(shared, one, f, first) },
        move || -> (Option<u32>, VoteSeat)
            requires { (f ≤ 3) × (terms shared.now ≡ terms_of f 1 (replicate (3 * f + 1) 0))
                × IsSeatOf shared.now two × (second ≢ 0) }
            ensures { IsSeatOf shared.entry.now result.1 }
        { cast_all(shared, two, f, second) },
    );
    board.learn(&mut one, two);
    if a.is_some() && a == b && a == board.decide(&mut one, 1) {
        line(alloc, "one value")
    } else {
        line(alloc, "two values, or none")
    }
}

#[test]
fn votes_two_threads(rt: HostRuntime) {
    same(&rt, raced(&rt, rt.alloc(), 1, 7, 7), "one value");
    same(&rt, raced(&rt, rt.alloc(), 0, 7, 8), "one value");
}
