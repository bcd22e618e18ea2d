// What a worker does.
ghost use Rattle.std.specs.Prelude.{◌≡◌, map, IfOk, OnOk, OnErr};
ghost use Rattle.std.specs.List.{AllByRecursion};
ghost use Rattle.stage_model.specs.Lines.{AreSame};
ghost use Rattle.stage_model.specs.Passes.{all_put, all_taken, with_taken, one_more, IsWhole, OnlyTook};
ghost use Rattle.stage_model.specs.Rules.{Held};
ghost use Rattle.stages.specs.Queues.{IsPassOf, known, empty_takes};
ghost use Rattle.stages.specs.Results.{job_of, IsDoneBy};

use crate::gate::Gate;
use crate::job::{ArchiveDone, ArchiveJob};
use crate::pass::JobPass;
use crate::queue::JobQueue;
use crate::rows::all_rows;
use cauchy_code::Code;
use pond_base::OutOfMemory;
use std::alloc::Global;
use std::sync::Wait;
use std::thread::Threads;

/// Does a job: its strings with their rows.
fn done_of(alloc: Global, code: &Code, job: ArchiveJob) -> Result<ArchiveDone, OutOfMemory>
    ensures job { IfOk result (λ done. job_of done ≡ job) }
    ensures done { IfOk result (IsDoneBy code.now) }
{
    let rows = all_rows(alloc, code, job.strings.as_slice())?;
    let ArchiveJob {
        place,
        label,
        version,
        strings,
    } = job;
    Ok(ArchiveDone {
        place,
        label,
        version,
        code: *code,
        strings,
        rows,
    })
}

/// Takes jobs until a take finds the queue empty, and does each of them: one result for each job that
/// was taken in this call, in order. The gate is passed once for each job, after it was taken and before
/// its rows are made, with turns that count from 1. After `OutOfMemory` the jobs that were taken stand
/// in the pass, and are no longer in the queue.
pub fn work<G: Gate, R: Threads + Wait + Sync>(
    rt: &R,
    alloc: Global,
    queue: &JobQueue,
    pass: &mut JobPass,
    code: &Code,
    gate: &G,
    stage: u32,
) -> Result<Vec<ArchiveDone>, OutOfMemory>
    requires { IsPassOf queue.now pass.old }
    ensures jobs { IfOk result (λ done. known pass.new ≡ with_taken (known pass.old) (map job_of done.items)) }
    ensures done { IfOk result (λ done. AllByRecursion (IsDoneBy code.now) done.items) }
    ensures empty { OnOk result (Held 0 (known pass.new)) }
    ensures all { OnOk result (IsWhole (known pass.old) → AreSame (all_taken (known pass.new)) (all_put (known pass.new))) }
    ensures count { OnOk result (empty_takes pass.new ≡ one_more (empty_takes pass.old)) }
    ensures pass { IsPassOf queue.now pass.new }
    ensures took { OnErr result (OnlyTook (known pass.old) (known pass.new)) }
    ensures kept { OnErr result (empty_takes pass.new ≡ empty_takes pass.old) }
{
    let mut done = Vec::new(alloc);
    let mut turn = 0u32;
    for _ in rt.forever() {
        let Some(job) = queue.take(rt, pass) else {
            return Ok(done);
        };
        turn = turn.saturating_add(1);
        gate.pass(stage, turn);
        done.push(done_of(alloc, code, job)?)?;
    }
    unreachable!()
}
