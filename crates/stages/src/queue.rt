// The queue of jobs.
use crate::job::ArchiveJob;
use crate::joining::{Line, take_in};
use crate::pass::JobPass;
use crate::rule::{Parts, Puts, Takes};
use pond_base::OutOfMemory;
use std::alloc::Global;
use std::sync::Wait;

/// A queue of jobs that threads share, of which none is lost or taken twice. Each thread has a pass of
/// its own: the first one, of four parts, or one that was split off it.
#[derive(Drop)]
pub struct JobQueue {
    line: Line,
}

impl JobQueue {
    ghost use Rattle.std.specs.Prelude.{◌≡◌, ◌<◌, [], ◌∷◌, if◌then◌else◌, IfOk, OnOk, IfErr, OnErr, IfSome, IfNone};
    ghost use Rattle.std.specs.Option.{is_some};
    ghost use Rattle.stage_model.specs.Lines.{AreSame};
    ghost use Rattle.stage_model.specs.Passes.{unused, all_put, all_taken, with_put, with_taken, less_one, both, one_more, IsWhole};
    ghost use Rattle.stage_model.specs.Rules.{Held};
    ghost use Rattle.stages.specs.Queues.{IsPassOf, known, empty_takes, capacity_of};

    /// An empty queue for so many jobs, and its first pass, which has every part.
    pub fn new(alloc: Global, capacity: u32) -> Result<(JobQueue, JobPass), OutOfMemory>
        requires { 0 < capacity }
        ensures capacity { IfOk result (λ r. capacity_of r.0 ≡ capacity) }
        ensures pass { IfOk result (λ r. IsPassOf r.0 r.1) }
        ensures whole { IfOk result (λ r. known r.1 ≡ unused 4) }
        ensures count { IfOk result (λ r. empty_takes r.1 ≡ 0) }
    {
        let (line, pass) = Line::ruled(alloc, capacity as usize)?;
        let pass = JobPass {
            pass,
            empty_takes: 0,
        };
        Ok((JobQueue { line }, pass))
    }

    /// A new pass, split off one that has more than one part: the first one, as long as fewer than three
    /// were split off it. The new one stands for no job.
    pub fn split(&self, pass: &mut JobPass) -> Result<JobPass, OutOfMemory>
        requires queue { IsPassOf self.now pass.old }
        requires parts { 1 < (known pass.old).parts }
        ensures other { IfOk result (IsPassOf self.now) }
        ensures unused { IfOk result (λ other. known other ≡ unused 1) }
        ensures other_count { IfOk result (λ other. empty_takes other ≡ 0) }
        ensures parts { OnOk result (known pass.new ≡ less_one (known pass.old)) }
        ensures kept { OnErr result (known pass.new ≡ known pass.old) }
        ensures pass { IsPassOf self.now pass.new }
        ensures count { empty_takes pass.new ≡ empty_takes pass.old }
    {
        let other = self.line.another::<Parts>(&mut pass.pass);
        Ok(JobPass {
            pass: other,
            empty_takes: 0,
        })
    }

    /// Puts a job at the end. `Err` gives the same job back, only where the queue was full at a moment of
    /// this call, and leaves what the pass stands for. Takes no memory.
    pub fn put<R: Wait>(
        &self,
        rt: &R,
        pass: &mut JobPass,
        job: ArchiveJob,
    ) -> Result<(), ArchiveJob>
        requires { IsPassOf self.now pass.old }
        ensures put { OnOk result (known pass.new ≡ with_put (known pass.old) job) }
        ensures pass { IsPassOf self.now pass.new }
        ensures count { empty_takes pass.new ≡ empty_takes pass.old }
        ensures back { IfErr result (λ back. back ≡ job) }
        ensures full { OnErr result (Held (capacity_of self.now) (known pass.old)) }
        ensures kept { OnErr result (known pass.new ≡ known pass.old) }
    {
        self.line.push_as::<Puts, R>(rt, &mut pass.pass, job)
    }

    /// Takes the job that was put first. `None` only where the queue was empty at a moment of this call:
    /// then the pass stands for the same jobs as before, and where it has every part, those that were
    /// taken are those that were put, each as often. Takes no memory.
    pub fn take<R: Wait>(&self, rt: &R, pass: &mut JobPass) -> Option<ArchiveJob>
        requires { IsPassOf self.now pass.old }
        ensures taken { IfSome result (λ job. known pass.new ≡ with_taken (known pass.old) (job ∷ [])) }
        ensures pass { IsPassOf self.now pass.new }
        ensures count { empty_takes pass.new ≡ (if is_some result then empty_takes pass.old else one_more (empty_takes pass.old)) }
        ensures empty { IfNone result (Held 0 (known pass.old)) }
        ensures all { IfNone result (IsWhole (known pass.old) → AreSame (all_taken (known pass.old)) (all_put (known pass.old))) }
        ensures kept { IfNone result (known pass.new ≡ known pass.old) }
    {
        let job = self.line.pop_as::<Takes, R>(rt, &mut pass.pass);
        if job.is_none() {
            pass.empty_takes = pass.empty_takes.saturating_add(1);
        }
        job
    }

    /// Joins a pass into another one, which then stands for the jobs of both and has the parts of both.
    /// Takes no memory.
    pub fn join(&self, pass: &mut JobPass, other: JobPass)
        requires queue { IsPassOf self.now pass.old }
        requires other { IsPassOf self.now other }
        ensures both { known pass.new ≡ both (known pass.old) (known other) }
        ensures pass { IsPassOf self.now pass.new }
        ensures count { empty_takes pass.new ≡ empty_takes pass.old }
    {
        let JobPass {
            pass: other,
            empty_takes: _,
        } = other;
        take_in(&self.line, &mut pass.pass, other);
    }
}
