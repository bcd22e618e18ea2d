// The pass of a thread to the queue.
ghost use Rattle.std.specs.Prelude.{◌≡◌, ◌<◌};
ghost use Rattle.crossbeam_queue.specs.Passes.{view};

use crate::job::ArchiveJob;
use crate::rule::Knowledge;
use crossbeam_queue::Pass;

/// What a thread holds to put and take jobs. It stands for the jobs that were put and taken with it and
/// with each pass that was joined into it, and counts the takes that found the queue empty.
#[derive(Drop)]
pub struct JobPass {
    pub(crate) pass: Pass<ArchiveJob, Knowledge>,
    pub(crate) empty_takes: u64,
    ghost some_part: { 0 < (view pass).parts },
}

impl JobPass {
    ghost use Rattle.std.specs.Prelude.{◌≡◌};
    ghost use Rattle.stages.specs.Queues.{empty_takes};

    /// How many takes with this pass found the queue empty, up to the greatest number of 64 bits. Takes
    /// no memory.
    pub fn empty_takes(&self) -> u64
        ensures { result ≡ empty_takes self.now }
    {
        self.empty_takes
    }
}
