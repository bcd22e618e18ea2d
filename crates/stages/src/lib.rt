//! The jobs of the archive, the queue in which they wait, and the workers that do them.
//!
//! An [`ArchiveJob`] has the strings that are new in a version; an [`ArchiveDone`] has them with the
//! rows that a code gives. A [`JobQueue`] is shared by threads, each with a [`JobPass`] of its own that
//! stands for the jobs that were put and taken with it. The queue keeps the rule of `stage_model`: there
//! is one line of jobs, in the order of putting, and each job of it is taken once or is left. [`work`]
//! is what a worker does: it takes jobs until a take finds the queue empty. It stands on the erasure
//! code and on the ruled queue of `crossbeam_queue`. The layer above uses that one result comes for each
//! job that was taken, and that a pass with every part that finds nothing left has taken all.
#![tactic(auto)]

mod gate;
mod job;
mod joining;
mod pass;
mod queue;
mod rows;
mod rule;
mod working;

pub use gate::{Gate, OpenGate};
pub use job::{ArchiveDone, ArchiveJob};
pub use pass::JobPass;
pub use queue::JobQueue;
pub use working::work;
