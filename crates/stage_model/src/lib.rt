//! What the passes of a queue of jobs know, and the rule that the queue keeps.
//!
//! It is a crate of definitions and stands on the standard library alone. A queue has four parts of the
//! right to know all; who has every part knows all that was put and taken. The rule says that there is
//! one line of jobs, in the order of putting: the jobs that were taken, in the order of taking, and then
//! those that the queue holds. What each pass put and took stands in it, each job as often and in the
//! order of the pass. The functions have no code; their contracts are the laws on which the queue above
//! rests: a put, a take, a split and a join keep the rule, and who has every part and finds the queue
//! empty has taken what was put.
#![tactic(auto)]

ghost use Rattle.stage_model.specs.Laws.{BeginsInOrder, PutKeeps, TakeKeeps, SplitKeeps, JoinKeeps, IsLearned, AllIsTaken};

/// An empty queue with one pass that has every part keeps the rule.
pub fn begins_in_order<Job>()
    ensures { BeginsInOrder Job }
{}

/// The rule stays where a pass puts a job.
pub fn put_keeps<Job>()
    ensures { PutKeeps Job }
{}

/// The rule stays where a pass takes the first job.
pub fn take_keeps<Job>()
    ensures { TakeKeeps Job }
{}

/// The rule stays where a pass gives one of its parts to a new pass.
pub fn split_keeps<Job>()
    ensures { SplitKeeps Job }
{}

/// The rule stays where a pass is joined into another one.
pub fn join_keeps<Job>()
    ensures { JoinKeeps Job }
{}

/// What the rule tells a pass of what the queue holds.
pub fn is_learned<Job>()
    ensures { IsLearned Job }
{}

/// Who has every part and finds the queue empty has taken the jobs that were put, each as often.
pub fn all_is_taken<Job>()
    ensures { AllIsTaken Job }
{}
