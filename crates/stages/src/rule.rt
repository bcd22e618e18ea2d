// The rule that the queue keeps, as the steps of the queue name it. No value of these types is made.
use crate::job::ArchiveJob;
use crossbeam_queue::protocol::{Join, Lesson, Outcome, Protocol, Split};
use std::collections::LinkedList;
use std::marker::Model;

// The jobs that were put and taken with one pass.
pub struct Moves {
    pub put: LinkedList<ArchiveJob>,
    pub taken: LinkedList<ArchiveJob>,
}

impl Model for Moves {
    ghost use Rattle.stages.specs.declared.job.ArchiveJob.{ArchiveJob};
    ghost use Rattle.stage_model.specs.Passes.{Handled};

    ghost Value = { Handled ArchiveJob };

    ghost view = { λ moves. record { put = moves.put; taken = moves.taken } };
}

// What a pass knows.
pub struct Knowledge {
    pub parts: u64,
    pub own: Moves,
    pub joined: LinkedList<Moves>,
}

impl Model for Knowledge {
    ghost use Rattle.stages.specs.declared.job.ArchiveJob.{ArchiveJob};
    ghost use Rattle.stage_model.specs.Passes.{Known};

    ghost Value = { Known ArchiveJob };

    ghost view = { λ known. record { parts = known.parts; own = known.own; joined = known.joined } };
}

// One line of jobs, in the order of putting.
pub struct OneLine;

impl Protocol<ArchiveJob, Knowledge> for OneLine {
    ghost use Rattle.stage_model.specs.Passes.{unused};
    ghost use Rattle.stage_model.specs.Rules.{Rule};

    ghost holds = { λ items passes. Rule items passes };

    ghost first = { unused 4 };
}

// A job is put.
pub struct Puts;

impl Outcome<ArchiveJob, Knowledge> for Puts {
    ghost use Rattle.std.specs.Prelude.{◌≡◌};
    ghost use Rattle.stage_model.specs.Passes.{with_put};

    ghost then = { λ known job after. after ≡ with_put known job };
}

impl Lesson<ArchiveJob, Knowledge> for Puts {
    ghost use Rattle.stage_model.specs.Rules.{Moment};

    ghost fact = { λ known items. Moment items known };
}

// A job is taken.
pub struct Takes;

impl Outcome<ArchiveJob, Knowledge> for Takes {
    ghost use Rattle.std.specs.Prelude.{◌≡◌, [], ◌∷◌};
    ghost use Rattle.stage_model.specs.Passes.{with_taken};

    ghost then = { λ known job after. after ≡ with_taken known (job ∷ []) };
}

impl Lesson<ArchiveJob, Knowledge> for Takes {
    ghost use Rattle.stage_model.specs.Rules.{Moment};

    ghost fact = { λ known items. Moment items known };
}

// A part goes to a new pass, or a pass comes back.
pub struct Parts;

impl Split<Knowledge> for Parts {
    ghost use Rattle.stage_model.specs.Passes.{less_one, unused};

    ghost left = { λ known. less_one known };

    ghost right = { λ known. unused 1 };
}

impl Join<Knowledge> for Parts {
    ghost use Rattle.stage_model.specs.Passes.{both, unused};

    ghost both = { λ known other. both known other };

    ghost spent = { unused 0 };
}
