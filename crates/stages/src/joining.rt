// A pass that takes in all that another one has.
ghost use Rattle.std.specs.Prelude.{◌≡◌, ◌<◌};
ghost use Rattle.crossbeam_queue.specs.Passes.{view, IsPassOf, IsSamePass};
ghost use Rattle.stage_model.specs.Passes.{both};

use crate::job::ArchiveJob;
use crate::rule::{Knowledge, OneLine, Parts};
use crossbeam_queue::{Pass, RuledArrayQueue};

/// The queue under its rule.
pub type Line = RuledArrayQueue<ArchiveJob, Knowledge, OneLine>;

/// Takes another pass into one that has a part.
pub fn take_in(
    line: &Line,
    pass: &mut Pass<ArchiveJob, Knowledge>,
    other: Pass<ArchiveJob, Knowledge>,
)
    requires pass { IsPassOf line.now pass.old }
    requires other { IsPassOf line.now other }
    requires part { 0 < (view pass.old).parts }
    ensures both { view pass.new ≡ both (view pass.old) (view other) }
    ensures pass { IsSamePass pass.old pass.new }
{
    line.absorb::<Parts>(pass, other);
}
