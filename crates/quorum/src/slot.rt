// The votes for a slot.
ghost use Rattle.std.specs.Prelude.{◌≡◌, ◌<◌, ◌↔◌, ℕ, IsTrue, Some, None, false, List};
ghost use Rattle.std.specs.Option.{option_or};
ghost use Rattle.quorum.specs.Tallies.{count};
ghost use Rattle.quorum.specs.declared.phase.Phase.{Phase};

use crate::{Phase, Tally};
use pond_base::{MemberId, Name};

/// The first votes of each phase for a slot.
#[derive(Clone, Copy, Debug)]
pub struct Slot {
    pub prepares: Tally,
    pub commits: Tally,
}

impl Slot {
    ghost use Rattle.std.specs.Prelude.{◌≡◌, ◌<◌, ◌↔◌, ℕ, IsTrue, Some, None, false};
    ghost use Rattle.std.specs.Option.{option_or};
    ghost use Rattle.quorum.specs.Tallies.{count};
    ghost use Rattle.quorum.specs.declared.phase.Phase.{Phase};
    ghost use Rattle.quorum.specs.Slots.{first_in, said_in};

    /// The slot without votes.
    pub fn new() -> Slot
        ensures { (p : Phase) (j : ℕ) → first_in (Some result) p j ≡ None }
    {
        Slot {
            prepares: Tally::new(),
            commits: Tally::new(),
        }
    }

    /// Counts a sender's vote of a phase where it is the sender's first, and answers whether it is.
    pub fn cast(&mut self, phase: Phase, sender: MemberId, name: Name) -> bool
        requires { sender.0 < 10 }
        ensures first { IsTrue result ↔ (first_in (Some self.old) phase sender.0 ≡ None) }
        ensures votes { (p : Phase) (j : ℕ) → first_in (Some self.new) p j ≡ option_or (first_in (Some self.old) p j) (said_in phase sender.0 name p j) }
    {
        match phase {
            Phase::Prepare => self.prepares.cast(sender, name),
            Phase::Commit => self.commits.cast(sender, name),
        }
    }

    /// How many senders have this name as their first vote of a phase.
    pub fn count_of(&self, phase: Phase, name: Name) -> u32
        ensures { result ≡ count (first_in (Some self.now) phase) name }
    {
        match phase {
            Phase::Prepare => self.prepares.count_of(name),
            Phase::Commit => self.commits.count_of(name),
        }
    }
}
