// The votes for a version of an object.
ghost use Rattle.std.specs.Prelude.{◌≡◌, ◌<◌, ℕ, Some, None};
ghost use Rattle.std.specs.Option.{option_or};
ghost use Rattle.quorum.specs.Tallies.{said_by};
ghost use Rattle.heartbeat.specs.Votes.{believed_then};
ghost use Rattle.heartbeat.specs.Boards.{first_at, value_at};

use pond_base::{MemberId, Name};
use quorum::Tally;

/// The first votes for a version, and the value that had enough of them first.
#[derive(Clone, Copy, Debug)]
pub struct Entry {
    pub tally: Tally,
    pub accepted: Option<Name>,
}

impl Entry {
    /// The entry without votes.
    pub fn new() -> Entry
        ensures first { (j : ℕ) → first_at (Some result) j ≡ None }
        ensures accepted { value_at (Some result) ≡ None }
    {
        Entry {
            tally: Tally::new(),
            accepted: None,
        }
    }

    /// Counts a member's vote, and accepts its value where it is the first with so many votes.
    pub fn cast(&mut self, need: u32, member: MemberId, value: Name)
        requires { member.0 < 10 }
        ensures first { (j : ℕ) → first_at (Some self.new) j ≡ option_or (first_at (Some self.old) j) (said_by member.0 value j) }
        ensures accepted { value_at (Some self.new) ≡ believed_then need (value_at (Some self.old)) (first_at (Some self.new)) (Some value) }
    {
        self.tally.cast(member, value);
        if self.accepted.is_none() && self.tally.count_of(value) >= need {
            self.accepted = Some(value);
        }
    }
}
