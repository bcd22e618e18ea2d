// What is believed of versions.
ghost use Rattle.std.specs.Prelude.{◌≡◌, ◌<◌, ◌≤◌, ℕ, List, [], ◌∷◌, None, OnOk, OnErr};
ghost use Rattle.heartbeat.specs.Votes.{Vote, first_of, believed_of, newest_of};
ghost use Rattle.heartbeat.specs.Boards.{StandsFor};

use crate::entries::{Entries, newest_in, take};
use pond_base::{MemberId, Name, OutOfMemory, Version};
use std::alloc::Global;
use std::collections::BTreeMap;
use std::marker::Model;

/// What a client believes of versions: the value that so many members told alike. Contracts see what
/// is kept for each version of an object, and speak of the lists of votes that it stands for.
#[derive(Drop)]
pub struct Votes {
    need: u32,
    entries: Entries,
}

impl Model for Votes {
    ghost use Rattle.std.specs.FinMap as map;
    ghost use Rattle.heartbeat.specs.Boards.{Board, coded_board};

    ghost Value = { Board };

    ghost coded = { coded_board };

    ghost view = { λ votes. record { need = votes.need; entries = map.from_entries votes.entries.entries } };
}

impl Votes {
    /// No votes, where a value is believed of which so many members have told. Takes no memory.
    pub fn new(alloc: Global, need: u32) -> Votes
        requires { 1 ≤ need }
        ensures { StandsFor need result [] }
    {
        Votes {
            need,
            entries: BTreeMap::new(alloc),
        }
    }

    /// Takes a member's vote for the value of a version. A want of memory changes nothing, and comes
    /// at the first vote for a version alone.
    pub fn take(
        &mut self,
        member: MemberId,
        object: Name,
        version: Version,
        value: Name,
    ) -> Result<(), OutOfMemory>
        requires { member.0 < 10 }
        ensures stands { OnOk result ((need : ℕ) (votes : List Vote) → StandsFor need self.old votes → StandsFor need self.new (record { member = member.0; object = object; version = version.0; value = value } ∷ votes)) }
        ensures memory { OnErr result ((need : ℕ) (votes : List Vote) → StandsFor need self.old votes → (j : ℕ) → first_of object version.0 j votes ≡ None) }
        ensures err { OnErr result (self.new ≡ self.old) }
    {
        let Ok(()) = take(&mut self.entries, self.need, member, object, version, value) else {
            return Err(OutOfMemory);
        };
        Ok(())
    }

    /// The believed value of a version, if there is one. Takes no memory.
    pub fn accepted(&self, object: Name, version: Version) -> Option<Name>
        ensures { (need : ℕ) (votes : List Vote) → StandsFor need self.now votes → result ≡ believed_of need object version.0 votes }
    {
        match self.entries.get(&(object, version)) {
            Some(entry) => entry.accepted,
            None => None,
        }
    }

    /// The greatest version of an object that has a believed value, with this value, if there is one.
    /// Reads what is kept of this object, and of no other. Takes no memory.
    pub fn newest(&self, object: Name) -> Option<(Version, Name)>
        ensures { (need : ℕ) (votes : List Vote) → StandsFor need self.now votes → result ≡ newest_of need object votes }
    {
        newest_in(&self.entries, object)
    }
}
