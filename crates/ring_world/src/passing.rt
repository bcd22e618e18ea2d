// What settles pass over.
ghost use Rattle.std.specs.Prelude.{◌≡◌, ◌<◌, ◌&&◌, ◌||◌, not, true, ℕ, List, OnOk, OnErr};
ghost use Rattle.block_names.specs.Held.{Held};
ghost use Rattle.ring_model.specs.Messages.{Party as Who, Ring, same_party};
ghost use Rattle.ring_model.specs.World as model;
ghost use Rattle.message_model.specs.Meaning.{who};
ghost use Rattle.ring_model.specs.Places.{Place};
ghost use Rattle.ring_model.specs.Seats.{IsSeat};
ghost use Rattle.ring_world.specs.Skipping.{skips};
ghost use Rattle.message_model.specs.Told.{stands_at};
ghost use Rattle.ring_world.specs.Worlds.{WorldStands, IsKnown};

use crate::state::World;
use pond_base::{OutOfMemory, Party};
use ring_node::Node;

impl<N: Node> World<N> {
    /// The message at this place, from 1 on, is lost, sent or not yet sent: settles pass over it. Where
    /// memory runs out the world has ended.
    pub fn lose(&mut self, from: Party, to: Party, place: u32) -> Result<(), OutOfMemory>
        requires { IsSeat (who from) × IsSeat (who to) × (0 < place) }
        ensures lost { OnOk result ((a : Place) → (skips self.new).lost a ≡ ((skips self.old).lost a || stands_at a (from, to, place))) }
        ensures muted { OnOk result ((skips self.new).muted ≡ (skips self.old).muted) }
        ensures stands { OnOk result ((g : Ring) (events : List model.Event) → WorldStands N.stands g self.old events → WorldStands N.stands g self.new events) }
        ensures known { (h : List ℕ → List ℕ) (held : Held) → IsKnown N.knows h held self.old → IsKnown N.knows h held self.new }
        ensures going { OnOk result (self.new.ended ≡ self.old.ended) }
        ensures ends { OnErr result (self.new.ended ≡ true) }
    {
        match self.mail.lose(from, to, place - 1) {
            Ok(()) => Ok(()),
            Err(fault) => {
                self.ended = true;
                Err(fault)
            }
        }
    }

    /// Settles pass over messages from and to this party. Where memory runs out the world has ended.
    pub fn mute(&mut self, party: Party) -> Result<(), OutOfMemory>
        requires { IsSeat (who party) }
        ensures muted { OnOk result ((p : Who) → (skips self.new).muted p ≡ ((skips self.old).muted p || same_party (who party) p)) }
        ensures lost { OnOk result ((skips self.new).lost ≡ (skips self.old).lost) }
        ensures stands { OnOk result ((g : Ring) (events : List model.Event) → WorldStands N.stands g self.old events → WorldStands N.stands g self.new events) }
        ensures known { (h : List ℕ → List ℕ) (held : Held) → IsKnown N.knows h held self.old → IsKnown N.knows h held self.new }
        ensures going { OnOk result (self.new.ended ≡ self.old.ended) }
        ensures ends { OnErr result (self.new.ended ≡ true) }
    {
        match self.mail.set_muted(party, true) {
            Ok(()) => Ok(()),
            Err(fault) => {
                self.ended = true;
                Err(fault)
            }
        }
    }

    /// Settles pass over messages from and to this party no more. Where memory runs out the world has
    /// ended.
    pub fn unmute(&mut self, party: Party) -> Result<(), OutOfMemory>
        requires { IsSeat (who party) }
        ensures muted { OnOk result ((p : Who) → (skips self.new).muted p ≡ ((skips self.old).muted p && not (same_party (who party) p))) }
        ensures lost { OnOk result ((skips self.new).lost ≡ (skips self.old).lost) }
        ensures stands { OnOk result ((g : Ring) (events : List model.Event) → WorldStands N.stands g self.old events → WorldStands N.stands g self.new events) }
        ensures known { (h : List ℕ → List ℕ) (held : Held) → IsKnown N.knows h held self.old → IsKnown N.knows h held self.new }
        ensures going { OnOk result (self.new.ended ≡ self.old.ended) }
        ensures ends { OnErr result (self.new.ended ≡ true) }
    {
        match self.mail.set_muted(party, false) {
            Ok(()) => Ok(()),
            Err(fault) => {
                self.ended = true;
                Err(fault)
            }
        }
    }
}
