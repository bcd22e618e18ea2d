// The first votes above a floor.
ghost use Rattle.std.specs.Prelude.{◌≡◌, ◌<◌, ◌≤◌, ◌↔◌, ℕ, IsTrue, Some, None, false, cond, nat_le, IfOk, OnOk, OnErr};
ghost use Rattle.std.specs.Option.{option_or};
ghost use Rattle.quorum.specs.declared.phase.Phase.{Phase};
ghost use Rattle.quorum.specs.Tallies.{count};
ghost use Rattle.quorum.specs.Windows.{first, said_above, has_vote, kept_of};

use crate::Phase;
use crate::slots::{Slots, cast, drop_to};
use pond_base::{MemberId, Name, OutOfMemory, Seq};
use std::alloc::Global;
use std::collections::BTreeMap;
use std::marker::Model;

/// The first votes of ten senders for each slot above a floor, in both phases. Contracts see a
/// sender's first vote of a phase for a slot.
#[derive(Drop)]
pub struct Window {
    floor: u32,
    slots: Slots,
}

impl Model for Window {
    ghost use Rattle.std.specs.FinMap as map;
    ghost use Rattle.quorum.specs.Slots.{IsKept};
    ghost use Rattle.quorum.specs.Windows.{Votes, coded_votes};

    ghost Value = { Votes };

    ghost coded = { coded_votes };

    ghost view = { λ window. record { floor = window.floor; slots = map.from_entries window.slots.entries } };

    ghost invariant = { λ window. IsKept window.floor window.slots.entries };
}

impl Window {
    /// The window of no votes, with floor 0. Takes no memory.
    pub fn new(alloc: Global) -> Window
        ensures floor { result.floor ≡ 0 }
        ensures votes { (p : Phase) (s j : ℕ) → first result p s j ≡ None }
    {
        Window {
            floor: 0,
            slots: BTreeMap::new(alloc),
        }
    }

    /// Counts a sender's vote of a phase for a slot above the floor where it is the sender's first,
    /// and answers whether it is. Each other vote changes nothing, nor does a want of memory, which
    /// comes at the first vote for a slot alone.
    pub fn cast(
        &mut self,
        phase: Phase,
        seq: Seq,
        sender: MemberId,
        name: Name,
    ) -> Result<bool, OutOfMemory>
        requires { sender.0 < 10 }
        ensures first { IfOk result (λ is_first. IsTrue is_first ↔ ((self.old.floor < seq.0) × (first self.old phase seq.0 sender.0 ≡ None))) }
        ensures votes { OnOk result ((p : Phase) (s j : ℕ) → first self.new p s j ≡ option_or (first self.old p s j) (said_above self.old.floor phase seq.0 sender.0 name p s j)) }
        ensures floor { self.new.floor ≡ self.old.floor }
        ensures unchanged { IfOk result (λ is_first. is_first ≡ false → self.new ≡ self.old) }
        ensures memory { OnErr result ((self.old.floor < seq.0) × (has_vote self.old seq.0 ≡ false)) }
        ensures err { OnErr result (self.new ≡ self.old) }
    {
        if seq.0 <= self.floor {
            return Ok(false);
        }
        let Ok(is_first) = cast(&mut self.slots, phase, seq.0, sender, name) else {
            return Err(OutOfMemory);
        };
        Ok(is_first)
    }

    /// How many senders have this name as their first vote of a phase for a slot: none at or below
    /// the floor. Takes no memory.
    pub fn count_of(&self, phase: Phase, seq: Seq, name: Name) -> u32
        ensures value { result ≡ count (first self.now phase seq.0) name }
        ensures dropped { seq.0 ≤ self.now.floor → result ≡ 0 }
    {
        match self.slots.get(&seq.0) {
            Some(slot) => slot.count_of(phase, name),
            None => 0,
        }
    }

    /// Raises the floor and drops all votes at or below it. Takes no memory.
    pub fn advance(&mut self, floor: Seq)
        requires { self.old.floor ≤ floor.0 }
        ensures floor { self.new.floor ≡ floor.0 }
        ensures votes { (p : Phase) (s j : ℕ) → first self.new p s j ≡ cond (nat_le s floor.0) None (first self.old p s j) }
    {
        drop_to(&mut self.slots, floor.0);
        self.floor = floor.0;
    }

    /// How many slots above the floor have a vote. Takes no memory.
    pub fn kept(&self) -> u32
        ensures { result ≡ kept_of self.now }
    {
        self.slots.len() as u32
    }

    /// The slot up to which all votes are dropped.
    pub fn floor(&self) -> Seq
        ensures value { result.0 ≡ self.now.floor }
        ensures dropped { (p : Phase) (s j : ℕ) → s ≤ self.now.floor → first self.now p s j ≡ None }
    {
        Seq(self.floor)
    }
}
