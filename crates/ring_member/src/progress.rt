// What a member keeps of letters.
ghost use Rattle.std.specs.Prelude.{◌≡◌, ◌≤◌, ◌<◌, ◌+◌, List, ℕ, true, false, length, Some, None, IfOk, OnOk, OnErr};
ghost use Rattle.ring_member.specs.Views.{view_of, endorsed_in, prepared_in, committed_in, ready_in, is_voted, Casts, Proposes, Hears, Executes, IsWhole};

use bytes::Bytes;
use pond_base::limits::MOST_SLOTS;
use pond_base::{Items, MemberId, Name, OutOfMemory, Seq};
use quorum::{Phase, Window};
use std::alloc::Global;
use std::collections::BTreeMap;

/// The slots above the executed ones that a letter was for, each with the request of its first order.
pub(crate) type Slots = BTreeMap<u32, Option<Bytes>>;

/// What a member of a ring that tolerates f faulty ones keeps.
#[derive(Drop)]
pub struct Progress {
    pub f: u8,
    pub votes: Window,
    pub slots: Slots,
    pub names: BTreeMap<Bytes, Name>,
    pub done: Items<Bytes>,
}

impl Progress {
    /// The name with which a slot is endorsed.
    pub fn endorsed(&self, seq: Seq) -> Option<Name>
        ensures { result ≡ endorsed_in (view_of self.now) seq.0 }
    {
        match self.slots.get(&seq.0) {
            Some(Some(request)) => self.names.get(request).copied(),
            _ => None,
        }
    }

    /// Whether 2f+1 members vote for a name.
    pub fn is_voted(&self, phase: Phase, seq: Seq, name: Name) -> bool
        requires few { self.now.f ≤ 3 }
        ensures { result ≡ is_voted self.now.f phase (view_of self.now) seq.0 name }
    {
        self.votes.count_of(phase, seq, name) >= 2 * u32::from(self.f) + 1
    }

    /// The name with which a slot is prepared.
    pub fn prepared(&self, seq: Seq) -> Option<Name>
        requires few { self.now.f ≤ 3 }
        ensures { result ≡ prepared_in self.now.f (view_of self.now) seq.0 }
    {
        let name = self.endorsed(seq)?;
        if self.is_voted(Phase::Prepare, seq, name) {
            Some(name)
        } else {
            None
        }
    }

    /// The name with which a slot is committed.
    fn committed(&self, seq: Seq) -> Option<Name>
        requires few { self.now.f ≤ 3 }
        ensures { result ≡ committed_in self.now.f (view_of self.now) seq.0 }
    {
        let name = self.prepared(seq)?;
        if self.is_voted(Phase::Commit, seq, name) {
            Some(name)
        } else {
            None
        }
    }

    /// The request of a slot that can be executed.
    fn ready(&self, seq: Seq) -> Result<Option<Bytes>, OutOfMemory>
        requires few { self.now.f ≤ 3 }
        ensures { IfOk result (λ found. found ≡ ready_in self.now.f (view_of self.now) seq.0) }
    {
        if self.committed(seq).is_none() {
            return Ok(None);
        }
        match self.slots.get(&seq.0) {
            Some(Some(request)) => Ok(Some(request.clone()?)),
            _ => Ok(None),
        }
    }

    /// Counts a vote for a slot where it is its sender's first.
    pub fn cast(
        &mut self,
        phase: Phase,
        seq: Seq,
        sender: MemberId,
        name: Name,
    ) -> Result<(), OutOfMemory>
        requires seat { sender.0 < 10 }
        ensures casts { OnOk result (Casts (view_of self.old) phase seq.0 sender.0 name (view_of self.new)) }
        ensures faults { OnOk result (self.new.f ≡ self.old.f) }
        ensures spent { OnErr result (IsWhole self.old → IsWhole self.new) }
    {
        self.votes.cast(phase, seq, sender, name)?;
        if !self.slots.contains_key(&seq.0) {
            self.slots.insert(seq.0, None)?;
        }
        Ok(())
    }

    /// Keeps the order of a slot where it is the first.
    pub fn propose(&mut self, seq: Seq, request: Bytes) -> Result<(), OutOfMemory>
        ensures proposes { OnOk result (Proposes (view_of self.old) seq.0 request (view_of self.new)) }
        ensures faults { OnOk result (self.new.f ≡ self.old.f) }
        ensures spent { OnErr result (IsWhole self.old → IsWhole self.new) }
    {
        if let Some(Some(_)) = self.slots.get(&seq.0) {
            return Ok(());
        }
        self.slots.insert(seq.0, Some(request))?;
        Ok(())
    }

    /// Keeps the name of a request that came from its client.
    pub fn hear(&mut self, request: Bytes, name: Name) -> Result<(), OutOfMemory>
        ensures hears { OnOk result (Hears (view_of self.old) request name (view_of self.new)) }
        ensures faults { OnOk result (self.new.f ≡ self.old.f) }
        ensures spent { OnErr result (IsWhole self.old → IsWhole self.new) }
    {
        self.names.insert(request, name)?;
        Ok(())
    }

    /// Executes the next slot, where it can be, and answers whether it was.
    pub fn execute_next(&mut self) -> Result<bool, OutOfMemory>
        requires few { self.old.f ≤ 3 }
        requires within { length self.old.done < MOST_SLOTS }
        requires floor { self.old.votes.floor ≤ length self.old.done }
        ensures executed { IfOk result (λ is_executed. is_executed ≡ true
            → (request : List ℕ) × (ready_in self.old.f (view_of self.old) (length self.old.done + 1) ≡ Some request) × Executes (view_of self.old) request (view_of self.new)) }
        ensures stopped { IfOk result (λ is_executed. is_executed ≡ false → (ready_in self.old.f (view_of self.old) (length self.old.done + 1) ≡ None) × (self.new ≡ self.old)) }
        ensures faults { OnOk result (self.new.f ≡ self.old.f) }
        ensures spent { OnErr result (IsWhole self.old → IsWhole self.new) }
    {
        let seq = Seq(self.done.len() as u32 + 1);
        match self.ready(seq)? {
            Some(request) => {
                self.execute(seq, request)?;
                Ok(true)
            }
            None => Ok(false),
        }
    }

    // Executes the next slot with this request.
    fn execute(&mut self, seq: Seq, request: Bytes) -> Result<(), OutOfMemory>
        requires next { seq.0 ≡ length self.old.done + 1 }
        requires floor { self.old.votes.floor ≤ length self.old.done }
        ensures executes { OnOk result (Executes (view_of self.old) request (view_of self.new)) }
        ensures faults { OnOk result (self.new.f ≡ self.old.f) }
        ensures spent { OnErr result (IsWhole self.old → IsWhole self.new) }
    {
        self.done.push(request)?;
        self.slots.remove(&seq.0);
        self.votes.advance(seq);
        Ok(())
    }
}
