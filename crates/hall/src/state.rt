// A machine beside the journal of its events.
ghost use Rattle.std.specs.Prelude.{◌≡◌, ◌++◌, ◌∷◌, [], true, false, IfOk, OnOk, OnErr};
ghost use Rattle.hall.specs.Answers.{IsEndedWhere, IsClashWhere};

use crate::machine::Machine;
use block_names::StepFault;
use std::marker::Model;
use std::sync::Wait;
use std::thread::Threads;

/// A machine, beside the journal of the events that were done to it. While the machine has not ended,
/// it stands for the journal: whoever replays the journal comes to this state.
#[derive(Drop)]
pub struct HallState<M: Machine> {
    journal: Vec<M::Event>,
    state: M,
}

// Contracts see the journal and the state.
impl<M: Machine> Model for HallState<M> {
    ghost use Rattle.std.specs.Prelude.{◌≡◌, false};
    ghost use Rattle.hall.specs.Journaled.{Journaled};

    ghost Value = { Journaled M.Event M };

    ghost view = { λ s. record { journal = s.journal.items; state = s.state } };

    ghost invariant = { λ s. M.ended s.state ≡ false → M.stands_for s.state s.journal.items };
}

impl<M: Machine> HallState<M> {
    /// Joins a journal and the state that stands for it, or that has ended. Takes no memory.
    pub fn from_parts(journal: Vec<M::Event>, state: M) -> HallState<M>
        requires { M.ended state ≡ false → M.stands_for state journal.items }
        ensures journal { result.journal ≡ journal.items }
        ensures state { result.state ≡ state }
    {
        HallState { journal, state }
    }

    /// The journal and the state. Takes no memory.
    pub fn into_parts(self) -> (Vec<M::Event>, M)
        ensures journal { result.0.items ≡ self.journal }
        ensures state { result.1 ≡ self.state }
        ensures replays { M.ended self.state ≡ false → M.stands_for self.state self.journal }
    {
        let HallState { journal, state } = self;
        (journal, state)
    }

    /// The state. Takes no memory.
    pub fn state(&self) -> &M
        ensures state { result.now ≡ self.now.state }
        ensures replays { M.ended self.now.state ≡ false → M.stands_for self.now.state self.now.journal }
    {
        &self.state
    }

    /// Does an event that the state allows, and adds it to the journal. `Ended` is answered exactly
    /// where the state had ended before, and `Clash` exactly where it had not and the event has a clash
    /// pair, with one of these; memory may run out before either. After any fault the state has ended
    /// and the journal is as before.
    pub fn step<R: Threads + Wait + Sync>(
        &mut self,
        rt: &R,
        event: M::Event,
    ) -> Result<M::Said, StepFault>
        requires { M.allows self.old.state event }
        ensures said { IfOk result (M.answers self.old.journal event) }
        ensures journal { OnOk result (self.new.journal ≡ self.old.journal ++ event ∷ []) }
        ensures replays { OnOk result (M.stands_for self.new.state self.new.journal) }
        ensures goes_on { OnOk result (M.ended self.new.state ≡ false) }
        ensures ended { IsEndedWhere (M.ended self.old.state) result }
        ensures clash { IsClashWhere (M.clashes self.old.state event) result }
        ensures ends { OnErr result (M.ended self.new.state ≡ true) }
        ensures kept { OnErr result (self.new.journal ≡ self.old.journal) }
    {
        let Ok(copy) = M::copy_event(&event) else {
            self.state.give_up();
            return Err(StepFault::Memory);
        };
        if self.journal.reserve(1).is_err() {
            self.state.give_up();
            return Err(StepFault::Memory);
        }
        let said = self.state.step(rt, event);
        if said.is_ok() {
            self.journal.push_reserved(copy);
        }
        said
    }

    /// Ends the state, and leaves the journal. Takes no memory.
    pub fn give_up(&mut self)
        ensures ended { M.ended self.new.state ≡ true }
        ensures journal { self.new.journal ≡ self.old.journal }
    {
        self.state.give_up();
    }
}
