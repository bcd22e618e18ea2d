// What is asked of a machine behind a lock.
ghost use Rattle.std.specs.Prelude.{◌≡◌, ◌++◌, ◌∷◌, [], List, ℕ, Bool, true, false, IfOk, OnOk, OnErr};
ghost use Rattle.hall.specs.Answers.{IsEndedWhere, IsClashWhere};

use block_names::StepFault;
use pond_base::OutOfMemory;
use std::sync::Wait;
use std::thread::Threads;

/// Something that does events one after another, until a fault ends it.
pub trait Machine {
    /// What is done to it.
    type Event: Drop;

    /// What it answers.
    type Said: Drop;

    // Whether it has ended.
    ghost ended: { Self → Bool };

    // Which events it allows now.
    ghost allows: { Self → Self.Event → Type 0 };

    // For which lists of events it stands.
    ghost stands_for: { Self → List Self.Event → Type 0 };

    // Which answer one more event has after such a list.
    ghost answers: { List Self.Event → Self.Event → Self.Said → Type 0 };

    // Which pairs of strings are a clash of an event now.
    ghost clashes: { Self → Self.Event → List ℕ → List ℕ → Type 0 };

    /// Does an event that it allows. `Ended` is answered exactly where it had ended before, and `Clash`
    /// exactly where it had not and the event has a clash pair, with one of these; memory may run out
    /// before either. After any fault it has ended.
    fn step<R: Threads + Wait + Sync>(
        &mut self,
        rt: &R,
        event: Self::Event,
    ) -> Result<Self::Said, StepFault>
        requires { allows self.old event }
        ensures said { IfOk result (λ said. (events : List Self.Event) → stands_for self.old events → answers events event said) }
        ensures stands { OnOk result ((events : List Self.Event) → stands_for self.old events → stands_for self.new (events ++ event ∷ [])) }
        ensures goes_on { OnOk result (ended self.new ≡ false) }
        ensures ends { OnErr result (ended self.new ≡ true) }
        ensures ended { IsEndedWhere (ended self.old) result }
        ensures clash { IsClashWhere (clashes self.old event) result };

    /// An equal event.
    fn copy_event(event: &Self::Event) -> Result<Self::Event, OutOfMemory>
        ensures { IfOk result (λ copy. copy ≡ event.now) };

    /// Ends it. Takes no memory.
    fn give_up(&mut self)
        ensures { ended self.new ≡ true };
}
