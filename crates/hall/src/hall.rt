// A machine and its journal behind a lock.
ghost use Rattle.std.specs.Prelude.{◌≡◌, [], false};

use crate::machine::Machine;
use crate::state::HallState;
use std::alloc::Global;
use std::sync::{Mutex, MutexGuard, Wait};

/// A machine and its journal behind a lock, which threads share.
#[derive(Drop)]
pub struct Hall<M: Machine> {
    lock: Mutex<HallState<M>>,
}

/// Whoever has this one holds the lock. It lends the machine and its journal.
pub type HallGuard<'a, M> = MutexGuard<'a, HallState<M>>;

impl<M: Machine> Hall<M> {
    /// A hall over a machine to which nothing was done, with an empty journal. Takes no memory.
    pub fn new(alloc: Global, state: M) -> Hall<M>
        requires { M.stands_for state [] }
    {
        Hall {
            lock: Mutex::new(HallState::from_parts(Vec::new(alloc), state)),
        }
    }

    /// Waits for the lock, and lends what it holds. What that is, whoever was here before decides; the
    /// type keeps that the journal replays, as [`HallState::state`] tells. Takes no memory.
    pub fn lock<R: Wait>(&self, rt: &R) -> HallGuard<'_, M> {
        self.lock.lock(rt)
    }

    /// What the lock held, once nobody can take it any more. Takes no memory.
    pub fn close(self) -> HallState<M>
        ensures replays { M.ended result.state ≡ false → M.stands_for result.state result.journal }
    {
        let Hall { lock } = self;
        lock.into_inner()
    }
}
