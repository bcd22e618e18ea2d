//! One machine that threads share behind a lock, with the journal of what was done to it.
//!
//! A [`Machine`] does events one after another until it ends. A [`HallState`] keeps a machine and the
//! list of its events together: while the machine has not ended, it stands for that list. A [`Hall`] is
//! a lock over such a pair. It stands on the faults of a step alone, and knows no world. Whoever steps
//! holds the lock and calls [`HallState::step`] on the locked value, since a call that also took the
//! lock could not say what it did. The layer above uses that a step adds exactly its event, with the
//! answer that the event has after the journal, and that a fault ends the machine and adds nothing.
#![tactic(auto)]

mod hall;
mod machine;
mod state;

pub use hall::{Hall, HallGuard};
pub use machine::Machine;
pub use state::HallState;
