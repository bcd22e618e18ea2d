// What a stage passes before each of its turns.

/// What a stage of the live program passes before each of its turns. It is shared by all stages, and
/// may wait or count; no contract says what it does.
pub trait Gate: Sync {
    /// Lets a stage go on to a turn, counted from 1.
    fn pass(&self, stage: u32, turn: u32);
}

/// A gate that is always open.
#[derive(Clone, Copy, Debug)]
pub struct OpenGate;

impl Gate for OpenGate {
    fn pass(&self, _stage: u32, _turn: u32) {}
}
