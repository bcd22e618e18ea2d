// What a world answers.

/// What an event did.
#[derive(Clone, Copy, Debug, PartialEq, Eq)]
pub enum Said {
    /// There was no message to be delivered.
    Nothing,
    /// So many messages were sent.
    Sent(u32),
}
