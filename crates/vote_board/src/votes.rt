// What a vote comes to.

/// What a prepare came to.
#[derive(Clone, Copy, Debug, PartialEq, Eq)]
pub enum Vote {
    /// The member's word held no vote, and now holds this one.
    Set,
    /// The member's word already held this value.
    Was(u32),
}

/// What a commit came to.
#[derive(Clone, Copy, Debug, PartialEq, Eq)]
pub enum CommitVote {
    /// The member's word held no vote, and now holds this value, which is prepared.
    Set(u32),
    /// The member's word already held this value, which is prepared.
    Was(u32),
    /// No value is prepared.
    NotPrepared,
}
