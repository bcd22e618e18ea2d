//! How the votes that a window counts stand for the letters that a member was given.
//!
//! It stands on the model of agreement, which recounts a list of letters, and on the window of votes,
//! which keeps first votes above a floor. The functions have no code; their contracts are the two laws
//! by which a member that casts each vote into its window has the model's counts.
#![tactic(auto)]

ghost use Rattle.vote_model.specs.Joins.{CastJoins, CountJoins};

/// A window that agrees with the letters agrees with them and one more vote, once that is cast.
pub fn cast_joins()
    ensures { CastJoins }
{}

/// Where a window agrees with the letters, its count of a name in a slot above the floor is the number
/// of members that have this name as their first word there.
pub fn count_joins()
    ensures { CountJoins }
{}
