// What is done to both copies of the board.
use crate::entry::BoardEntry;
use crate::front::Front;

/// A change of a copy.
#[derive(Drop)]
pub(crate) enum Change {
    /// An entry goes behind the others.
    Add(BoardEntry),
    /// The entries are this list of the history.
    Reach(Front),
}
