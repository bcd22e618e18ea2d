// The history of a board: the entries that were ever to be published, which exist in proofs alone. What
// threads hold of it are tokens of no bytes, and a word with its length.
use crate::entry::BoardEntry;
use logbook::{Gain, Plain, Play, Rule, Seen, Word};
use std::snapshot::Snapshot;

/// The word of a history has its length.
pub(crate) struct History;

impl Rule<BoardEntry, u64> for History {
    ghost use Rattle.std.specs.Prelude.{[]};
    ghost use base.Fml.{ftrue};
    ghost use Rattle.version_board.specs.Histories.{IsCounted};

    ghost holds = { λ cells log. IsCounted cells log };

    ghost first = { [] };

    ghost hinted = { λ value log. Unit {0} };

    ghost shows = { λ log. [] };

    ghost keeps = { λ names log. ftrue };

    ghost moves = { λ ask before after answer. Unit {0} };
}

/// Nothing is traded for an entry.
pub(crate) struct Nothing;

impl Gain<BoardEntry, u64> for Nothing {
    ghost use base.Fml.{ftrue};

    ghost after = { λ names about answer. ftrue };
}

/// A step that adds an entry.
pub(crate) struct Add;

impl Play<BoardEntry, u64> for Add {
    ghost use Rattle.version_board.specs.Histories.{Adds};

    ghost then = { Adds };
}

impl Plain<Snapshot<BoardEntry>, BoardEntry, u64> for Add {
    ghost use Rattle.std.specs.Prelude.{None};

    ghost ask = { λ entry. entry.value };

    ghost state = { λ entry. None };
}

/// A beginning of the history.
pub(crate) type Token = Seen<BoardEntry, u64, History>;

/// The word of the history.
pub(crate) type Counter = Word<BoardEntry, u64, History>;
