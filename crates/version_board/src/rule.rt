// The rule of the two copies.
use crate::board::Board;
use crate::change::Change;
use crate::front::Front;
use atomic_table::{Join, Split};
use crossbeam_utils::rule::{Outcome, Protocol};
use left_right::reader::{Reader, Reading};
use left_right::writer::Writer;

/// What one who reads or writes the board has seen last. No value of it is made.
pub(crate) type Sight = Option<Front>;

/// The rule of `board_model`.
pub(crate) struct Ruled;

impl Protocol<Board, Sight> for Ruled {
    ghost use Rattle.std.specs.Prelude.{None};
    ghost use Rattle.version_board.specs.Copies.{Holds};

    ghost holds = { Holds };

    ghost first = { None };
}

/// A look at the board, or a publishing.
pub(crate) struct Look;

impl Outcome<Board, Sight> for Look {
    ghost use Rattle.version_board.specs.Copies.{Looks};

    ghost then = { Looks };
}

/// Another one is told what was seen, in the place of what he knew.
pub(crate) struct Tell;

impl Split<Sight> for Tell {
    ghost left = { λ seen. seen };

    ghost right = { λ seen. seen };
}

impl Join<Sight> for Tell {
    ghost use Rattle.std.specs.Prelude.{None};

    ghost both = { λ known told. told };

    ghost spent = { None };
}

pub(crate) type RuledReader = Reader<Board, Sight, Ruled>;

pub(crate) type RuledReading = Reading<Board, Sight, Ruled>;

pub(crate) type RuledWriter = Writer<Board, Change, Sight, Ruled>;
