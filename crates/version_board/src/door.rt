//! The reader of `left_right` behind a count of the times that it was turned away.
//!
//! This is what is taken on trust of reading: no clause of `left_right` tells why it gives a reader back
//! without having entered, or that a reader which enters after a publishing finds what was published.
//! Where the one or the other happens the reader is turned away, and its count tells.
ghost use Rattle.std.specs.Prelude.{◌≡◌, MatchResult};
ghost use Rattle.left_right.specs.Sides.{view as sight_of};
ghost use Rattle.pond_base.specs.Outside.{after_fault};
ghost use Rattle.version_board.specs.Copies.{Looks};

use crate::board::Board;
use crate::rule::{Look, RuledReader, RuledReading};
use std::marker::Model;

/// A reader that is not reading, and how often it was turned away.
#[derive(Drop)]
pub struct Door {
    reader: RuledReader,
    shut: u64,
}

impl Model for Door {
    ghost use Rattle.left_right.specs.Sides.{view as sight_of};
    ghost use Rattle.version_board.specs.Ends.{DoorView};

    ghost Value = { DoorView };

    ghost view = { λ door. record { sight = sight_of door.reader.place; shut = door.shut } };
}

/// A reader that reads. It is not `Drop`: end it by `leave` or `turn_away`.
pub(crate) struct Inside {
    reading: RuledReading,
    shut: u64,
}

impl Model for Inside {
    ghost use Rattle.left_right.specs.Sides.{view as sight_of};
    ghost use Rattle.version_board.specs.Ends.{InsideView};

    ghost Value = { InsideView };

    ghost view = { λ inside. record { copy = inside.reading.part.value; sight = sight_of inside.reading.place; shut = inside.shut } };
}

impl Door {
    pub(crate) fn new(reader: RuledReader) -> Door
        ensures { result ≡ record { sight = sight_of reader.place; shut = 0 } }
    {
        Door { reader, shut: 0 }
    }

    /// How often it was turned away; the count stays at its greatest value.
    pub(crate) fn shut(&self) -> u64
        ensures { result ≡ self.now.shut }
    {
        self.shut
    }

    /// Goes in to the copy that was published last, or is turned away.
    pub(crate) fn enter(self) -> Result<Inside, Door>
        ensures { MatchResult result (λ inside. Looks self.sight inside.copy inside.copy inside.sight × (inside.shut ≡ self.shut)) (λ door. door ≡ record self { shut = after_fault self.shut }) }
    {
        let Door { reader, shut } = self;
        match reader.enter_as::<Look>() {
            Ok(reading) => Ok(Inside { reading, shut }),
            Err(reader) => Err(Door {
                reader,
                shut: shut.saturating_add(1),
            }),
        }
    }
}

impl Inside {
    /// The copy that is read.
    pub(crate) fn board(&self) -> &Board
        ensures { result.now ≡ self.now.copy }
    {
        self.reading.get()
    }

    /// Ends the reading.
    pub(crate) fn leave(self) -> Door
        ensures { result ≡ record { sight = self.sight; shut = self.shut } }
    {
        let Inside { reading, shut } = self;
        Door {
            reader: reading.leave(),
            shut,
        }
    }

    /// Ends the reading of a copy that lacks what the reader knows to be published.
    pub(crate) fn turn_away(self) -> Door
        ensures { result ≡ record { sight = self.sight; shut = after_fault self.shut } }
    {
        let Inside { reading, shut } = self;
        Door {
            reader: reading.leave(),
            shut: shut.saturating_add(1),
        }
    }
}
