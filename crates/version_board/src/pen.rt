// The writer of the two copies.
ghost use Rattle.std.specs.Prelude.{◌≡◌, ◌≤◌, ◌++◌, ◌∷◌, [], Some, IfOk, MatchResult};
ghost use Rattle.version_board.specs.Copies.{IsWhole};
ghost use Rattle.version_board.specs.Changes.{added};

use crate::board::Board;
use crate::change::Change;
use crate::door::Door;
use crate::front::Front;
use crate::rule::{Look, RuledWriter, Tell};
use pond_base::OutOfMemory;
use std::alloc::Global;
use std::marker::Model;
use std::sync::Wait;

/// The writer of the two copies. Contracts see the copy that readers take, the changes that are pending,
/// and what it has seen itself. It is not `Drop`: end it by `close`.
pub(crate) struct Pen {
    writer: RuledWriter,
}

impl Model for Pen {
    ghost use Rattle.std.specs.Prelude.{drop};
    ghost use Rattle.left_right.specs.Sides.{view as sight_of};
    ghost use Rattle.version_board.specs.Ends.{PenView};

    ghost Value = { PenView };

    ghost view = { λ pen. record { copy = pen.writer.desk.shown.value; changes = drop pen.writer.behind pen.writer.log.items; sight = sight_of pen.writer.desk.place } };
}

impl Pen {
    /// A writer of two empty copies, with places for so many readers.
    pub(crate) fn open<R: Wait>(
        rt: &R,
        alloc: Global,
        front: &Front,
        readers: u32,
    ) -> Result<Pen, OutOfMemory>
        requires some { 1 ≤ readers }
        requires empty { front.now.list ≡ [] }
        ensures { IfOk result (λ pen. pen ≡ record { copy = record { list = []; front = front.now }; changes = []; sight = Some front.now }) }
    {
        let first = Board::new(alloc, front.again());
        let second = Board::new(alloc, front.again());
        let writer = RuledWriter::new(alloc, first, second, readers as usize)?;
        let (writer, result) = writer.publish_as::<Look, R>(rt);
        let pen = Pen { writer };
        match result {
            Ok(()) => Ok(pen),
            Err(_) => {
                pen.close(rt);
                Err(OutOfMemory)
            }
        }
    }

    /// The copy that readers take.
    pub(crate) fn published(&self) -> &Board
        ensures { result.now ≡ self.now.copy }
    {
        self.writer.published()
    }

    /// A reader that has seen what this writer has.
    pub(crate) fn reader(&mut self) -> Result<Door, OutOfMemory>
        ensures door { IfOk result (λ door. door ≡ record { sight = self.old.sight; shut = 0 }) }
        ensures kept { self.new ≡ self.old }
    {
        let mut reader = self.writer.factory().reader()?;
        reader.learn::<Tell>(self.writer.tell::<Tell>());
        Ok(Door::new(reader))
    }

    /// Adds a change to the pending ones. It comes back where there is no memory.
    pub(crate) fn append(&mut self, change: Change) -> Result<(), Change>
        ensures { MatchResult result (λ _. self.new ≡ record self.old { changes = self.old.changes ++ change ∷ [] }) (λ back. (back ≡ change) × (self.new ≡ self.old)) }
    {
        self.writer.append(change)
    }

    /// Shows readers a copy with all pending changes, which is a list of the history. It waits for those
    /// who still read that copy.
    pub(crate) fn publish<R: Wait>(mut self, rt: &R, front: Front) -> (Pen, Result<(), OutOfMemory>)
        requires whole { IsWhole self.copy }
        requires board { front.board ≡ self.copy.front.board }
        requires list { front.list ≡ self.copy.list ++ added self.changes }
        ensures { MatchResult result.1 (λ _. (result.0.copy ≡ record { list = front.list; front = front }) × (result.0.changes ≡ [])) (λ _. (result.0.copy ≡ self.copy) × (added result.0.changes ≡ added self.changes)) }
    {
        match self.append(Change::Reach(front)) {
            Ok(()) => {}
            Err(_) => return (self, Err(OutOfMemory)),
        }
        let Pen { writer } = self;
        let (writer, result) = writer.publish_as::<Look, R>(rt);
        let pen = Pen { writer };
        match result {
            Ok(()) => (pen, Ok(())),
            Err(_) => (pen, Err(OutOfMemory)),
        }
    }

    /// Waits for the readers, and ends the board.
    pub(crate) fn close<R: Wait>(self, rt: &R) {
        let Pen { writer } = self;
        let _board = writer.take(rt);
    }
}
