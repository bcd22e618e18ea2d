// Who publishes on the board.
ghost use Rattle.std.specs.Prelude.{◌≡◌, ◌≤◌, ◌<◌, ◌+◌, ◌^◌, ◌++◌, ◌∷◌, [], List, Some, length, OnOk, OnErr};
ghost use mathlib.Core.List.{IsPrefix};
ghost use Rattle.board_model.specs.Boards.{Entry};
ghost use Rattle.version_board.specs.Histories.{word_of};

use crate::change::Change;
use crate::entry::BoardEntry;
use crate::front::Front;
use crate::history::Counter;
use crate::note::BoardNote;
use crate::pen::Pen;
use crate::reader::BoardReader;
use pond_base::OutOfMemory;
use std::marker::Model;
use std::mem;
use std::snapshot::Snapshot;
use std::sync::Wait;

/// The one writer of a board. Contracts see the board, the published list and the pending one. It is not
/// `Drop`: end it by `close`.
pub struct BoardWriter {
    // A call that publishes takes it out, and puts it back.
    pen: Option<Pen>,
    counter: Counter,
    history: Front,
    // How many entries are published or pending.
    total: u32,
}

impl Model for BoardWriter {
    ghost use Rattle.std.specs.Prelude.{[]};
    ghost use Rattle.std.specs.Option.{option_map_or};
    ghost use Rattle.version_board.specs.Changes.{added};
    ghost use Rattle.version_board.specs.Ends.{WriterView, PenView};
    ghost use Rattle.version_board.specs.Kept.{IsWriter};

    ghost Value = { WriterView };

    ghost view = { λ writer. record { board = writer.history.board; published = option_map_or (λ (pen : PenView). pen.copy.list) writer.pen []; pending = option_map_or (λ (pen : PenView). added pen.changes) writer.pen [] } };

    ghost invariant = { λ writer. IsWriter writer.pen writer.counter writer.history writer.total };
}

impl BoardWriter {
    pub(crate) fn new(pen: Pen, counter: Counter, history: Front) -> BoardWriter
        requires pen { pen ≡ record { copy = record { list = []; front = history }; changes = []; sight = Some history } }
        requires empty { history.list ≡ [] }
        requires counter { counter ≡ word_of history.board }
        ensures { result ≡ record { board = history.board; published = []; pending = [] } }
    {
        BoardWriter {
            pen: Some(pen),
            counter,
            history,
            total: 0,
        }
    }

    /// Adds an entry to the pending list. After want of memory both lists are as they were.
    pub fn append(&mut self, entry: BoardEntry) -> Result<(), OutOfMemory>
        ensures ok { OnOk result (self.new ≡ record self.old { pending = self.old.pending ++ entry ∷ [] }) }
        ensures err { OnErr result (self.new ≡ self.old) }
    {
        if self.total == u32::MAX {
            return Err(OutOfMemory);
        }
        let Some(pen) = &mut self.pen else {
            unreachable!()
        };
        let noted = Snapshot::of(&entry);
        match pen.append(Change::Add(entry)) {
            Ok(()) => {}
            Err(_) => return Err(OutOfMemory),
        }
        note_down(&mut self.history, &self.counter, self.total, &noted);
        self.total += 1;
        Ok(())
    }

    /// Moves the pending list to the end of the published one, which readers see from then on. It waits
    /// for those who still read the list before the last publishing. After want of memory both lists are
    /// as they were.
    pub fn publish<R: Wait>(&mut self, rt: &R) -> Result<(), OutOfMemory>
        ensures ok { OnOk result (self.new ≡ record self.old { published = self.old.published ++ self.old.pending; pending = [] }) }
        ensures err { OnErr result (self.new ≡ self.old) }
    {
        if self.history.count() != self.total {
            return Err(OutOfMemory);
        }
        let Some(pen) = self.pen.take() else {
            unreachable!()
        };
        let (pen, result) = pen.publish(rt, self.history.again());
        put_back(rt, &mut self.pen, pen);
        result
    }

    /// A note of the list that is published now. Takes no memory.
    pub fn tell(&self) -> BoardNote
        ensures { result ≡ record { board = self.now.board; list = self.now.published } }
    {
        let Some(pen) = &self.pen else { unreachable!() };
        BoardNote::new(pen.published().front().again())
    }

    /// Ends the board, once nobody reads it any more: from then on readers are turned away. What is
    /// pending is lost. Takes no memory.
    pub fn close<R: Wait>(self, rt: &R) {
        let BoardWriter {
            pen,
            counter: _counter,
            history: _history,
            total: _,
        } = self;
        if let Some(pen) = pen {
            pen.close(rt);
        }
    }
}

// Adds an entry to the history, where the history has all entries before it.
fn note_down(history: &mut Front, counter: &Counter, total: u32, noted: &Snapshot<BoardEntry>)
    requires counter { counter.now ≡ word_of history.old.board }
    requires room { total + 1 < 2 ^ 32 }
    ensures board { history.new.board ≡ history.old.board }
    ensures begins { (all : List Entry) → total ≡ length all → IsPrefix history.old.list all → IsPrefix history.new.list (all ++ noted.now.value ∷ []) }
{
    if history.count() == total {
        let _ = history.add(counter, noted);
    }
}

// Puts the pen back in its place, which is empty.
fn put_back<R: Wait>(rt: &R, place: &mut Option<Pen>, pen: Pen)
    ensures { place.new ≡ Some pen }
{
    if let Some(old) = mem::replace(place, Some(pen)) {
        old.close(rt);
    }
}
