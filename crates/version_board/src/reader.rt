// Who reads the board.
ghost use Rattle.std.specs.Prelude.{◌≡◌, [], Some, IfOk, IfErr, OnOk};
ghost use Rattle.version_board.specs.Reads.{Answers, SawMore, AfterFault, Learnt, unread};

use crate::board::Board;
use crate::door::Door;
use crate::front::Front;
use crate::note::BoardNote;
use crate::read::{BoardFault, BoardRead, read_entry};
use pond_base::{Label, OutOfMemory};
use std::marker::Model;

/// A reader of the board. Contracts see the board, the list that it saw last, the longest list of which
/// it was told, and how often it was turned away.
#[derive(Drop)]
pub struct BoardReader {
    // A call that reads takes it out, and puts it back.
    door: Option<Door>,
    seen: Front,
    told: Front,
}

impl Model for BoardReader {
    ghost use Rattle.std.specs.Option.{option_map_or};
    ghost use Rattle.version_board.specs.Ends.{ReaderView, DoorView};
    ghost use Rattle.version_board.specs.Kept.{IsReader};

    ghost Value = { ReaderView };

    ghost view = { λ reader. record { board = reader.seen.board; seen = reader.seen.list; told = reader.told.list; shut = option_map_or (λ (door : DoorView). door.shut) reader.door 0 } };

    ghost invariant = { λ reader. IsReader reader.door reader.seen reader.told };
}

impl BoardReader {
    pub(crate) fn new(door: Door, front: &Front) -> BoardReader
        requires sight { door ≡ record { sight = Some front.now; shut = 0 } }
        requires empty { front.now.list ≡ [] }
        ensures { result ≡ unread front.now.board }
    {
        BoardReader {
            door: Some(door),
            seen: front.again(),
            told: front.again(),
        }
    }

    /// The last version of a label in the list that is published, with its bytes, or `None` exactly where
    /// that list has none of it. The list begins with each that this reader has seen, and with each of
    /// which it was told. It takes no lock and waits for nobody. After `Memory` the reader has seen the
    /// list all the same; `Shut` comes only where the count of `shut` rose, or is at its greatest value,
    /// and then nothing else has changed.
    pub fn read(&mut self, label: &Label) -> Result<Option<BoardRead>, BoardFault>
        ensures answer { IfOk result (Answers label.now self.new.seen) }
        ensures saw { OnOk result (SawMore self.old self.new) }
        ensures fault { IfErr result (AfterFault self.old self.new) }
    {
        let Some(door) = self.door.take() else {
            unreachable!()
        };
        let inside = match door.enter() {
            Ok(inside) => inside,
            Err(door) => {
                self.door = Some(door);
                return Err(BoardFault::Shut);
            }
        };
        let front = inside.board().front().again();
        if !self.told.begins(&front) {
            self.door = Some(inside.turn_away());
            return Err(BoardFault::Shut);
        }
        let answer = answer_of(inside.board(), label);
        self.door = Some(inside.leave());
        self.seen = front;
        Ok(answer?)
    }

    /// Takes in a note of this reader's board: each list that is seen from now on begins with the list
    /// that was published when the note was told. Takes no memory.
    pub fn learn(&mut self, note: BoardNote)
        requires { note.board ≡ self.old.board }
        ensures { Learnt self.old self.new note }
    {
        self.told = self.told.longer(note.front());
    }

    /// How often the reader was turned away; the count stays at its greatest value. Takes no memory.
    pub fn shut(&self) -> u64
        ensures { result ≡ self.now.shut }
    {
        match &self.door {
            Some(door) => door.shut(),
            None => unreachable!(),
        }
    }
}

// The last entry of a label in a copy, and how many entries the copy has.
fn answer_of(board: &Board, label: &Label) -> Result<Option<BoardRead>, OutOfMemory>
    ensures { IfOk result (Answers label.now board.now.list) }
{
    match board.last(label) {
        Some(entry) => Ok(Some(read_entry(entry, board.count())?)),
        None => Ok(None),
    }
}
