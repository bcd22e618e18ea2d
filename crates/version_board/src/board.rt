// One copy of the board.
ghost use Rattle.std.specs.Prelude.{◌≡◌, ◌++◌, ◌∷◌, [], length, MatchResult};
ghost use Rattle.std.specs.Option.{option_copied};
ghost use Rattle.board_model.specs.Boards.{last_of};

use crate::change::Change;
use crate::entry::BoardEntry;
use crate::front::Front;
use left_right::Absorb;
use pond_base::{Duplicate, Label};
use std::alloc::{AllocError, Global};
use std::collections::BTreeMap;
use std::marker::Model;

/// One of the two copies of the board: its entries, under each label the place of its last one, and a
/// list of the history. Contracts see the entries and that list. It has room for 2^32 - 1 entries.
#[derive(Drop)]
pub(crate) struct Board {
    entries: Vec<BoardEntry>,
    places: BTreeMap<Label, u32>,
    front: Front,
}

impl Model for Board {
    ghost use Rattle.std.specs.Prelude.{◌<◌, ◌^◌, length};
    ghost use Rattle.version_board.specs.Copies.{Copy};
    ghost use Rattle.version_board.specs.Places.{ArePlaces};

    ghost Value = { Copy };

    ghost view = { λ board. record { list = board.entries.items; front = board.front } };

    ghost invariant = { λ board. (length board.entries.items < 2 ^ 32) × ArePlaces board.places.entries board.entries.items };
}

impl Board {
    /// A copy with no entry.
    pub(crate) fn new(alloc: Global, front: Front) -> Board
        ensures { result ≡ record { list = []; front = front } }
    {
        Board {
            entries: Vec::new(alloc),
            places: BTreeMap::new(alloc),
            front,
        }
    }

    /// How many entries it has.
    pub(crate) fn count(&self) -> u32
        ensures { result ≡ length self.now.list }
    {
        self.entries.len() as u32
    }

    /// The list of the history that its entries were last said to be.
    pub(crate) fn front(&self) -> &Front
        ensures { result.now ≡ self.now.front }
    {
        &self.front
    }

    /// The last entry of a label, and `None` exactly where it has none.
    pub(crate) fn last(&self, label: &Label) -> Option<&BoardEntry>
        ensures { option_copied result ≡ last_of label.now self.now.list }
    {
        match self.places.get(label) {
            Some(at) => self.entries.get(*at as usize),
            None => None,
        }
    }

    // Adds an entry behind the others. It makes room before it changes anything, and gives the entry back
    // where it has none.
    fn put(&mut self, entry: BoardEntry) -> Result<(), BoardEntry>
        ensures { MatchResult result (λ _. self.new ≡ record self.old { list = self.old.list ++ entry ∷ [] }) (λ back. (back ≡ entry) × (self.new ≡ self.old)) }
    {
        let at = self.entries.len();
        if at >= u32::MAX as usize {
            return Err(entry);
        }
        match self.entries.reserve(1) {
            Ok(()) => {}
            Err(_) => return Err(entry),
        }
        match self.places.insert(entry.label, at as u32) {
            Ok(_) => {}
            Err(_) => return Err(entry),
        }
        self.entries.push_reserved(entry);
        Ok(())
    }
}

impl Absorb<Change> for Board {
    ghost use Rattle.version_board.specs.Changes.{changed};

    type State = Board;

    ghost state = { λ board. board };

    ghost applied = { changed };

    fn absorb_first(&mut self, operation: &Change, _other: &Board) -> Result<(), AllocError> {
        match operation {
            Change::Add(entry) => match entry.duplicate() {
                Ok(copy) => match self.put(copy) {
                    Ok(()) => Ok(()),
                    Err(_) => Err(AllocError),
                },
                Err(_) => Err(AllocError),
            },
            Change::Reach(front) => {
                self.front = front.again();
                Ok(())
            }
        }
    }

    fn absorb_second(&mut self, operation: Change, _other: &Board) -> Result<(), Change> {
        match operation {
            Change::Add(entry) => match self.put(entry) {
                Ok(()) => Ok(()),
                Err(entry) => Err(Change::Add(entry)),
            },
            Change::Reach(front) => {
                self.front = front;
                Ok(())
            }
        }
    }
}
