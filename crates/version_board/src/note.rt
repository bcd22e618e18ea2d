// A list of which a reader is told.
ghost use Rattle.std.specs.Prelude.{◌≡◌};

use crate::front::Front;
use std::marker::Model;

/// The list that was published when the note was told. It has no entry in it and takes no memory.
/// Contracts see its board and the list.
#[derive(Drop)]
pub struct BoardNote {
    front: Front,
}

impl Model for BoardNote {
    ghost use Rattle.board_model.specs.Rule.{Published};

    ghost Value = { Published };

    ghost view = { λ note. note.front };
}

impl BoardNote {
    pub(crate) fn new(front: Front) -> BoardNote
        ensures { result ≡ front }
    {
        BoardNote { front }
    }

    pub(crate) fn front(&self) -> &Front
        ensures { result.now ≡ self.now }
    {
        &self.front
    }
}
