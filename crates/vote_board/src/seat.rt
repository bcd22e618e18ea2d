// What one thread knows of a board.
ghost use Rattle.std.specs.Prelude.{◌≡◌, []};
ghost use Rattle.vote_words_model.specs.Views.{IsSound};

use atomic_table::Seat;
use vote_words_model::View;

/// What one thread knows of the words of a board: those that it found set, each with its value, and
/// lists of those that it loaded and set. It knows no word with two values. It takes no bytes, and
/// may go to another thread.
#[derive(Drop)]
pub struct VoteSeat {
    pub(crate) seat: Seat<(), View>,
    pub(crate) ghost free: { seat.me.1 ≡ [] },
    pub(crate) ghost sound: { IsSound seat.me.0 },
}
