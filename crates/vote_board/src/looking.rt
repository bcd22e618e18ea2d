// Loads of words, one after the other.
ghost use Rattle.std.specs.Prelude.{◌≡◌, ◌≢◌, ℕ, ◌+◌, ◌<◌, ◌≤◌, true, length, IfSome, IfNone};
ghost use Rattle.std.specs.List.{range_with_len};

use crate::board::VoteBoard;
use crate::counting::frequent;
use crate::seat::VoteSeat;
use crate::steps::Loading;

impl VoteBoard {
    ghost use Rattle.std.specs.Prelude.{◌≡◌, ◌≢◌, ℕ, ◌+◌, ◌<◌, ◌≤◌, true, length, IfSome, IfNone};
    ghost use Rattle.std.specs.List.{range_with_len};
    ghost use Rattle.vote_words_model.specs.Places.{size, word_count};
    ghost use Rattle.vote_words_model.specs.Views.{knows, count_known, loaded};
    ghost use Rattle.vote_board.specs.Boards.{terms, view, IsSeatOf};
    ghost use Rattle.vote_board.specs.Changes.{LoadsWords, Remembers, ShowsTo};

    // Loads a word.
    fn load(&self, seat: &mut VoteSeat, word: usize) -> u32
        requires seat { IsSeatOf self.now seat.old }
        requires word { word < word_count (terms self.now) }
        ensures view { view seat.new ≡ loaded (view seat.old) word result }
        ensures shown { (x : ℕ) → knows (view seat.new) word x ≡ true → x ≡ result }
        ensures seat { IsSeatOf self.now seat.new }
    {
        self.table.shared.load::<Loading>(&mut seat.seat, word) as u32
    }

    // Loads words side by side, each once, and notes what each is found with.
    fn load_row(&self, seat: &mut VoteSeat, from: usize, found: &mut [u32])
        requires seat { IsSeatOf self.now seat.old }
        requires row { from + length found.old ≤ word_count (terms self.now) }
        ensures shown { ShowsTo (view seat.new) from found.new (length found.new) }
        ensures loads { LoadsWords (view seat.old) (view seat.new)
            (range_with_len from (length found.new)) }
        ensures sets { (view seat.new).sets ≡ (view seat.old).sets }
        ensures kept { Remembers (view seat.old) (view seat.new) }
        ensures seat { IsSeatOf self.now seat.new }
    {
        for k in 0..found.len() {
            found[k] = self.load(seat, from + k);
        }
    }

    // Loads a word of each member, side by side, and tells the value that so many of them have.
    pub(crate) fn look(&self, seat: &mut VoteSeat, from: usize, need: usize) -> Option<u32>
        requires seat { IsSeatOf self.now seat.old }
        requires row { from + size (terms self.now) ≤ word_count (terms self.now) }
        requires need { 0 < need }
        ensures some { let row = range_with_len from (size (terms self.now)) in
            IfSome result (λ x. need ≤ count_known (view seat.new) row x) }
        ensures none { let row = range_with_len from (size (terms self.now)) in
            IfNone result ((x : ℕ) → ¬ (need ≤ count_known (view seat.new) row x)) }
        ensures loads { LoadsWords (view seat.old) (view seat.new)
            (range_with_len from (size (terms self.now))) }
        ensures sets { (view seat.new).sets ≡ (view seat.old).sets }
        ensures kept { Remembers (view seat.old) (view seat.new) }
        ensures seat { IsSeatOf self.now seat.new }
    {
        let mut words = [0u32; 10];
        let found = &mut words[..self.size()];
        self.load_row(seat, from, found);
        frequent(found, need)
    }
}
