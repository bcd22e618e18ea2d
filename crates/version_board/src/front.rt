// A beginning of the history of a board.
ghost use Rattle.std.specs.Prelude.{◌≡◌, ◌⊎◌, ◌<◌, ◌+◌, ◌^◌, ◌++◌, ◌∷◌, [], length, IsTrue, MatchBool};
ghost use mathlib.Core.List.{IsPrefix};
ghost use Rattle.version_board.specs.Histories.{word_of};

use crate::entry::BoardEntry;
use crate::history::{Add, Counter, History, Nothing, Token};
use logbook::{Offer, Start};
use std::marker::Model;
use std::snapshot::Snapshot;

/// A list of entries that begins the history of a board, and how many these are. Contracts see the list
/// and the name of the history. It has no entry in it.
#[derive(Drop)]
pub(crate) struct Front {
    seen: Token,
    count: u32,
}

impl Model for Front {
    ghost use Rattle.std.specs.Prelude.{◌≡◌, length, []};
    ghost use Rattle.board_model.specs.Rule.{Published};

    ghost Value = { Published };

    ghost view = { λ front. record { board = front.seen.book; list = front.seen.log } };

    ghost invariant = { λ front. (front.count ≡ length front.seen.log) × (front.seen.names ≡ []) };
}

impl Front {
    /// A new history, which is empty, and its word.
    pub(crate) fn open() -> (Front, Counter)
        ensures list { result.0.list ≡ [] }
        ensures counter { result.1 ≡ word_of result.0.board }
    {
        let (seen, mut first, _second) = Token::open(Start::alone(), 0, 0);
        let counter = Counter::tracked(0, &mut first);
        (Front { seen, count: 0 }, counter)
    }

    /// The same list.
    pub(crate) fn again(&self) -> Front
        ensures { result ≡ self.now }
    {
        Front {
            seen: self.seen.again(),
            count: self.count,
        }
    }

    /// How many entries the list has.
    pub(crate) fn count(&self) -> u32
        ensures { result ≡ length self.now.list }
    {
        self.count
    }

    /// Whether this list begins another one of the same history, which it does where it is not longer.
    pub(crate) fn begins(&self, other: &Front) -> bool
        requires { self.now.board ≡ other.now.board }
        ensures { IsTrue result → IsPrefix self.now.list other.now.list }
    {
        let mut both = self.seen.again();
        both.learn(&other.seen);
        self.count <= other.count
    }

    /// The longer of two lists of one history, which the other one begins.
    pub(crate) fn longer(&self, other: &Front) -> Front
        requires { self.now.board ≡ other.now.board }
        ensures one { (result ≡ self.now) ⊎ (result ≡ other.now) }
        ensures this { IsPrefix self.now.list result.list }
        ensures that { IsPrefix other.now.list result.list }
    {
        let mut both = self.seen.again();
        both.learn(&other.seen);
        if self.count < other.count {
            other.again()
        } else {
            self.again()
        }
    }

    /// Adds an entry to the history, where this list is the whole of it, and says whether it did.
    pub(crate) fn add(&mut self, counter: &Counter, entry: &Snapshot<BoardEntry>) -> bool
        requires counter { counter.now ≡ word_of self.old.board }
        requires room { length self.old.list + 1 < 2 ^ 32 }
        ensures { MatchBool result (self.new ≡ record self.old { list = self.old.list ++ entry.now.value ∷ [] }) (self.new ≡ self.old) }
    {
        let mut offer: Offer<BoardEntry, u64, History, Nothing> = self
            .seen
            .plain::<Nothing, Snapshot<BoardEntry>, Add>(entry);
        let mut pen = self.seen.no_pen();
        let mut next = self.seen.again();
        let count = u64::from(self.count);
        let found = counter.compare_exchange::<Add, Nothing>(
            count,
            count + 1,
            &mut next,
            &mut offer,
            &mut pen,
        );
        if found != count {
            return false;
        }
        self.seen = next;
        self.count += 1;
        true
    }
}
