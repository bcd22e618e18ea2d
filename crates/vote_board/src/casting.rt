// Votes, and what they decide.
ghost use Rattle.std.specs.Prelude.{◌≡◌};

use crate::board::VoteBoard;
use crate::seat::VoteSeat;
use crate::steps::{Committing, Preparing};
use crate::votes::{CommitVote, Vote};
use pond_base::MemberId;

impl VoteBoard {
    ghost use Rattle.std.specs.Prelude.{◌≡◌, ◌≢◌, ◌↔◌, ◌<◌, ℕ, true, IfSome, IsNone, [], ◌++◌};
    ghost use Rattle.vote_words_model.specs.Places.{place, prepare_word, commit_word};
    ghost use Rattle.vote_words_model.specs.Places.{prepare_words, commit_words, IsSlot, IsPlace, May};
    ghost use Rattle.vote_words_model.specs.Views.{knows, IsPrepared, IsDecided, IsSound, DecidesOnce};
    ghost use Rattle.vote_board.specs.Boards.{terms, view, IsSeatOf};
    ghost use Rattle.vote_board.specs.Changes.{LoadsWords, SetsWord, LearnsWord, Remembers};
    ghost use Rattle.vote_board.specs.Changes.{NonePrepared, NoneDecided};
    ghost use Rattle.vote_board.specs.Votes.{is_set, standing_after};
    ghost use Rattle.vote_board.specs.CommitVotes.{is_commit_set, carried};

    /// Votes once for a value that the member may prepare: `Set` exactly where its prepare word was
    /// 0, and else `Was` with the vote that stands there. Takes no memory.
    pub fn prepare(&self, seat: &mut VoteSeat, member: MemberId, slot: u32, value: u32) -> Vote
        requires seat { IsSeatOf self.now seat.old }
        requires place { IsPlace (terms self.now) slot member.0 }
        requires value { value ≢ 0 }
        requires may { May (terms self.now) (place (terms self.now) slot member.0) value }
        ensures full { standing_after value result ≢ 0 }
        ensures known { let word = prepare_word (terms self.now) slot member.0 in
            LearnsWord (view seat.old) (view seat.new) word (standing_after value result) }
        ensures sets { let word = prepare_word (terms self.now) slot member.0 in
            SetsWord (view seat.old) (view seat.new) word (is_set result) }
        ensures loads { (view seat.new).loads ≡ (view seat.old).loads }
        ensures sound { IsSound (view seat.new) }
        ensures once { DecidesOnce (terms self.now) (view seat.new) }
        ensures seat { IsSeatOf self.now seat.new }
    {
        let word = self.prepare_word(slot, member);
        let found = self
            .table
            .shared
            .compare_exchange::<Preparing>(&mut seat.seat, word, 0, value as u64);
        if found == 0 {
            Vote::Set
        } else {
            Vote::Was(found as u32)
        }
    }

    /// Loads the slot's prepare words, each once, and votes for the value that 2f+1 of them have:
    /// `NotPrepared` exactly where there is none, `Set` exactly where the member's commit word was
    /// 0, and else `Was` with the same value, which stands there. Takes no memory.
    pub fn commit(&self, seat: &mut VoteSeat, member: MemberId, slot: u32) -> CommitVote
        requires seat { IsSeatOf self.now seat.old }
        requires place { IsPlace (terms self.now) slot member.0 }
        ensures prepared { IfSome (carried result)
            (λ x. IsPrepared (terms self.now) (view seat.new) slot x) }
        ensures known { let word = commit_word (terms self.now) slot member.0 in
            IfSome (carried result) (λ x. knows (view seat.new) word x ≡ true) }
        ensures not_prepared { (result ≡ CommitVote.NotPrepared)
            ↔ NonePrepared (terms self.now) (view seat.new) slot }
        ensures sets { let word = commit_word (terms self.now) slot member.0 in
            SetsWord (view seat.old) (view seat.new) word (is_commit_set result) }
        ensures loads { LoadsWords (view seat.old) (view seat.new)
            (prepare_words (terms self.now) slot) }
        ensures kept { Remembers (view seat.old) (view seat.new) }
        ensures sound { IsSound (view seat.new) }
        ensures once { DecidesOnce (terms self.now) (view seat.new) }
        ensures seat { IsSeatOf self.now seat.new }
    {
        let from = self.prepare_word(slot, MemberId(0));
        let Some(value) = self.look(seat, from, self.quorum()) else {
            return CommitVote::NotPrepared;
        };
        let word = self.commit_word(slot, member);
        let found = self
            .table
            .shared
            .compare_exchange::<Committing>(&mut seat.seat, word, 0, value as u64);
        if found == 0 {
            CommitVote::Set(value)
        } else {
            CommitVote::Was(value)
        }
    }

    /// Loads the slot's commit words, each once, and tells the value that 2f+1 of them have, which
    /// is then decided: `None` exactly where there is none. Takes no memory.
    pub fn decide(&self, seat: &mut VoteSeat, slot: u32) -> Option<u32>
        requires seat { IsSeatOf self.now seat.old }
        requires slot { IsSlot (terms self.now) slot }
        ensures decided { IfSome result (λ x. IsDecided (terms self.now) (view seat.new) slot x) }
        ensures none { IsNone result ↔ NoneDecided (terms self.now) (view seat.new) slot }
        ensures loads { LoadsWords (view seat.old) (view seat.new)
            (commit_words (terms self.now) slot) }
        ensures sets { (view seat.new).sets ≡ (view seat.old).sets }
        ensures kept { Remembers (view seat.old) (view seat.new) }
        ensures sound { IsSound (view seat.new) }
        ensures once { DecidesOnce (terms self.now) (view seat.new) }
        ensures seat { IsSeatOf self.now seat.new }
    {
        let from = self.commit_word(slot, MemberId(0));
        self.look(seat, from, self.quorum())
    }
}
