// A board of votes, and its seats.
ghost use Rattle.std.specs.Prelude.{◌≡◌, ◌<◌, ◌≤◌, ◌+◌, ◌*◌};
ghost use Rattle.vote_words_model.specs.Places.{Fits, word_count};

use crate::seat::VoteSeat;
use crate::steps::{Comparing, Copying, Joining, Keeping};
use atomic_table::Table;
use pond_base::{Items, MemberId, OutOfMemory};
use std::alloc::Global;
use vote_words_model::{Terms, View};

/// The votes of 3f+1 members for some slots, in words that threads share.
#[derive(Drop)]
pub struct VoteBoard {
    pub(crate) terms: Terms,
    pub(crate) table: Table<(), View, Terms, Keeping, Global>,
    pub(crate) ghost key: { table.shared.key ≡ terms },
    pub(crate) ghost words: { table.shared.table_id.words ≡ word_count terms },
    pub(crate) ghost fits: { Fits terms },
}

// How many prepare words there are.
fn count_votes(f: u8, slots: u32) -> usize
    requires few_members { f ≤ 3 }
    requires few_slots { slots ≤ 64 }
    ensures value { result ≡ (3 * f + 1) * slots }
    ensures few { result ≤ 640 }
{
    (3 * f as usize + 1) * slots as usize
}

impl VoteBoard {
    ghost use Rattle.std.specs.Prelude.{◌≡◌, ◌<◌, ◌≤◌, ◌+◌, ◌*◌, ◌++◌, IfOk, IsOk};
    ghost use Rattle.vote_words_model.specs.Places.{Fits, terms_of, size, quorum, IsPlace};
    ghost use Rattle.vote_words_model.specs.Places.{place, prepare_word, commit_word};
    ghost use Rattle.vote_words_model.specs.Views.{blank, IsSound, DecidesOnce};
    ghost use Rattle.vote_board.specs.Boards.{terms, view, IsSeatOf};
    ghost use Rattle.vote_board.specs.Changes.{DecideAlike};

    /// A board without votes, of 3f+1 members and some slots, and its first seat, which knows
    /// nothing. `may` has a number for each member of each slot, slot after slot: the one value
    /// that the member may prepare there, or 0 where it may prepare any.
    pub fn new(
        alloc: Global,
        f: u8,
        slots: u32,
        may: Vec<u32>,
    ) -> Result<(VoteBoard, VoteSeat), OutOfMemory>
        requires { Fits (terms_of f slots may.items) }
        ensures terms { IfOk result (λ r. terms r.0 ≡ terms_of f slots may.items) }
        ensures seat { IfOk result (λ r. IsSeatOf r.0 r.1) }
        ensures view { IfOk result (λ r. view r.1 ≡ blank) }
    {
        let votes = count_votes(f, slots);
        let terms = Terms {
            f,
            slots,
            may: Items::from_vec(may),
        };
        let words = vec![in alloc; 0u64; 1 + votes + votes]?;
        let (table, seat) = Table::of_words(alloc, words.as_slice(), &terms)?;
        Ok((VoteBoard { terms, table }, VoteSeat { seat }))
    }

    /// A further seat, which knows what this one knows. Takes no memory: the answer is always `Ok`.
    pub fn split(&self, seat: &mut VoteSeat) -> Result<VoteSeat, OutOfMemory>
        requires { IsSeatOf self.now seat.old }
        ensures always { IsOk result }
        ensures board { IfOk result (λ copy. IsSeatOf self.now copy) }
        ensures copy { IfOk result (λ copy. view copy ≡ view seat.old) }
        ensures seat { IsSeatOf self.now seat.new }
        ensures same { view seat.new ≡ view seat.old }
    {
        let copy = self.table.shared.split_seat::<Copying>(&mut seat.seat);
        Ok(VoteSeat { seat: copy })
    }

    /// The seat then knows also what the other knew. What the two had decided agrees. Takes no
    /// memory.
    pub fn learn(&self, seat: &mut VoteSeat, other: VoteSeat)
        requires seat { IsSeatOf self.now seat.old }
        requires other { IsSeatOf self.now other }
        ensures known { (view seat.new).known ≡ (view seat.old).known ++ (view other).known }
        ensures loads { (view seat.new).loads ≡ (view seat.old).loads }
        ensures sets { (view seat.new).sets ≡ (view seat.old).sets }
        ensures agree { DecideAlike (terms self.now) (view seat.old) (view other) }
        ensures sound { IsSound (view seat.new) }
        ensures once { DecidesOnce (terms self.now) (view seat.new) }
        ensures seat { IsSeatOf self.now seat.new }
    {
        let VoteSeat { seat: theirs } = other;
        self.table
            .shared
            .join_seat::<Joining>(&mut seat.seat, theirs);
        self.table.shared.load::<Comparing>(&mut seat.seat, 0);
    }

    // How many members are a quorum.
    pub(crate) fn quorum(&self) -> usize
        ensures { result ≡ quorum (terms self.now) }
    {
        2 * self.terms.f as usize + 1
    }

    // How many members there are.
    pub(crate) fn size(&self) -> usize
        ensures value { result ≡ size (terms self.now) }
        ensures few { result ≤ 10 }
    {
        3 * self.terms.f as usize + 1
    }

    // The place of a member of a slot among all.
    fn place(&self, slot: u32, member: MemberId) -> usize
        requires { IsPlace (terms self.now) slot member.0 }
        ensures value { result ≡ place (terms self.now) slot member.0 }
        ensures few { result < 640 }
    {
        (slot as usize - 1) * self.size() + member.0 as usize
    }

    // A member's prepare word for a slot.
    pub(crate) fn prepare_word(&self, slot: u32, member: MemberId) -> usize
        requires { IsPlace (terms self.now) slot member.0 }
        ensures { result ≡ prepare_word (terms self.now) slot member.0 }
    {
        1 + self.place(slot, member)
    }

    // A member's commit word for a slot.
    pub(crate) fn commit_word(&self, slot: u32, member: MemberId) -> usize
        requires { IsPlace (terms self.now) slot member.0 }
        ensures { result ≡ commit_word (terms self.now) slot member.0 }
    {
        1 + count_votes(self.terms.f, self.terms.slots) + self.place(slot, member)
    }
}
