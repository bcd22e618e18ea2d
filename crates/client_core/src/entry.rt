// The replies to a request.
ghost use Rattle.std.specs.Prelude.{◌≡◌, ◌<◌, ◌≤◌, ℕ, ◌+◌, ◌*◌, ◌==◌, cond, nat_le, List, Some, None, length, bytes_eq, count_by};
ghost use Rattle.std.specs.Option.{option_or, option_map};
ghost use Rattle.std.specs.List.{range_with_len};
ghost use Rattle.ring_model.specs.History.{is_name, passing};
ghost use Rattle.ring_message.specs.Spelling.{outcome_string};
ghost use Rattle.client_core.specs.Replies.{vote_of, first_at, value_at, count_at};

use pond_base::MemberId;
use pond_base::limits::MOST_FAULTY;
use ring_message::Outcome;

/// How many members a ring has at most.
pub(crate) const MOST_MEMBERS: u8 = 3 * MOST_FAULTY + 1;

/// The first reply of each member to a request, and the outcome that enough of them had first.
#[derive(Clone, Copy, Debug)]
pub struct Entry {
    pub votes: [Option<Outcome>; MOST_MEMBERS as usize],
    pub accepted: Option<Outcome>,
}

/// Whether two outcomes are one, by their strings.
fn is_same(one: Outcome, other: Outcome) -> bool
    ensures { result ≡ bytes_eq (outcome_string one) (outcome_string other) }
{
    one == other
}

/// Whether there is a reply, and it has this outcome.
fn is_for(vote: Option<Outcome>, outcome: Outcome) -> bool
    ensures { result ≡ is_name (outcome_string outcome) (option_map outcome_string vote) }
{
    match vote {
        Some(said) => is_same(said, outcome),
        None => false,
    }
}

/// How many of so many members have this outcome as their first reply.
fn count_of(votes: &[Option<Outcome>], members: u8, outcome: &Outcome) -> u8
    requires { members ≤ length votes.now }
    ensures { result ≡ count_at members (λ j. option_map outcome_string (vote_of votes.now j)) (outcome_string outcome.now) }
{
    let mut count: u8 = 0;
    for seat in 0..members {
        if is_for(votes[seat as usize], *outcome) {
            count += 1;
        }
    }
    count
}

impl Entry {
    /// The entry without replies.
    pub fn new() -> Entry
        ensures first { (j : ℕ) → first_at (Some result) j ≡ None }
        ensures accepted { value_at (Some result) ≡ None }
    {
        Entry {
            votes: [None; MOST_MEMBERS as usize],
            accepted: None,
        }
    }

    /// Keeps a member's reply where it is the member's first.
    fn note(&mut self, member: MemberId, outcome: &Outcome)
        requires { member.0 < MOST_MEMBERS }
        ensures votes { (j : ℕ) → vote_of self.new.votes j ≡ option_or (vote_of self.old.votes j) (cond (member.0 == j) (Some outcome.now) None) }
        ensures accepted { self.new.accepted ≡ self.old.accepted }
    {
        let seat = member.0 as usize;
        if self.votes[seat].is_none() {
            self.votes[seat] = Some(*outcome);
        }
    }

    /// Counts a member's reply, and accepts its outcome where it is the first that f + 1 of the 3f + 1
    /// members have.
    pub fn cast(&mut self, f: u8, member: MemberId, outcome: &Outcome)
        requires { (f ≤ MOST_FAULTY) × (member.0 < MOST_MEMBERS) }
        ensures first { (j : ℕ) → first_at (Some self.new) j ≡ option_or (first_at (Some self.old) j) (cond (member.0 == j) (Some (outcome_string outcome.now)) None) }
        ensures accepted { value_at (Some self.new) ≡ option_or (value_at (Some self.old)) (passing (λ string. nat_le (f + 1) (count_at (3 * f + 1) (first_at (Some self.new)) string)) (Some (outcome_string outcome.now))) }
    {
        self.note(member, outcome);
        if self.accepted.is_none() && count_of(&self.votes, 3 * f + 1, outcome) > f {
            self.accepted = Some(*outcome);
        }
    }
}
