// The first votes of senders.
ghost use Rattle.std.specs.Prelude.{◌≡◌, ◌<◌, ◌↔◌, ℕ, IsTrue, None, false};
ghost use Rattle.std.specs.Option.{option_or};
ghost use Rattle.quorum.specs.Tallies.{first_vote, said_by, count};

use pond_base::limits::MOST_FAULTY;
use pond_base::{MemberId, Name};
use std::marker::Model;

// How many senders there are: the members of the largest ring.
const SENDERS: usize = 3 * MOST_FAULTY as usize + 1;

/// The first vote of each of ten senders. Contracts see the list of these ten, by sender.
#[derive(Clone, Copy, Debug)]
pub struct Tally {
    votes: [Option<Name>; SENDERS],
}

impl Model for Tally {
    ghost use Rattle.std.specs.Prelude.{List, ℕ, Option};

    ghost Value = { List (Option (List ℕ)) };

    ghost view = { λ tally. tally.votes };

    ghost inverse = { λ votes. record { votes = votes } };
}

impl Tally {
    /// The tally of no votes. Takes no memory.
    pub fn new() -> Tally
        ensures { (sender : ℕ) → first_vote result sender ≡ None }
    {
        Tally {
            votes: [None; SENDERS],
        }
    }

    /// Counts a sender's vote where it is the sender's first, and answers whether it is. Each other
    /// vote changes nothing. Takes no memory.
    pub fn cast(&mut self, sender: MemberId, name: Name) -> bool
        requires { sender.0 < 10 }
        ensures first { IsTrue result ↔ (first_vote self.old sender.0 ≡ None) }
        ensures votes { (j : ℕ) → first_vote self.new j ≡ option_or (first_vote self.old j) (said_by sender.0 name j) }
        ensures unchanged { result ≡ false → self.new ≡ self.old }
    {
        let seat = sender.0 as usize;
        if self.votes[seat].is_some() {
            return false;
        }
        self.votes[seat] = Some(name);
        true
    }

    /// How many senders have this name as their first vote. Takes no memory.
    pub fn count_of(&self, name: Name) -> u32
        ensures { result ≡ count (first_vote self.now) name }
    {
        let votes = self.votes.iter().filter(|vote| **vote == Some(name));
        votes.count() as u32
    }
}
