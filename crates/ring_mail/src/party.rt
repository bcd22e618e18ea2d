// Parties, and their seats among all that a ring may have.
ghost use Rattle.std.specs.Prelude.{◌≡◌, ◌<◌};
ghost use Rattle.ring_model.specs.Messages.{same_party as same};
ghost use Rattle.message_model.specs.Meaning.{who};
ghost use Rattle.ring_mail.specs.Places.{seat as seat_of, link_of};

use pond_base::Party;
use pond_base::limits::{MOST_CLIENTS, MOST_FAULTY};

// How many seats members have, before those of clients.
const MEMBER_SEATS: usize = 3 * MOST_FAULTY as usize + 1;

// How many seats there are.
pub(crate) const SEATS: usize = MEMBER_SEATS + MOST_CLIENTS as usize;

// How many links there are, from each seat to each.
pub(crate) const LINKS: usize = SEATS * SEATS;

/// Whether these are one party. Takes no memory.
pub fn same_party(one: Party, other: Party) -> bool
    ensures { result ≡ same (who one) (who other) }
{
    match (one, other) {
        (Party::Member(i), Party::Member(j)) => i.0 == j.0,
        (Party::Client(i), Party::Client(j)) => i.0 == j.0,
        _ => false,
    }
}

// The number of a party's seat: members have the first ones.
pub(crate) fn seat(party: Party) -> usize
    ensures value { result ≡ seat_of (who party) }
    ensures low { result < 266 }
{
    match party {
        Party::Member(member) => member.0 as usize,
        Party::Client(client) => MEMBER_SEATS + client.0 as usize,
    }
}

// The number of the link from the one party to the other.
pub(crate) fn link(from: Party, to: Party) -> usize
    ensures { result ≡ link_of (who from) (who to) }
{
    seat(from) * SEATS + seat(to)
}
