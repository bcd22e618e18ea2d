// What is kept of the replies to each request.
ghost use Rattle.std.specs.Prelude.{◌≡◌, ◌<◌, ◌≤◌, ℕ, ◌+◌, ◌*◌, ◌==◌, cond, nat_le, Some, None, OnOk, OnErr};
ghost use Rattle.std.specs.Option.{option_or, option_copied};
ghost use Rattle.ring_model.specs.History.{passing};
ghost use Rattle.ring_message.specs.Spelling.{outcome_string};
ghost use Rattle.client_core.specs.Replies.{kept_at, first_at, accepted_at, value_at, count_at};

use crate::entry::{Entry, MOST_MEMBERS};
use pond_base::limits::MOST_FAULTY;
use pond_base::{MemberId, OutOfMemory};
use ring_message::Outcome;
use std::collections::BTreeMap;

pub type Replies = BTreeMap<u32, Entry>;

/// What is kept for a request, an entry without replies where nothing is.
fn entry_of(replies: &Replies, number: u32) -> Entry
    ensures first { (j : ℕ) → first_at (Some result) j ≡ first_at (kept_at replies.now.entries number) j }
    ensures accepted { value_at (Some result) ≡ value_at (kept_at replies.now.entries number) }
{
    match replies.get(&number) {
        Some(entry) => *entry,
        None => Entry::new(),
    }
}

/// Counts a member's reply to a request, and accepts its outcome where it is the first that f + 1
/// members have. A want of memory changes nothing.
pub fn take(
    replies: &mut Replies,
    f: u8,
    member: MemberId,
    number: u32,
    outcome: &Outcome,
) -> Result<(), OutOfMemory>
    requires { (f ≤ MOST_FAULTY) × (member.0 < MOST_MEMBERS) }
    ensures first { OnOk result ((n j : ℕ) → first_at (kept_at replies.new.entries n) j ≡ option_or (first_at (kept_at replies.old.entries n) j) (cond (member.0 == j) (cond (number == n) (Some (outcome_string outcome.now)) None) None)) }
    ensures accepted { OnOk result ((n : ℕ) → value_at (kept_at replies.new.entries n) ≡ option_or (value_at (kept_at replies.old.entries n))
        (passing (λ string. nat_le (f + 1) (count_at (3 * f + 1) (first_at (kept_at replies.new.entries n)) string)) (cond (number == n) (Some (outcome_string outcome.now)) None))) }
    ensures err { OnErr result (replies.new.entries ≡ replies.old.entries) }
{
    let mut entry = entry_of(replies, number);
    entry.cast(f, member, outcome);
    match replies.insert(number, entry) {
        Ok(_) => Ok(()),
        Err(_) => Err(OutOfMemory),
    }
}

/// The accepted outcome of a request, if there is one. Takes no memory.
pub fn accepted(replies: &Replies, number: u32) -> Option<&Outcome>
    ensures { option_copied result ≡ accepted_at (kept_at replies.now.entries number) }
{
    match replies.get(&number) {
        Some(entry) => entry.accepted.as_ref(),
        None => None,
    }
}
