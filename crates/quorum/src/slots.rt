// The slots that are kept, in order.
ghost use Rattle.std.specs.Prelude.{◌≡◌, ◌<◌, ◌↔◌, ℕ, IsTrue, Some, None, false, cond, ◌==◌, ◌||◌, is_some, nat_le, IfOk, OnOk, OnErr};
ghost use Rattle.std.specs.Option.{option_or, option_copied};
ghost use Rattle.quorum.specs.declared.phase.Phase.{Phase};
ghost use Rattle.quorum.specs.Slots.{kept_at, first_in, said};

use crate::Phase;
use crate::slot::Slot;
use pond_base::{MemberId, Name, OutOfMemory};
use std::collections::BTreeMap;

pub type Slots = BTreeMap<u32, Slot>;

/// The votes for a slot, none where it is not kept.
fn slot_of(slots: &Slots, seq: u32) -> Slot
    ensures { (p : Phase) (j : ℕ) → first_in (Some result) p j ≡ first_in (kept_at slots.now.entries seq) p j }
{
    match slots.get(&seq) {
        Some(slot) => *slot,
        None => Slot::new(),
    }
}

/// Counts a sender's vote for a slot where it is the sender's first, and answers whether it is.
pub fn cast(
    slots: &mut Slots,
    phase: Phase,
    seq: u32,
    sender: MemberId,
    name: Name,
) -> Result<bool, OutOfMemory>
    requires { sender.0 < 10 }
    ensures first { IfOk result (λ is_first. IsTrue is_first ↔ (first_in (kept_at slots.old.entries seq) phase sender.0 ≡ None)) }
    ensures votes { OnOk result ((p : Phase) (s j : ℕ) → first_in (kept_at slots.new.entries s) p j ≡ option_or (first_in (kept_at slots.old.entries s) p j) (said phase seq sender.0 name p s j)) }
    ensures kept { OnOk result ((s : ℕ) → is_some (kept_at slots.new.entries s) ≡ (is_some (kept_at slots.old.entries s) || seq == s)) }
    ensures unchanged { IfOk result (λ is_first. is_first ≡ false → slots.new.entries ≡ slots.old.entries) }
    ensures memory { OnErr result (kept_at slots.old.entries seq ≡ None) }
    ensures err { OnErr result (slots.new.entries ≡ slots.old.entries) }
{
    let mut slot = slot_of(slots, seq);
    if !slot.cast(phase, sender, name) {
        return Ok(false);
    }
    match slots.insert(seq, slot) {
        Ok(_) => Ok(true),
        Err(_) => Err(OutOfMemory),
    }
}

/// Drops the slots up to a floor.
pub fn drop_to(slots: &mut Slots, floor: u32)
    ensures { (s : ℕ) → kept_at slots.new.entries s ≡ cond (nat_le s floor) None (kept_at slots.old.entries s) }
{
    while let Some((seq, _)) = slots.first_key_value() {
        if *seq > floor {
            break;
        }
        slots.pop_first();
    }
}
