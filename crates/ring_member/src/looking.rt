// What can be asked of a member.
ghost use Rattle.std.specs.Prelude.{◌≡◌, ℕ, List, length};
ghost use Rattle.std.specs.Option.{option_copied};
ghost use Rattle.ring_model.specs.Messages.{Ring, Letter};
ghost use Rattle.ring_model.specs.Member.{executed};
ghost use Rattle.ring_member.specs.Members.{StandsFor, entry, slots_with_letters};

use crate::Member;
use bytes::Bytes;
use pond_base::Seq;

impl Member {
    /// How many requests are executed. Takes no memory.
    pub fn executed(&self) -> u32
        ensures { (g : Ring) (i : ℕ) (got : List Letter) → StandsFor g i self.now got → result ≡ length (executed g got) }
    {
        self.progress.done.len() as u32
    }

    /// The executed request of a slot, and `None` exactly for 0 and above [`Member::executed`]. Takes
    /// no memory.
    pub fn request(&self, seq: Seq) -> Option<&Bytes>
        ensures { (g : Ring) (i : ℕ) (got : List Letter) → StandsFor g i self.now got → option_copied result ≡ entry (executed g got) seq.0 }
    {
        if seq.0 == 0 {
            return None;
        }
        self.progress.done.get(seq.0 as usize - 1)
    }

    /// How many slots above the executed ones something is kept of: those for which an order of member
    /// 0 or a member's vote was delivered. Takes no memory.
    pub fn kept_slots(&self) -> u32
        ensures { (g : Ring) (i : ℕ) (got : List Letter) → StandsFor g i self.now got → result ≡ slots_with_letters g got }
    {
        self.progress.slots.len() as u32
    }
}
