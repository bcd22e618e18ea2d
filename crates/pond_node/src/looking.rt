// What can be asked of a node.
ghost use Rattle.std.specs.Prelude.{◌≡◌, ◌<◌, ◌^◌, ℕ, List, length};
ghost use Rattle.std.specs.Option.{option_copied};
ghost use Rattle.ring_model.specs.Messages.{Ring, Letter};
ghost use Rattle.ring_model.specs.Member.{executed};
ghost use Rattle.block_names.specs.Held.{Held};
ghost use Rattle.object_fold.specs.Executed.{AreAfter, AreKnown};
ghost use Rattle.fold_model.specs.Folds.{requests_of, outcomes_by};
ghost use Rattle.fold_model.specs.Rings.{FoldsAs};
ghost use Rattle.ring_member.specs.Members.{entry};
ghost use Rattle.pond_node.specs.Standing.{NodeStands, IsKnown};

use crate::Node;
use bytes::Bytes;
use object_fold::{Objects, Outcome};
use pond_base::Seq;

impl Node {
    /// How many requests are executed. Takes no memory.
    pub fn executed(&self) -> u32
        ensures { (g : Ring) (i : ℕ) (got : List Letter) (archived : ℕ) → NodeStands self.now g i got archived → result ≡ length (executed g got) }
    {
        self.member.executed()
    }

    /// The executed request of a slot, and `None` exactly for 0 and above [`Node::executed`]. Takes no
    /// memory.
    pub fn request(&self, seq: Seq) -> Option<&Bytes>
        ensures { (g : Ring) (i : ℕ) (got : List Letter) (archived : ℕ) → NodeStands self.now g i got archived → option_copied result ≡ entry (executed g got) seq.0 }
    {
        self.member.request(seq)
    }

    /// What became of the request of a slot, and `None` exactly for 0 and above [`Node::executed`].
    /// Takes no memory.
    pub fn outcome(&self, seq: Seq) -> Option<&Outcome>
        ensures { (g : Ring) (i : ℕ) (got : List Letter) (archived : ℕ) → NodeStands self.now g i got archived → (block : ℕ) → block < 2 ^ 32 → FoldsAs g.h block g
            → option_copied result ≡ entry (outcomes_by g.h block (executed g got)) seq.0 }
    {
        if seq.0 == 0 {
            return None;
        }
        self.outcomes.get(seq.0 as usize - 1)
    }

    /// How many versions are archived. Takes no memory.
    pub fn archived(&self) -> u32
        ensures { (g : Ring) (i : ℕ) (got : List Letter) (archived : ℕ) → NodeStands self.now g i got archived → result ≡ archived }
    {
        self.archived
    }

    /// The objects that the executed requests make. Takes no memory.
    pub fn objects(&self) -> &Objects
        ensures after { (g : Ring) (i : ℕ) (got : List Letter) (archived : ℕ) → NodeStands self.now g i got archived → (block : ℕ) → block < 2 ^ 32 → FoldsAs g.h block g
            → AreAfter g.h block (requests_of (executed g got)) result.now }
        ensures known { (h : List ℕ → List ℕ) (held : Held) → IsKnown h held self.now → AreKnown h held result.now }
    {
        &self.objects
    }
}
