//! What a world of members asks of a member.
//!
//! A [`Node`] is one correct member of a ring, with whatever it keeps. It stands for a list of letters
//! that were delivered to it, by a relation; whatever list it stood for, by `take` it then stands for
//! that list and one letter more, and it answers exactly the messages that the model of agreement says
//! are owed. The world above is proved over this trait, with no tree and no tally in sight.
#![tactic(auto)]

ghost use Rattle.std.specs.Prelude.{◌≡◌, ℕ, List, ◌∷◌, map, length, Contains, OnOk, IfOk, IfErr};
ghost use Rattle.std.specs.List.{AllByRecursion};
ghost use Rattle.block_names.specs.Held.{Held};
ghost use Rattle.block_names.specs.Growth.{keep_all, Grew, IsClashIn, Keeps};
ghost use Rattle.block_names.specs.Clashes.{AreHeld};
ghost use Rattle.ring_model.specs.Messages.{Ring, Letter};
ghost use Rattle.ring_model.specs.Member.{causes, executed as executed_by};
ghost use Rattle.message_model.specs.Meaning.{who, letter, packet};
ghost use Rattle.message_model.specs.Naming.{strings_for};
ghost use Rattle.ring_model.specs.Seats.{IsSeat};
ghost use Rattle.ring_node.specs.Standing.{ForLetters};

use block_names::{Book, Hash160, NameFault};
use bytes::Bytes;
use pond_base::Party;
use ring_message::Out;

/// A correct member of a ring.
pub trait Node: Drop {
    /// Of which member of which ring it is, for which letters, the newest first, it stands, and how many
    /// versions it archived.
    ghost stands: { Self → Ring → ℕ → List Letter → ℕ → Type 0 };

    /// A book that holds these strings has all that it named.
    ghost knows: { (List ℕ → List ℕ) → Held → Self → Type 0 };

    /// Takes bytes from a party, and answers all that the member owes for them, in order. After a fault
    /// the member is spent.
    fn take<H: Hash160 + Drop>(
        &mut self,
        book: &mut Book<H>,
        from: Party,
        bytes: &Bytes,
    ) -> Result<Vec<Out>, NameFault>
        requires known { knows H.naming book.old.held self.old }
        ensures stands { OnOk result (ForLetters H.naming (who from) (stands self.old) (λ g i got archived. stands self.new g i (letter from bytes.now ∷ got) archived)) }
        ensures out { IfOk result (λ out. ForLetters H.naming (who from) (stands self.old) (λ g i got archived. map (packet i) out.items ≡ causes g i got (letter from bytes.now ∷ got))) }
        ensures seats { IfOk result (λ out. AllByRecursion (λ o. IsSeat (who o.to)) out.items) }
        ensures known { OnOk result (knows H.naming book.new.held self.new) }
        ensures held { OnOk result (ForLetters H.naming (who from) (stands self.old) (λ g i got archived. book.new.held ≡ keep_all H.naming (strings_for g got (letter from bytes.now)) book.old.held)) }
        ensures all { OnOk result (ForLetters H.naming (who from) (stands self.old) (λ g i got archived. AreHeld H.naming book.new.held (strings_for g got (letter from bytes.now)))) }
        ensures keeps { Keeps book.old.held book.new.held }
        ensures grew { ForLetters H.naming (who from) (stands self.old) (λ g i got archived. Grew H.naming book.old.held (Contains (strings_for g got (letter from bytes.now))) book.new.held) }
        ensures fault { IfErr result (λ fault. ForLetters H.naming (who from) (stands self.old) (λ g i got archived. IsClashIn H.naming book.new.held (Contains (strings_for g got (letter from bytes.now))) fault)) };

    /// How many requests it executed. Takes no memory.
    fn executed(&self) -> u32
        ensures { (g : Ring) (i : ℕ) (got : List Letter) (archived : ℕ) → stands self.now g i got archived → result ≡ length (executed_by g got) };

    /// What was named stays known while a book grows.
    ghost stays: { (h : List ℕ → List ℕ) (held now : Held) (node : Self) → Keeps held now → knows h held node → knows h now node };
}
