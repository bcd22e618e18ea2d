// What clients and faulty members send, and what clients are told.
ghost use Rattle.std.specs.Prelude.{◌≡◌, ℕ, List, [], ◌∷◌, Some, OnOk};
ghost use Rattle.block_names.specs.Growth.{Keeps};
ghost use Rattle.block_names.specs.Held.{Held};
ghost use Rattle.tree_format.specs.Strings.{label_string};
ghost use Rattle.guarded_update.specs.Spelling.{request_string};
ghost use Rattle.ring_model.specs.Messages as party;
ghost use Rattle.ring_model.specs.World as model;
ghost use Rattle.ring_model.specs.World.{happens, came, IsParty};
ghost use Rattle.message_model.specs.Meaning.{who, meaning};
ghost use Rattle.ring_mail.specs.Places.{packet_of};
ghost use Rattle.client_core.specs.Naming.{Names};
ghost use Rattle.ring_world.specs.declared.event.Event.TheVariants.{Submit, Resubmit, Forge};
ghost use Rattle.ring_world.specs.Skipping.{skips};
ghost use Rattle.ring_world.specs.Steps.{IsStep, InOrder};
ghost use Rattle.ring_world.specs.Worlds.{IsWorld, IsKnown, ForWorld, next_request};

use crate::delivering::post;
use crate::state::World;
use block_names::{Book, Hash160, NameFault};
use bytes::Bytes;
use guarded_update::Update;
use pond_base::{ClientId, Label, MemberId, OutOfMemory, Party};
use ring_node::Node;

impl<N: Node> World<N> {
    // The client sends its next request.
    pub(crate) fn submit<H: Hash160 + Drop>(
        &mut self,
        book: &mut Book<H>,
        client: ClientId,
        label: Label,
        update: Update,
    ) -> Result<(), NameFault>
        requires step { IsStep self.old (Submit client label update) }
        requires known { IsKnown N.knows H.naming book.old.held self.old }
        ensures going { self.new.ended ≡ self.old.ended }
        ensures skips { skips self.new ≡ skips self.old }
        ensures known { OnOk result (IsKnown N.knows H.naming book.new.held self.new) }
        ensures keeps { Keeps book.old.held book.new.held }
        ensures ok { OnOk result (ForWorld N.stands H.naming self.old (λ g v done.
            IsWorld N.stands g self.new (happens g v (model.Event.Submit (request_string (next_request g v client.0 label update)))) done)) }
        ensures names { ForWorld N.stands H.naming self.old (λ g v done.
            Names H.naming (label_string label ∷ request_string (next_request g v client.0 label update) ∷ []) book.old.held book.new.held result) }
    {
        let messages = self.clients[client.0 as usize].submit(book, label, update)?;
        post(&mut self.mail, Party::Client(client), &messages)?;
        Ok(())
    }

    // The client sends its request of this number once more.
    pub(crate) fn resubmit(&mut self, client: ClientId, number: u32) -> Result<(), OutOfMemory>
        requires { IsStep self.old (Resubmit client number) }
        ensures going { self.new.ended ≡ self.old.ended }
        ensures skips { skips self.new ≡ skips self.old }
        ensures known { (h : List ℕ → List ℕ) (held : Held) → IsKnown N.knows h held self.old → IsKnown N.knows h held self.new }
        ensures ok { OnOk result ((h : List ℕ → List ℕ) → ForWorld N.stands h self.old (λ g v done. InOrder g v.submits
            → IsWorld N.stands g self.new (happens g v (model.Event.Resubmit client.0 number)) done)) }
    {
        let messages = self.clients[client.0 as usize].resubmit(number)?;
        post(&mut self.mail, Party::Client(client), &messages)?;
        Ok(())
    }

    // Hands bytes to a client. One that is not of the world does nothing.
    pub(crate) fn tell(
        &mut self,
        to: ClientId,
        from: Party,
        bytes: &Bytes,
    ) -> Result<(), OutOfMemory>
        ensures going { self.new.ended ≡ self.old.ended }
        ensures skips { skips self.new ≡ skips self.old }
        ensures known { (h : List ℕ → List ℕ) (held : Held) → IsKnown N.knows h held self.old → IsKnown N.knows h held self.new }
        ensures ok { OnOk result ((h : List ℕ → List ℕ) → ForWorld N.stands h self.old (λ g v done. IsParty g (who from)
            → IsWorld N.stands g self.new (came g v (Some (packet_of (who from) (party.Client to.0) bytes.now))) done)) }
    {
        let at = to.0 as usize;
        if at >= self.clients.len() {
            return Ok(());
        }
        self.clients[at].take(from, bytes)
    }

    // A faulty member sends these bytes.
    pub(crate) fn forge(
        &mut self,
        member: MemberId,
        to: Party,
        bytes: Bytes,
    ) -> Result<(), OutOfMemory>
        requires { IsStep self.old (Forge member to bytes) }
        ensures going { self.new.ended ≡ self.old.ended }
        ensures skips { skips self.new ≡ skips self.old }
        ensures known { (h : List ℕ → List ℕ) (held : Held) → IsKnown N.knows h held self.old → IsKnown N.knows h held self.new }
        ensures ok { OnOk result ((h : List ℕ → List ℕ) → ForWorld N.stands h self.old (λ g v done.
            IsWorld N.stands g self.new (happens g v (model.Event.Forge member.0 (who to) (meaning bytes))) done)) }
    {
        self.mail.push(Party::Member(member), to, bytes)?;
        Ok(())
    }
}
