// What a client of a world knows.
ghost use Rattle.std.specs.Prelude.{◌≡◌, ◌<◌, ◌==◌, false, List, filter, length};
ghost use Rattle.ring_model.specs.Messages as party;
ghost use Rattle.ring_model.specs.Messages.{Ring, FewFaulty};
ghost use Rattle.ring_model.specs.World as model;
ghost use Rattle.ring_model.specs.World.{world, chosen};
ghost use Rattle.ring_model.specs.Laws.{NoClash, AllDelivered, VersionsRise};
ghost use Rattle.client_core.specs.Clients.{ClientStands};
ghost use Rattle.ring_world.specs.Beliefs.{HeartsBelong, RepliesBelong, SealsBelong, AreAnswered, AreTold};
ghost use Rattle.ring_world.specs.Worlds.{WorldStands};

use crate::state::World;
use client_core::Client;
use pond_base::ClientId;
use ring_model::{all_answered, all_told, believed_heart, believed_reply, believed_seal};
use ring_node::Node;

impl<N: Node> World<N> {
    /// The client of this number. What it believes is true of the committed list; where member 0 is
    /// correct and all was delivered, it has the outcome of each of its requests and the last version of
    /// each object. Takes no memory.
    pub fn client(&self, client: ClientId) -> &Client
        requires { client.0 < length self.now.clients.items }
        ensures stands { (g : Ring) (events : List model.Event) → WorldStands N.stands g self.now events
            → ClientStands result.now g client.0 (filter (λ r. g.owner r == client.0) (world g events).submits) ((world g events).got (party.Client client.0)) }
        ensures hearts { (g : Ring) (events : List model.Event) → WorldStands N.stands g self.now events → FewFaulty g → NoClash g (world g events).submits → HeartsBelong g events client.0 }
        ensures replies { (g : Ring) (events : List model.Event) → WorldStands N.stands g self.now events → FewFaulty g → NoClash g (world g events).submits → RepliesBelong g events client.0 }
        ensures seals { (g : Ring) (events : List model.Event) → WorldStands N.stands g self.now events → FewFaulty g → NoClash g (world g events).submits → SealsBelong g events client.0 }
        ensures answered { (g : Ring) (events : List model.Event) → WorldStands N.stands g self.now events → FewFaulty g → g.is_faulty 0 ≡ false → AllDelivered g (world g events)
            → AreAnswered g events client.0 }
        ensures told { (g : Ring) (events : List model.Event) → WorldStands N.stands g self.now events → FewFaulty g → g.is_faulty 0 ≡ false → AllDelivered g (world g events)
            → VersionsRise g (chosen g (world g events)) → AreTold g events client.0 }
    {
        believed_heart();
        believed_reply();
        believed_seal();
        all_answered();
        all_told();
        &self.clients[client.0 as usize]
    }
}
