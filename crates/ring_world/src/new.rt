// A world's start.
ghost use Rattle.std.specs.Prelude.{◌≡◌, ◌<◌, ◌≤◌, ◌+◌, ◌*◌, ℕ, List, [], Option, IfOk, IfSome, IsTrue, is_some, length, false, slice_index_or};
ghost use Rattle.std.specs.List.{list_any};
ghost use Rattle.block_names.specs.Held.{Held};
ghost use Rattle.ring_model.specs.Messages.{Ring};
ghost use Rattle.client_core.specs.declared.client.Client.{Client};
ghost use Rattle.client_core.specs.Clients.{ClientStands};
ghost use Rattle.ring_world.specs.Skipping.{skips, PassNothing};
ghost use Rattle.ring_world.specs.Worlds.{IsStart, IsKnown, WorldStands};

use crate::crew::first_correct;
use crate::members::Members;
use crate::state::World;
use circular_buffer::HeapCircularBuffer;
use client_core::Client;
use pond_base::{ClientId, OutOfMemory};
use ring_mail::Mail;
use ring_node::Node;
use std::alloc::Global;

impl<N: Node> World<N> {
    /// The world of these nodes before any event. There is a place for each member, in the order of their
    /// numbers, with the node of a correct one and `None` exactly for a faulty one, which never has a node;
    /// some member is correct. At most f of the 3f + 1 members are to be faulty, as the clients believe what
    /// f + 1 members say.
    pub fn new(
        alloc: Global,
        nodes: Vec<Option<N>>,
        f: u8,
        clients: u8,
    ) -> Result<World<N>, OutOfMemory>
        requires few { (f ≤ 3) × (clients ≤ 16) }
        requires count { length nodes.items ≡ 3 * f + 1 }
        requires correct { IsTrue (list_any is_some nodes.items) }
        ensures stands { IfOk result (λ world. (g : Ring) → IsStart N.stands g nodes.items clients → WorldStands N.stands g world []) }
        ensures known { IfOk result (λ world. (h : List ℕ → List ℕ) (held : Held) → ((i : ℕ) (d : Option N) → i < length nodes.items → IfSome (slice_index_or nodes.items i d) (N.knows h held)) → IsKnown N.knows h held world) }
        ensures going { IfOk result (λ world. world.ended ≡ false) }
        ensures skips { IfOk result (λ world. PassNothing (skips world)) }
    {
        let clients = clients_of(alloc, f, clients)?;
        let mail = Mail::new(alloc)?;
        let recent = HeapCircularBuffer::with_capacity(alloc, 8)?;
        let correct = first_correct(&nodes);
        Ok(World {
            alloc,
            members: Members { nodes, correct },
            clients,
            mail,
            recent,
            ended: false,
        })
    }
}

// So many clients, numbered from 0, before any request.
fn clients_of(alloc: Global, f: u8, count: u8) -> Result<Vec<Client>, OutOfMemory>
    requires { (f ≤ 3) × (count ≤ 16) }
    ensures count { IfOk result (λ clients. length clients.items ≡ count) }
    ensures stand { IfOk result (λ clients. (g : Ring) → g.f ≡ f → (c : ℕ) (d : Client) → c < count → ClientStands (slice_index_or clients.items c d) g c [] []) }
    ensures none { IfOk result (λ clients. (c : ℕ) (d : Client) → c < count → length (slice_index_or clients.items c d).requests.items ≡ 0) }
{
    let mut clients = Vec::new(alloc);
    for number in 0..count {
        clients.push(Client::new(alloc, ClientId(number), f)?)?;
    }
    Ok(clients)
}
