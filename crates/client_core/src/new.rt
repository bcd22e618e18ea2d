// The making of clients.
ghost use Rattle.std.specs.Prelude.{◌≡◌, ◌<◌, ◌≤◌, ℕ, [], length, IfOk};
ghost use Rattle.ring_model.specs.Messages.{Ring};
ghost use Rattle.client_core.specs.Clients.{ClientStands};

use crate::Client;
use heartbeat::Votes;
use pond_base::limits::{MOST_CLIENTS, MOST_FAULTY};
use pond_base::{ClientId, OutOfMemory};
use std::alloc::Global;
use std::collections::BTreeMap;

impl Client {
    /// The client of this number, of a ring of 3f + 1 members, before any request.
    pub fn new(alloc: Global, id: ClientId, f: u8) -> Result<Client, OutOfMemory>
        requires { (id.0 < MOST_CLIENTS) × (f ≤ MOST_FAULTY) }
        ensures stands { IfOk result (λ client. (g : Ring) → g.f ≡ f → ClientStands client g id.0 [] []) }
        ensures none { IfOk result (λ client. length client.requests.items ≡ 0) }
    {
        let need = f as u32 + 1;
        Ok(Client {
            alloc,
            id,
            f,
            requests: Vec::new(alloc),
            replies: BTreeMap::new(alloc),
            hearts: Votes::new(alloc, need),
            seals: Votes::new(alloc, need),
        })
    }
}
