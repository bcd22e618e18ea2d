// Which requests were executed.
ghost use Rattle.std.specs.Prelude.{◌≡◌, [], OnOk};
ghost use Rattle.object_fold.specs.Executed.{is_seen, SeesOneMore};

use guarded_update::Request;
use pond_base::{ClientId, OutOfMemory};
use std::alloc::Global;
use std::collections::BTreeSet;
use std::marker::Model;

/// The clients and numbers of requests. Contracts see the list of the pairs.
#[derive(Drop)]
pub(crate) struct Seen {
    pairs: BTreeSet<(ClientId, u32)>,
}

impl Model for Seen {
    ghost use Rattle.std.specs.Prelude.{List, ℕ};
    ghost use Rattle.pond_base.specs.declared.numbers.ClientId.{ClientId};

    ghost Value = { List (ClientId × ℕ) };

    ghost view = { λ seen. seen.pairs.keys };
}

impl Seen {
    pub(crate) fn new(alloc: Global) -> Seen
        ensures { result ≡ [] }
    {
        Seen {
            pairs: BTreeSet::new(alloc),
        }
    }

    pub(crate) fn has(&self, request: &Request) -> bool
        ensures { result ≡ is_seen self.now request.now }
    {
        self.pairs.contains(&(request.client, request.number))
    }

    pub(crate) fn add(&mut self, client: ClientId, number: u32) -> Result<(), OutOfMemory>
        ensures { OnOk result (SeesOneMore self.old self.new client number) }
    {
        self.pairs.insert((client, number))?;
        Ok(())
    }
}
