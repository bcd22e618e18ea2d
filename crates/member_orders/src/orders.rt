// Requests that become next of their clients.
ghost use Rattle.std.specs.Prelude.{◌≡◌, ◌<◌, ◌≤◌, ◌+◌, ◌++◌, ◌∷◌, [], List, ℕ, map, min, None, IfSome, IfOk, OnOk, OnErr};
ghost use Rattle.std.specs.List.{AllByRecursion};
ghost use Rattle.ring_message.specs.Grammar.{IsRequestString, MessageFits};
ghost use Rattle.ring_model.specs.Messages.{Ring, Letter, Client as AClient, Request as ARequest};
ghost use Rattle.message_model.specs.Meaning.{said};
ghost use Rattle.member_orders.specs.Views.{view_of, Keeps, Takes, Lacks, Advances, IsAsked, IsWhole};
ghost use Rattle.member_orders.specs.Told.{told_from, next_of, orders_told};
ghost use Rattle.member_orders.specs.Standing.{Stands};

use bytes::Bytes;
use pond_base::limits::{MOST_CLIENTS, MOST_SLOTS};
use pond_base::{ClientId, OutOfMemory, Seq};
use ring_message::Message;
use std::alloc::Global;
use std::collections::BTreeMap;

/// A request's client, and its number among the client's requests.
#[derive(Clone, Copy, Debug, PartialEq, Eq, PartialOrd, Ord)]
pub struct Turn {
    pub client: u8,
    pub number: u32,
}

/// What the primary keeps of requests.
#[derive(Drop)]
pub struct Orders {
    pub waiting: BTreeMap<Turn, Bytes>,
    pub counts: [u32; MOST_CLIENTS as usize],
    pub ordered: u32,
}

impl Orders {
    /// The orders of a primary that no request came to. Takes no memory.
    pub fn new(alloc: Global) -> Orders
        ensures whole { IsWhole result }
        ensures stands { (g : Ring) → g.slots ≡ MOST_SLOTS → Stands g (view_of result) [] }
    {
        Orders {
            waiting: BTreeMap::new(alloc),
            counts: [0; MOST_CLIENTS as usize],
            ordered: 0,
        }
    }

    /// Takes a request of this client and number from its client, and answers the orders that are
    /// owed for it.
    pub fn take(
        &mut self,
        alloc: Global,
        client: ClientId,
        number: u32,
        request: Bytes,
    ) -> Result<Vec<Message>, OutOfMemory>
        requires whole { IsWhole self.old }
        requires few { client.0 < MOST_CLIENTS }
        requires string { IsRequestString request }
        ensures whole { IsWhole self.new }
        ensures stands { OnOk result ((g : Ring) (got : List Letter) → g.owner request ≡ client.0 → g.number request ≡ number → Stands g (view_of self.old) got
            → Stands g (view_of self.new) (record { from = AClient (g.owner request); message = ARequest request } ∷ got)) }
        ensures told { IfOk result (λ told. (g : Ring) (got : List Letter) → g.owner request ≡ client.0 → g.number request ≡ number → Stands g (view_of self.old) got
            → map said told.items ≡ orders_told g got (record { from = AClient (g.owner request); message = ARequest request } ∷ got)) }
        ensures fits { IfOk result (λ told. AllByRecursion MessageFits told.items) }
    {
        let mut told = Vec::new(alloc);
        self.keep(client, number, request)?;
        self.order_next(client, &mut told)?;
        Ok(told)
    }

    // Keeps a request, if it is the first of its client and number.
    fn keep(&mut self, client: ClientId, number: u32, request: Bytes) -> Result<(), OutOfMemory>
        ensures keeps { OnOk result (Keeps (view_of self.old) client.0 number request (view_of self.new)) }
        ensures spent { OnErr result (IsWhole self.old → IsWhole self.new) }
    {
        let turn = Turn {
            client: client.0,
            number,
        };
        if self.waiting.contains_key(&turn) {
            return Ok(());
        }
        self.waiting.insert(turn, request)?;
        Ok(())
    }

    // Takes out the next request of a client.
    fn next(&mut self, client: ClientId) -> Option<Bytes>
        requires few { client.0 < MOST_CLIENTS }
        requires room { (view_of self.old).count client.0 < MOST_SLOTS }
        ensures taken { IfSome result (λ request. Takes (view_of self.old) client.0 request (view_of self.new)) }
        ensures none { result ≡ None → Lacks (view_of self.old) client.0 (view_of self.new) }
    {
        let turn = Turn {
            client: client.0,
            number: self.counts[client.0 as usize] + 1,
        };
        let Some(request) = self.waiting.remove(&turn) else {
            return None;
        };
        self.counts[client.0 as usize] += 1;
        Some(request)
    }

    // Orders a request, as far as there are sequence numbers.
    fn order(&mut self, request: Bytes, told: &mut Vec<Message>) -> Result<(), OutOfMemory>
        requires few { self.old.ordered ≤ MOST_SLOTS }
        requires string { IsAsked request }
        ensures told { OnOk result (map said told.new.items ≡ map said told.old.items ++ told_from self.old.ordered (request ∷ [])) }
        ensures fits { OnOk result (AllByRecursion MessageFits told.old.items → AllByRecursion MessageFits told.new.items) }
        ensures ordered { self.new.ordered ≡ min (self.old.ordered + 1) MOST_SLOTS }
        ensures waiting { self.new.waiting ≡ self.old.waiting }
        ensures counts { self.new.counts ≡ self.old.counts }
    {
        if self.ordered < MOST_SLOTS {
            self.ordered += 1;
            told.push(Message::PrePrepare {
                seq: Seq(self.ordered),
                request,
            })?;
        }
        Ok(())
    }

    // Orders the requests of a client that became next, one after the other.
    fn order_next(&mut self, client: ClientId, told: &mut Vec<Message>) -> Result<(), OutOfMemory>
        requires whole { IsWhole self.old }
        requires few { client.0 < MOST_CLIENTS }
        ensures whole { IsWhole self.new }
        ensures told { OnOk result (map said told.new.items ≡ map said told.old.items ++ told_from self.old.ordered (next_of (view_of self.old) client.0)) }
        ensures fits { OnOk result (AllByRecursion MessageFits told.old.items → AllByRecursion MessageFits told.new.items) }
        ensures orders { OnOk result (Advances (view_of self.old) client.0 (next_of (view_of self.old) client.0) (view_of self.new)) }
    {
        while self.counts[client.0 as usize] < MOST_SLOTS {
            match self.next(client) {
                Some(request) => self.order(request, told)?,
                None => return Ok(()),
            }
        }
        Ok(())
    }
}
