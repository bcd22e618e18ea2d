// What a step asks of a world, and which events may come.
ghost use Rattle.std.specs.Prelude.{◌≡◌, ◌<◌, ◌≤◌, ◌^◌, ℕ, List, IsTrue, IfSome, Option, None, length, slice_index_or, false};
ghost use Rattle.ring_model.specs.Messages.{Ring, Member as member};
ghost use Rattle.ring_model.specs.World as model;
ghost use Rattle.ring_model.specs.World.{world, MayHappen};
ghost use Rattle.message_model.specs.Meaning.{who};
ghost use Rattle.client_core.specs.declared.client.Client.{Client};
ghost use Rattle.ring_world.specs.Conditions.{MayStep, FitsPlaces};
ghost use Rattle.ring_world.specs.declared.event.Event.TheVariants.{Submit, Resubmit};
ghost use Rattle.ring_world.specs.Steps.{IsStep, IsNext, IsClient, IsDeclared, all_asked};
ghost use Rattle.ring_world.specs.Worlds.{WorldStands, ForEvents, event_of};

use crate::event::Event;
use crate::members::MOST_MEMBERS;
use crate::places::fit_places;
use crate::state::World;
use guarded_update::{Update, update_fits};
use pond_base::limits::{MOST_CLIENTS, MOST_SLOTS};
use pond_base::{ClientId, Label, MemberId, Party};
use ring_node::Node;

impl<N: Node> World<N> {
    /// What a step asks of the world's own values follows from the events so far. Does nothing.
    pub fn may_step(&self, event: &Event)
        ensures { (g : Ring) (events : List model.Event) → WorldStands N.stands g self.now events → MayStep g (world g events) event.now → IsStep self.now event.now }
    {}

    /// Whether the event may come next: its update is within the limits and its client has a number and
    /// a slot left, a resubmitted number was submitted, parties are declared, and a forger is faulty. So
    /// [`World::step`] can be called with it, and whatever legal list of events the world stands for, the
    /// event keeps it legal. Takes no memory.
    pub fn may(&self, event: &Event) -> bool
        ensures yes { IsTrue result → IsStep self.now event.now }
        ensures next { IsTrue result → IsNext self.now event.now }
        ensures no { result ≡ false → IsNext self.now event.now → ⊥ }
        ensures comes { IsTrue result → (h : List ℕ → List ℕ) → ForEvents N.stands h self.now (λ g events. MayHappen g (world g events) (event_of g (world g events) event.now)) }
        ensures stays { result ≡ false → (h : List ℕ → List ℕ) → ForEvents N.stands h self.now (λ g events.
            MayStep g (world g events) event.now → MayHappen g (world g events) (event_of g (world g events) event.now) → ⊥) }
    {
        self.tests(event)
    }

    // The test, and that what a submit spells has a spelling.
    fn tests(&self, event: &Event) -> bool
        ensures next { IsTrue result → IsNext self.now event.now }
        ensures no { result ≡ false → IsNext self.now event.now → ⊥ }
        ensures places { IsTrue result → FitsPlaces event.now }
    {
        match event {
            Event::Submit {
                client,
                label,
                update,
            } => self.may_submit(*client, label, update),
            Event::Resubmit { client, number } => self.may_resubmit(*client, *number),
            Event::Deliver { from, to, .. } => self.is_declared(*from) && self.is_declared(*to),
            Event::Forge { member, to, .. } => {
                self.is_faulty(*member)
                    && self.is_declared(Party::Member(*member))
                    && self.is_declared(*to)
            }
        }
    }

    // Whether a client may submit an update of the object of a label.
    fn may_submit(&self, client: ClientId, label: &Label, update: &Update) -> bool
        ensures yes { IsTrue result → IsNext self.now (Submit client label.now update.now) }
        ensures no { result ≡ false → IsNext self.now (Submit client label.now update.now) → ⊥ }
        ensures places { IsTrue result → FitsPlaces (Submit client label.now update.now) }
    {
        if !self.is_declared(Party::Client(client)) || !self.has_room() || !update_fits(update) {
            return false;
        }
        let _bytes = label.bytes();
        fit_places(update);
        true
    }

    // Whether a client submitted a request of this number.
    fn may_resubmit(&self, client: ClientId, number: u32) -> bool
        ensures yes { IsTrue result → IsNext self.now (Resubmit client number) }
        ensures no { result ≡ false → IsNext self.now (Resubmit client number) → ⊥ }
    {
        match self.asked(client) {
            Some(count) => number > 0 && number <= count,
            None => false,
        }
    }

    // How many requests a client submitted, if it is one of the world.
    fn asked(&self, client: ClientId) -> Option<u32>
        ensures some { IfSome result (λ count. IsClient self.now client.0 × ((d : Client) → length (slice_index_or self.now.clients.items client.0 d).requests.items ≡ count)) }
        ensures none { result ≡ None → IsClient self.now client.0 → ⊥ }
    {
        if client.0 >= MOST_CLIENTS {
            return None;
        }
        match self.clients.get(client.0 as usize) {
            Some(client) => Some(client.submitted()),
            None => None,
        }
    }

    // Whether there is a slot for one request more.
    fn has_room(&self) -> bool
        ensures yes { IsTrue result → all_asked self.now < 65536 }
        ensures no { result ≡ false → 65536 ≤ all_asked self.now }
    {
        let mut left: u32 = MOST_SLOTS;
        for client in &self.clients {
            let count = client.submitted();
            if count >= left {
                return false;
            }
            left -= count;
        }
        true
    }

    // Whether a party is one of the world.
    fn is_declared(&self, party: Party) -> bool
        ensures yes { IsTrue result → IsDeclared self.now (who party) }
        ensures no { result ≡ false → IsDeclared self.now (who party) → ⊥ }
    {
        match party {
            Party::Member(i) => i.0 < MOST_MEMBERS
                && self.members.nodes.get(i.0 as usize).is_some(),
            Party::Client(c) => c.0 < MOST_CLIENTS && self.clients.get(c.0 as usize).is_some(),
        }
    }

    // Whether a member is one of the world that is faulty.
    fn is_faulty(&self, i: MemberId) -> bool
        ensures yes { IsTrue result → (d : Option N) → slice_index_or self.now.members.nodes.items i.0 d ≡ None }
        ensures no { result ≡ false → i.0 < length self.now.members.nodes.items → ((d : Option N) → slice_index_or self.now.members.nodes.items i.0 d ≡ None) → ⊥ }
    {
        match self.members.nodes.get(i.0 as usize) {
            Some(node) => node.is_none(),
            None => false,
        }
    }
}
