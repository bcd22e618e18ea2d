// What a world tells.
ghost use Rattle.std.specs.Prelude.{◌≡◌, ℕ, suc, false, ◌+◌, ◌-◌, ◌*◌, ◌<◌, ◌≤◌, ◌==◌, not, List, map, filter, find, count_by, length, slice_get, slice_index_or, option_map, IfSome, is_some, Some, None, Contains};
ghost use Rattle.std.specs.List.{AllByRecursion};
ghost use Rattle.std.specs.Option.{option_copied};
ghost use Rattle.circular_buffer.specs.Buffer.{keep_last};
ghost use Rattle.ring_model.specs.Messages.{Ring, FewFaulty, Letter, Party as Who, members, Member as member};
ghost use Rattle.ring_model.specs.Member.{executed, committed as committed_at};
ghost use Rattle.ring_model.specs.World as model;
ghost use Rattle.ring_model.specs.World.{world, chosen};
ghost use Rattle.ring_model.specs.Laws.{IsCorrect, IsPrefix, NoClash, is_held};
ghost use Rattle.ring_model.specs.Places.{Place, places, is_done};
ghost use Rattle.ring_world.specs.Bests.{IsBest};
ghost use Rattle.ring_world.specs.Bound.{PlacesFit};
ghost use Rattle.block_names.specs.Held.{Held};
ghost use Rattle.ring_world.specs.Crew.{AreMembers, NodesKnown};
ghost use Rattle.ring_world.specs.Nodes.{HasNode};
ghost use Rattle.ring_model.specs.Deliveries.{deliveries};
ghost use Rattle.message_model.specs.Told.{told, counted};
ghost use Rattle.ring_world.specs.Worlds.{WorldStands, IsKnown, LabelsHeld, ForEvents};

use crate::delivering::told;
use crate::members::Members;
use crate::state::World;
use block_names::{Book, Hash160};
use bytes::Bytes;
use circular_buffer::HeapCircularBuffer;
use pond_base::{ClientId, MemberId, Party};
use ring_model::{agrees, chosen_is_held, held_by_many, only_submitted};
use ring_node::Node;

impl<N: Node> World<N> {
    /// The first message, in the order of sending, that was never delivered, with its place from 1 on.
    /// Takes no memory.
    pub fn pending(&self) -> Option<(Party, Party, u32)>
        ensures { (g : Ring) (events : List model.Event) → WorldStands N.stands g self.now events
            → option_map told result ≡ option_map counted (find (λ place. not (is_done (deliveries g events) place)) (places (world g events).sent)) }
    {
        match self.mail.pending() {
            Some(note) => Some(told(note)),
            None => None,
        }
    }

    /// The last eight deliveries of messages, the oldest first, with places from 1 on. Takes no memory.
    pub fn recent(&self) -> &HeapCircularBuffer<(Party, Party, u32)>
        ensures { (g : Ring) (events : List model.Event) → WorldStands N.stands g self.now events → map told result.now.items ≡ map counted (keep_last 8 (deliveries g events)) }
    {
        &self.recent
    }

    /// Whether an earlier call answered a clash or want of memory. Takes no memory.
    pub fn ended(&self) -> bool
        ensures { result ≡ self.now.ended }
    {
        self.ended
    }

    /// The string of the client's request of this number, and `None` exactly where it has not submitted
    /// it. Takes no memory.
    pub fn request(&self, client: ClientId, number: u32) -> Option<&Bytes>
        ensures zero { number ≡ 0 → option_copied result ≡ None }
        ensures found { (g : Ring) (events : List model.Event) → WorldStands N.stands g self.now events → client.0 < g.clients → 0 < number
            → option_copied result ≡ slice_get (filter (λ r. g.owner r == client.0) (world g events).submits) (number - 1) }
    {
        let client = self.clients.get(client.0 as usize)?;
        client.request(number)
    }

    /// How many requests a client has submitted. Takes no memory.
    pub fn submitted(&self, client: ClientId) -> u32
        ensures { (g : Ring) (events : List model.Event) → WorldStands N.stands g self.now events → client.0 < g.clients
            → result ≡ count_by (λ r. g.owner r == client.0) (world g events).submits }
    {
        match self.clients.get(client.0 as usize) {
            Some(client) => client.submitted(),
            None => 0,
        }
    }

    /// The member's node, and `None` exactly where it is faulty. What the member executed is a prefix of
    /// the committed list and was submitted, and what it holds for committed is prepared at f+1 correct
    /// members. A book that knows the world knows the node. Takes no memory.
    pub fn node(&self, i: MemberId) -> Option<&N>
        ensures stands { IfSome result (λ node. (g : Ring) (events : List model.Event) → WorldStands N.stands g self.now events → i.0 < 3 * g.f + 1 → N.stands node.now g i.0 ((world g events).got (member i.0)) ((world g events).archived i.0)) }
        ensures there { (g : Ring) (events : List model.Event) → WorldStands N.stands g self.now events → i.0 < 3 * g.f + 1 → is_some result ≡ not (g.is_faulty i.0) }
        ensures agrees { (g : Ring) (events : List model.Event) → WorldStands N.stands g self.now events → FewFaulty g → NoClash g (world g events).submits → IsCorrect g i.0
            → IsPrefix (executed g ((world g events).got (member i.0))) (chosen g (world g events)) }
        ensures submitted { (g : Ring) (events : List model.Event) → WorldStands N.stands g self.now events
            → AllByRecursion (Contains (world g events).submits) (executed g ((world g events).got (member i.0))) }
        ensures held { (g : Ring) (events : List model.Event) → WorldStands N.stands g self.now events → FewFaulty g → NoClash g (world g events).submits → (s : ℕ) (r : List ℕ)
            → committed_at g ((world g events).got (member i.0)) s ≡ Some r → g.f + 1 ≤ count_by (is_held g (world g events) s r) (members g) }
        ensures known { IfSome result (λ node. (h : List ℕ → List ℕ) (held : Held) → IsKnown N.knows h held self.now → N.knows h held node.now) }
    {
        agrees();
        only_submitted();
        held_by_many();
        let node = self.members.nodes.get(i.0 as usize)?;
        node.as_ref()
    }

    /// The correct node whose executed list is the longest, the lowest of these: that of the committed
    /// list. Each request of the committed list was submitted, and is prepared in its slot at f+1
    /// correct members. A book that knows the world knows the node. Takes no memory.
    pub fn committed(&self) -> &N
        ensures chosen { (g : Ring) (events : List model.Event) → WorldStands N.stands g self.now events
            → (i : ℕ) × IsCorrect g i × N.stands result.now g i ((world g events).got (member i)) ((world g events).archived i) × (executed g ((world g events).got (member i)) ≡ chosen g (world g events)) }
        ensures submitted { (g : Ring) (events : List model.Event) → WorldStands N.stands g self.now events
            → AllByRecursion (Contains (world g events).submits) (chosen g (world g events)) }
        ensures held { (g : Ring) (events : List model.Event) → WorldStands N.stands g self.now events → FewFaulty g → NoClash g (world g events).submits → (k : ℕ) (r : List ℕ)
            → slice_get (chosen g (world g events)) k ≡ Some r → g.f + 1 ≤ count_by (is_held g (world g events) (1 + k) r) (members g) }
        ensures known { (h : List ℕ → List ℕ) (held : Held) → IsKnown N.knows h held self.now → N.knows h held result.now }
    {
        only_submitted();
        chosen_is_held();
        self.members.longest()
    }

    /// No two submitted requests have one name, where the book has what the world named. Does nothing.
    pub fn submits_apart<H: Hash160 + Drop>(&self, book: &Book<H>)
        requires { self.now.ended ≡ false → IsKnown N.knows H.naming book.now.held self.now }
        ensures { ForEvents N.stands H.naming self.now (λ g events. NoClash g (world g events).submits) }
    {}

    /// The strings of the labels of all submitted requests are held, where the book has what the world
    /// named. So no two of these labels have one name. Does nothing.
    pub fn labels_held<H: Hash160 + Drop>(&self, book: &Book<H>)
        requires { self.now.ended ≡ false → IsKnown N.knows H.naming book.now.held self.now }
        ensures { ForEvents N.stands H.naming self.now (λ g events. LabelsHeld H.naming book.now.held (world g events).submits) }
    {}
}

impl<N: Node> Members<N> {
    // The node of the first of the longest executed lists.
    fn longest(&self) -> &N
        ensures best { (g : Ring) (got : Who → List Letter) (archived : ℕ → ℕ) → AreMembers N.stands g self.now got archived
            → (i : ℕ) × IsCorrect g i × N.stands result.now g i (got (member i)) (archived i) × IsBest g got 0 (3 * g.f + 1) (Some i) }
        ensures known { (h : List ℕ → List ℕ) (held : Held) → NodesKnown N.knows h held self.now → N.knows h held result.now }
    {
        match self.best() {
            Some(best) => self.node(best),
            None => self.node(self.correct),
        }
    }

    // Its number.
    fn best(&self) -> Option<usize>
        ensures there { IfSome result (HasNode self.now.nodes.items) }
        ensures best { (g : Ring) (got : Who → List Letter) (archived : ℕ → ℕ) → AreMembers N.stands g self.now got archived → IsBest g got 0 (3 * g.f + 1) result }
    {
        let mut best: Option<usize> = None;
        let mut left = self.nodes.len();
        while left > 0 {
            left -= 1;
            best = self.better(left, best);
        }
        best
    }

    // The better of this member and the best of those above it.
    fn better(&self, at: usize, best: Option<usize>) -> Option<usize>
        requires here { at < length self.now.nodes.items }
        requires there { IfSome best (HasNode self.now.nodes.items) }
        ensures there { IfSome result (HasNode self.now.nodes.items) }
        ensures best { (g : Ring) (got : Who → List Letter) (archived : ℕ → ℕ) (n : ℕ) → AreMembers N.stands g self.now got archived → at + suc n ≡ 3 * g.f + 1 → IsBest g got (at + 1) n best → IsBest g got at (suc n) result }
    {
        let Some(node) = &self.nodes[at] else {
            return best;
        };
        match best {
            Some(other) if node.executed() < self.node(other).executed() => Some(other),
            _ => Some(at),
        }
    }

    // The node of a member that has one.
    fn node(&self, at: usize) -> &N
        requires { HasNode self.now.nodes.items at }
        ensures { slice_index_or self.now.nodes.items at None ≡ Some result.now }
    {
        self.nodes[at].as_ref().unwrap()
    }
}

/// Where resubmits and forgeries are few, each place fits in 32 bits.
pub fn places_fit()
    ensures { PlacesFit }
{}
