// A world with its book of names.
ghost use Rattle.std.specs.Prelude.{◌≡◌, ◌==◌, ◌<◌, ◌&&◌, ◌||◌, not, ℕ, true, false, List, [], ◌∷◌, ◌++◌, filter, length, Contains, IfOk, IfErr, OnOk, OnErr};
ghost use Rattle.std.specs.FinMap as map;
ghost use Rattle.block_names.specs.Growth.{keep_all, Grew, IsClashIn, Keeps};
ghost use Rattle.block_names.specs.Clashes.{AreHeld, NoneClash, IsClashAmong};
ghost use Rattle.object_model.specs.Trees.{version_strings};
ghost use Rattle.ring_model.specs.Member.{executed};
ghost use Rattle.ring_model.specs.Messages.{Ring, FewFaulty, Party as Who, Member as member, Client as by, same_party};
ghost use Rattle.ring_model.specs.World as model;
ghost use Rattle.ring_model.specs.World.{world, chosen};
ghost use Rattle.ring_model.specs.Laws.{AllDelivered, IsCorrect, IsPrefix, NoClash};
ghost use Rattle.message_model.specs.Meaning.{who};
ghost use Rattle.client_core.specs.Clients.{ClientStands};
ghost use Rattle.fold_model.specs.Folds.{Archiving};
ghost use Rattle.pond_node.specs.Standing as node;
ghost use Rattle.pond_node.specs.Standing.{NodeStands};
ghost use Rattle.ring_world.specs.Beliefs.{AreAnswered};
ghost use Rattle.ring_model.specs.Deliveries.{settled};
ghost use Rattle.message_model.specs.Naming.{named_along, IsNamedIn};
ghost use Rattle.ring_world.specs.Settles.{Settles};
ghost use Rattle.ring_model.specs.Places.{Place};
ghost use Rattle.ring_model.specs.Seats.{IsSeat};
ghost use Rattle.ring_mail.specs.Skips.{is_skipped};
ghost use Rattle.ring_world.specs.Skipping.{skips, PassNothing};
ghost use Rattle.message_model.specs.Told.{stands_at};
ghost use Rattle.ring_world.specs.Steps.{IsStep, Ends, IsStepClash, IsStepClashAmong, said_of};
ghost use Rattle.ring_world.specs.Worlds.{WorldStands, IsKnown, ForEvents, ForStep, event_of, strings_of};
ghost use Rattle.pond_world.specs.Beliefs.{ForSetups, HeartsAreVersions, SealsAreManifests, RepliesAreOutcomes, HoldsTheLast};
ghost use Rattle.pond_world.specs.Setups.{IsSetup, ring_by};
ghost use Rattle.pond_world.specs.Sites.{IsClashAfter, WorldsStayKnown};

use crate::opening::{open, ring_is_sound};
use block_names::{Book, Hash160, NameFault, StepFault};
use client_core::Client;
use fold_model::{heart_is_version, last_is_told, reply_is_outcome, seal_is_manifest};
use guarded_update::Setup;
use pond_base::{ClientId, Name, OutOfMemory, Party};
use pond_node::Node;
use ring_world::{Event, Said, World};
use std::alloc::Global;
use std::marker::Model;
use std::thread::Threads;

/// A world of members with their objects, and the book of all strings that were named: unless the world
/// has ended, the book holds all that the world named.
#[derive(Drop)]
pub struct Site<H: Hash160 + Drop> {
    book: Book<H>,
    world: World<Node>,
}

impl<H: Hash160 + Drop> Model for Site<H> {
    ghost use Rattle.std.specs.Coded.{codes};
    ghost use Rattle.block_names.specs.Held.{coded_held};
    ghost use Rattle.pond_node.specs.contracts.node.Node as member;
    ghost use Rattle.ring_world.specs.contracts.state.World as ring;
    ghost use Rattle.pond_world.specs.Sites.{SiteView, IsSite};

    ghost Value = { SiteView };

    ghost coded = { Prim.hlevel (codes, coded_held, (ring.the_row member.the_row).coded) };

    ghost view = { λ site. record { held = site.book.held; world = site.world } };

    ghost invariant = { λ site. IsSite H.naming (record { held = site.book.held; world = site.world }) };
}

impl<H: Hash160 + Drop> Site<H> {
    /// The site of a setup before any event. The root string of the empty version is named.
    pub fn open(alloc: Global, hash: H, setup: &Setup) -> Result<Site<H>, NameFault>
        requires { IsSetup setup.now }
        ensures stands { IfOk result (λ site. (archiving : Archiving) → WorldStands NodeStands (ring_by H.naming setup.now archiving) site.world []) }
        ensures skips { IfOk result (λ site. PassNothing (skips site.world)) }
        ensures held { IfOk result (λ site. site.held ≡ keep_all H.naming (version_strings H.naming setup.now.block [] []) map.empty) }
        ensures all { IfOk result (λ site. AreHeld H.naming site.held (version_strings H.naming setup.now.block [] [])) }
        ensures apart { OnOk result (NoneClash H.naming map.empty (Contains (version_strings H.naming setup.now.block [] []))) }
        ensures grew { IfOk result (λ site. Grew H.naming map.empty (Contains (version_strings H.naming setup.now.block [] [])) site.held) }
        ensures fault { IfErr result (IsClashAfter H.naming map.empty (Contains (version_strings H.naming setup.now.block [] []))) }
        ensures clash { IfErr result (IsClashAmong H.naming map.empty (Contains (version_strings H.naming setup.now.block [] []))) }
    {
        let mut book = Book::new(alloc, hash);
        match open(alloc, &mut book, setup) {
            Ok(world) => Ok(Site { book, world }),
            Err(fault) => Err(fault),
        }
    }

    /// Does the next event. The caller keeps the list of events legal: a forger is faulty, and no more
    /// requests are submitted than there are slots. `Ended` is answered exactly where an earlier call
    /// answered another fault, and then nothing changes; after any other fault the world has ended.
    /// `Clash` is answered only where two different strings of one name are among those that the book held
    /// and those that the event names, and where two are, `Ok` is not.
    pub fn step<R: Threads>(&mut self, rt: &R, event: Event) -> Result<Said, StepFault>
        requires { IsStep self.old.world event }
        ensures stands { OnOk result (ForStep NodeStands H.naming self.old.world event (λ g events. WorldStands NodeStands g self.new.world (event_of g (world g events) event ∷ events))) }
        ensures said { IfOk result (λ said. ForStep NodeStands H.naming self.old.world event (λ g events. said ≡ said_of g (world g events) (event_of g (world g events) event))) }
        ensures grows { OnOk result (ForStep NodeStands H.naming self.old.world event (λ g events. FewFaulty g → NoClash g (world g (event_of g (world g events) event ∷ events)).submits
            → IsPrefix (chosen g (world g events)) (chosen g (world g (event_of g (world g events) event ∷ events))))) }
        ensures ends { Ends self.old.world self.new.world result }
        ensures skips { skips self.new.world ≡ skips self.old.world }
        ensures keeps { Keeps self.old.held self.new.held }
        ensures spent { self.old.world.ended ≡ true → self.new.held ≡ self.old.held }
        ensures held { OnOk result (ForStep NodeStands H.naming self.old.world event (λ g events. self.new.held ≡ keep_all H.naming (strings_of g (world g events) event) self.old.held)) }
        ensures all { OnOk result (ForStep NodeStands H.naming self.old.world event (λ g events. AreHeld H.naming self.new.held (strings_of g (world g events) event))) }
        ensures apart { OnOk result (ForStep NodeStands H.naming self.old.world event (λ g events. NoneClash H.naming self.old.held (Contains (strings_of g (world g events) event)))) }
        ensures grew { ForStep NodeStands H.naming self.old.world event (λ g events. Grew H.naming self.old.held (Contains (strings_of g (world g events) event)) self.new.held) }
        ensures fault { IfErr result (λ fault. ForStep NodeStands H.naming self.old.world event (λ g events. IsStepClash H.naming self.new.held (Contains (strings_of g (world g events) event)) fault)) }
        ensures clash { IfErr result (λ fault. ForStep NodeStands H.naming self.old.world event (λ g events. IsStepClashAmong H.naming self.old.held (Contains (strings_of g (world g events) event)) fault)) }
    {
        self.world.step(rt, &mut self.book, event)
    }

    /// Delivers, in the order of sending, each message that was never delivered and is not passed over,
    /// those too that are sent meanwhile, and answers how many. Faults are as in [`Site::step`].
    pub fn settle<R: Threads>(&mut self, rt: &R) -> Result<u32, StepFault>
        ensures settles { IfOk result (λ n. ForEvents NodeStands H.naming self.old.world (λ g events. Settles NodeStands g (is_skipped (skips self.old.world)) events self.new.world n)) }
        ensures delivered { IfOk result (λ n. PassNothing (skips self.old.world) → ForEvents NodeStands H.naming self.old.world (λ g events.
            AllDelivered g (world g (settled g (is_skipped (skips self.old.world)) events n ++ events)))) }
        ensures executed { IfOk result (λ n. PassNothing (skips self.old.world) → ForEvents NodeStands H.naming self.old.world (λ g events. FewFaulty g → g.is_faulty 0 ≡ false
            → (i : ℕ) → IsCorrect g i → (r : List ℕ) → Contains (world g (settled g (is_skipped (skips self.old.world)) events n ++ events)).submits r
            → Contains (executed g ((world g (settled g (is_skipped (skips self.old.world)) events n ++ events)).got (member i))) r)) }
        ensures grows { IfOk result (λ n. ForEvents NodeStands H.naming self.old.world (λ g events. FewFaulty g → NoClash g (world g (settled g (is_skipped (skips self.old.world)) events n ++ events)).submits
            → IsPrefix (chosen g (world g events)) (chosen g (world g (settled g (is_skipped (skips self.old.world)) events n ++ events))))) }
        ensures ends { Ends self.old.world self.new.world result }
        ensures skips { skips self.new.world ≡ skips self.old.world }
        ensures keeps { Keeps self.old.held self.new.held }
        ensures spent { self.old.world.ended ≡ true → self.new.held ≡ self.old.held }
        ensures held { IfOk result (λ n. ForEvents NodeStands H.naming self.old.world (λ g events.
            self.new.held ≡ keep_all H.naming (named_along g events (settled g (is_skipped (skips self.old.world)) events n)) self.old.held)) }
        ensures all { IfOk result (λ n. ForEvents NodeStands H.naming self.old.world (λ g events.
            AreHeld H.naming self.new.held (named_along g events (settled g (is_skipped (skips self.old.world)) events n)))) }
        ensures apart { OnOk result (ForEvents NodeStands H.naming self.old.world (λ g events. NoneClash H.naming self.old.held (IsNamedIn g (is_skipped (skips self.old.world)) events))) }
        ensures grew { ForEvents NodeStands H.naming self.old.world (λ g events. Grew H.naming self.old.held (IsNamedIn g (is_skipped (skips self.old.world)) events) self.new.held) }
        ensures fault { IfErr result (λ fault. ForEvents NodeStands H.naming self.old.world (λ g events. IsStepClash H.naming self.new.held (IsNamedIn g (is_skipped (skips self.old.world)) events) fault)) }
        ensures clash { IfErr result (λ fault. ForEvents NodeStands H.naming self.old.world (λ g events. IsStepClashAmong H.naming self.old.held (IsNamedIn g (is_skipped (skips self.old.world)) events) fault)) }
    {
        self.world.settle(rt, &mut self.book)
    }

    /// The message at this place, from 1 on, is lost, sent or not yet sent: settles pass over it. Where
    /// memory runs out the world has ended.
    pub fn lose(&mut self, from: Party, to: Party, place: u32) -> Result<(), OutOfMemory>
        requires { IsSeat (who from) × IsSeat (who to) × (0 < place) }
        ensures lost { OnOk result ((a : Place) → (skips self.new.world).lost a ≡ ((skips self.old.world).lost a || stands_at a (from, to, place))) }
        ensures muted { OnOk result ((skips self.new.world).muted ≡ (skips self.old.world).muted) }
        ensures stands { OnOk result ((g : Ring) (events : List model.Event) → WorldStands NodeStands g self.old.world events → WorldStands NodeStands g self.new.world events) }
        ensures held { self.new.held ≡ self.old.held }
        ensures going { OnOk result (self.new.world.ended ≡ self.old.world.ended) }
        ensures ends { OnErr result (self.new.world.ended ≡ true) }
    {
        self.world.lose(from, to, place)
    }

    /// Settles pass over messages from and to this party. Where memory runs out the world has ended.
    pub fn mute(&mut self, party: Party) -> Result<(), OutOfMemory>
        requires { IsSeat (who party) }
        ensures muted { OnOk result ((p : Who) → (skips self.new.world).muted p ≡ ((skips self.old.world).muted p || same_party (who party) p)) }
        ensures lost { OnOk result ((skips self.new.world).lost ≡ (skips self.old.world).lost) }
        ensures stands { OnOk result ((g : Ring) (events : List model.Event) → WorldStands NodeStands g self.old.world events → WorldStands NodeStands g self.new.world events) }
        ensures held { self.new.held ≡ self.old.held }
        ensures going { OnOk result (self.new.world.ended ≡ self.old.world.ended) }
        ensures ends { OnErr result (self.new.world.ended ≡ true) }
    {
        self.world.mute(party)
    }

    /// Settles pass over messages from and to this party no more. Where memory runs out the world has
    /// ended.
    pub fn unmute(&mut self, party: Party) -> Result<(), OutOfMemory>
        requires { IsSeat (who party) }
        ensures muted { OnOk result ((p : Who) → (skips self.new.world).muted p ≡ ((skips self.old.world).muted p && not (same_party (who party) p))) }
        ensures lost { OnOk result ((skips self.new.world).lost ≡ (skips self.old.world).lost) }
        ensures stands { OnOk result ((g : Ring) (events : List model.Event) → WorldStands NodeStands g self.old.world events → WorldStands NodeStands g self.new.world events) }
        ensures held { self.new.held ≡ self.old.held }
        ensures going { OnOk result (self.new.world.ended ≡ self.old.world.ended) }
        ensures ends { OnErr result (self.new.world.ended ≡ true) }
    {
        self.world.unmute(party)
    }

    /// Names a string, and answers its name. The world stays as it is.
    pub fn name(&mut self, bytes: &[u8]) -> Result<Name, NameFault>
        ensures name { IfOk result (λ name. name ≡ H.naming bytes.now) }
        ensures world { self.new.world ≡ self.old.world }
        ensures held { OnOk result (self.new.held ≡ map.insert self.old.held (H.naming bytes.now) bytes.now) }
        ensures grew { Grew H.naming self.old.held (λ string. string ≡ bytes.now) self.new.held }
        ensures fault { IfErr result (IsClashIn H.naming self.new.held (λ string. string ≡ bytes.now)) }
    {
        self.book.name(bytes)
    }

    /// The book and the world, to name further strings in the book: unless the world has ended, the book
    /// holds all that it named. Takes no memory.
    pub fn into_parts(self) -> (Book<H>, World<Node>)
        ensures book { result.0.held ≡ self.held }
        ensures world { result.1 ≡ self.world }
        ensures known { result.1.ended ≡ false → IsKnown node.IsKnown H.naming result.0.held result.1 }
    {
        let Site { book, world } = self;
        (book, world)
    }

    /// The site of a world that has ended, or whose book holds all that it named. Takes no memory.
    pub fn of(book: Book<H>, world: World<Node>) -> Site<H>
        requires { world.ended ≡ false → IsKnown node.IsKnown H.naming book.held world }
        ensures held { result.held ≡ book.held }
        ensures world { result.world ≡ world }
    {
        Site { book, world }
    }

    /// The world. Unless it has ended, the book holds all that it named. Takes no memory.
    pub fn world(&self) -> &World<Node>
        ensures world { result.now ≡ self.now.world }
        ensures known { result.now.ended ≡ false → IsKnown node.IsKnown H.naming self.now.held result.now }
    {
        &self.world
    }

    /// A client of the world. What it believes of versions and of its requests is so in the fold of the
    /// committed list, and once all was delivered and member 0 is correct it believes an outcome of each
    /// of its requests and holds the heart of the last version of each label whose string the book has,
    /// as it has of each label that was submitted. Takes no memory.
    pub fn client(&self, client: ClientId) -> &Client
        requires { client.0 < length self.now.world.clients.items }
        ensures stands { (g : Ring) (events : List model.Event) → WorldStands NodeStands g self.now.world events
            → ClientStands result.now g client.0 (filter (λ r. g.owner r == client.0) (world g events).submits) ((world g events).got (by client.0)) }
        ensures hearts { ForSetups H.naming self.now.world (λ block archiving g events. HeartsAreVersions H.naming block g events client.0) }
        ensures seals { ForSetups H.naming self.now.world (λ block archiving g events. SealsAreManifests H.naming block archiving g events client.0) }
        ensures replies { ForSetups H.naming self.now.world (λ block archiving g events. RepliesAreOutcomes H.naming block g events client.0) }
        ensures answered { ForSetups H.naming self.now.world (λ block archiving g events. g.is_faulty 0 ≡ false → AllDelivered g (world g events) → AreAnswered g events client.0) }
        ensures told { ForSetups H.naming self.now.world (λ block archiving g events. g.is_faulty 0 ≡ false → AllDelivered g (world g events) → HoldsTheLast H.naming self.now.held block g events client.0) }
    {
        ring_is_sound();
        heart_is_version();
        seal_is_manifest();
        reply_is_outcome();
        last_is_told();
        self.world.submits_apart(&self.book);
        self.world.labels_held(&self.book);
        self.world.client(client)
    }

    /// The book. Takes no memory.
    pub fn book(&self) -> &Book<H>
        ensures { result.now.held ≡ self.now.held }
    {
        &self.book
    }
}

/// A book that grows still holds all that a world named.
pub fn worlds_stay_known()
    ensures { WorldsStayKnown }
{}
