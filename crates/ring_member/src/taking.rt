// Letters, one by one.
ghost use Rattle.std.specs.Prelude.{◌≡◌, ◌≤◌, ◌<◌, ◌+◌, ◌*◌, ◌==◌, ◌∷◌, [], cond, ℕ, List, map, Some, IfOk, IfErr, OnOk, Contains};
ghost use Rattle.std.specs.FinMap.{insert};
ghost use Rattle.std.specs.List.{AllByRecursion};
ghost use Rattle.block_names.specs.Growth.{keep_all, Grew, IsClashIn};
ghost use Rattle.block_names.specs.Clashes.{AreHeld};
ghost use Rattle.guarded_update.specs.declared.request.Request.{Request as Asked};
ghost use Rattle.guarded_update.specs.Fitting.{IsRequest};
ghost use Rattle.guarded_update.specs.Spelling.{request_string};
ghost use Rattle.ring_message.specs.Grammar.{IsSlot, IsRequestString, IsMessage, MessageFits};
ghost use Rattle.ring_model.specs.Messages.{Ring, Letter, Member as AMember, Client as AClient, Request as ARequest, PrePrepare as APrePrepare};
ghost use Rattle.ring_model.specs.World.{IsParty};
ghost use Rattle.message_model.specs.Meaning.{who, said, meaning, letter, packet};
ghost use Rattle.member_orders.specs.Views.{view_of};
ghost use Rattle.member_orders.specs.Told.{orders_told};
ghost use Rattle.member_orders.specs.Standing.{Stands as Ordered};
ghost use Rattle.ring_member.specs.Standing.{request_of};
ghost use Rattle.message_model.specs.Reading.{IsRingOf, asked_in};
ghost use Rattle.ring_member.specs.Members.{vote_of, IsOwn, StandsFor, told, sent_to_members};
ghost use Rattle.message_model.specs.Members.{AreToMembers};

use crate::Member;
use crate::broadcast::broadcast;
use crate::progress::Progress;
use block_names::{Book, Hash160, NameFault};
use bytes::Bytes;
use member_orders::Orders;
use pond_base::limits::{MOST_CLIENTS, MOST_FAULTY, MOST_SLOTS};
use pond_base::{ClientId, Fields, Items, MemberId, Name, OutOfMemory, Party, Seq};
use quorum::{Phase, Window};
use ring_message::{Message, Out, read};
use std::alloc::Global;
use std::collections::BTreeMap;

// How many members a ring has at most.
const MOST_MEMBERS: u8 = 3 * MOST_FAULTY + 1;

impl Member {
    /// A member that nothing was delivered to, of a ring that tolerates f faulty members. Takes no memory.
    pub fn new(alloc: Global, id: MemberId, f: u8) -> Member
        requires { f ≤ MOST_FAULTY }
        ensures { (g : Ring) → g.f ≡ f → g.slots ≡ MOST_SLOTS → StandsFor g id.0 result [] }
    {
        Member {
            alloc,
            id,
            progress: Progress {
                f,
                votes: Window::new(alloc),
                slots: BTreeMap::new(alloc),
                names: BTreeMap::new(alloc),
                done: Items::new(alloc),
            },
            orders: Orders::new(alloc),
        }
    }

    /// Takes bytes from a party, and answers what the member owes to members for them: PrePrepares if it
    /// is member 0, then Prepares, then Commits, each to every member. Bytes that are no message change
    /// nothing. A request from its own client is named. After a fault the member is spent.
    pub fn take<H: Hash160 + Drop>(
        &mut self,
        book: &mut Book<H>,
        from: Party,
        bytes: &Bytes,
    ) -> Result<Vec<Out>, NameFault>
        ensures stands { OnOk result ((g : Ring) (i : ℕ) (got : List Letter) → IsRingOf H.naming g → IsParty g (who from) → StandsFor g i self.old got
            → StandsFor g i self.new (letter from bytes.now ∷ got)) }
        ensures out { IfOk result (λ out. (g : Ring) (i : ℕ) (got : List Letter) → IsRingOf H.naming g → IsParty g (who from) → StandsFor g i self.old got
            → map (packet i) out.items ≡ sent_to_members g i got (letter from bytes.now ∷ got)) }
        ensures seats { IfOk result (λ out. AreToMembers out.items) }
        ensures held { OnOk result (book.new.held ≡ keep_all H.naming (asked_in (who from) (meaning bytes.now)) book.old.held) }
        ensures all { OnOk result (AreHeld H.naming book.new.held (asked_in (who from) (meaning bytes.now))) }
        ensures grew { Grew H.naming book.old.held (λ string. Contains (asked_in (who from) (meaning bytes.now)) string) book.new.held }
        ensures fault { IfErr result (IsClashIn H.naming book.new.held (λ string. Contains (asked_in (who from) (meaning bytes.now)) string)) }
    {
        match read(self.alloc, bytes)? {
            Some(message) => self.answer(book, from, message),
            None => Ok(Vec::new(self.alloc)),
        }
    }

    // Takes a message from a party, and answers what is owed for it, to each member.
    fn answer<H: Hash160 + Drop>(
        &mut self,
        book: &mut Book<H>,
        from: Party,
        message: Message,
    ) -> Result<Vec<Out>, NameFault>
        requires { IsMessage message }
        ensures stands { OnOk result ((g : Ring) (i : ℕ) (got : List Letter) → IsRingOf H.naming g → IsParty g (who from) → StandsFor g i self.old got
            → StandsFor g i self.new (record { from = who from; message = said message } ∷ got)) }
        ensures out { IfOk result (λ out. (g : Ring) (i : ℕ) (got : List Letter) → IsRingOf H.naming g → IsParty g (who from) → StandsFor g i self.old got
            → map (packet i) out.items ≡ sent_to_members g i got (record { from = who from; message = said message } ∷ got)) }
        ensures seats { IfOk result (λ out. AreToMembers out.items) }
        ensures held { OnOk result (book.new.held ≡ keep_all H.naming (asked_in (who from) (said message)) book.old.held) }
        ensures all { OnOk result (AreHeld H.naming book.new.held (asked_in (who from) (said message))) }
        ensures grew { Grew H.naming book.old.held (λ string. Contains (asked_in (who from) (said message)) string) book.new.held }
        ensures fault { IfErr result (IsClashIn H.naming book.new.held (λ string. Contains (asked_in (who from) (said message)) string)) }
    {
        let messages = self.take_message(book, from, message)?;
        Ok(broadcast(self.alloc, self.progress.f, &messages)?)
    }

    // Takes a message from a party, and answers the messages that are owed to all members for it.
    fn take_message<H: Hash160 + Drop>(
        &mut self,
        book: &mut Book<H>,
        from: Party,
        message: Message,
    ) -> Result<Vec<Message>, NameFault>
        requires { IsMessage message }
        ensures stands { OnOk result ((g : Ring) (i : ℕ) (got : List Letter) → IsRingOf H.naming g → IsParty g (who from) → StandsFor g i self.old got
            → StandsFor g i self.new (record { from = who from; message = said message } ∷ got)) }
        ensures told { IfOk result (λ messages. (g : Ring) (i : ℕ) (got : List Letter) → IsRingOf H.naming g → IsParty g (who from) → StandsFor g i self.old got
            → map said messages.items ≡ told g i got (record { from = who from; message = said message } ∷ got)) }
        ensures fits { IfOk result (λ messages. AllByRecursion MessageFits messages.items) }
        ensures held { OnOk result (book.new.held ≡ keep_all H.naming (asked_in (who from) (said message)) book.old.held) }
        ensures all { OnOk result (AreHeld H.naming book.new.held (asked_in (who from) (said message))) }
        ensures grew { Grew H.naming book.old.held (λ string. Contains (asked_in (who from) (said message)) string) book.new.held }
        ensures fault { IfErr result (IsClashIn H.naming book.new.held (λ string. Contains (asked_in (who from) (said message)) string)) }
    {
        match message {
            Message::Request(request) => self.take_request(book, from, request),
            Message::PrePrepare { seq, request } => Ok(self.take_order(from, seq, request)?),
            Message::Prepare { seq, name } => {
                Ok(self.take_vote(Phase::Prepare, from, seq, name)?)
            }
            Message::Commit { seq, name } => Ok(self.take_vote(Phase::Commit, from, seq, name)?),
            Message::Reply { .. } | Message::Heart { .. } | Message::Sealed { .. } => {
                Ok(Vec::new(self.alloc))
            }
        }
    }

    // Takes a vote, if it is from a member.
    fn take_vote(
        &mut self,
        phase: Phase,
        from: Party,
        seq: Seq,
        name: Name,
    ) -> Result<Vec<Message>, OutOfMemory>
        requires { IsSlot seq.0 }
        ensures stands { OnOk result ((g : Ring) (i : ℕ) (got : List Letter) → IsParty g (who from) → StandsFor g i self.old got
            → StandsFor g i self.new (record { from = who from; message = vote_of phase seq.0 name } ∷ got)) }
        ensures told { IfOk result (λ messages. (g : Ring) (i : ℕ) (got : List Letter) → IsParty g (who from) → StandsFor g i self.old got
            → map said messages.items ≡ told g i got (record { from = who from; message = vote_of phase seq.0 name } ∷ got)) }
        ensures fits { IfOk result (λ messages. AllByRecursion MessageFits messages.items) }
    {
        match from {
            Party::Member(sender) => self.count_vote(phase, sender, seq, name),
            Party::Client(_) => Ok(Vec::new(self.alloc)),
        }
    }

    // Takes a member's vote.
    fn count_vote(
        &mut self,
        phase: Phase,
        sender: MemberId,
        seq: Seq,
        name: Name,
    ) -> Result<Vec<Message>, OutOfMemory>
        requires { IsSlot seq.0 }
        ensures stands { OnOk result ((g : Ring) (i : ℕ) (got : List Letter) → sender.0 < 3 * g.f + 1 → StandsFor g i self.old got
            → StandsFor g i self.new (record { from = AMember sender.0; message = vote_of phase seq.0 name } ∷ got)) }
        ensures told { IfOk result (λ messages. (g : Ring) (i : ℕ) (got : List Letter) → sender.0 < 3 * g.f + 1 → StandsFor g i self.old got
            → map said messages.items ≡ told g i got (record { from = AMember sender.0; message = vote_of phase seq.0 name } ∷ got)) }
        ensures fits { IfOk result (λ messages. AllByRecursion MessageFits messages.items) }
    {
        if sender.0 >= MOST_MEMBERS {
            return Ok(Vec::new(self.alloc));
        }
        let messages = self
            .progress
            .take_vote(self.alloc, phase, sender, seq, name)?;
        Ok(messages)
    }

    // Takes an order, if it is from member 0.
    fn take_order(
        &mut self,
        from: Party,
        seq: Seq,
        request: Bytes,
    ) -> Result<Vec<Message>, OutOfMemory>
        requires { IsSlot seq.0 }
        ensures stands { OnOk result ((g : Ring) (i : ℕ) (got : List Letter) → IsParty g (who from) → StandsFor g i self.old got
            → StandsFor g i self.new (record { from = who from; message = APrePrepare seq.0 request } ∷ got)) }
        ensures told { IfOk result (λ messages. (g : Ring) (i : ℕ) (got : List Letter) → IsParty g (who from) → StandsFor g i self.old got
            → map said messages.items ≡ told g i got (record { from = who from; message = APrePrepare seq.0 request } ∷ got)) }
        ensures fits { IfOk result (λ messages. AllByRecursion MessageFits messages.items) }
    {
        match from {
            Party::Member(sender) => self.follow(sender, seq, request),
            Party::Client(_) => Ok(Vec::new(self.alloc)),
        }
    }

    // Takes a member's order, if the member is the primary.
    fn follow(
        &mut self,
        sender: MemberId,
        seq: Seq,
        request: Bytes,
    ) -> Result<Vec<Message>, OutOfMemory>
        requires { IsSlot seq.0 }
        ensures stands { OnOk result ((g : Ring) (i : ℕ) (got : List Letter) → sender.0 < 3 * g.f + 1 → StandsFor g i self.old got
            → StandsFor g i self.new (record { from = AMember sender.0; message = APrePrepare seq.0 request } ∷ got)) }
        ensures told { IfOk result (λ messages. (g : Ring) (i : ℕ) (got : List Letter) → sender.0 < 3 * g.f + 1 → StandsFor g i self.old got
            → map said messages.items ≡ told g i got (record { from = AMember sender.0; message = APrePrepare seq.0 request } ∷ got)) }
        ensures fits { IfOk result (λ messages. AllByRecursion MessageFits messages.items) }
    {
        if sender.0 != 0 {
            return Ok(Vec::new(self.alloc));
        }
        let messages = self.progress.take_order(self.alloc, seq, request)?;
        Ok(messages)
    }

    // Takes a request, if it is from a client.
    fn take_request<H: Hash160 + Drop>(
        &mut self,
        book: &mut Book<H>,
        from: Party,
        request: Bytes,
    ) -> Result<Vec<Message>, NameFault>
        requires { IsRequestString request }
        ensures stands { OnOk result ((g : Ring) (i : ℕ) (got : List Letter) → IsRingOf H.naming g → IsParty g (who from) → StandsFor g i self.old got
            → StandsFor g i self.new (record { from = who from; message = ARequest request } ∷ got)) }
        ensures told { IfOk result (λ messages. (g : Ring) (i : ℕ) (got : List Letter) → IsRingOf H.naming g → IsParty g (who from) → StandsFor g i self.old got
            → map said messages.items ≡ told g i got (record { from = who from; message = ARequest request } ∷ got)) }
        ensures fits { IfOk result (λ messages. AllByRecursion MessageFits messages.items) }
        ensures held { OnOk result (book.new.held ≡ keep_all H.naming (asked_in (who from) (ARequest request)) book.old.held) }
        ensures all { OnOk result (AreHeld H.naming book.new.held (asked_in (who from) (ARequest request))) }
        ensures grew { Grew H.naming book.old.held (λ string. Contains (asked_in (who from) (ARequest request)) string) book.new.held }
        ensures fault { IfErr result (IsClashIn H.naming book.new.held (λ string. Contains (asked_in (who from) (ARequest request)) string)) }
    {
        match from {
            Party::Client(client) => self.hear(book, client, request),
            Party::Member(_) => Ok(Vec::new(self.alloc)),
        }
    }

    // Takes a request from a client, if it is its own.
    fn hear<H: Hash160 + Drop>(
        &mut self,
        book: &mut Book<H>,
        client: ClientId,
        request: Bytes,
    ) -> Result<Vec<Message>, NameFault>
        requires { IsRequestString request }
        ensures stands { OnOk result ((g : Ring) (i : ℕ) (got : List Letter) → IsRingOf H.naming g → client.0 < g.clients → StandsFor g i self.old got
            → StandsFor g i self.new (record { from = AClient client.0; message = ARequest request } ∷ got)) }
        ensures told { IfOk result (λ messages. (g : Ring) (i : ℕ) (got : List Letter) → IsRingOf H.naming g → client.0 < g.clients → StandsFor g i self.old got
            → map said messages.items ≡ told g i got (record { from = AClient client.0; message = ARequest request } ∷ got)) }
        ensures fits { IfOk result (λ messages. AllByRecursion MessageFits messages.items) }
        ensures held { OnOk result (book.new.held ≡ keep_all H.naming (asked_in (AClient client.0) (ARequest request)) book.old.held) }
        ensures all { OnOk result (AreHeld H.naming book.new.held (asked_in (AClient client.0) (ARequest request))) }
        ensures grew { Grew H.naming book.old.held (λ string. Contains (asked_in (AClient client.0) (ARequest request)) string) book.new.held }
        ensures fault { IfErr result (IsClashIn H.naming book.new.held (λ string. Contains (asked_in (AClient client.0) (ARequest request)) string)) }
    {
        let Some((owner, number)) = asker(&request) else {
            return Ok(Vec::new(self.alloc));
        };
        if owner != client.0 {
            return Ok(Vec::new(self.alloc));
        }
        self.hear_own(book, client, number, request)
    }

    // Takes a request of this number from its own client.
    fn hear_own<H: Hash160 + Drop>(
        &mut self,
        book: &mut Book<H>,
        client: ClientId,
        number: u32,
        request: Bytes,
    ) -> Result<Vec<Message>, NameFault>
        requires { IsOwn request client.0 number }
        ensures stands { OnOk result ((g : Ring) (i : ℕ) (got : List Letter) → IsRingOf H.naming g → client.0 < g.clients → StandsFor g i self.old got
            → StandsFor g i self.new (record { from = AClient client.0; message = ARequest request } ∷ got)) }
        ensures told { IfOk result (λ messages. (g : Ring) (i : ℕ) (got : List Letter) → IsRingOf H.naming g → client.0 < g.clients → StandsFor g i self.old got
            → map said messages.items ≡ told g i got (record { from = AClient client.0; message = ARequest request } ∷ got)) }
        ensures fits { IfOk result (λ messages. AllByRecursion MessageFits messages.items) }
        ensures held { OnOk result (book.new.held ≡ insert book.old.held (H.naming request) request) }
        ensures grew { Grew H.naming book.old.held (λ string. string ≡ request) book.new.held }
        ensures fault { IfErr result (IsClashIn H.naming book.new.held (λ string. string ≡ request)) }
    {
        let name = book.name(request.as_slice())?;
        let mut messages = self.order(client, number, &request)?;
        let mut votes = self.progress.take_request(self.alloc, request, name)?;
        messages.append(&mut votes)?;
        Ok(messages)
    }

    // Orders what becomes next with a request from its client, if this is the primary.
    fn order(
        &mut self,
        client: ClientId,
        number: u32,
        request: &Bytes,
    ) -> Result<Vec<Message>, OutOfMemory>
        requires few { client.0 < MOST_CLIENTS }
        requires string { IsRequestString request.now }
        ensures stands { OnOk result ((g : Ring) (got : List Letter) → g.owner request.now ≡ client.0 → g.number request.now ≡ number → self.old.id.0 ≡ 0
            → Ordered g (view_of self.old.orders) got → Ordered g (view_of self.new.orders) (request_of g request.now ∷ got)) }
        ensures told { IfOk result (λ messages. (g : Ring) (got : List Letter) → g.owner request.now ≡ client.0 → g.number request.now ≡ number
            → (self.old.id.0 ≡ 0 → Ordered g (view_of self.old.orders) got)
            → map said messages.items ≡ cond (self.old.id.0 == 0) (orders_told g got (request_of g request.now ∷ got)) []) }
        ensures fits { IfOk result (λ messages. AllByRecursion MessageFits messages.items) }
        ensures progress { self.new.progress ≡ self.old.progress }
        ensures id { self.new.id ≡ self.old.id }
    {
        if self.id.0 != 0 {
            return Ok(Vec::new(self.alloc));
        }
        self.orders
            .take(self.alloc, client, number, request.clone()?)
    }
}

// The client and the number of a request.
fn asker(request: &Bytes) -> Option<(u8, u32)>
    ensures { (r : Asked) → IsRequest r → request.now ≡ request_string r → result ≡ Some (r.client.0, r.number) }
{
    let mut fields = Fields::new(request.as_slice());
    let Ok(_kind) = fields.take_u8() else {
        return None;
    };
    let Ok(client) = fields.take_u8() else {
        return None;
    };
    let Ok(number) = fields.take_u32() else {
        return None;
    };
    Some((client, number))
}
