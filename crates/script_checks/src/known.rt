// What earlier lines declared and sent.
ghost use Rattle.std.specs.Prelude.{◌≡◌, ◌≤◌, ◌<◌, ◌++◌, [], ℕ, true, nat_le, slice_index, IsTrue, IfOk, OnOk, OnErr};
ghost use Rattle.script_terms.specs.declared.cause.Cause.TheVariants as causes;
ghost use Rattle.script_grammar.specs.Results.{Gives, where_holds};
ghost use Rattle.script_grammar.specs.Known as spec;
ghost use Rattle.script_grammar.specs.Script.{setup_by, home_of, homes_by};
ghost use Rattle.script_grammar.specs.Asks.{is_member, is_client, is_faulty, has_home, has_sent, is_seq};
ghost use Rattle.script_grammar.specs.Steps.{in_order, in_range, may_repeat, has_room};
ghost use Rattle.script_checks.specs.Next.{next, named_after};

use guarded_update::{Place, Setup};
use pond_base::limits::{MOST_BLOCK, MOST_CLIENTS, MOST_EVENTS, MOST_SLOTS, MOST_SUBMITS};
use pond_base::{ClientId, Items, MemberId, OutOfMemory, Seq};
use script_terms::{Declaration, Item, Line, LineFault, refused};
use std::alloc::Global;
use std::marker::Model;

/// What a line is checked against: what the lines before it declared, and how many of them count.
#[derive(Drop)]
pub struct Known {
    // The rank of the last line.
    last: u8,
    ring: u8,
    faulty: Items<MemberId>,
    block: u32,
    clients: u8,
    homes: Items<(ClientId, MemberId)>,
    // How many submits each client has sent.
    submits: [u32; MOST_CLIENTS as usize],
    requests: u32,
    events: u32,
}

impl Model for Known {
    ghost use Rattle.std.specs.Prelude.{◌≤◌};
    ghost use Rattle.script_grammar.specs.Known as spec;

    ghost Value = { spec.Known };

    ghost view = { λ k. record { last = k.last; ring = k.ring; faulty = k.faulty; block = k.block; clients = k.clients; homes = k.homes; submits = k.submits; requests = k.requests; events = k.events } };

    ghost invariant = { λ k. (k.ring ≤ 3) × (k.clients ≤ 16) };
}

impl Known {
    /// What is known where no line has come. Takes no memory.
    pub fn new(alloc: Global) -> Known
        ensures { result ≡ spec.known [] }
    {
        Known {
            last: 0,
            ring: 0,
            faulty: Items::new(alloc),
            block: MOST_BLOCK,
            clients: 1,
            homes: Items::new(alloc),
            submits: [0; MOST_CLIENTS as usize],
            requests: 0,
            events: 0,
        }
    }

    /// Whether a line of this rank may come.
    pub fn is_in_order(&self, rank: u8) -> bool
        ensures { result ≡ in_order self.now.last rank }
    {
        if self.last < 2 {
            return rank == self.last + 1;
        }
        self.last < rank || (self.last == rank && may_repeat(rank))
    }

    /// The member of a number, which is out of range where the ring has no such member.
    pub fn member(&self, number: u32) -> Result<MemberId, LineFault>
        ensures { Gives (λ member. member.0) result (where_holds (is_member self.now number) causes.Range number) }
    {
        if self.is_member(number) {
            Ok(MemberId(number as u8))
        } else {
            Err(refused::RANGE)
        }
    }

    /// The client of a number, which is out of range where there is no such client.
    pub fn client(&self, number: u32) -> Result<ClientId, LineFault>
        ensures { Gives (λ client. client.0) result (where_holds (is_client self.now number) causes.Range number) }
    {
        if self.is_client(number) {
            Ok(ClientId(number as u8))
        } else {
            Err(refused::RANGE)
        }
    }

    /// The faulty member of a number, which is out of range where no member of that number is declared
    /// faulty.
    pub fn faulty(&self, number: u32) -> Result<MemberId, LineFault>
        ensures { Gives (λ member. member.0) result (where_holds (is_faulty self.now number) causes.Range number) }
    {
        for member in self.faulty.as_slice() {
            if u32::from(member.0) == number {
                return Ok(*member);
            }
        }
        Err(refused::RANGE)
    }

    /// The number of a request of a client, which is out of range where the client has not sent it.
    pub fn request(&self, client: ClientId, number: u32) -> Result<u32, LineFault>
        ensures { Gives (λ number. number) result (where_holds (has_sent self.now client.0 number) causes.Range number) }
    {
        if number >= 1 && number <= self.submits_of(client) {
            Ok(number)
        } else {
            Err(refused::RANGE)
        }
    }

    fn submits_of(&self, client: ClientId) -> u32
        ensures { result ≡ slice_index self.now.submits client.0 }
    {
        match self.submits.get(client.0 as usize) {
            Some(count) => *count,
            None => 0,
        }
    }

    fn is_member(&self, number: u32) -> bool
        ensures value { result ≡ is_member self.now number }
        ensures small { IsTrue result → number < 256 }
    {
        number <= 3 * u32::from(self.ring)
    }

    fn is_client(&self, number: u32) -> bool
        ensures value { result ≡ is_client self.now number }
        ensures small { IsTrue result → number < 256 }
    {
        number < u32::from(self.clients)
    }

    /// Whether a member is declared faulty.
    pub fn is_faulty(&self, member: MemberId) -> bool
        ensures { result ≡ is_faulty self.now member.0 }
    {
        self.faulty
            .as_slice()
            .iter()
            .any(|faulty| faulty.0 == member.0)
    }

    /// Whether a client has a declared home.
    pub fn has_home(&self, client: ClientId) -> bool
        ensures { result ≡ has_home self.now client.0 }
    {
        self.homes
            .as_slice()
            .iter()
            .any(|home| home.0.0 == client.0)
    }

    /// Whether the two lines that stand first have come.
    pub fn has_heads(&self) -> bool
        ensures { result ≡ nat_le 2 self.now.last }
    {
        self.last >= 2
    }

    /// How many bytes a whole leaf has.
    pub fn block(&self) -> u32
        ensures { result ≡ self.now.block }
    {
        self.block
    }

    /// Whether no count is passed.
    pub fn has_room(&self) -> bool
        ensures { result ≡ has_room self.now }
    {
        self.faulty.len() <= self.ring as usize
            && self.requests <= MOST_SUBMITS
            && self.events <= MOST_EVENTS
    }

    /// Takes in what a line says.
    pub fn add(&mut self, item: &Item) -> Result<(), OutOfMemory>
        requires room { has_room self.old ≡ true }
        requires range { in_range self.old item.now ≡ true }
        requires few { (client : ℕ) → slice_index self.old.submits client ≤ self.old.requests }
        ensures ok { OnOk result (self.new ≡ next item.now self.old) }
        ensures err { OnErr result (self.new ≡ self.old) }
    {
        self.add_named(item)?;
        self.last = rank(item);
        self.ring = ring_in(item).unwrap_or(self.ring);
        self.block = block_in(item).unwrap_or(self.block);
        self.clients = clients_in(item).unwrap_or(self.clients);
        if is_request(item) {
            self.requests += 1;
        }
        if is_event(item) {
            self.events += 1;
        }
        Ok(())
    }

    // Takes in the faulty member, the home or the submit that a line has.
    fn add_named(&mut self, item: &Item) -> Result<(), OutOfMemory>
        requires range { in_range self.old item.now ≡ true }
        requires few { (client : ℕ) → slice_index self.old.submits client ≤ 1024 }
        ensures ok { OnOk result (self.new ≡ named_after item.now self.old) }
        ensures err { OnErr result (self.new ≡ self.old) }
    {
        match item {
            Item::Declared(Declaration::Faulty { member }) => self.faulty.push(*member),
            Item::Declared(Declaration::Home { client, member }) => {
                self.homes.push((*client, *member))
            }
            Item::Event(Line::Submit { client, .. }) => {
                self.submits[client.0 as usize] += 1;
                Ok(())
            }
            _ => Ok(()),
        }
    }

    /// The setup that the lines declare. Takes no memory.
    pub fn into_setup(self) -> Setup
        ensures { result ≡ setup_by self }
    {
        let Known {
            ring,
            faulty,
            block,
            clients,
            ..
        } = self;
        Setup {
            f: ring,
            faulty,
            clients,
            block,
            m: 16,
            n: 32,
            newer: None,
        }
    }

    /// Where each client reads, in the order of clients.
    pub fn homes(&self, alloc: Global) -> Result<Items<Place>, OutOfMemory>
        ensures { IfOk result (λ homes. homes ≡ homes_by self.now) }
    {
        let mut homes = Items::new(alloc);
        for client in 0..self.clients {
            homes.push(Place::Member(home_of(self.homes.as_slice(), client)))?;
        }
        Ok(homes)
    }
}

// The member where a client reads: that of its home, and member 0 where it has none.
fn home_of(homes: &[(ClientId, MemberId)], client: u8) -> MemberId
    ensures { result ≡ home_of homes.now client }
{
    for home in homes {
        if home.0.0 == client {
            return home.1;
        }
    }
    MemberId(0)
}

/// The slot of a sequence number, which is out of range where it is none from 1 to 65,536.
pub fn slot(number: u32) -> Result<Seq, LineFault>
    ensures { Gives (λ seq. seq.0) result (where_holds (is_seq number) causes.Range number) }
{
    if number >= 1 && number <= MOST_SLOTS {
        Ok(Seq(number))
    } else {
        Err(refused::RANGE)
    }
}

fn may_repeat(rank: u8) -> bool
    ensures { result ≡ may_repeat rank }
{
    rank == 3 || rank == 7 || rank == 8 || rank == 9
}

fn rank(item: &Item) -> u8
    ensures { result ≡ spec.rank item.now }
{
    match item {
        Item::Declared(Declaration::Pond) => 1,
        Item::Declared(Declaration::Ring { .. }) => 2,
        Item::Declared(Declaration::Faulty { .. }) => 3,
        Item::Declared(Declaration::Block { .. }) => 4,
        Item::Declared(Declaration::Clients { .. }) => 6,
        Item::Declared(Declaration::Home { .. }) => 8,
        Item::Event(_) => 9,
    }
}

fn ring_in(item: &Item) -> Option<u8>
    ensures { result ≡ spec.ring_in item.now }
{
    match item {
        Item::Declared(Declaration::Ring { f }) => Some(*f),
        _ => None,
    }
}

fn block_in(item: &Item) -> Option<u32>
    ensures { result ≡ spec.block_in item.now }
{
    match item {
        Item::Declared(Declaration::Block { size }) => Some(*size),
        _ => None,
    }
}

fn clients_in(item: &Item) -> Option<u8>
    ensures { result ≡ spec.clients_in item.now }
{
    match item {
        Item::Declared(Declaration::Clients { count }) => Some(*count),
        _ => None,
    }
}

fn is_request(item: &Item) -> bool
    ensures { result ≡ spec.is_request item.now }
{
    matches!(
        item,
        Item::Event(
            Line::Submit { .. }
                | Line::Resubmit { .. }
                | Line::ForgeOrder { .. }
                | Line::ForgePrepare { .. }
                | Line::ForgeCommit { .. }
                | Line::ForgeHeart { .. }
                | Line::ForgeRaw { .. }
        )
    )
}

fn is_event(item: &Item) -> bool
    ensures { result ≡ spec.is_event item.now }
{
    matches!(item, Item::Event(_))
}
