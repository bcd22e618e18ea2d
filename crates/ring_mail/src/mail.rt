// The messages by their links, and the order in which they were sent.
ghost use Rattle.std.specs.Prelude.{◌≡◌, ◌<◌, true, take, List, [], ◌∷◌, ◌++◌, length, slice_get, option_map, OnOk, IfOk, cond, false, ℕ, ◌==◌, ◌&&◌, ◌||◌, not, find};
ghost use Rattle.std.specs.List.{AllByRecursion};
ghost use Rattle.ring_model.specs.Messages.{Packet, Party as Who, same_party as same};
ghost use Rattle.ring_model.specs.World.{between};
ghost use Rattle.message_model.specs.Meaning.{who};
ghost use Rattle.ring_model.specs.Seats.{IsSeat};
ghost use Rattle.ring_model.specs.Places.{Place, places, is_done, is_due, delivery, same_place};
ghost use Rattle.ring_mail.specs.Places.{place_of, packet_of};
ghost use Rattle.ring_mail.specs.Mails.{IsMail, AreKept};
ghost use Rattle.ring_mail.specs.Queues.{IsQueue, has, waits};
ghost use Rattle.ring_mail.specs.Skips.{skips, is_skipped};

use crate::kept::{Kept, Mail, Note, Queue};
use crate::link::{is_marked, number_at, take_out};
use crate::party::{LINKS, link, same_party, seat};
use crate::queue::empty_sets;
use bytes::Bytes;
use pond_base::{OutOfMemory, Party};
use std::alloc::Global;

impl Mail {
    /// The mail before any message.
    pub fn new(alloc: Global) -> Result<Mail, OutOfMemory>
        ensures mail { IfOk result (λ mail. IsMail mail [] []) }
        ensures unmuted { IfOk result (λ mail. (party : Who) → (skips mail).muted party ≡ false) }
        ensures none_lost { IfOk result (λ mail. (place : Place) → (skips mail).lost place ≡ false) }
    {
        let mut links = Vec::new(alloc);
        for _ in 0..LINKS {
            links.push(Vec::new(alloc))?;
        }
        Ok(Mail {
            links,
            order: Vec::new(alloc),
            front: 0,
            lost: empty_sets(alloc)?,
            queue: Queue::new(alloc)?,
        })
    }

    /// How many messages were sent. Takes no memory.
    pub fn count(&self) -> u32
        ensures { (sent : List Packet) (done : List Place) → IsMail self.now sent done → result ≡ length sent }
    {
        self.order.len() as u32
    }

    /// The first message, in the order of sending, that was never delivered and is not passed over. Takes
    /// no memory, and one step.
    pub fn next(&self) -> Option<Note>
        ensures { (sent : List Packet) (done : List Place) → IsMail self.now sent done → option_map place_of result ≡ find (is_due (is_skipped (skips self.now)) done) (places sent) }
    {
        match self.queue.first() {
            Some(number) => self.note_at(number),
            None => None,
        }
    }

    // Where the message of this number in the order of sending, counted from 0, stands.
    fn note_at(&self, number: usize) -> Option<Note>
        ensures { (sent : List Packet) (done : List Place) → IsMail self.now sent done → option_map place_of result ≡ slice_get (places sent) number }
    {
        self.order.get(number).copied()
    }

    /// Whether the message at this place was delivered. Takes no memory.
    pub fn is_delivered(&self, note: Note) -> bool
        ensures { (sent : List Packet) (done : List Place) → IsMail self.now sent done → IsSeat (who note.from) → IsSeat (who note.to) → result ≡ is_done done (place_of note) }
    {
        match self.links.get(link(note.from, note.to)) {
            Some(kept) => is_marked(kept, note.place as usize),
            None => false,
        }
    }

    /// The first message, in the order of sending, that was never delivered. Takes no memory.
    pub fn pending(&self) -> Option<Note>
        ensures { (sent : List Packet) (done : List Place) → IsMail self.now sent done → option_map place_of result ≡ find (λ place. not (is_done done place)) (places sent) }
    {
        for number in self.front..self.order.len() {
            let note = self.order[number];
            if !self.is_delivered(note) {
                return Some(note);
            }
        }
        None
    }

    /// Adds a message that was sent. There is room for 4,294,967,295 messages; a further one answers
    /// that memory ran out.
    pub fn push(&mut self, from: Party, to: Party, bytes: Bytes) -> Result<(), OutOfMemory>
        requires { IsSeat (who from) × IsSeat (who to) }
        ensures mail { OnOk result ((sent : List Packet) (done : List Place) → IsMail self.old sent done → IsMail self.new (sent ++ packet_of (who from) (who to) bytes ∷ []) done) }
        ensures skips { skips self.new ≡ skips self.old }
    {
        let (place, number) = self.keep(from, to, bytes)?;
        self.wait(link(from, to), place, number)?;
        Ok(())
    }

    // Keeps a message in its link and in the order of sending, and answers its place and its number.
    fn keep(&mut self, from: Party, to: Party, bytes: Bytes) -> Result<(u32, u32), OutOfMemory>
        requires { IsSeat (who from) × IsSeat (who to) }
        ensures kept { OnOk result ((sent : List Packet) (done : List Place) → IsMail self.old sent done → AreKept self.new.links.items self.new.order.items self.new.front (sent ++ packet_of (who from) (who to) bytes ∷ []) done) }
        ensures place { IfOk result (λ it. (sent : List Packet) (done : List Place) → IsMail self.old sent done → it.0 ≡ length (between (who from) (who to) sent)) }
        ensures number { IfOk result (λ it. (sent : List Packet) (done : List Place) → IsMail self.old sent done → it.1 ≡ length sent) }
        ensures lost { self.new.lost ≡ self.old.lost }
        ensures queue { self.new.queue ≡ self.old.queue }
    {
        let link = link(from, to);
        let Ok(place) = u32::try_from(self.links[link].len()) else {
            return Err(OutOfMemory);
        };
        if self.order.len() >= 4294967295 {
            return Err(OutOfMemory);
        }
        let number = self.order.len() as u32;
        self.links[link].push(Kept {
            bytes,
            number,
            delivered: false,
        })?;
        self.order.push(Note { from, to, place })?;
        Ok((place, number))
    }

    // The message of this number waits on its link, unless it was lost before.
    fn wait(&mut self, link: usize, place: u32, number: u32) -> Result<(), OutOfMemory>
        requires { link < 676 }
        ensures waits { OnOk result ((l n : ℕ) → waits self.new.queue.waiting.items l n ≡ (waits self.old.queue.waiting.items l n || (not (has (slice_get self.old.lost.items link) place) && (l == link && n == number)))) }
        ensures heads { OnOk result (IsQueue self.old.queue → IsQueue self.new.queue) }
        ensures muted { self.new.queue.muted ≡ self.old.queue.muted }
        ensures links { self.new.links ≡ self.old.links }
        ensures order { self.new.order ≡ self.old.order }
        ensures front { self.new.front ≡ self.old.front }
        ensures lost { self.new.lost ≡ self.old.lost }
    {
        if self.lost[link].contains(&place) {
            return Ok(());
        }
        self.queue.add(link, number)?;
        Ok(())
    }

    /// Gives the bytes of the message at this place of the link, and marks it as delivered. `None`
    /// exactly where no such message was sent.
    pub fn deliver(
        &mut self,
        from: Party,
        to: Party,
        place: u32,
    ) -> Result<Option<Bytes>, OutOfMemory>
        ensures value { IfOk result (λ found. (sent : List Packet) (done : List Place) → IsSeat (who from) → IsSeat (who to) → IsMail self.old sent done → option_map (packet_of (who from) (who to)) found ≡ slice_get (between (who from) (who to) sent) place) }
        ensures ok { OnOk result ((sent : List Packet) (done : List Place) → IsSeat (who from) → IsSeat (who to) → IsMail self.old sent done → IsMail self.new sent (done ++ delivery sent (record { from = who from; to = who to; place = place }))) }
        ensures skips { skips self.new ≡ skips self.old }
    {
        let link = link(from, to);
        if link >= self.links.len() {
            return Ok(None);
        }
        let number = number_at(&self.links[link], place as usize);
        let found = take_out(&mut self.links[link], place as usize)?;
        self.queue.pass(link, number)?;
        self.advance();
        Ok(found)
    }

    /// The message at this place of the link is lost, if it was sent or once it is.
    pub fn lose(&mut self, from: Party, to: Party, place: u32) -> Result<(), OutOfMemory>
        requires { IsSeat (who from) × IsSeat (who to) }
        ensures mail { OnOk result ((sent : List Packet) (done : List Place) → IsMail self.old sent done → IsMail self.new sent done) }
        ensures lost { OnOk result ((a : Place) → (skips self.new).lost a ≡ ((skips self.old).lost a || same_place (record { from = who from; to = who to; place = place }) a)) }
        ensures muted { (skips self.new).muted ≡ (skips self.old).muted }
    {
        let link = link(from, to);
        self.lost[link].insert(place)?;
        let number = number_at(&self.links[link], place as usize);
        self.queue.pass(link, number)?;
        Ok(())
    }

    /// Mutes a party, or does so no more.
    pub fn set_muted(&mut self, party: Party, muted: bool) -> Result<(), OutOfMemory>
        requires { IsSeat (who party) }
        ensures mail { OnOk result ((sent : List Packet) (done : List Place) → IsMail self.old sent done → IsMail self.new sent done) }
        ensures muted { (p : Who) → (skips self.new).muted p ≡ cond (same (who party) p) muted ((skips self.old).muted p) }
        ensures lost { (skips self.new).lost ≡ (skips self.old).lost }
    {
        self.queue.set_muted(seat(party), muted)?;
        Ok(())
    }

    // Passes over the first messages that were delivered.
    fn advance(&mut self)
        ensures mail { (sent : List Packet) (done : List Place) → IsMail self.old sent done → IsMail self.new sent done }
        ensures lost { self.new.lost ≡ self.old.lost }
        ensures queue { self.new.queue ≡ self.old.queue }
    {
        while self.front < self.order.len() && self.is_delivered(self.order[self.front]) {
            self.front += 1;
        }
    }
}

/// Whether these are one place. Takes no memory.
pub fn same_note(one: Note, other: Note) -> bool
    ensures { result ≡ same_place (place_of one) (place_of other) }
{
    same_party(one.from, other.from) && same_party(one.to, other.to) && one.place == other.place
}
