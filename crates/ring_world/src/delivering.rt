// Deliveries.
ghost use Rattle.std.specs.Prelude.{◌≡◌, ◌+◌, List, ◌++◌, map, min, slice_get, OnOk, IfOk, is_some, Some};
ghost use Rattle.std.specs.List.{AllByRecursion};
ghost use Rattle.block_names.specs.Growth.{Keeps};
ghost use Rattle.ring_model.specs.Messages.{Packet, Member as member};
ghost use Rattle.ring_model.specs.World.{between, IsParty, came};
ghost use Rattle.message_model.specs.Meaning.{who};
ghost use Rattle.ring_model.specs.Seats.{IsSeat};
ghost use Rattle.ring_model.specs.Places.{Place, delivery};
ghost use Rattle.ring_mail.specs.Places.{place_of, packet_of};
ghost use Rattle.ring_mail.specs.Mails.{IsMail};
ghost use Rattle.ring_mail.specs.Skips.{skips as mail_skips};
ghost use Rattle.client_core.specs.Naming.{Names};
ghost use Rattle.message_model.specs.Naming.{named_of};
ghost use Rattle.ring_world.specs.Deliveries.{packet_from};
ghost use Rattle.ring_world.specs.Skipping.{skips};
ghost use Rattle.ring_world.specs.Worlds.{IsWorld, IsKnown, ForWorld};

use crate::members::MOST_MEMBERS;
use crate::state::World;
use block_names::{Book, Hash160, NameFault};
use bytes::Bytes;
use pond_base::{MemberId, OutOfMemory, Party};
use ring_mail::{Mail, Note};
use ring_message::Out;
use ring_node::Node;

// Sends a party's messages.
pub(crate) fn post(mail: &mut Mail, from: Party, out: &[Out]) -> Result<(), OutOfMemory>
    requires seat { IsSeat (who from) }
    requires seats { AllByRecursion (λ o. IsSeat (who o.to)) out.now }
    ensures mail { OnOk result ((sent : List Packet) (done : List Place) → IsMail mail.old sent done → IsMail mail.new (sent ++ map (packet_from (who from)) out.now) done) }
    ensures skips { mail_skips mail.new ≡ mail_skips mail.old }
{
    for one in out {
        mail.push(from, one.to, one.bytes.clone()?)?;
    }
    Ok(())
}

// A message, with its place counted from 1.
pub(crate) fn told(note: Note) -> (Party, Party, u32)
    ensures { result ≡ (note.from, note.to, min (note.place + 1) 4294967295) }
{
    (note.from, note.to, note.place.saturating_add(1))
}

impl<N: Node> World<N> {
    // Delivers the message at a place, and answers whether there is one.
    pub(crate) fn deliver<H: Hash160 + Drop>(
        &mut self,
        book: &mut Book<H>,
        note: Note,
    ) -> Result<bool, NameFault>
        requires { IsKnown N.knows H.naming book.old.held self.old }
        ensures going { self.new.ended ≡ self.old.ended }
        ensures skips { skips self.new ≡ skips self.old }
        ensures known { OnOk result (IsKnown N.knows H.naming book.new.held self.new) }
        ensures keeps { Keeps book.old.held book.new.held }
        ensures there { IfOk result (λ there. ForWorld N.stands H.naming self.old (λ g v done. IsParty g (who note.from) → IsParty g (who note.to)
            → there ≡ is_some (slice_get (between (who note.from) (who note.to) v.sent) note.place))) }
        ensures ok { OnOk result (ForWorld N.stands H.naming self.old (λ g v done. IsParty g (who note.from) → IsParty g (who note.to)
            → IsWorld N.stands g self.new (came g v (slice_get (between (who note.from) (who note.to) v.sent) note.place)) (done ++ delivery v.sent (place_of note)))) }
        ensures names { ForWorld N.stands H.naming self.old (λ g v done. IsParty g (who note.from) → IsParty g (who note.to)
            → Names H.naming (named_of g v (slice_get (between (who note.from) (who note.to) v.sent) note.place)) book.old.held book.new.held result) }
    {
        let found = self.mail.deliver(note.from, note.to, note.place)?;
        match found {
            Some(bytes) => {
                self.recent.push_back(told(note));
                self.receive(book, note.from, note.to, &bytes)?;
                Ok(true)
            }
            None => Ok(false),
        }
    }

    // Hands bytes to a party.
    fn receive<H: Hash160 + Drop>(
        &mut self,
        book: &mut Book<H>,
        from: Party,
        to: Party,
        bytes: &Bytes,
    ) -> Result<(), NameFault>
        requires { IsKnown N.knows H.naming book.old.held self.old }
        ensures going { self.new.ended ≡ self.old.ended }
        ensures skips { skips self.new ≡ skips self.old }
        ensures known { OnOk result (IsKnown N.knows H.naming book.new.held self.new) }
        ensures keeps { Keeps book.old.held book.new.held }
        ensures ok { OnOk result (ForWorld N.stands H.naming self.old (λ g v done. IsParty g (who from) → IsParty g (who to)
            → IsWorld N.stands g self.new (came g v (Some (packet_of (who from) (who to) bytes.now))) done)) }
        ensures names { ForWorld N.stands H.naming self.old (λ g v done. IsParty g (who from) → IsParty g (who to)
            → Names H.naming (named_of g v (Some (packet_of (who from) (who to) bytes.now))) book.old.held book.new.held result) }
    {
        match to {
            Party::Member(i) => {
                self.hand(book, from, i, bytes)?;
                Ok(())
            }
            Party::Client(c) => {
                self.tell(c, from, bytes)?;
                Ok(())
            }
        }
    }

    // Hands bytes to a member, and sends what it answers.
    fn hand<H: Hash160 + Drop>(
        &mut self,
        book: &mut Book<H>,
        from: Party,
        to: MemberId,
        bytes: &Bytes,
    ) -> Result<(), NameFault>
        requires { IsKnown N.knows H.naming book.old.held self.old }
        ensures going { self.new.ended ≡ self.old.ended }
        ensures skips { skips self.new ≡ skips self.old }
        ensures known { OnOk result (IsKnown N.knows H.naming book.new.held self.new) }
        ensures keeps { Keeps book.old.held book.new.held }
        ensures ok { OnOk result (ForWorld N.stands H.naming self.old (λ g v done. IsParty g (who from) → IsParty g (member to.0)
            → IsWorld N.stands g self.new (came g v (Some (packet_of (who from) (member to.0) bytes.now))) done)) }
        ensures names { ForWorld N.stands H.naming self.old (λ g v done. IsParty g (who from) → IsParty g (member to.0)
            → Names H.naming (named_of g v (Some (packet_of (who from) (member to.0) bytes.now))) book.old.held book.new.held result) }
    {
        if to.0 >= MOST_MEMBERS {
            return Ok(());
        }
        let out = self.members.take(self.alloc, book, to, from, bytes)?;
        post(&mut self.mail, Party::Member(to), &out)?;
        Ok(())
    }
}
