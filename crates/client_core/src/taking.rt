// What a client is told.
ghost use Rattle.std.specs.Prelude.{◌≡◌, ℕ, ◌+◌, ◌*◌, ◌<◌, List, ◌∷◌, OnOk, OnErr};
ghost use Rattle.ring_model.specs.Messages.{Ring, Letter};
ghost use Rattle.ring_model.specs.Messages as model;
ghost use Rattle.ring_model.specs.World.{IsParty};
ghost use Rattle.message_model.specs.Meaning.{who, said, letter};
ghost use Rattle.client_core.specs.Clients.{ClientStands, texts_of};

use crate::entry::MOST_MEMBERS;
use crate::{Client, replies};
use bytes::Bytes;
use message_model::{messages_are_meant, others_are_foreign};
use pond_base::{MemberId, OutOfMemory, Party};
use ring_message::Message;

impl Client {
    /// Takes bytes from a party. A member's reply, heart or sealed version counts as its vote; other
    /// bytes, and those of clients, do nothing. After a want of memory the client is as before.
    pub fn take(&mut self, from: Party, bytes: &Bytes) -> Result<(), OutOfMemory>
        ensures stands { OnOk result ((g : Ring) (c : ℕ) (submits : List (List ℕ)) (got : List Letter) → IsParty g (who from) → ClientStands self.old g c submits got
            → ClientStands self.new g c submits (letter from bytes.now ∷ got)) }
        ensures texts { texts_of self.new ≡ texts_of self.old }
        ensures err { OnErr result ((g : Ring) (c : ℕ) (submits : List (List ℕ)) (got : List Letter) → ClientStands self.old g c submits got → ClientStands self.new g c submits got) }
    {
        messages_are_meant();
        others_are_foreign();
        let Party::Member(member) = from else {
            return Ok(());
        };
        match ring_message::read(self.alloc, bytes)? {
            Some(message) if member.0 < MOST_MEMBERS => self.hear(member, &message),
            _ => Ok(()),
        }
    }

    // Counts what a member tells. A want of memory changes nothing.
    fn hear(&mut self, member: MemberId, message: &Message) -> Result<(), OutOfMemory>
        requires { member.0 < MOST_MEMBERS }
        ensures stands { OnOk result ((g : Ring) (c : ℕ) (submits : List (List ℕ)) (got : List Letter) → member.0 < 3 * g.f + 1 → ClientStands self.old g c submits got
            → ClientStands self.new g c submits (record { from = model.Member member.0; message = said message.now } ∷ got)) }
        ensures texts { texts_of self.new ≡ texts_of self.old }
        ensures err { OnErr result ((g : Ring) (c : ℕ) (submits : List (List ℕ)) (got : List Letter) → ClientStands self.old g c submits got → ClientStands self.new g c submits got) }
    {
        match message {
            Message::Reply { number, outcome } => {
                replies::take(&mut self.replies, self.f, member, *number, outcome)
            }
            Message::Heart {
                object,
                version,
                name,
            } => self.hearts.take(member, *object, *version, *name),
            Message::Sealed {
                object,
                version,
                manifest,
            } => self.seals.take(member, *object, *version, *manifest),
            _ => Ok(()),
        }
    }
}
