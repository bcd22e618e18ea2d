// The requests that a client sends.
ghost use Rattle.std.specs.Prelude.{◌≡◌, ◌<◌, ◌≤◌, ℕ, ◌+◌, ◌-◌, List, [], ◌∷◌, ◌++◌, length, slice_get, Some, map, IsTrue, OnOk, OnErr, IfOk};
ghost use Rattle.guarded_update.specs.Fitting.{IsRequest, update_fits};
ghost use Rattle.guarded_update.specs.Spelling.{request_string};
ghost use Rattle.tree_format.specs.Strings.{label_string};
ghost use Rattle.block_names.specs.Growth.{Holds};
ghost use Rattle.ring_model.specs.Messages.{Ring, Letter, to_members, Client as client, Request as ARequest};
ghost use Rattle.ring_model.specs.World.{asking};
ghost use Rattle.message_model.specs.Reading.{IsRingOf};
ghost use Rattle.client_core.specs.Naming.{Names};
ghost use Rattle.message_model.specs.Members.{AreToMembers};
ghost use Rattle.client_core.specs.Sending.{sent};
ghost use Rattle.client_core.specs.Clients.{ClientStands, next_request, texts_of};

use crate::Client;
use crate::asking::{Asked, message_of, name_request, to_each};
use block_names::{Book, Hash160, NameFault};
use guarded_update::{Request, Update};
use pond_base::limits::MOST_SLOTS;
use pond_base::{Label, OutOfMemory};
use ring_message::Out;

impl Client {
    /// Submits the next request: names its label's string and then its own in the book, keeps it, and
    /// answers its message to each member, rising. An error is a clash of names in the book or a want of
    /// memory; the client is then as before.
    pub fn submit<H: Hash160 + Drop>(
        &mut self,
        book: &mut Book<H>,
        label: Label,
        update: Update,
    ) -> Result<Vec<Out>, NameFault>
        requires fits { IsTrue (update_fits update) }
        requires few { length self.old.requests.items < MOST_SLOTS }
        ensures stands { OnOk result ((g : Ring) (c : ℕ) (submits : List (List ℕ)) (got : List Letter) → ClientStands self.old g c submits got
            → ClientStands self.new g c (submits ++ request_string (next_request self.old label update) ∷ []) got) }
        ensures texts { OnOk result (texts_of self.new ≡ texts_of self.old ++ request_string (next_request self.old label update) ∷ []) }
        ensures allowed { OnOk result (IsRequest (next_request self.old label update)) }
        ensures sent { IfOk result (λ outs. (g : Ring) (c : ℕ) (submits : List (List ℕ)) (got : List Letter) → IsRingOf H.naming g → ClientStands self.old g c submits got
            → map (sent c) outs.items ≡ asking g (Some (request_string (next_request self.old label update)))) }
        ensures seats { IfOk result (λ outs. AreToMembers outs.items) }
        ensures names { Names H.naming (label_string label ∷ request_string (next_request self.old label update) ∷ []) book.old.held book.new.held result }
        ensures holds { OnOk result (Holds H.naming book.new.held (request_string (next_request self.old label update))) }
        ensures err { OnErr result ((g : Ring) (c : ℕ) (submits : List (List ℕ)) (got : List Letter) → ClientStands self.old g c submits got → ClientStands self.new g c submits got) }
    {
        let request = Request {
            client: self.id,
            number: self.requests.len() as u32 + 1,
            label,
            update,
        };
        let text = name_request(self.alloc, book, &request)?;
        let message = message_of(self.alloc, &text)?;
        let outs = to_each(self.alloc, 3 * self.f + 1, &message)?;
        self.requests.push(Asked { text, message })?;
        Ok(outs)
    }

    /// The messages of the request of this number once more.
    pub fn resubmit(&self, number: u32) -> Result<Vec<Out>, OutOfMemory>
        requires { (1 ≤ number) × (number ≤ length self.now.requests.items) }
        ensures sent { IfOk result (λ outs. (g : Ring) (c : ℕ) (submits : List (List ℕ)) (got : List Letter) (text : List ℕ) → ClientStands self.now g c submits got
            → slice_get submits (number - 1) ≡ Some text → map (sent c) outs.items ≡ to_members g (client c) (ARequest text)) }
        ensures seats { IfOk result (λ outs. AreToMembers outs.items) }
    {
        let asked = &self.requests[number as usize - 1];
        to_each(self.alloc, 3 * self.f + 1, &asked.message)
    }
}
