// The events of a world, and its end.
ghost use Rattle.std.specs.Prelude.{◌≡◌, ℕ, List, ◌∷◌, [], length, Contains, OnOk, IfOk, IfErr, true, false, Result};
ghost use Rattle.block_names.specs.Growth.{keep_all, Grew, Keeps};
ghost use Rattle.block_names.specs.Clashes.{AreHeld, NoneClash};
ghost use Rattle.block_names.specs.Faults.{step_fault};
ghost use Rattle.ring_model.specs.Messages.{FewFaulty, Packet};
ghost use Rattle.ring_model.specs.World.{world, chosen};
ghost use Rattle.ring_model.specs.Laws.{IsPrefix, NoClash};
ghost use Rattle.client_core.specs.Naming.{Names};
ghost use Rattle.ring_world.specs.Skipping.{skips};
ghost use Rattle.ring_world.specs.Steps.{IsStep, IsStepClash, IsStepClashAmong, Ends, is_there, said_by, said_of};
ghost use Rattle.ring_world.specs.Worlds.{WorldStands, IsKnown, ForStep, event_of, strings_of};

use crate::event::Event;
use crate::said::Said;
use crate::state::World;
use block_names::{Book, Hash160, NameFault, StepFault};
use ring_mail::Note;
use ring_model::grows;
use ring_node::Node;
use std::thread::Threads;

impl<N: Node> World<N> {
    // Does the event, and answers whether there was something to do.
    fn happen<H: Hash160 + Drop>(
        &mut self,
        book: &mut Book<H>,
        event: Event,
    ) -> Result<bool, NameFault>
        requires step { IsStep self.old event }
        requires known { IsKnown N.knows H.naming book.old.held self.old }
        ensures going { self.new.ended ≡ self.old.ended }
        ensures skips { skips self.new ≡ skips self.old }
        ensures known { OnOk result (IsKnown N.knows H.naming book.new.held self.new) }
        ensures keeps { Keeps book.old.held book.new.held }
        ensures there { IfOk result (λ there. ForStep N.stands H.naming self.old event (λ g events. there ≡ is_there (world g events) (event_of g (world g events) event))) }
        ensures stands { OnOk result (ForStep N.stands H.naming self.old event (λ g events. WorldStands N.stands g self.new (event_of g (world g events) event ∷ events))) }
        ensures names { ForStep N.stands H.naming self.old event (λ g events. Names H.naming (strings_of g (world g events) event) book.old.held book.new.held result) }
    {
        match event {
            Event::Submit {
                client,
                label,
                update,
            } => {
                self.submit(book, client, label, update)?;
                Ok(true)
            }
            Event::Resubmit { client, number } => {
                self.resubmit(client, number)?;
                Ok(true)
            }
            Event::Deliver { from, to, place } => {
                if place == 0 {
                    return Ok(false);
                }
                let note = Note {
                    from,
                    to,
                    place: place - 1,
                };
                let there = self.deliver(book, note)?;
                Ok(there)
            }
            Event::Forge { member, to, bytes } => {
                self.forge(member, to, bytes)?;
                Ok(true)
            }
        }
    }

    /// Does the next event. The caller keeps the list of events legal: a forger is faulty, and no more
    /// requests are submitted than there are slots, as [`World::may`] tells. `Ended` is answered exactly
    /// where an earlier call answered another fault, and then nothing changes; after any other fault the
    /// world has ended. `Clash` is answered only where two different strings of one name are among those
    /// that the book held and those that the event names, and where two are, `Ok` is not. The threads that
    /// a runtime may start are not used yet.
    pub fn step<R: Threads, H: Hash160 + Drop>(
        &mut self,
        _rt: &R,
        book: &mut Book<H>,
        event: Event,
    ) -> Result<Said, StepFault>
        requires step { IsStep self.old event }
        requires known { self.old.ended ≡ false → IsKnown N.knows H.naming book.old.held self.old }
        ensures stands { OnOk result (ForStep N.stands H.naming self.old event (λ g events. WorldStands N.stands g self.new (event_of g (world g events) event ∷ events))) }
        ensures said { IfOk result (λ said. ForStep N.stands H.naming self.old event (λ g events. said ≡ said_of g (world g events) (event_of g (world g events) event))) }
        ensures grows { OnOk result (ForStep N.stands H.naming self.old event (λ g events. FewFaulty g → NoClash g (world g (event_of g (world g events) event ∷ events)).submits
            → IsPrefix (chosen g (world g events)) (chosen g (world g (event_of g (world g events) event ∷ events))))) }
        ensures ends { Ends self.old self.new result }
        ensures known { OnOk result (IsKnown N.knows H.naming book.new.held self.new) }
        ensures skips { skips self.new ≡ skips self.old }
        ensures keeps { Keeps book.old.held book.new.held }
        ensures spent { self.old.ended ≡ true → book.new ≡ book.old }
        ensures held { OnOk result (ForStep N.stands H.naming self.old event (λ g events. book.new.held ≡ keep_all H.naming (strings_of g (world g events) event) book.old.held)) }
        ensures all { OnOk result (ForStep N.stands H.naming self.old event (λ g events. AreHeld H.naming book.new.held (strings_of g (world g events) event))) }
        ensures apart { OnOk result (ForStep N.stands H.naming self.old event (λ g events. NoneClash H.naming book.old.held (Contains (strings_of g (world g events) event)))) }
        ensures grew { ForStep N.stands H.naming self.old event (λ g events. Grew H.naming book.old.held (Contains (strings_of g (world g events) event)) book.new.held) }
        ensures fault { IfErr result (λ fault. ForStep N.stands H.naming self.old event (λ g events. IsStepClash H.naming book.new.held (Contains (strings_of g (world g events) event)) fault)) }
        ensures clash { IfErr result (λ fault. ForStep N.stands H.naming self.old event (λ g events. IsStepClashAmong H.naming book.old.held (Contains (strings_of g (world g events) event)) fault)) }
    {
        grows();
        if self.ended {
            return Err(StepFault::Ended);
        }
        let before = self.mail.count();
        match self.happen(book, event) {
            Ok(there) => Ok(tell(there, before, self.mail.count())),
            Err(fault) => Err(self.end(fault)),
        }
    }

    // Ends the world at a fault.
    pub(crate) fn end(&mut self, fault: NameFault) -> StepFault
        ensures ended { self.new.ended ≡ true }
        ensures mail { self.new.mail ≡ self.old.mail }
        ensures fault { result ≡ step_fault fault }
    {
        self.ended = true;
        StepFault::from(fault)
    }
}

fn tell(there: bool, before: u32, after: u32) -> Said
    ensures { (xs ys : List Packet) → before ≡ length xs → after ≡ length ys → result ≡ said_by there xs ys }
{
    if there {
        Said::Sent(after.saturating_sub(before))
    } else {
        Said::Nothing
    }
}
