// Delivering all that is pending.
ghost use Rattle.std.specs.Prelude.{◌≡◌, ℕ, List, ◌++◌, ◌<◌, ◌^◌, OnOk, IfOk, IfErr, Contains, true, false};
ghost use Rattle.block_names.specs.Growth.{keep_all, Grew, IsClashIn, Keeps};
ghost use Rattle.block_names.specs.Clashes.{AreHeld, NoneClash};
ghost use Rattle.ring_model.specs.Messages.{FewFaulty, Member as member};
ghost use Rattle.ring_model.specs.World.{world, chosen};
ghost use Rattle.ring_model.specs.Member.{executed};
ghost use Rattle.ring_model.specs.Laws.{IsCorrect, IsPrefix, NoClash, AllDelivered};
ghost use Rattle.message_model.specs.Reading.{IsRingOf};
ghost use Rattle.ring_mail.specs.Skips.{is_skipped};
ghost use Rattle.ring_world.specs.Skipping.{skips, PassNothing};
ghost use Rattle.ring_model.specs.Deliveries.{settled};
ghost use Rattle.message_model.specs.Naming.{named_along, IsNamedIn};
ghost use Rattle.ring_world.specs.Settles.{HoldsMore, Settles};
ghost use Rattle.ring_world.specs.Steps.{Ends, IsStepClash, IsStepClashAmong};
ghost use Rattle.ring_world.specs.Worlds.{IsKnown, ForEvents};

use crate::state::World;
use block_names::{Book, Hash160, NameFault, StepFault};
use ring_model::{all_executed, grows};
use ring_node::Node;
use std::thread::Threads;

impl<N: Node> World<N> {
    // Delivers, in the order of sending, each message that was never delivered and is not passed over.
    fn sweep<H: Hash160 + Drop>(&mut self, book: &mut Book<H>) -> Result<u32, NameFault>
        requires { IsKnown N.knows H.naming book.old.held self.old }
        ensures going { self.new.ended ≡ self.old.ended }
        ensures skips { skips self.new ≡ skips self.old }
        ensures known { OnOk result (IsKnown N.knows H.naming book.new.held self.new) }
        ensures keeps { Keeps book.old.held book.new.held }
        ensures fits { IfOk result (λ n. n < 2 ^ 32) }
        ensures ok { IfOk result (λ n. ForEvents N.stands H.naming self.old (λ g events. Settles N.stands g (is_skipped (skips self.old)) events self.new n)) }
        ensures more { IfOk result (λ n. ForEvents N.stands H.naming self.old (λ g events.
            HoldsMore H.naming g events (settled g (is_skipped (skips self.old)) events n) book.old.held book.new.held)) }
        ensures fault { IfErr result (λ fault. ForEvents N.stands H.naming self.old (λ g events.
            Grew H.naming book.old.held (IsNamedIn g (is_skipped (skips self.old)) events) book.new.held × IsClashIn H.naming book.new.held (IsNamedIn g (is_skipped (skips self.old)) events) fault)) }
    {
        for count in 0..u32::MAX {
            let Some(note) = self.mail.next() else {
                return Ok(count);
            };
            self.deliver(book, note)?;
        }
        Ok(u32::MAX)
    }

    /// Delivers, in the order of sending, each message that was never delivered and is not passed over,
    /// those too that are sent meanwhile, and answers how many. It costs what it delivers, however much is
    /// passed over. Faults are as in [`World::step`].
    pub fn settle<R: Threads, H: Hash160 + Drop>(
        &mut self,
        _rt: &R,
        book: &mut Book<H>,
    ) -> Result<u32, StepFault>
        requires { self.old.ended ≡ false → IsKnown N.knows H.naming book.old.held self.old }
        ensures settles { IfOk result (λ n. ForEvents N.stands H.naming self.old (λ g events. Settles N.stands g (is_skipped (skips self.old)) events self.new n)) }
        ensures delivered { IfOk result (λ n. PassNothing (skips self.old) → ForEvents N.stands H.naming self.old (λ g events.
            AllDelivered g (world g (settled g (is_skipped (skips self.old)) events n ++ events)))) }
        ensures executed { IfOk result (λ n. PassNothing (skips self.old) → ForEvents N.stands H.naming self.old (λ g events. FewFaulty g → g.is_faulty 0 ≡ false
            → (i : ℕ) → IsCorrect g i → (r : List ℕ) → Contains (world g (settled g (is_skipped (skips self.old)) events n ++ events)).submits r
            → Contains (executed g ((world g (settled g (is_skipped (skips self.old)) events n ++ events)).got (member i))) r)) }
        ensures grows { IfOk result (λ n. ForEvents N.stands H.naming self.old (λ g events. FewFaulty g → NoClash g (world g (settled g (is_skipped (skips self.old)) events n ++ events)).submits
            → IsPrefix (chosen g (world g events)) (chosen g (world g (settled g (is_skipped (skips self.old)) events n ++ events))))) }
        ensures ends { Ends self.old self.new result }
        ensures skips { skips self.new ≡ skips self.old }
        ensures known { OnOk result (IsKnown N.knows H.naming book.new.held self.new) }
        ensures keeps { Keeps book.old.held book.new.held }
        ensures spent { self.old.ended ≡ true → book.new ≡ book.old }
        ensures held { IfOk result (λ n. ForEvents N.stands H.naming self.old (λ g events.
            book.new.held ≡ keep_all H.naming (named_along g events (settled g (is_skipped (skips self.old)) events n)) book.old.held)) }
        ensures all { IfOk result (λ n. ForEvents N.stands H.naming self.old (λ g events.
            AreHeld H.naming book.new.held (named_along g events (settled g (is_skipped (skips self.old)) events n)))) }
        ensures apart { OnOk result (ForEvents N.stands H.naming self.old (λ g events. NoneClash H.naming book.old.held (IsNamedIn g (is_skipped (skips self.old)) events))) }
        ensures grew { ForEvents N.stands H.naming self.old (λ g events. Grew H.naming book.old.held (IsNamedIn g (is_skipped (skips self.old)) events) book.new.held) }
        ensures fault { IfErr result (λ fault. ForEvents N.stands H.naming self.old (λ g events. IsStepClash H.naming book.new.held (IsNamedIn g (is_skipped (skips self.old)) events) fault)) }
        ensures clash { IfErr result (λ fault. ForEvents N.stands H.naming self.old (λ g events. IsStepClashAmong H.naming book.old.held (IsNamedIn g (is_skipped (skips self.old)) events) fault)) }
    {
        all_executed();
        grows();
        if self.ended {
            return Err(StepFault::Ended);
        }
        match self.sweep(book) {
            Ok(count) => Ok(count),
            Err(fault) => Err(self.end(fault)),
        }
    }
}
