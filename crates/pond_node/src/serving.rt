// The execution of what the member of a node has executed.
ghost use Rattle.std.specs.Prelude.{◌≡◌, ◌≤◌, ◌<◌, ◌+◌, ◌-◌, ◌^◌, ◌++◌, ℕ, List, length, map, take, Contains, IfOk, IfErr, OnOk};
ghost use Rattle.std.specs.List.{flat_map};
ghost use Rattle.block_names.specs.Growth.{keep_all, Grew, IsClashIn, Keeps};
ghost use Rattle.block_names.specs.Clashes.{AreHeld};
ghost use Rattle.object_fold.specs.Executed.{AreKnown};
ghost use Rattle.ring_model.specs.Messages.{Ring, Letter};
ghost use Rattle.ring_model.specs.Member.{answers, executed};
ghost use Rattle.ring_model.specs.Laws.{IsPrefix};
ghost use Rattle.message_model.specs.Meaning.{packet};
ghost use Rattle.message_model.specs.Reading.{IsRingOf};
ghost use Rattle.pond_node.specs.Answers.{AreSeated, longer};
ghost use Rattle.pond_node.specs.Standing.{HasDone, IsKnown, AddsOne, ForNext, ForLater};

use crate::Node;
use crate::execution::execute;
use block_names::{Book, Hash160, NameFault};
use pond_base::Seq;
use ring_message::Out;

impl Node {
    /// Executes each slot that the member has executed and the node has not, and adds what is owed for
    /// it.
    pub(crate) fn execute_new<H: Hash160 + Drop>(
        &mut self,
        book: &mut Book<H>,
        out: &mut Vec<Out>,
    ) -> Result<(), NameFault>
        requires known { IsKnown H.naming book.old.held self.old }
        ensures done { OnOk result (ForLater H.naming self.old (λ g i got done. HasDone H.naming (executed g got) self.new g i got)) }
        ensures sent { OnOk result (ForLater H.naming self.old (λ g i got done. IsRingOf H.naming g
            → map (packet i) out.new.items ≡ map (packet i) out.old.items ++ flat_map (answers g i) (longer (length done) (executed g got)))) }
        ensures seats { OnOk result (AreSeated out.old.items → AreSeated out.new.items) }
        ensures known { OnOk result (IsKnown H.naming book.new.held self.new) }
        ensures archived { self.new.archived ≡ self.old.archived }
        ensures keeps { Keeps book.old.held book.new.held }
        ensures held { OnOk result (ForLater H.naming self.old (λ g i got done. book.new.held ≡ keep_all H.naming (flat_map g.namings (longer (length done) (executed g got))) book.old.held)) }
        ensures all { OnOk result (ForLater H.naming self.old (λ g i got done. AreHeld H.naming book.new.held (flat_map g.namings (longer (length done) (executed g got))))) }
        ensures grew { ForLater H.naming self.old (λ g i got done. Grew H.naming book.old.held (Contains (flat_map g.namings (longer (length done) (executed g got)))) book.new.held) }
        ensures fault { IfErr result (λ fault. ForLater H.naming self.old (λ g i got done. IsClashIn H.naming book.new.held (Contains (flat_map g.namings (longer (length done) (executed g got)))) fault)) }
    {
        let first = self.outcomes.len();
        let last = self.member.executed() as usize;
        for place in first..last {
            match self.execute_next(book, Seq(place as u32 + 1), out) {
                Ok(()) => (),
                Err(fault) => return Err(fault),
            }
        }
        Ok(())
    }

    // Executes the slot that comes next, and adds what is owed for it.
    fn execute_next<H: Hash160 + Drop>(
        &mut self,
        book: &mut Book<H>,
        seq: Seq,
        out: &mut Vec<Out>,
    ) -> Result<(), NameFault>
        requires known { AreKnown H.naming book.old.held self.old.objects }
        requires room { length self.old.objects.made + 1 < 2 ^ 32 }
        ensures done { OnOk result (ForNext H.naming seq.0 self.old (λ g i got. HasDone H.naming (take seq.0 (executed g got)) self.new g i got)) }
        ensures sent { OnOk result (ForNext H.naming seq.0 self.old (λ g i got. IsRingOf H.naming g
            → map (packet i) out.new.items ≡ map (packet i) out.old.items ++ answers g i (take seq.0 (executed g got)))) }
        ensures seats { OnOk result (AreSeated out.old.items → AreSeated out.new.items) }
        ensures known { OnOk result (AreKnown H.naming book.new.held self.new.objects) }
        ensures archived { self.new.archived ≡ self.old.archived }
        ensures one { OnOk result (AddsOne self.old.objects self.new.objects self.old.outcomes self.new.outcomes) }
        ensures keeps { Keeps book.old.held book.new.held }
        ensures held { OnOk result (ForNext H.naming seq.0 self.old (λ g i got. book.new.held ≡ keep_all H.naming (g.namings (take seq.0 (executed g got))) book.old.held)) }
        ensures all { OnOk result (ForNext H.naming seq.0 self.old (λ g i got. AreHeld H.naming book.new.held (g.namings (take seq.0 (executed g got))))) }
        ensures grew { ForNext H.naming seq.0 self.old (λ g i got. Grew H.naming book.old.held (Contains (g.namings (take seq.0 (executed g got)))) book.new.held) }
        ensures fault { IfErr result (λ fault. ForNext H.naming seq.0 self.old (λ g i got. IsClashIn H.naming book.new.held (Contains (g.namings (take seq.0 (executed g got)))) fault)) }
    {
        let Some(string) = self.member.request(seq) else {
            return Ok(());
        };
        match execute(
            self.alloc,
            book,
            self.clients,
            string,
            &mut self.objects,
            &mut self.outcomes,
            out,
        ) {
            Ok(()) => Ok(()),
            Err(fault) => Err(fault),
        }
    }
}
