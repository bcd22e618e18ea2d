// Requests from their clients.
ghost use Rattle.std.specs.Prelude.{◌≡◌, ◌<◌, ◌≤◌, ◌++◌, ◌∷◌, List, ℕ, map, flat_map, IfOk, OnOk};
ghost use Rattle.std.specs.List.{AllByRecursion};
ghost use Rattle.std.specs.BTreeMap.{keys, IsOrdered};
ghost use Rattle.std.specs.Ordering.{nat_cmp};
ghost use Rattle.ring_message.specs.Grammar.{MessageFits};
ghost use Rattle.ring_model.specs.Messages.{Ring, Letter};
ghost use Rattle.message_model.specs.Meaning.{said};
ghost use Rattle.ring_member.specs.Views.{view_of, is_order, IsWhole};
ghost use Rattle.ring_member.specs.Standing.{Stands, request_of};
ghost use Rattle.ring_member.specs.Told.{votes_told, prepare_heard, commit_heard};

use crate::progress::{Progress, Slots};
use bytes::Bytes;
use pond_base::{Name, OutOfMemory, Seq};
use quorum::Phase;
use ring_message::Message;
use std::alloc::Global;

// The slots that are kept, rising.
fn kept_seqs(alloc: Global, slots: &Slots) -> Result<Vec<u32>, OutOfMemory>
    ensures seqs { IfOk result (λ seqs. seqs.items ≡ keys slots.now) }
    ensures rising { IsOrdered nat_cmp slots.now }
{
    Ok(slots.keys().copied().collect(alloc)?)
}

impl Progress {
    /// Takes a request from its client, with its name, and answers what is owed for it.
    pub fn take_request(
        &mut self,
        alloc: Global,
        request: Bytes,
        name: Name,
    ) -> Result<Vec<Message>, OutOfMemory>
        requires whole { IsWhole self.old }
        ensures whole { IsWhole self.new }
        ensures stands { OnOk result ((g : Ring) (got : List Letter) → name ≡ g.h request → g.owner request < g.clients → Stands g self.old.f (view_of self.old) got
            → Stands g self.new.f (view_of self.new) (request_of g request ∷ got)) }
        ensures told { IfOk result (λ told. (g : Ring) (got : List Letter) → name ≡ g.h request → g.owner request < g.clients → Stands g self.old.f (view_of self.old) got
            → map said told.items ≡ votes_told g got (request_of g request ∷ got)) }
        ensures fits { IfOk result (λ told. AllByRecursion MessageFits told.items) }
    {
        let mut told = Vec::new(alloc);
        if self.names.contains_key(&request) {
            return Ok(told);
        }
        let seqs = kept_seqs(alloc, &self.slots)?;
        self.hear(request.clone()?, name)?;
        let mut commits = Vec::new(alloc);
        self.endorse_all(&seqs, &request, name, &mut told, &mut commits)?;
        told.append(&mut commits)?;
        self.advance()?;
        Ok(told)
    }

    // Whether the first order of a slot is of this request.
    fn is_order(&self, seq: Seq, request: &Bytes) -> bool
        ensures { result ≡ is_order (view_of self.now) request.now seq.0 }
    {
        match self.slots.get(&seq.0) {
            Some(Some(proposal)) => proposal.as_slice() == request.as_slice(),
            _ => false,
        }
    }

    // Adds the Prepare and the Commit of a slot that is owed as this request came.
    fn endorse(
        &self,
        seq: Seq,
        request: &Bytes,
        name: Name,
        prepares: &mut Vec<Message>,
        commits: &mut Vec<Message>,
    ) -> Result<(), OutOfMemory>
        requires whole { IsWhole self.now }
        ensures prepares { OnOk result (map said prepares.new.items ≡ map said prepares.old.items ++ prepare_heard (view_of self.now) request.now name seq.0) }
        ensures commits { OnOk result (map said commits.new.items ≡ map said commits.old.items ++ commit_heard self.now.f (view_of self.now) request.now name seq.0) }
        ensures prepares_fit { OnOk result (AllByRecursion MessageFits prepares.old.items → AllByRecursion MessageFits prepares.new.items) }
        ensures commits_fit { OnOk result (AllByRecursion MessageFits commits.old.items → AllByRecursion MessageFits commits.new.items) }
    {
        if !self.is_order(seq, request) {
            return Ok(());
        }
        prepares.push(Message::Prepare { seq, name })?;
        if self.is_voted(Phase::Prepare, seq, name) {
            commits.push(Message::Commit { seq, name })?;
        }
        Ok(())
    }

    // The same for these slots, one after the other.
    fn endorse_all(
        &self,
        seqs: &[u32],
        request: &Bytes,
        name: Name,
        prepares: &mut Vec<Message>,
        commits: &mut Vec<Message>,
    ) -> Result<(), OutOfMemory>
        requires whole { IsWhole self.now }
        ensures prepares { OnOk result (map said prepares.new.items ≡ map said prepares.old.items ++ flat_map (prepare_heard (view_of self.now) request.now name) seqs.now) }
        ensures commits { OnOk result (map said commits.new.items ≡ map said commits.old.items ++ flat_map (commit_heard self.now.f (view_of self.now) request.now name) seqs.now) }
        ensures prepares_fit { OnOk result (AllByRecursion MessageFits prepares.old.items → AllByRecursion MessageFits prepares.new.items) }
        ensures commits_fit { OnOk result (AllByRecursion MessageFits commits.old.items → AllByRecursion MessageFits commits.new.items) }
    {
        for seq in seqs {
            self.endorse(Seq(*seq), request, name, prepares, commits)?;
        }
        Ok(())
    }
}
