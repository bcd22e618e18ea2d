// Orders and votes, one by one.
ghost use Rattle.std.specs.Prelude.{◌≡◌, ◌<◌, ◌≤◌, ◌+◌, ◌*◌, ◌++◌, ◌∷◌, List, ℕ, length, map, IfOk, OnOk};
ghost use Rattle.std.specs.List.{AllByRecursion};
ghost use Rattle.ring_message.specs.Grammar.{IsSlot, MessageFits};
ghost use Rattle.ring_model.specs.Messages.{Ring, Letter};
ghost use Rattle.ring_model.specs.Messages as model;
ghost use Rattle.message_model.specs.Meaning.{said};
ghost use Rattle.vote_model.specs.Joins.{letter};
ghost use Rattle.ring_member.specs.Views.{view_of, IsWhole};
ghost use Rattle.ring_member.specs.Standing.{Live, Ran, Stands, order};
ghost use Rattle.member_orders.specs.Told.{news_of};
ghost use Rattle.ring_member.specs.Told.{votes_told};

use crate::progress::Progress;
use bytes::Bytes;
use pond_base::limits::MOST_SLOTS;
use pond_base::{MemberId, Name, OutOfMemory, Seq};
use quorum::Phase;
use ring_message::Message;
use std::alloc::Global;

impl Progress {
    /// Executes the slots that follow and can be.
    pub fn advance(&mut self) -> Result<(), OutOfMemory>
        requires { IsWhole self.old }
        ensures whole { IsWhole self.new }
        ensures stands { OnOk result ((g : Ring) (got : List Letter) → Live g self.old.f (view_of self.old) got → Ran g (view_of self.old) got → Stands g self.new.f (view_of self.new) got) }
    {
        while self.done.len() < MOST_SLOTS as usize {
            if !self.execute_next()? {
                return Ok(());
            }
        }
        Ok(())
    }

    /// Takes a member's vote for a slot, and answers what is owed for it.
    pub fn take_vote(
        &mut self,
        alloc: Global,
        phase: Phase,
        sender: MemberId,
        seq: Seq,
        name: Name,
    ) -> Result<Vec<Message>, OutOfMemory>
        requires whole { IsWhole self.old }
        requires seat { sender.0 < 10 }
        requires slot { IsSlot seq.0 }
        ensures whole { IsWhole self.new }
        ensures stands { OnOk result ((g : Ring) (got : List Letter) → sender.0 < 3 * g.f + 1 → Stands g self.old.f (view_of self.old) got
            → Stands g self.new.f (view_of self.new) (letter phase sender.0 seq.0 name ∷ got)) }
        ensures told { IfOk result (λ told. (g : Ring) (got : List Letter) → sender.0 < 3 * g.f + 1 → Stands g self.old.f (view_of self.old) got
            → map said told.items ≡ votes_told g got (letter phase sender.0 seq.0 name ∷ got)) }
        ensures fits { IfOk result (λ told. AllByRecursion MessageFits told.items) }
    {
        let mut told = Vec::new(alloc);
        if seq.0 as usize <= self.done.len() {
            return Ok(told);
        }
        let before = self.prepared(seq);
        self.cast(phase, seq, sender, name)?;
        let after = self.prepared(seq);
        push_commit(&mut told, seq, before, after)?;
        self.advance()?;
        Ok(told)
    }

    /// Takes the primary's order of a request into a slot, and answers what is owed for it.
    pub fn take_order(
        &mut self,
        alloc: Global,
        seq: Seq,
        request: Bytes,
    ) -> Result<Vec<Message>, OutOfMemory>
        requires whole { IsWhole self.old }
        requires slot { IsSlot seq.0 }
        ensures whole { IsWhole self.new }
        ensures stands { OnOk result ((g : Ring) (got : List Letter) → Stands g self.old.f (view_of self.old) got → Stands g self.new.f (view_of self.new) (order seq.0 request ∷ got)) }
        ensures told { IfOk result (λ told. (g : Ring) (got : List Letter) → Stands g self.old.f (view_of self.old) got
            → map said told.items ≡ votes_told g got (order seq.0 request ∷ got)) }
        ensures fits { IfOk result (λ told. AllByRecursion MessageFits told.items) }
    {
        let mut told = Vec::new(alloc);
        if seq.0 as usize <= self.done.len() {
            return Ok(told);
        }
        let unendorsed = self.endorsed(seq);
        let unprepared = self.prepared(seq);
        self.propose(seq, request)?;
        let endorsed = self.endorsed(seq);
        let prepared = self.prepared(seq);
        push_prepare(&mut told, seq, unendorsed, endorsed)?;
        push_commit(&mut told, seq, unprepared, prepared)?;
        self.advance()?;
        Ok(told)
    }
}

// Adds the Prepare of a slot that is endorsed and was not before.
fn push_prepare(
    told: &mut Vec<Message>,
    seq: Seq,
    before: Option<Name>,
    after: Option<Name>,
) -> Result<(), OutOfMemory>
    requires slot { IsSlot seq.0 }
    ensures told { OnOk result (map said told.new.items ≡ map said told.old.items ++ news_of before after (model.Prepare seq.0)) }
    ensures fits { OnOk result (AllByRecursion MessageFits told.old.items → AllByRecursion MessageFits told.new.items) }
{
    if before.is_some() {
        return Ok(());
    }
    if let Some(name) = after {
        told.push(Message::Prepare { seq, name })?;
    }
    Ok(())
}

// Adds the Commit of a slot that is prepared and was not before.
fn push_commit(
    told: &mut Vec<Message>,
    seq: Seq,
    before: Option<Name>,
    after: Option<Name>,
) -> Result<(), OutOfMemory>
    requires slot { IsSlot seq.0 }
    ensures told { OnOk result (map said told.new.items ≡ map said told.old.items ++ news_of before after (model.Commit seq.0)) }
    ensures fits { OnOk result (AllByRecursion MessageFits told.old.items → AllByRecursion MessageFits told.new.items) }
{
    if before.is_some() {
        return Ok(());
    }
    if let Some(name) = after {
        told.push(Message::Commit { seq, name })?;
    }
    Ok(())
}
