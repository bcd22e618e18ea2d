// The messages that are due, by their links.
ghost use Rattle.std.specs.Prelude.{◌≡◌, ◌≤◌, ◌<◌, ◌%◌, ◌/◌, ◌&&◌, ◌||◌, ◌==◌, not, cond, ℕ, true, false, None, OnOk, IfOk, IfSome, IsTrue, length, slice_index_or, []};
ghost use Rattle.std.specs.List.{AllByRecursion};
ghost use Rattle.std.specs.BTreeSet.{contains};
ghost use Rattle.std.specs.Ordering.{nat_cmp};
ghost use Rattle.ring_mail.specs.Behind.{IsBehind};
ghost use Rattle.ring_mail.specs.Queues.{IsQueue, waits, is_quiet as quiet, is_lead, is_some_of};

use crate::kept::Queue;
use crate::party::{LINKS, SEATS};
use pond_base::OutOfMemory;
use std::alloc::Global;
use std::collections::BTreeSet;

impl Queue {
    // No message waits, and no seat is muted.
    pub(crate) fn new(alloc: Global) -> Result<Queue, OutOfMemory>
        ensures heads { IfOk result (λ queue. IsQueue queue) }
        ensures none { IfOk result (λ queue. (link number : ℕ) → waits queue.waiting.items link number ≡ false) }
        ensures unmuted { IfOk result (λ queue. (seat : ℕ) → slice_index_or queue.muted.items seat false ≡ false) }
    {
        let mut muted = Vec::new(alloc);
        for _ in 0..SEATS {
            muted.push(false)?;
        }
        Ok(Queue {
            waiting: empty_sets(alloc)?,
            heads: BTreeSet::new(alloc),
            muted,
        })
    }

    // The number of the first message that waits on a link which no muted seat touches.
    pub(crate) fn first(&self) -> Option<usize>
        ensures found { IfSome result (λ number. IsQueue self.now → (link : ℕ) × (link < 676) × (quiet self.now.muted.items link ≡ false) × (waits self.now.waiting.items link number ≡ true)) }
        ensures least { IfSome result (λ number. IsQueue self.now → (link other : ℕ) → link < 676 → quiet self.now.muted.items link ≡ false → waits self.now.waiting.items link other ≡ true → number ≤ other) }
        ensures none { result ≡ None → IsQueue self.now → (link other : ℕ) → link < 676 → quiet self.now.muted.items link ≡ false → waits self.now.waiting.items link other ≡ false }
    {
        match self.heads.first() {
            Some(head) => Some((*head / LINKS as u64) as usize),
            None => None,
        }
    }

    // The message of this number waits on the link.
    pub(crate) fn add(&mut self, link: usize, number: u32) -> Result<(), OutOfMemory>
        requires { link < 676 }
        ensures waits { OnOk result ((l n : ℕ) → waits self.new.waiting.items l n ≡ (waits self.old.waiting.items l n || (l == link && n == number))) }
        ensures heads { OnOk result (IsQueue self.old → IsQueue self.new) }
        ensures muted { self.new.muted ≡ self.old.muted }
    {
        if self.is_behind(link, number) {
            self.add_behind(link, number)
        } else {
            self.add_first(link, number)
        }
    }

    // The same of one that comes behind others, which leaves their first one where it is.
    fn add_behind(&mut self, link: usize, number: u32) -> Result<(), OutOfMemory>
        requires link { link < 676 }
        requires behind { IsBehind self.old.waiting.items link number }
        ensures waits { OnOk result ((l n : ℕ) → waits self.new.waiting.items l n ≡ (waits self.old.waiting.items l n || (l == link && n == number))) }
        ensures heads { OnOk result (IsQueue self.old → IsQueue self.new) }
        ensures muted { self.new.muted ≡ self.old.muted }
    {
        self.waiting[link].insert(number)?;
        Ok(())
    }

    // The same of one that may be the first of its link.
    fn add_first(&mut self, link: usize, number: u32) -> Result<(), OutOfMemory>
        requires { link < 676 }
        ensures waits { OnOk result ((l n : ℕ) → waits self.new.waiting.items l n ≡ (waits self.old.waiting.items l n || (l == link && n == number))) }
        ensures heads { OnOk result (IsQueue self.old → IsQueue self.new) }
        ensures muted { self.new.muted ≡ self.old.muted }
    {
        self.hide(link);
        self.waiting[link].insert(number)?;
        self.show(link)?;
        Ok(())
    }

    // The message of this number waits on the link no more.
    pub(crate) fn remove(&mut self, link: usize, number: u32) -> Result<(), OutOfMemory>
        requires { link < 676 }
        ensures waits { OnOk result ((l n : ℕ) → waits self.new.waiting.items l n ≡ (waits self.old.waiting.items l n && not (l == link && n == number))) }
        ensures heads { OnOk result (IsQueue self.old → IsQueue self.new) }
        ensures muted { self.new.muted ≡ self.old.muted }
    {
        self.hide(link);
        self.waiting[link].remove(&number);
        self.show(link)?;
        Ok(())
    }

    // The message of this number, if there is one, waits on the link no more.
    pub(crate) fn pass(&mut self, link: usize, number: Option<u32>) -> Result<(), OutOfMemory>
        requires { link < 676 }
        ensures waits { OnOk result ((l n : ℕ) → waits self.new.waiting.items l n ≡ (waits self.old.waiting.items l n && not (l == link && is_some_of number n))) }
        ensures heads { OnOk result (IsQueue self.old → IsQueue self.new) }
        ensures muted { self.new.muted ≡ self.old.muted }
    {
        match number {
            Some(number) => self.remove(link, number),
            None => Ok(()),
        }
    }

    // Mutes a seat, or does so no more.
    pub(crate) fn set_muted(&mut self, seat: usize, muted: bool) -> Result<(), OutOfMemory>
        requires { seat < 26 }
        ensures waiting { self.new.waiting ≡ self.old.waiting }
        ensures heads { OnOk result (IsQueue self.old → IsQueue self.new) }
        ensures muted { (s : ℕ) → slice_index_or self.new.muted.items s false ≡ cond (s == seat) muted (slice_index_or self.old.muted.items s false) }
    {
        self.muted[seat] = muted;
        for link in 0..LINKS {
            if link / SEATS == seat || link % SEATS == seat {
                self.show(link)?;
            }
        }
        Ok(())
    }

    // Takes the first message of a link out of the order.
    fn hide(&mut self, link: usize)
        requires { link < 676 }
        ensures waiting { self.new.waiting ≡ self.old.waiting }
        ensures muted { self.new.muted ≡ self.old.muted }
        ensures heads { (q : ℕ) → contains nat_cmp self.new.heads q ≡ cond (is_lead self.old.waiting.items link q) false (contains nat_cmp self.old.heads q) }
    {
        if let Some(first) = self.waiting[link].first() {
            let head = head_of(*first, link);
            self.heads.remove(&head);
        }
    }

    // Puts the first message of a link into the order, or takes it out where the link is muted.
    fn show(&mut self, link: usize) -> Result<(), OutOfMemory>
        requires { link < 676 }
        ensures waiting { self.new.waiting ≡ self.old.waiting }
        ensures muted { self.new.muted ≡ self.old.muted }
        ensures heads { OnOk result ((q : ℕ) → contains nat_cmp self.new.heads q ≡ cond (is_lead self.old.waiting.items link q) (not (quiet self.old.muted.items link)) (contains nat_cmp self.old.heads q)) }
    {
        if self.is_quiet(link) {
            self.hide(link);
            return Ok(());
        }
        if let Some(first) = self.waiting[link].first() {
            let head = head_of(*first, link);
            self.heads.insert(head)?;
        }
        Ok(())
    }

    // Whether a message of a lower number waits on the link.
    fn is_behind(&self, link: usize, number: u32) -> bool
        requires { link < 676 }
        ensures { IsTrue result → IsBehind self.now.waiting.items link number }
    {
        match self.waiting[link].first() {
            Some(first) => *first < number,
            None => false,
        }
    }

    // Whether the sender or the receiver of a link is muted.
    fn is_quiet(&self, link: usize) -> bool
        requires { link < 676 }
        ensures { result ≡ quiet self.now.muted.items link }
    {
        self.muted[link / SEATS] || self.muted[link % SEATS]
    }
}

// A message's number and its link, in one number.
fn head_of(number: u32, link: usize) -> u64
    requires { link < 676 }
    ensures number { result / 676 ≡ number }
    ensures link { result % 676 ≡ link }
{
    number as u64 * LINKS as u64 + link as u64
}

// An empty set for each link.
pub(crate) fn empty_sets(alloc: Global) -> Result<Vec<BTreeSet<u32>>, OutOfMemory>
    ensures count { IfOk result (λ sets. length sets.items ≡ 676) }
    ensures empty { IfOk result (λ sets. AllByRecursion (λ one. one.keys ≡ []) sets.items) }
{
    let mut sets = Vec::new(alloc);
    for _ in 0..LINKS {
        sets.push(BTreeSet::new(alloc))?;
    }
    Ok(sets)
}
