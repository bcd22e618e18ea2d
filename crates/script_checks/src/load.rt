// The load of a script.
ghost use Rattle.std.specs.Prelude.{◌-◌, sum_by, true, ◌≡◌, ◌==◌, ◌+◌, ◌*◌, ◌≤◌, ◌<◌, ◌^◌, ◌++◌, ◌∷◌, [], List, ℕ, OnOk, IfOk, length, min, map, reverse};
ghost use Rattle.guarded_update.specs.declared.update.Action.{Action};
ghost use Rattle.script_grammar.specs.Load as spec;
ghost use Rattle.script_checks.specs.Loads.{Stands, Loaded, newest, adds_of, is_splice_of, is_splice, weight};
ghost use Rattle.std.specs.List.{count_by};
ghost use Rattle.script_terms.specs.declared.line.LineClause.{LineClause};
ghost use Rattle.script_grammar.specs.Steps.{content_size, in_size};

use guarded_update::Action;
use pond_base::limits::{MOST_LOAD_BLOCKS, MOST_LOAD_BYTES, MOST_OBJECT_BYTES};
use pond_base::{Label, OutOfMemory};
use script_terms::{Item, Line, LineClause};
use std::alloc::Global;
use std::marker::Model;

/// What is kept of an action: its label, how much it adds to the label's reach, and whether it is weighed
/// with that reach.
#[derive(Clone, Copy, Debug)]
pub struct Entry {
    pub label: Label,
    pub adds: u64,
    pub is_splice: bool,
}

/// The load of earlier lines in blocks, and what is kept of the actions that make it.
#[derive(Drop)]
pub struct Load {
    blocks: u64,
    entries: Vec<Entry>,
}

impl Model for Load {
    ghost use Rattle.std.specs.Prelude.{reverse};
    ghost use Rattle.script_checks.specs.Loads.{Loaded};

    ghost Value = { Loaded };

    ghost view = { λ l. record { blocks = l.blocks; entries = reverse l.entries.items } };
}

impl Load {
    /// The load of no action. Takes no memory.
    pub fn new(alloc: Global) -> Load
        ensures { result ≡ record { blocks = 0; entries = [] } }
    {
        Load {
            blocks: 0,
            entries: Vec::new(alloc),
        }
    }

    /// Whether the load is within its limits, for blocks of so many bytes.
    pub fn is_borne(&self, block: u32) -> bool
        requires { self.now.blocks < 2 ^ 40 }
        ensures { (sent : List spec.Sent) → Stands self.now block sent → result ≡ spec.is_borne block sent }
    {
        self.blocks <= u64::from(MOST_LOAD_BLOCKS)
            && self.blocks * u64::from(block) <= u64::from(MOST_LOAD_BYTES)
    }

    /// Takes in what a line sends. A splice before it is weighed anew with what its label can now become.
    pub fn add_item(&mut self, block: u32, item: &Item) -> Result<(), OutOfMemory>
        requires block { (64 ≤ block) × (block ≤ 8192) }
        requires few { length self.old.entries ≤ 4096 }
        requires small { self.old.blocks ≤ 8192 }
        requires size { in_size item.now ≡ true }
        ensures small { OnOk result (self.new.blocks < 2 ^ 40) }
        ensures stands { OnOk result ((sent : List spec.Sent) → Stands self.old block sent → Stands self.new block (spec.sent_in item.now ++ sent)) }
    {
        if let Item::Event(Line::Submit { label, clauses, .. }) = item {
            self.add(block, label, clauses.as_slice())?;
        }
        Ok(())
    }

    // Takes in the actions of an update.
    fn add(&mut self, block: u32, label: &Label, clauses: &[LineClause]) -> Result<(), OutOfMemory>
        requires block { (64 ≤ block) × (block ≤ 8192) }
        requires few { length self.old.entries + sum_by (λ (c : LineClause). length c.actions) clauses.now ≤ 65536 }
        requires small { self.old.blocks + 2147483648 * sum_by (λ (c : LineClause). length c.actions) clauses.now < 2 ^ 40 }
        requires content { sum_by (λ (c : LineClause). sum_by content_size c.actions) clauses.now ≤ 65536 }
        ensures small { OnOk result (self.new.blocks < 2 ^ 40) }
        ensures stands { OnOk result ((sent : List spec.Sent) → Stands self.old block sent → Stands self.new block (spec.sent_by label.now clauses.now ++ sent)) }
    {
        for clause in clauses {
            self.add_actions(block, label, clause.actions.as_slice())?;
        }
        Ok(())
    }

    fn add_actions(
        &mut self,
        block: u32,
        label: &Label,
        actions: &[Action],
    ) -> Result<(), OutOfMemory>
        requires block { (64 ≤ block) × (block ≤ 8192) }
        requires few { length self.old.entries + length actions.now ≤ 65536 }
        requires small { self.old.blocks + 2147483648 * length actions.now < 2 ^ 40 }
        requires content { sum_by content_size actions.now ≤ 65536 }
        ensures small { OnOk result (self.new.blocks ≤ self.old.blocks + 2147483648 * length actions.now) }
        ensures count { OnOk result (length self.new.entries ≡ length self.old.entries + length actions.now) }
        ensures stands { OnOk result ((sent : List spec.Sent) → Stands self.old block sent → Stands self.new block (newest label.now actions.now ++ sent)) }
    {
        for action in actions {
            self.add_action(block, label, action)?;
        }
        Ok(())
    }

    fn add_action(&mut self, block: u32, label: &Label, action: &Action) -> Result<(), OutOfMemory>
        requires block { (64 ≤ block) × (block ≤ 8192) }
        requires few { length self.old.entries ≤ 65536 }
        requires small { self.old.blocks < 2 ^ 40 }
        requires content { content_size action.now ≤ 65536 }
        ensures small { OnOk result (self.new.blocks ≤ self.old.blocks + 2147483648) }
        ensures count { OnOk result (length self.new.entries ≡ length self.old.entries + 1) }
        ensures stands { OnOk result ((sent : List spec.Sent) → Stands self.old block sent → Stands self.new block (record { label = label.now; action = action.now } ∷ sent)) }
    {
        let adds = reach_in(action) as u64;
        let before = reach(&self.entries, label.bytes());
        let after = (before + adds).min(MOST_OBJECT_BYTES as u64);
        let splices = splice_count(&self.entries, label.bytes()) as u64;
        let growth = blocks(block, after) - blocks(block, before);
        let own = blocks(block, weight(action, after));
        let label = *label;
        let is_splice = is_splice(action);
        self.entries.push(Entry {
            label,
            adds,
            is_splice,
        })?;
        self.blocks = self.blocks + splices * growth + own;
        Ok(())
    }
}

// How many blocks so many bytes load.
fn blocks(block: u32, count: u64) -> u64
    requires { (64 ≤ block) × (block ≤ 8192) × (count ≤ 1048576) }
    ensures value { result ≡ spec.blocks block count }
    ensures bound { result ≤ 16387 }
{
    let size = u64::from(block);
    (count + size - 1) / size + 2
}

// The reach of a label.
fn reach(entries: &[Entry], label: &[u8]) -> u64
    ensures { result ≡ min 1048576 (sum_by (adds_of label.now) entries.now) }
{
    let mut reach = 0u64;
    for entry in entries {
        reach = reach.saturating_add(adds_of(entry, label));
    }
    reach.min(MOST_OBJECT_BYTES as u64)
}

fn adds_of(entry: &Entry, label: &[u8]) -> u64
    ensures { result ≡ adds_of label.now entry.now }
{
    if entry.label.bytes() == label {
        entry.adds
    } else {
        0
    }
}

// How many splices a label has.
fn splice_count(entries: &[Entry], label: &[u8]) -> usize
    ensures value { result ≡ count_by (is_splice_of label.now) entries.now }
    ensures bound { result ≤ length entries.now }
{
    entries
        .iter()
        .filter(|entry| is_splice_of(entry, label))
        .count()
}

fn is_splice_of(entry: &Entry, label: &[u8]) -> bool
    ensures { result ≡ is_splice_of label.now entry.now }
{
    entry.label.bytes() == label && entry.is_splice
}

fn is_splice(action: &Action) -> bool
    ensures { result ≡ is_splice action.now }
{
    matches!(action, Action::Splice { .. })
}

fn reach_in(action: &Action) -> usize
    ensures { result ≡ spec.reach_in action.now }
{
    match action {
        Action::Append { content } => content.len(),
        Action::Splice { content, .. } => content.len(),
        _ => 0,
    }
}

// How many bytes an action is weighed with.
fn weight(action: &Action, reach: u64) -> u64
    ensures { result ≡ weight action.now reach }
{
    match action {
        Action::Replace { content, .. } => content.len() as u64,
        Action::Append { content } => content.len() as u64,
        Action::Truncate { .. } => 0,
        Action::Splice { .. } => reach,
    }
}
