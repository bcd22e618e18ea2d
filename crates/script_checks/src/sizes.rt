// The size of an update.
ghost use Rattle.std.specs.Prelude.{◌≡◌, ◌<◌, ◌-◌, ◌^◌, min, length, sum_by};
ghost use Rattle.std.specs.List.{list_all};
ghost use Rattle.script_terms.specs.declared.line.LineClause.{LineClause};
ghost use Rattle.script_terms.specs.declared.cause.Cause.TheVariants as causes;
ghost use Rattle.script_grammar.specs.Results.{Gives, where_holds};
ghost use Rattle.script_grammar.specs.Asks as asked;
ghost use Rattle.script_grammar.specs.Steps as spec;

use guarded_update::Action;
use pond_base::Items;
use pond_base::limits::{MOST_ACTIONS, MOST_BLOCK, MOST_CONTENT_BYTES};
use script_terms::{LineClause, LineFault, LineGuard, refused};

/// The clauses of an update, which are out of range where a splice or delete neither takes out nor puts
/// in anything.
pub fn changing(clauses: Items<LineClause>) -> Result<Items<LineClause>, LineFault>
    ensures { Gives (λ x. x) result (where_holds (list_all (λ (c : LineClause). list_all asked.changes c.actions) clauses) causes.Range clauses) }
{
    if has_changes(clauses.as_slice()) {
        Ok(clauses)
    } else {
        Err(refused::RANGE)
    }
}

/// The clauses of an update, which are out of size where they have more than 16 actions, 16 guards or
/// 65,536 bytes of content in their actions, or a block guard of more than 8,192 bytes.
pub fn in_size(clauses: Items<LineClause>) -> Result<Items<LineClause>, LineFault>
    ensures { Gives (λ x. x) result (where_holds (spec.update_in_size clauses) causes.Size clauses) }
{
    if is_update_in_size(clauses.as_slice()) {
        Ok(clauses)
    } else {
        Err(refused::SIZE)
    }
}

// Whether each splice takes out or puts in something.
fn has_changes(clauses: &[LineClause]) -> bool
    ensures { result ≡ list_all (λ (c : LineClause). list_all asked.changes c.actions) clauses.now }
{
    clauses
        .iter()
        .all(|clause| are_changes(clause.actions.as_slice()))
}

fn are_changes(actions: &[Action]) -> bool
    ensures { result ≡ list_all asked.changes actions.now }
{
    actions.iter().all(|action| is_change(action))
}

fn is_change(action: &Action) -> bool
    ensures { result ≡ asked.changes action.now }
{
    match action {
        Action::Splice {
            remove,
            content,
            ..
        } => content.len() >= 1 || *remove >= 1,
        _ => true,
    }
}

// Whether an update is within its limits.
fn is_update_in_size(clauses: &[LineClause]) -> bool
    ensures { result ≡ spec.update_in_size clauses.now }
{
    action_count(clauses) <= MOST_ACTIONS
        && guard_count(clauses) <= MOST_ACTIONS
        && content_size(clauses) <= MOST_CONTENT_BYTES
        && has_small_guards(clauses)
}

// How many actions there are, up to the greatest number.
fn action_count(clauses: &[LineClause]) -> usize
    ensures { result ≡ min (sum_by (λ (c : LineClause). length c.actions) clauses.now) (2 ^ 64 - 1) }
{
    let mut count = 0usize;
    for clause in clauses {
        count = count.saturating_add(clause.actions.len());
    }
    count
}

// How many guards there are, up to the greatest number.
fn guard_count(clauses: &[LineClause]) -> usize
    ensures { result ≡ min (sum_by (λ (c : LineClause). length c.guards) clauses.now) (2 ^ 64 - 1) }
{
    let mut count = 0usize;
    for clause in clauses {
        count = count.saturating_add(clause.guards.len());
    }
    count
}

// How many bytes of content there are, up to the greatest number.
fn content_size(clauses: &[LineClause]) -> usize
    ensures { result ≡ min (sum_by (λ (c : LineClause). sum_by spec.content_size c.actions) clauses.now) (2 ^ 64 - 1) }
{
    let mut size = 0usize;
    for clause in clauses {
        size = size.saturating_add(size_of_actions(clause.actions.as_slice()));
    }
    size
}

fn size_of_actions(actions: &[Action]) -> usize
    ensures { result ≡ min (sum_by spec.content_size actions.now) (2 ^ 64 - 1) }
{
    let mut size = 0usize;
    for action in actions {
        size = size.saturating_add(size_of_action(action));
    }
    size
}

fn size_of_action(action: &Action) -> usize
    ensures { result ≡ spec.content_size action.now }
{
    match action {
        Action::Replace { content, .. }
        | Action::Append { content }
        | Action::Splice { content, .. } => content.len(),
        Action::Truncate { .. } => 0,
    }
}

fn has_small_guards(clauses: &[LineClause]) -> bool
    ensures { result ≡ list_all (λ (c : LineClause). list_all spec.is_small_guard c.guards) clauses.now }
{
    clauses
        .iter()
        .all(|clause| are_small_guards(clause.guards.as_slice()))
}

fn are_small_guards(guards: &[LineGuard]) -> bool
    ensures { result ≡ list_all spec.is_small_guard guards.now }
{
    guards.iter().all(|guard| is_small_guard(guard))
}

fn is_small_guard(guard: &LineGuard) -> bool
    ensures { result ≡ spec.is_small_guard guard.now }
{
    match guard {
        LineGuard::BlockIs { content, .. } => content.len() <= MOST_BLOCK as usize,
        _ => true,
    }
}
