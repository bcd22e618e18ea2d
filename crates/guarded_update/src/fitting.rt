// Which requests have a spelling, and of which kind.
ghost use Rattle.std.specs.Prelude.{◌≡◌, ◌-◌, ◌^◌, min};
ghost use Rattle.std.specs.List.{list_all, list_any};
ghost use Rattle.guarded_update.specs.Fitting as fit;
ghost use Rattle.guarded_update.specs.Spelling as spell;

use crate::{Action, Clause, Request, Update};
use pond_base::limits::{MOST_ACTIONS, MOST_CLIENTS, MOST_CONTENT_BYTES};

/// Whether a request is within the limits of requests: its client is below 16 and its number at least 1,
/// and its update has 1 to 16 clauses, each with an action, and over all of them at most 16 guards, 16
/// actions and 65,536 bytes of content, where each replace and append has content, and each splice that
/// removes nothing. Takes no memory.
pub fn fits(request: &Request) -> bool
    ensures { result ≡ fit.request_fits request.now }
{
    request.client.0 < MOST_CLIENTS && request.number >= 1 && update_fits(&request.update)
}

/// The kind of the spelling of an update's request: 8 with a splice, and 6 without one.
pub(crate) fn kind_of(update: &Update) -> u8
    ensures { result ≡ spell.kind_of update.now.clauses }
{
    if have_splice(update.clauses.as_slice()) {
        8
    } else {
        6
    }
}

fn have_splice(clauses: &[Clause]) -> bool
    ensures { result ≡ list_any spell.has_splice clauses.now }
{
    clauses.iter().any(|clause| has_splice(clause))
}

fn has_splice(clause: &Clause) -> bool
    ensures { result ≡ spell.has_splice clause.now }
{
    clause
        .actions
        .as_slice()
        .iter()
        .any(|action| is_splice(action))
}

fn is_splice(action: &Action) -> bool
    ensures { result ≡ spell.is_splice action.now }
{
    matches!(action, Action::Splice { .. })
}

/// Whether an update is within the limits of updates, as [`fits`] says them. Takes no memory.
pub fn update_fits(update: &Update) -> bool
    ensures { result ≡ fit.update_fits update.now }
{
    let clauses = update.clauses.as_slice();
    !clauses.is_empty()
        && clauses.len() <= MOST_ACTIONS
        && clauses_fit(clauses)
        && sizes_fit(clauses)
}

fn sizes_fit(clauses: &[Clause]) -> bool
    ensures { result ≡ fit.sizes_fit clauses.now }
{
    guards_in(clauses) <= MOST_ACTIONS
        && actions_in(clauses) <= MOST_ACTIONS
        && content_in(clauses) <= MOST_CONTENT_BYTES
}

fn clauses_fit(clauses: &[Clause]) -> bool
    ensures { result ≡ list_all fit.clause_fits clauses.now }
{
    clauses.iter().all(|clause| clause_fits(clause))
}

fn clause_fits(clause: &Clause) -> bool
    ensures { result ≡ fit.clause_fits clause.now }
{
    let actions = clause.actions.as_slice();
    !actions.is_empty() && actions_fit(actions)
}

fn actions_fit(actions: &[Action]) -> bool
    ensures { result ≡ list_all fit.action_fits actions.now }
{
    actions.iter().all(|action| action_fits(action))
}

fn action_fits(action: &Action) -> bool
    ensures { result ≡ fit.action_fits action.now }
{
    match action {
        Action::Replace { content, .. } | Action::Append { content } => !content.is_empty(),
        Action::Truncate { .. } => true,
        Action::Splice {
            remove,
            content,
            ..
        } => *remove > 0 || !content.is_empty(),
    }
}

// How many guards there are, up to the greatest number.
fn guards_in(clauses: &[Clause]) -> usize
    ensures { result ≡ min (fit.guards_in clauses.now) (2 ^ 64 - 1) }
{
    let mut total: usize = 0;
    let mut rest = clauses;
    while let [first, after @ ..] = rest {
        total = total.saturating_add(first.guards.len());
        rest = after;
    }
    total
}

// How many actions there are, up to the greatest number.
fn actions_in(clauses: &[Clause]) -> usize
    ensures { result ≡ min (fit.actions_in clauses.now) (2 ^ 64 - 1) }
{
    let mut total: usize = 0;
    let mut rest = clauses;
    while let [first, after @ ..] = rest {
        total = total.saturating_add(first.actions.len());
        rest = after;
    }
    total
}

// How many bytes of content there are, up to the greatest number.
fn content_in(clauses: &[Clause]) -> usize
    ensures { result ≡ min (fit.content_in clauses.now) (2 ^ 64 - 1) }
{
    let mut total: usize = 0;
    let mut rest = clauses;
    while let [first, after @ ..] = rest {
        total = total.saturating_add(content_of(first.actions.as_slice()));
        rest = after;
    }
    total
}

fn content_of(actions: &[Action]) -> usize
    ensures { result ≡ min (fit.content_of actions.now) (2 ^ 64 - 1) }
{
    let mut total: usize = 0;
    let mut rest = actions;
    while let [first, after @ ..] = rest {
        total = total.saturating_add(content_length(first));
        rest = after;
    }
    total
}

fn content_length(action: &Action) -> usize
    ensures { result ≡ fit.content_length action.now }
{
    match action {
        Action::Replace { content, .. }
        | Action::Append { content }
        | Action::Splice { content, .. } => content.len(),
        Action::Truncate { .. } => 0,
    }
}
