// The clauses of an update.
ghost use Rattle.std.specs.Prelude.{◌≡◌, map, IfOk};
ghost use Rattle.std.specs.List.{slice_split};
ghost use Rattle.script_grammar.specs.Results.{Gives};
ghost use Rattle.script_grammar.specs.Update as spec;
ghost use Rattle.script_words.specs.Groups.{texts, groups_in, one};

use crate::action::actions;
use crate::guard::guards;
use pond_base::Items;
use script_terms::{LineClause, LineFault};
use std::alloc::{AllocError, Global};

/// The clauses that groups of words spell, between the words `or`.
pub fn clauses(alloc: Global, groups: &[&[&[u8]]]) -> Result<Items<LineClause>, LineFault>
    ensures { Gives (λ x. x) result (spec.clauses_of (groups_in groups.now)) }
{
    let parts = parts(alloc, groups)?;
    clauses_in(alloc, &parts)
}

// What stands between the words `or`.
fn parts<'g, 'w, 'a>(
    alloc: Global,
    groups: &'g [&'w [&'a [u8]]],
) -> Result<Vec<&'g [&'w [&'a [u8]]]>, AllocError>
    ensures { IfOk result (λ parts. map (λ part. groups_in part.now) parts.items ≡ slice_split spec.is_or (groups_in groups.now)) }
{
    groups.split(|group| is_or(group)).collect(alloc)
}

fn is_or(group: &[&[u8]]) -> bool
    ensures { result ≡ spec.is_or (texts group.now) }
{
    match group {
        [word] => *word == b"or".as_slice(),
        _ => false,
    }
}

fn clauses_in(alloc: Global, parts: &[&[&[&[u8]]]]) -> Result<Items<LineClause>, LineFault>
    ensures { Gives (λ x. x) result (spec.gathered spec.clause_of (map (λ part. groups_in part.now) parts.now)) }
{
    let mut clauses = Items::new(alloc);
    for part in parts {
        let clause = clause(alloc, part)?;
        clauses.push(clause)?;
    }
    Ok(clauses)
}

// The clause of the groups between two words `or`.
fn clause(alloc: Global, part: &[&[&[u8]]]) -> Result<LineClause, LineFault>
    ensures { Gives one result (spec.clause_of (groups_in part.now)) }
{
    let guards = guards(alloc, part)?;
    let actions = actions(alloc, part)?;
    Ok(LineClause { guards, actions })
}
