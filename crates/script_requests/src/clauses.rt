// The clauses of a request, of those of a line.
ghost use Rattle.std.specs.Prelude.{◌≡◌, Contains, IfOk, IfErr, OnOk, map};
ghost use Rattle.std.specs.List.{AllByRecursion, flat_map};
ghost use Rattle.block_names.specs.Growth.{Grew, IsClashIn};
ghost use Rattle.script_laws.specs.Limits.{GuardFits};
ghost use Rattle.script_terms.specs.declared.line.LineClause.{LineClause};
ghost use Rattle.text_model.specs.Requests as model;
ghost use Rattle.text_model.specs.Named.{guard_strings, clause_strings};
ghost use Rattle.script_requests.specs.Holding.{HoldsAll};

use block_names::{Book, Hash160, NameFault};
use guarded_update::{Clause, Guard};
use pond_base::{Duplicate, Items};
use script_terms::{LineClause, LineGuard};
use std::alloc::Global;
use tree_format::write_leaf;

/// The clauses of a request: those of a line, in which each block guard has the name of its leaf string
/// in place of the content. The leaf strings are named, in order. After a fault the book may hold some
/// of them.
pub fn clauses_of<H: Hash160 + Drop>(
    alloc: Global,
    book: &mut Book<H>,
    clauses: &[LineClause],
) -> Result<Items<Clause>, NameFault>
    requires { AllByRecursion (λ (c : LineClause). AllByRecursion GuardFits c.guards) clauses.now }
    ensures value { IfOk result (λ made. made ≡ map (model.clause_of H.naming) clauses.now) }
    ensures holds { OnOk result (HoldsAll H.naming book.new.held (flat_map clause_strings clauses.now)) }
    ensures grew { Grew H.naming book.old.held (Contains (flat_map clause_strings clauses.now)) book.new.held }
    ensures fault { IfErr result (IsClashIn H.naming book.new.held (Contains (flat_map clause_strings clauses.now))) }
{
    let mut made = Items::new(alloc);
    for clause in clauses {
        let clause = clause_of(alloc, book, clause)?;
        made.push(clause)?;
    }
    Ok(made)
}

fn clause_of<H: Hash160 + Drop>(
    alloc: Global,
    book: &mut Book<H>,
    clause: &LineClause,
) -> Result<Clause, NameFault>
    requires { AllByRecursion GuardFits clause.now.guards }
    ensures value { IfOk result (λ made. made ≡ model.clause_of H.naming clause.now) }
    ensures holds { OnOk result (HoldsAll H.naming book.new.held (clause_strings clause.now)) }
    ensures grew { Grew H.naming book.old.held (Contains (clause_strings clause.now)) book.new.held }
    ensures fault { IfErr result (IsClashIn H.naming book.new.held (Contains (clause_strings clause.now))) }
{
    let guards = guards_of(alloc, book, clause.guards.as_slice())?;
    let actions = clause.actions.duplicate()?;
    Ok(Clause { guards, actions })
}

fn guards_of<H: Hash160 + Drop>(
    alloc: Global,
    book: &mut Book<H>,
    guards: &[LineGuard],
) -> Result<Items<Guard>, NameFault>
    requires { AllByRecursion GuardFits guards.now }
    ensures value { IfOk result (λ made. made ≡ map (model.guard_of H.naming) guards.now) }
    ensures holds { OnOk result (HoldsAll H.naming book.new.held (flat_map guard_strings guards.now)) }
    ensures grew { Grew H.naming book.old.held (Contains (flat_map guard_strings guards.now)) book.new.held }
    ensures fault { IfErr result (IsClashIn H.naming book.new.held (Contains (flat_map guard_strings guards.now))) }
{
    let mut made = Items::new(alloc);
    for guard in guards {
        let guard = guard_of(alloc, book, guard)?;
        made.push(guard)?;
    }
    Ok(made)
}

fn guard_of<H: Hash160 + Drop>(
    alloc: Global,
    book: &mut Book<H>,
    guard: &LineGuard,
) -> Result<Guard, NameFault>
    requires { GuardFits guard.now }
    ensures value { IfOk result (λ made. made ≡ model.guard_of H.naming guard.now) }
    ensures holds { OnOk result (HoldsAll H.naming book.new.held (guard_strings guard.now)) }
    ensures grew { Grew H.naming book.old.held (Contains (guard_strings guard.now)) book.new.held }
    ensures fault { IfErr result (IsClashIn H.naming book.new.held (Contains (guard_strings guard.now))) }
{
    match guard {
        LineGuard::VersionIs(version) => Ok(Guard::VersionIs(*version)),
        LineGuard::SizeIs(size) => Ok(Guard::SizeIs(*size)),
        LineGuard::BlockIs { place, content } => {
            let leaf = write_leaf(alloc, content.as_slice())?;
            let name = book.name(leaf.as_slice())?;
            Ok(Guard::BlockIs {
                place: *place,
                name,
            })
        }
    }
}
