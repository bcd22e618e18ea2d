// What the spelling of a request asks of an update that is within the limits.
ghost use Rattle.std.specs.Prelude.{◌<◌, ◌^◌, IsTrue};
ghost use Rattle.std.specs.List.{list_all, AllByRecursion};
ghost use Rattle.guarded_update.specs.Fitting as fit;
ghost use Rattle.guarded_update.specs.Fitting.{IsGuard, IsAction, IsClause};

use guarded_update::{Action, Clause, Guard, Update};

// The numbers and counts of an update within the limits fit into their places.
pub(crate) fn fit_places(update: &Update)
    requires { IsTrue (fit.update_fits update.now) }
    ensures { AllByRecursion IsClause update.now.clauses }
{
    fit_clauses(update.clauses.as_slice());
}

fn fit_clauses(clauses: &[Clause])
    requires { IsTrue (list_all fit.clause_is_short clauses.now) }
    ensures { AllByRecursion IsClause clauses.now }
{
    let mut rest = clauses;
    while let [first, after @ ..] = rest {
        fit_clause(first);
        rest = after;
    }
}

fn fit_clause(clause: &Clause)
    requires { IsTrue (fit.clause_is_short clause.now) }
    ensures { IsClause clause.now }
{
    fit_guards(clause.guards.as_slice());
    fit_actions(clause.actions.as_slice());
}

fn fit_guards(guards: &[Guard])
    ensures { AllByRecursion IsGuard guards.now }
{
    let mut rest = guards;
    while let [first, after @ ..] = rest {
        fit_guard(first);
        rest = after;
    }
}

fn fit_guard(guard: &Guard)
    ensures { IsGuard guard.now }
{
    match guard {
        Guard::VersionIs(version) => fit_number(version.0),
        Guard::SizeIs(size) => fit_number(*size),
        Guard::BlockIs { place, name } => {
            fit_number(*place);
            let _bytes = name.bytes();
        }
    }
}

fn fit_actions(actions: &[Action])
    requires { IsTrue (list_all fit.action_is_short actions.now) }
    ensures { AllByRecursion IsAction actions.now }
{
    let mut rest = actions;
    while let [first, after @ ..] = rest {
        fit_action(first);
        rest = after;
    }
}

fn fit_action(action: &Action)
    requires { IsTrue (fit.action_is_short action.now) }
    ensures { IsAction action.now }
{
    match action {
        Action::Replace { offset, .. } => fit_number(*offset),
        Action::Append { .. } => {}
        Action::Truncate { length } => fit_number(*length),
        Action::Splice { offset, remove, .. } => {
            fit_number(*offset);
            fit_number(*remove);
        }
    }
}

fn fit_number(number: u32)
    ensures { number < 2 ^ 32 }
{}
