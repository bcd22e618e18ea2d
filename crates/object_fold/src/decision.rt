// What becomes of an update.
ghost use Rattle.std.specs.Prelude.{◌≡◌, ◌∷◌, ◌≤◌, List, ℕ, Err, IsOk, MatchResult, length};
ghost use Rattle.object_model.specs.Updates.{act_all, largest, outcome};
ghost use Rattle.cow_tree.specs.Versions.{StandsFor};
ghost use Rattle.object_fold.specs.Choice.{refusal_of};

use crate::choice::choose;
use crate::fate::{Refused, fate};
use cow_tree::Tree;
use guarded_update::{Action, Clause};

/// The actions that make the next version, or why there is none.
pub(crate) fn decide<'a>(tree: &Tree, clauses: &'a [Clause]) -> Result<&'a [Action], Refused>
    ensures { (h : List ℕ → List ℕ) (block : ℕ) (content : List ℕ) (older : List (List ℕ)) → StandsFor h block tree.now content older
        → MatchResult result (λ actions. (outcome h block clauses.now (content ∷ older) ≡ act_all actions.now content) × IsOk (act_all actions.now content))
        (λ refused. outcome h block clauses.now (content ∷ older) ≡ Err (refusal_of refused)) }
{
    let Some(actions) = choose(tree, clauses) else {
        return Err(Refused::NoClause);
    };
    match fate(tree.root().length as usize, actions.as_slice()) {
        Ok(_) => Ok(actions.as_slice()),
        Err(refused) => Err(refused),
    }
}
