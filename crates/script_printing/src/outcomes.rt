// What became of requests, in words.
ghost use Rattle.std.specs.Prelude.{◌≡◌, ℕ, List, length, string_bytes, IfOk};
ghost use Rattle.object_model.specs.Folds.{Effect};
ghost use Rattle.object_model.specs.Outcomes.{outcome_of};
ghost use Rattle.ring_message.specs.Spelling.{outcome_string};
ghost use Rattle.message_model.specs.Meaning.{outcome_at};
ghost use Rattle.text_model.specs.Blocks as model;

use object_fold::Outcome;
use pond_base::OutOfMemory;
use std::alloc::Global;

/// An outcome in words, whether a member executed it or a client was told it. Fails only where memory
/// runs out.
pub fn outcome_text(alloc: Global, outcome: &Outcome) -> Result<String, OutOfMemory>
    ensures told { IfOk result (λ printed. string_bytes printed ≡ model.told_text outcome.now) }
    ensures spelled { IfOk result (λ printed. string_bytes printed ≡ model.told_text (outcome_at (outcome_string outcome.now))) }
    ensures executed { IfOk result (λ printed. (h : List ℕ → List ℕ) (block : ℕ) (effect : Effect) (versions : List (List ℕ)) → outcome.now ≡ outcome_of h block effect versions
        → string_bytes printed ≡ model.outcome_text (length versions) effect) }
{
    match outcome {
        Outcome::Made { version, .. } => {
            let version = version.0;
            Ok(format!(in alloc; "made {version}")?)
        }
        Outcome::NoClause => Ok(String::from_str(alloc, "no clause")?),
        Outcome::OutOfRange => Ok(String::from_str(alloc, "out of range")?),
        Outcome::TooLong => Ok(String::from_str(alloc, "too long")?),
        Outcome::Repeat => Ok(String::from_str(alloc, "repeat")?),
    }
}
