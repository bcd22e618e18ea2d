// Labels.
ghost use Rattle.std.specs.Prelude.{◌≡◌};
ghost use Rattle.script_grammar.specs.Classes.{label_at};
ghost use Rattle.script_grammar.specs.Results.{Gives};

use pond_base::{BadLabel, Label};
use script_terms::{LineFault, refused};

/// The label that a word is.
pub fn label(word: &[u8]) -> Result<Label, LineFault>
    ensures { Gives (λ x. x) result (label_at word.now) }
{
    match Label::read(word) {
        Ok(label) => Ok(label),
        Err(BadLabel) => Err(refused::WORD),
    }
}
