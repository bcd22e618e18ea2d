// Names.
ghost use Rattle.script_grammar.specs.Classes.{name_at};
ghost use Rattle.script_grammar.specs.Results.{Gives};

use hex::FromHex;
use pond_base::Name;
use script_terms::{LineFault, refused};

/// The name that a word spells: 40 hexadecimal digits of either case.
pub fn name(word: &[u8]) -> Result<Name, LineFault>
    ensures { Gives (λ x. x) result (name_at word.now) }
{
    match <[u8; 20] as FromHex>::from_hex(word) {
        Ok(bytes) => Ok(Name::from_bytes(bytes)),
        Err(_) => Err(refused::WORD),
    }
}
