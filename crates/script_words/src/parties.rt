// Parties.
ghost use Rattle.script_grammar.specs.Classes.{party_at};
ghost use Rattle.script_grammar.specs.Results.{Gives};
ghost use Rattle.script_words.specs.Parties.{party_of_number};

use crate::numbers::number;
use script_terms::{LineFault, refused};

/// A party by its number, which may be that of none that is declared.
#[derive(Clone, Copy, Debug, PartialEq, Eq)]
pub enum PartyNumber {
    Member(u32),
    Client(u32),
}

/// The party that a word names: `m` for a member or `c` for a client, and its number.
pub fn party(word: &[u8]) -> Result<PartyNumber, LineFault>
    ensures { Gives party_of_number result (party_at word.now) }
{
    let [kind, digits @ ..] = word else {
        return Err(refused::WORD);
    };
    let number = number(digits)?;
    match *kind {
        b'm' => Ok(PartyNumber::Member(number)),
        b'c' => Ok(PartyNumber::Client(number)),
        _ => Err(refused::WORD),
    }
}
