// Numbers.
ghost use Rattle.std.specs.Prelude.{◌≡◌};
ghost use Rattle.std.specs.List.{list_all};
ghost use Rattle.script_grammar.specs.Words as spec;
ghost use Rattle.script_grammar.specs.Classes.{number_at};
ghost use Rattle.script_grammar.specs.Results.{Gives};

use script_terms::{LineFault, refused};

/// The number that a word spells: decimal digits that do not begin with 0, or 0 alone, of a value up to
/// 4,294,967,295.
pub fn number(word: &[u8]) -> Result<u32, LineFault>
    ensures { Gives (λ x. x) result (number_at word.now) }
{
    match number_of(word) {
        Some(number) => Ok(number),
        None => Err(refused::WORD),
    }
}

pub(crate) fn number_of(word: &[u8]) -> Option<u32>
    ensures { result ≡ spec.number_of word.now }
{
    if !is_numeral(word) {
        return None;
    }
    let mut number: u64 = 0;
    for digit in word {
        number = number * 10 + u64::from(digit.saturating_sub(b'0'));
        if number > 4_294_967_295 {
            return None;
        }
    }
    Some(number as u32)
}

fn is_numeral(word: &[u8]) -> bool
    ensures { result ≡ spec.is_numeral word.now }
{
    match word {
        [] => false,
        [first, rest @ ..] => has_digits(word) && (rest.is_empty() || *first != b'0'),
    }
}

fn has_digits(word: &[u8]) -> bool
    ensures { result ≡ list_all spec.is_digit word.now }
{
    word.iter().all(|byte| is_digit(*byte))
}

fn is_digit(byte: u8) -> bool
    ensures { result ≡ spec.is_digit byte }
{
    matches!(byte, b'0'..=b'9')
}
