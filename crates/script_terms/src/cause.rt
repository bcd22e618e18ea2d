// Why a line is refused.
ghost use Rattle.std.specs.Prelude.{◌≡◌};

use thiserror::Error;

/// The step at which a line fails first. Its `Display` is its word.
#[derive(Clone, Copy, Debug, PartialEq, Eq, Error)]
#[error("{}", self.word())]
pub enum Cause {
    /// The line has a byte outside the printable ones, from space to `~`.
    Byte,
    /// Its first word is no verb.
    Verb,
    /// A line of its verb may not stand there.
    Order,
    /// The number of its words, or a fixed word, fits no form of the verb.
    Words,
    /// A word is not of its class.
    Word,
    /// A number is out of its range, or names what is not declared.
    Range,
    /// An update is too large.
    Size,
    /// With the line a counted limit of the script is passed.
    Full,
}

impl Cause {
    ghost use Rattle.script_terms.specs.Causes.{word_of};

    /// The word by which the program tells it.
    pub fn word(self) -> &'static str
        ensures { result.now ≡ word_of self }
    {
        match self {
            Cause::Byte => "byte",
            Cause::Verb => "verb",
            Cause::Order => "order",
            Cause::Words => "words",
            Cause::Word => "word",
            Cause::Range => "range",
            Cause::Size => "size",
            Cause::Full => "full",
        }
    }
}
