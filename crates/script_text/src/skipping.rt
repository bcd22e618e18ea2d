// Lines that are skipped.
ghost use Rattle.std.specs.Prelude.{◌≡◌, ◌&&◌};
ghost use Rattle.std.specs.List.{list_all};
ghost use Rattle.script_grammar.specs.Words.{is_plain, words_of};
ghost use Rattle.script_text.specs.Skipping.{say_nothing};

use script_words::is_plain_line;

/// Whether a line is skipped: it passes step 1, and has no word or is a comment.
pub(crate) fn is_skipped(line: &[u8]) -> bool
    ensures { result ≡ (say_nothing (words_of line.now) && list_all is_plain line.now) }
{
    is_silent(line) && is_plain_line(line)
}

// Whether the first byte that is no space, if there is one, is `#`.
fn is_silent(line: &[u8]) -> bool
    ensures { result ≡ say_nothing (words_of line.now) }
{
    for byte in line {
        if *byte != b' ' {
            return *byte == b'#';
        }
    }
    true
}
