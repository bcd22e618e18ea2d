// Lines and their words.
ghost use Rattle.std.specs.Prelude.{◌≡◌, ◌==◌, map, IfOk, position};
ghost use Rattle.std.specs.List.{before_first, after_first, list_all};
ghost use Rattle.script_grammar.specs.Words as spec;

use pond_base::OutOfMemory;
use std::alloc::{AllocError, Global};

/// The first line of a text, without its line feed, and what follows it.
pub fn split_line(text: &[u8]) -> (&[u8], &[u8])
    ensures line { result.0.now ≡ before_first (λ byte. byte == 10) text.now }
    ensures after { result.1.now ≡ after_first (λ byte. byte == 10) text.now }
{
    match line_end(text) {
        Some(end) => (&text[..end], &text[end + 1..]),
        None => (text, &[]),
    }
}

fn line_end(text: &[u8]) -> Option<usize>
    ensures { result ≡ position (λ byte. byte == 10) text.now }
{
    text.iter().position(|byte| *byte == b'\n')
}

/// Whether a line has only bytes from space to `~`.
pub fn is_plain_line(line: &[u8]) -> bool
    ensures { result ≡ list_all spec.is_plain line.now }
{
    line.iter().all(|byte| is_plain(*byte))
}

fn is_plain(byte: u8) -> bool
    ensures { result ≡ spec.is_plain byte }
{
    matches!(byte, b' '..=b'~')
}

/// The words of a line, which spaces separate.
pub fn words(alloc: Global, line: &[u8]) -> Result<Vec<&[u8]>, OutOfMemory>
    ensures { IfOk result (λ words. map (λ word. word.now) words.items ≡ spec.words_of line.now) }
{
    Ok(parts(alloc, line)?)
}

fn parts(alloc: Global, line: &[u8]) -> Result<Vec<&[u8]>, AllocError>
    ensures { IfOk result (λ words. map (λ word. word.now) words.items ≡ spec.words_of line.now) }
{
    line.split(|byte| *byte == b' ')
        .filter(|word| !word.is_empty())
        .collect(alloc)
}

/// Whether the first word of a line makes it a comment.
pub fn is_comment(word: &[u8]) -> bool
    ensures { result ≡ spec.is_comment word.now }
{
    match word {
        [] => false,
        [first, ..] => *first == b'#',
    }
}
