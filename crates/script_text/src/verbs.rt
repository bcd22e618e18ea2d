// The verb of a line, and what the words behind it say.
ghost use Rattle.std.specs.Prelude.{◌≡◌};
ghost use Rattle.script_grammar.specs.Forms as spec;
ghost use Rattle.script_grammar.specs.Steps.{rank_of};
ghost use Rattle.script_grammar.specs.Results.{Gives};
ghost use Rattle.script_checks.specs.Next.{checked};
ghost use Rattle.script_text.specs.Texts.{texts};

use crate::declarations::{block, clients, faulty, home, pond, ring};
use crate::deliveries::{deliver, lose, mute, unmute};
use crate::events::{read, resubmit, settle, show};
use crate::forgeries::forge;
use crate::outside::{cut, mend};
use crate::submits::submit;
use script_checks::Known;
use script_terms::{Item, LineFault, Verb};
use std::alloc::Global;

/// The verb that a word is.
pub(crate) fn verb(word: &[u8]) -> Option<Verb>
    ensures { result ≡ spec.verb_of word.now }
{
    if word == b"pond".as_slice() {
        return Some(Verb::Pond);
    }
    if word == b"ring".as_slice() {
        return Some(Verb::Ring);
    }
    if word == b"faulty".as_slice() {
        return Some(Verb::Faulty);
    }
    if word == b"block".as_slice() {
        return Some(Verb::Block);
    }
    if word == b"clients".as_slice() {
        return Some(Verb::Clients);
    }
    if word == b"home".as_slice() {
        return Some(Verb::Home);
    }
    if word == b"submit".as_slice() {
        return Some(Verb::Submit);
    }
    if word == b"resubmit".as_slice() {
        return Some(Verb::Resubmit);
    }
    if word == b"deliver".as_slice() {
        return Some(Verb::Deliver);
    }
    if word == b"lose".as_slice() {
        return Some(Verb::Lose);
    }
    if word == b"settle".as_slice() {
        return Some(Verb::Settle);
    }
    if word == b"mute".as_slice() {
        return Some(Verb::Mute);
    }
    if word == b"unmute".as_slice() {
        return Some(Verb::Unmute);
    }
    if word == b"forge".as_slice() {
        return Some(Verb::Forge);
    }
    if word == b"cut".as_slice() {
        return Some(Verb::Cut);
    }
    if word == b"mend".as_slice() {
        return Some(Verb::Mend);
    }
    if word == b"read".as_slice() {
        return Some(Verb::Read);
    }
    if word == b"show".as_slice() {
        return Some(Verb::Show);
    }
    None
}

/// The rank of the lines of a verb; events have 9.
pub(crate) fn rank(verb: Verb) -> u8
    ensures { result ≡ rank_of verb }
{
    match verb {
        Verb::Pond => 1,
        Verb::Ring => 2,
        Verb::Faulty => 3,
        Verb::Block => 4,
        Verb::Clients => 6,
        Verb::Home => 8,
        _ => 9,
    }
}

/// What the words behind a verb say, where it is in range and size.
pub(crate) fn said(
    alloc: Global,
    known: &Known,
    verb: Verb,
    words: &[&[u8]],
) -> Result<Item, LineFault>
    ensures { Gives (λ x. x) result (checked known.now (spec.said verb (texts words.now))) }
{
    match verb {
        Verb::Pond => pond(words),
        Verb::Ring => ring(words),
        Verb::Faulty => faulty(known, words),
        Verb::Block => block(words),
        Verb::Clients => clients(words),
        Verb::Home => home(known, words),
        Verb::Submit => submit(alloc, known, words),
        Verb::Resubmit => resubmit(known, words),
        Verb::Deliver => deliver(known, words),
        Verb::Lose => lose(known, words),
        Verb::Settle => settle(words),
        Verb::Mute => mute(known, words),
        Verb::Unmute => unmute(known, words),
        Verb::Forge => forge(alloc, known, words),
        Verb::Cut => cut(known, words),
        Verb::Mend => mend(known, words),
        Verb::Read => read(known, words),
        Verb::Show => show(known, words),
    }
}
