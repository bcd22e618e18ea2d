// The words of an update in groups.
ghost use Rattle.script_terms.specs.declared.cause.Cause.TheVariants as causes;
ghost use Rattle.script_grammar.specs.Results.{Gives, or_cause};
ghost use Rattle.script_grammar.specs.Update as spec;
ghost use Rattle.script_words.specs.Groups.{texts, groups_view};

use crate::place::{Place, is_end, role};
use script_terms::{LineFault, refused};
use std::alloc::Global;

/// The words of an update in groups: each keyword with the words that it takes, whatever these are. The
/// groups are parts of the words.
pub fn groups<'w, 'a>(
    alloc: Global,
    words: &'w [&'a [u8]],
) -> Result<Vec<&'w [&'a [u8]]>, LineFault>
    ensures { Gives groups_view result (or_cause causes.Words (spec.groups_of (texts words.now))) }
{
    let mut groups = Vec::new(alloc);
    let mut place = Place::AtClause;
    let mut at = 0;
    while at < words.len() {
        let Some((count, next)) = role(place, words[at]) else {
            return Err(refused::WORDS);
        };
        let end = at + 1 + count;
        if words.len() < end {
            return Err(refused::WORDS);
        }
        groups.push(&words[at..end])?;
        place = next;
        at = end;
    }
    if is_end(place) {
        Ok(groups)
    } else {
        Err(refused::WORDS)
    }
}
