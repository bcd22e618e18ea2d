// The guards of a clause.
ghost use Rattle.std.specs.Prelude.{◌≡◌, ◌∷◌, []};
ghost use Rattle.std.specs.Option.{option_to_list};
ghost use Rattle.script_grammar.specs.Results.{Gives};
ghost use Rattle.script_grammar.specs.Update as spec;
ghost use Rattle.script_words.specs.Groups.{texts, groups_in};

use crate::contents::data;
use crate::numbers::number;
use pond_base::{Items, Version};
use script_terms::{LineFault, LineGuard};
use std::alloc::Global;

/// The guards among groups of words.
pub(crate) fn guards(alloc: Global, groups: &[&[&[u8]]]) -> Result<Items<LineGuard>, LineFault>
    ensures { Gives (λ x. x) result (spec.gathered spec.guard_of (groups_in groups.now)) }
{
    let mut guards = Items::new(alloc);
    for group in groups {
        if let Some(guard) = guard(alloc, group)? {
            guards.push(guard)?;
        }
    }
    Ok(guards)
}

// The guard that a group is, if it is one.
fn guard(alloc: Global, group: &[&[u8]]) -> Result<Option<LineGuard>, LineFault>
    ensures { Gives option_to_list result (spec.guard_of (texts group.now)) }
{
    match group {
        [keyword, word] => number_guard(keyword, word),
        [keyword, place, content] => block_guard(alloc, keyword, place, content),
        _ => Ok(None),
    }
}

fn number_guard(keyword: &[u8], word: &[u8]) -> Result<Option<LineGuard>, LineFault>
    ensures { Gives option_to_list result (spec.guard_of (keyword.now ∷ word.now ∷ [])) }
{
    if keyword == b"version".as_slice() {
        let version = number(word)?;
        return Ok(Some(LineGuard::VersionIs(Version(version))));
    }
    if keyword == b"size".as_slice() {
        let size = number(word)?;
        return Ok(Some(LineGuard::SizeIs(size)));
    }
    Ok(None)
}

fn block_guard(
    alloc: Global,
    keyword: &[u8],
    place: &[u8],
    content: &[u8],
) -> Result<Option<LineGuard>, LineFault>
    ensures { Gives option_to_list result (spec.guard_of (keyword.now ∷ place.now ∷ content.now ∷ [])) }
{
    if keyword != b"block".as_slice() {
        return Ok(None);
    }
    let place = number(place)?;
    let content = data(alloc, content)?;
    Ok(Some(LineGuard::BlockIs { place, content }))
}
