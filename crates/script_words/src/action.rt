// The actions of a clause.
ghost use Rattle.std.specs.Prelude.{◌≡◌, ◌∷◌, []};
ghost use Rattle.std.specs.Option.{option_to_list};
ghost use Rattle.script_grammar.specs.Results.{Gives};
ghost use Rattle.script_grammar.specs.Update as spec;
ghost use Rattle.script_words.specs.Groups.{texts, groups_in};

use crate::contents::data;
use crate::numbers::number;
use bytes::Bytes;
use guarded_update::Action;
use pond_base::Items;
use script_terms::LineFault;
use std::alloc::Global;

/// The actions among groups of words.
pub(crate) fn actions(alloc: Global, groups: &[&[&[u8]]]) -> Result<Items<Action>, LineFault>
    ensures { Gives (λ x. x) result (spec.gathered spec.action_of (groups_in groups.now)) }
{
    let mut actions = Items::new(alloc);
    for group in groups {
        if let Some(action) = action(alloc, group)? {
            actions.push(action)?;
        }
    }
    Ok(actions)
}

// The action that a group is, if it is one.
fn action(alloc: Global, group: &[&[u8]]) -> Result<Option<Action>, LineFault>
    ensures { Gives option_to_list result (spec.action_of (texts group.now)) }
{
    match group {
        [keyword, word] => short_action(alloc, keyword, word),
        [keyword, offset, word] => action_at(alloc, keyword, offset, word),
        [keyword, offset, remove, content] => splice(alloc, keyword, offset, remove, content),
        _ => Ok(None),
    }
}

fn short_action(alloc: Global, keyword: &[u8], word: &[u8]) -> Result<Option<Action>, LineFault>
    ensures { Gives option_to_list result (spec.action_of (keyword.now ∷ word.now ∷ [])) }
{
    if keyword == b"append".as_slice() {
        let content = data(alloc, word)?;
        return Ok(Some(Action::Append { content }));
    }
    if keyword == b"truncate".as_slice() {
        let length = number(word)?;
        return Ok(Some(Action::Truncate { length }));
    }
    Ok(None)
}

fn action_at(
    alloc: Global,
    keyword: &[u8],
    offset: &[u8],
    word: &[u8],
) -> Result<Option<Action>, LineFault>
    ensures { Gives option_to_list result (spec.action_of (keyword.now ∷ offset.now ∷ word.now ∷ [])) }
{
    if keyword == b"replace".as_slice() {
        let offset = number(offset)?;
        let content = data(alloc, word)?;
        return Ok(Some(Action::Replace { offset, content }));
    }
    if keyword == b"delete".as_slice() {
        let offset = number(offset)?;
        let remove = number(word)?;
        let content = Bytes::new();
        return Ok(Some(Action::Splice {
            offset,
            remove,
            content,
        }));
    }
    Ok(None)
}

fn splice(
    alloc: Global,
    keyword: &[u8],
    offset: &[u8],
    remove: &[u8],
    content: &[u8],
) -> Result<Option<Action>, LineFault>
    ensures { Gives option_to_list result (spec.action_of (keyword.now ∷ offset.now ∷ remove.now ∷ content.now ∷ [])) }
{
    if keyword != b"splice".as_slice() {
        return Ok(None);
    }
    let offset = number(offset)?;
    let remove = number(remove)?;
    let content = data(alloc, content)?;
    Ok(Some(Action::Splice {
        offset,
        remove,
        content,
    }))
}
