// Where a word of an update stands, and what it may be there.
ghost use Rattle.std.specs.Prelude.{◌≡◌, ◌<◌, IfSome};
ghost use Rattle.std.specs.Option.{option_map};
ghost use Rattle.script_grammar.specs.Update as spec;
ghost use Rattle.script_words.specs.Views.{role_view, place_view};

/// Where a keyword of an update stands.
#[derive(Clone, Copy, Debug, PartialEq, Eq)]
pub(crate) enum Place {
    AtClause,
    AtGuard,
    AfterGuard,
    AtAction,
    AfterAction,
}

/// Whether an update may end at a place.
pub(crate) fn is_end(place: Place) -> bool
    ensures { result ≡ spec.is_end (place_view place) }
{
    match place {
        Place::AfterAction => true,
        _ => false,
    }
}

/// How many words a keyword takes, if it fits at its place, and where the keyword behind them stands.
pub(crate) fn role(place: Place, word: &[u8]) -> Option<(usize, Place)>
    ensures few { IfSome result (λ r. r.0 < 4) }
    ensures role { option_map role_view result ≡ spec.role (place_view place) word.now }
{
    match place {
        Place::AtClause => clause_role(word),
        Place::AtGuard => guard_role(word),
        Place::AfterGuard => guard_end_role(word),
        Place::AtAction => action_role(word),
        Place::AfterAction => action_end_role(word),
    }
}

fn clause_role(word: &[u8]) -> Option<(usize, Place)>
    ensures few { IfSome result (λ r. r.0 < 4) }
    ensures role { option_map role_view result ≡ spec.role spec.AtClause word.now }
{
    if word == b"if".as_slice() {
        Some((0, Place::AtGuard))
    } else {
        action_role(word)
    }
}

fn guard_role(word: &[u8]) -> Option<(usize, Place)>
    ensures few { IfSome result (λ r. r.0 < 4) }
    ensures role { option_map role_view result ≡ spec.guard_role word.now }
{
    if word == b"version".as_slice() || word == b"size".as_slice() {
        return Some((1, Place::AfterGuard));
    }
    if word == b"block".as_slice() {
        Some((2, Place::AfterGuard))
    } else {
        None
    }
}

fn guard_end_role(word: &[u8]) -> Option<(usize, Place)>
    ensures few { IfSome result (λ r. r.0 < 4) }
    ensures role { option_map role_view result ≡ spec.role spec.AfterGuard word.now }
{
    if word == b"and".as_slice() {
        return Some((0, Place::AtGuard));
    }
    if word == b"then".as_slice() {
        Some((0, Place::AtAction))
    } else {
        None
    }
}

fn action_role(word: &[u8]) -> Option<(usize, Place)>
    ensures few { IfSome result (λ r. r.0 < 4) }
    ensures role { option_map role_view result ≡ spec.action_role word.now }
{
    if word == b"append".as_slice() || word == b"truncate".as_slice() {
        return Some((1, Place::AfterAction));
    }
    if word == b"replace".as_slice() || word == b"delete".as_slice() {
        return Some((2, Place::AfterAction));
    }
    if word == b"splice".as_slice() {
        Some((3, Place::AfterAction))
    } else {
        None
    }
}

fn action_end_role(word: &[u8]) -> Option<(usize, Place)>
    ensures few { IfSome result (λ r. r.0 < 4) }
    ensures role { option_map role_view result ≡ spec.role spec.AfterAction word.now }
{
    if word == b"+".as_slice() {
        return Some((0, Place::AtAction));
    }
    if word == b"or".as_slice() {
        Some((0, Place::AtClause))
    } else {
        None
    }
}
