// Inner strings.
ghost use Rattle.std.specs.Prelude.{◌≡◌, ◌≢◌, ◌<◌, ◌≤◌, ◌↔◌, List, ◌∷◌, ℕ, Some, length, slice_get, IfOk, OnOk, MatchOption, IsTrue, MatchResult};
ghost use Rattle.tree_format.specs.Strings.{inner_string};
ghost use Rattle.tree_format.specs.Grammar.{AreNames, AreWhole};

use crate::Malformed;
use crate::cells::name_at;
use bytes::Bytes;
use pond_base::{Name, OutOfMemory};
use std::alloc::Global;
use std::marker::Model;

/// The names in an inner string, which it borrows. Contracts see the list of the names.
#[derive(Debug, Drop)]
pub struct Inner<'a> {
    count: u8,
    // The bytes of the names, one name after the other.
    names: &'a [u8],
}

impl<'a> Model for Inner<'a> {
    ghost use Rattle.std.specs.Prelude.{List, ℕ};
    ghost use Rattle.tree_format.specs.Grammar.{AreWhole};
    ghost use Rattle.tree_format.specs.Strings.{names_in};

    ghost Value = { List (List ℕ) };

    ghost view = { λ inner. names_in inner.count inner.names.now };

    ghost invariant = { λ inner. AreWhole inner.count inner.names.now };
}

impl<'a> Inner<'a> {
    /// How many names there are: 1 to 64. Takes no memory.
    pub fn count(&self) -> u8
        ensures count { result ≡ length self.now }
        ensures names { AreNames self.now }
    {
        self.count
    }

    /// The name at a place counted from 0. Takes no memory.
    pub fn name(&self, k: u8) -> Name
        requires { k < length self.now }
        ensures { slice_get self.now k ≡ Some result }
    {
        name_at(self.names, 20 * usize::from(k))
    }
}

/// The names whose inner string the bytes are. Takes no memory.
pub fn read_inner(bytes: &[u8]) -> Result<Inner<'_>, Malformed>
    ensures read { IfOk result (λ inner. (bytes.now ≡ inner_string inner) × AreNames inner) }
    ensures spelled { (names : List (List ℕ)) → AreNames names → bytes.now ≡ inner_string names → MatchResult result (λ found. found ≡ names) (λ _. ⊥) }
{
    let Some((count, names)) = counted(bytes) else {
        return Err(Malformed);
    };
    if !are_whole(count, names) {
        return Err(Malformed);
    }
    Ok(Inner { count, names })
}

/// The inner string of 1 to 64 names.
pub fn write_inner(alloc: Global, names: &[Name]) -> Result<Bytes, OutOfMemory>
    requires some { 1 ≤ length names.now }
    requires most { length names.now ≤ 64 }
    ensures string { IfOk result (λ string. string ≡ inner_string names.now) }
    ensures names { OnOk result (AreNames names.now) }
{
    let mut string = Vec::new(alloc);
    string.push(2)?;
    string.push(names.len() as u8)?;
    let mut rest = names;
    while let [first, after @ ..] = rest {
        string.extend_from_slice(&first.bytes())?;
        rest = after;
    }
    Ok(Bytes::from_vec(string)?)
}

// The count that stands behind the kind of an inner string, and what stands behind it.
fn counted(bytes: &[u8]) -> Option<(u8, &[u8])>
    ensures { MatchOption result ((count : ℕ) (names : List ℕ) → bytes.now ≢ 2 ∷ count ∷ names) (λ parts. bytes.now ≡ 2 ∷ parts.0 ∷ parts.1.now) }
{
    match bytes {
        [2, count, names @ ..] => Some((*count, names)),
        _ => None,
    }
}

// Whether the bytes are so many names, and not too few or too many.
fn are_whole(count: u8, names: &[u8]) -> bool
    ensures { IsTrue result ↔ AreWhole count names.now }
{
    count >= 1 && count <= 64 && names.len() == 20 * usize::from(count)
}
