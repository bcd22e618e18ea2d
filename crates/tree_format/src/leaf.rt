// Leaf strings.
ghost use Rattle.std.specs.Prelude.{◌≡◌, List, ℕ, IfOk, MatchResult};
ghost use Rattle.tree_format.specs.Strings.{leaf_string};
ghost use Rattle.tree_format.specs.Grammar.{IsContent};

use crate::Malformed;
use bytes::Bytes;
use pond_base::OutOfMemory;
use pond_base::limits::MOST_BLOCK;
use std::alloc::Global;

/// The content whose leaf string the bytes are. Takes no memory.
pub fn read_leaf(bytes: &[u8]) -> Result<&[u8], Malformed>
    ensures read { IfOk result (λ content. (bytes.now ≡ leaf_string content.now) × IsContent content.now) }
    ensures spelled { (content : List ℕ) → IsContent content → bytes.now ≡ leaf_string content → MatchResult result (λ found. found.now ≡ content) (λ _. ⊥) }
{
    match bytes {
        [1, content @ ..] if !content.is_empty() && content.len() <= MOST_BLOCK as usize => {
            Ok(content)
        }
        _ => Err(Malformed),
    }
}

/// The leaf string of a content of 1 to 8,192 bytes.
pub fn write_leaf(alloc: Global, content: &[u8]) -> Result<Bytes, OutOfMemory>
    requires { IsContent content.now }
    ensures { IfOk result (λ string. string ≡ leaf_string content.now) }
{
    let mut string = Vec::new(alloc);
    string.push(1)?;
    string.extend_from_slice(content)?;
    Ok(Bytes::from_vec(string)?)
}
