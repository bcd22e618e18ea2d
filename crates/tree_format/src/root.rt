// Root strings.
ghost use Rattle.std.specs.Prelude.{◌≡◌, List, ℕ, length, slice_index, IfOk, IsTrue, ◌↔◌, MatchResult};
ghost use Rattle.tree_format.specs.declared.root.Root.{Root};
ghost use Rattle.tree_format.specs.Strings.{root_string, height_over, no_name};
ghost use Rattle.tree_format.specs.Grammar.{HasWidths, IsRoot};

use crate::Malformed;
use crate::cells::{name_at, number_at};
use bytes::Bytes;
use pond_base::limits::{LEAST_BLOCK, MOST_BLOCK, MOST_OBJECT_BYTES};
use pond_base::{Name, OutOfMemory, Version};
use std::alloc::Global;

/// What the root string of a version says.
#[derive(Clone, Copy, Debug, PartialEq, Eq)]
pub struct Root {
    pub version: Version,
    /// How many bytes the version has.
    pub length: u32,
    /// How many bytes a whole leaf has.
    pub block: u32,
    /// How many levels of inner strings there are.
    pub height: u8,
    /// The name of the one string at the top, or zero bytes where the version is empty.
    pub top: Name,
    /// The name of the root string of the version before, or zero bytes at version 0.
    pub previous: Name,
}

/// The root whose root string the bytes are. Takes no memory.
pub fn read_root(bytes: &[u8]) -> Result<Root, Malformed>
    ensures read { IfOk result (λ root. (bytes.now ≡ root_string root) × IsRoot root) }
    ensures spelled { (root : Root) → IsRoot root → bytes.now ≡ root_string root → MatchResult result (λ found. found ≡ root) (λ _. ⊥) }
{
    if bytes.len() != 54 || bytes[0] != 3 {
        return Err(Malformed);
    }
    let root = root_at(bytes);
    if is_root(&root) {
        Ok(root)
    } else {
        Err(Malformed)
    }
}

/// The root string of a root.
pub fn write_root(alloc: Global, root: &Root) -> Result<Bytes, OutOfMemory>
    requires { IsRoot root.now }
    ensures { IfOk result (λ string. string ≡ root_string root.now) }
{
    let mut string = Vec::new(alloc);
    string.push(3)?;
    string.extend_from_slice(&root.version.0.to_be_bytes())?;
    string.extend_from_slice(&root.length.to_be_bytes())?;
    string.extend_from_slice(&root.block.to_be_bytes())?;
    string.push(root.height)?;
    string.extend_from_slice(&root.top.bytes())?;
    string.extend_from_slice(&root.previous.bytes())?;
    Ok(Bytes::from_vec(string)?)
}

/// Whether the root has a root string. Takes no memory.
pub fn is_root(root: &Root) -> bool
    ensures { IsTrue result ↔ IsRoot root.now }
{
    let version = root.version.0;
    let length = root.length;
    let block = root.block;
    let _top = root.top.bytes();
    let _previous = root.previous.bytes();
    if length > MOST_OBJECT_BYTES as u32 || block < LEAST_BLOCK || block > MOST_BLOCK {
        return false;
    }
    if root.height != height((length + block - 1) / block) {
        return false;
    }
    if length == 0 && !is_zero(&root.top) {
        return false;
    }
    if version == 0 && length != 0 {
        return false;
    }
    if version == 0 && !is_zero(&root.previous) {
        return false;
    }
    true
}

// How many levels of inner strings stand over so many leaves.
fn height(leaves: u32) -> u8
    ensures { result ≡ height_over leaves }
{
    if leaves <= 1 {
        0
    } else if leaves <= 64 {
        1
    } else if leaves <= 4096 {
        2
    } else {
        3
    }
}

// Whether the name is 20 zero bytes.
fn is_zero(name: &Name) -> bool
    ensures { IsTrue result ↔ name.now ≡ no_name }
{
    *name == Name::from_bytes([0; 20])
}

// The fields of 54 bytes, whatever they say.
fn root_at(bytes: &[u8]) -> Root
    requires whole { length bytes.now ≡ 54 }
    requires kind { slice_index bytes.now 0 ≡ 3 }
    ensures string { root_string result ≡ bytes.now }
    ensures widths { HasWidths result }
{
    Root {
        version: Version(number_at(bytes, 1)),
        length: number_at(bytes, 5),
        block: number_at(bytes, 9),
        height: bytes[13],
        top: name_at(bytes, 14),
        previous: name_at(bytes, 34),
    }
}
