// What a read prints.
ghost use Rattle.std.specs.Prelude.{◌≡◌, ℕ, List, string_bytes, IfOk};
ghost use Rattle.object_model.specs.Folds.{versions_after};
ghost use Rattle.object_fold.specs.Executed.{ForAfter};
ghost use Rattle.heartbeat.specs.Joins.{marked};
ghost use Rattle.text_model.specs.Blocks as model;

use object_fold::Objects;
use pond_base::{Label, Name, OutOfMemory, Version};
use std::alloc::Global;

/// What a read of an object prints: the number of the version that is the client's heart, its length and
/// its bytes in hexadecimal digits, or `no heart` where there is no heart or no such version. Fails only
/// where memory runs out.
pub fn read_text(
    alloc: Global,
    objects: &Objects,
    label: &Label,
    heart: Option<(Version, Name)>,
) -> Result<String, OutOfMemory>
    ensures { IfOk result (λ printed. (h : List ℕ → List ℕ) → ForAfter h objects.now (λ block done. (object : List ℕ) → string_bytes printed ≡ model.read_text (model.up_to_heart (marked object heart) (versions_after h block label.now done)))) }
{
    let Some((version, _)) = heart else {
        return Ok(String::from_str(alloc, "no heart\n")?);
    };
    match objects.tree(label, version) {
        Some(tree) => version_line(alloc, version.0, &tree.bytes()?),
        None => Ok(String::from_str(alloc, "no heart\n")?),
    }
}

// The line of a version.
fn version_line(alloc: Global, version: u32, bytes: &[u8]) -> Result<String, OutOfMemory>
    ensures { IfOk result (λ printed. string_bytes printed ≡ model.version_line version bytes.now) }
{
    let length = bytes.len();
    let digits = printed_bytes(alloc, bytes)?;
    Ok(format!(in alloc; "version {version} length {length} {digits}\n")?)
}

// Bytes as hexadecimal digits, and none as a dash.
fn printed_bytes(alloc: Global, bytes: &[u8]) -> Result<String, OutOfMemory>
    ensures { IfOk result (λ printed. string_bytes printed ≡ model.printed_bytes bytes.now) }
{
    if bytes.is_empty() {
        return Ok(String::from_str(alloc, "-")?);
    }
    Ok(hex::encode(alloc, bytes)?)
}
