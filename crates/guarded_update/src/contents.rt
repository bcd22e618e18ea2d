// Contents behind their lengths.
ghost use Rattle.std.specs.Prelude.{◌≡◌, ◌<◌, ◌^◌, ◌++◌, List, ℕ, length, IfOk, OnOk};
ghost use Rattle.guarded_update.specs.Reads.{Gets};
ghost use Rattle.guarded_update.specs.Spelling.{counted};

use crate::RequestFault;
use bytes::Bytes;
use pond_base::{Fields, OutOfMemory};
use std::alloc::Global;

/// Reads a content behind its length.
pub(crate) fn read_content(alloc: Global, fields: &mut Fields) -> Result<Bytes, RequestFault>
    ensures read { IfOk result (λ content. (fields.old ≡ counted content ++ fields.new) × (length content < 2 ^ 32)) }
    ensures spelled { (content : List ℕ) (rest : List ℕ) → length content < 2 ^ 32 → fields.old ≡ counted content ++ rest → Gets result fields.new content rest }
{
    let count = fields.take_u32()?;
    let content = fields.take_bytes(count as usize)?;
    Ok(Bytes::copy_from_slice(alloc, content)?)
}

/// Adds a content behind its length.
pub(crate) fn write_content(content: &Bytes, out: &mut Vec<u8>) -> Result<(), OutOfMemory>
    requires { length content.now < 2 ^ 32 }
    ensures { OnOk result (out.new.items ≡ out.old.items ++ counted content.now) }
{
    let count = content.len() as u32;
    out.extend_from_slice(&count.to_be_bytes())?;
    out.extend_from_slice(content.as_slice())?;
    Ok(())
}
