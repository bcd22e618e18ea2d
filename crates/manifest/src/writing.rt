// The writing of manifests.
ghost use Rattle.std.specs.Prelude.{◌≡◌, ◌++◌, IfOk, OnOk, IsTrue};
ghost use Rattle.manifest.specs.Grammar.{is_manifest};
ghost use Rattle.manifest.specs.Spelling.{code_string, entry_string, manifest_string};

use crate::{Entry, Manifest};
use bytes::Bytes;
use pond_base::OutOfMemory;
use std::alloc::Global;

/// The string of a manifest that is in the grammar: 1 <= m <= 32, m <= n <= 64, its version is from 1
/// on, each entry has a length from 1 on and the names of n fragments, and the entries can be counted
/// in four bytes.
pub fn write(alloc: Global, manifest: &Manifest) -> Result<Bytes, OutOfMemory>
    requires { IsTrue (is_manifest manifest.now) }
    ensures { IfOk result (λ string. string ≡ manifest_string manifest.now) }
{
    let mut out = Vec::new(alloc);
    out.push(5)?;
    write_code(&mut out, manifest.systematic)?;
    out.push(manifest.m)?;
    out.push(manifest.n)?;
    out.extend_from_slice(&manifest.version.0.to_be_bytes())?;
    out.extend_from_slice(&manifest.object.bytes())?;
    out.extend_from_slice(&(manifest.entries.len() as u32).to_be_bytes())?;
    for entry in manifest.entries.as_slice() {
        write_entry(&mut out, entry)?;
    }
    Ok(Bytes::from_vec(out)?)
}

// Adds the bytes that tell the code: 1, or 2 and 2 where it is systematic.
fn write_code(out: &mut Vec<u8>, systematic: bool) -> Result<(), OutOfMemory>
    ensures { OnOk result (out.new.items ≡ out.old.items ++ code_string systematic) }
{
    if systematic {
        out.push(2)?;
        out.push(2)?;
    } else {
        out.push(1)?;
    }
    Ok(())
}

// Adds an entry.
fn write_entry(out: &mut Vec<u8>, entry: &Entry) -> Result<(), OutOfMemory>
    ensures { OnOk result (out.new.items ≡ out.old.items ++ entry_string entry.now) }
{
    out.extend_from_slice(&entry.name.bytes())?;
    out.extend_from_slice(&entry.length.to_be_bytes())?;
    for name in entry.fragments.as_slice() {
        out.extend_from_slice(&name.bytes())?;
    }
    Ok(())
}
