// The reading of manifests.
ghost use Rattle.std.specs.Prelude.{◌≡◌, ◌++◌, Bool, List, ℕ, length, IfOk, IsTrue};
ghost use Rattle.std.specs.List.{flat_map, list_all};
ghost use Rattle.manifest.specs.declared.manifest.Entry.{Entry};
ghost use Rattle.manifest.specs.declared.manifest.Head.{Head};
ghost use Rattle.manifest.specs.declared.manifest.Manifest.{Manifest};
ghost use Rattle.manifest.specs.Decoding.{manifest_in};
ghost use Rattle.manifest.specs.Grammar.{is_name, is_entry, is_head, is_manifest};
ghost use Rattle.manifest.specs.Reads.{Gets};
ghost use Rattle.manifest.specs.Spelling.{name_string, entry_string, code_string, head_string, manifest_string};

use crate::fault::ReadFault;
use crate::manifest::Head;
use crate::{Entry, Manifest};
use pond_base::limits::{MOST_PARTS, MOST_ROWS};
use pond_base::{Fields, Items, Name, OutOfMemory, Version};
use std::alloc::Global;

/// The manifest that the bytes spell as a whole, and `None` exactly where they spell none.
pub fn read(alloc: Global, bytes: &[u8]) -> Result<Option<Manifest>, OutOfMemory>
    ensures { IfOk result (λ found. found ≡ manifest_in bytes.now) }
{
    let mut fields = Fields::new(bytes);
    match read_manifest(alloc, &mut fields) {
        Ok(manifest) => {
            if fields.left() == 0 {
                Ok(Some(manifest))
            } else {
                Ok(None)
            }
        }
        Err(ReadFault::Foreign) => Ok(None),
        Err(ReadFault::Memory) => Err(OutOfMemory),
    }
}

// Reads the manifest in front.
fn read_manifest(alloc: Global, fields: &mut Fields) -> Result<Manifest, ReadFault>
    ensures read { IfOk result (λ manifest. (fields.old ≡ manifest_string manifest ++ fields.new) × IsTrue (is_manifest manifest)) }
    ensures spelled { (manifest : Manifest) (rest : List ℕ) → IsTrue (is_manifest manifest)
        → fields.old ≡ manifest_string manifest ++ rest → Gets result fields.new manifest rest }
{
    let head = read_head(fields)?;
    let entries = read_entries(alloc, fields, head.n, head.count)?;
    Ok(Manifest {
        systematic: head.systematic,
        m: head.m,
        n: head.n,
        version: head.version,
        object: head.object,
        entries,
    })
}

// Reads what stands in front of the entries.
fn read_head(fields: &mut Fields) -> Result<Head, ReadFault>
    ensures read { IfOk result (λ head. (fields.old ≡ head_string head ++ fields.new) × IsTrue (is_head head)) }
    ensures spelled { (head : Head) (rest : List ℕ) → IsTrue (is_head head)
        → fields.old ≡ head_string head ++ rest → Gets result fields.new head rest }
{
    if fields.take_u8()? != 5 {
        return Err(ReadFault::Foreign);
    }
    let head = Head {
        systematic: read_code(fields)?,
        m: fields.take_u8()?,
        n: fields.take_u8()?,
        version: Version(fields.take_u32()?),
        object: fields.take_name()?,
        count: fields.take_u32()?,
    };
    if !fits(&head) {
        return Err(ReadFault::Foreign);
    }
    Ok(head)
}

// Whether the numbers of a head are in their ranges.
fn fits(head: &Head) -> bool
    ensures { result ≡ is_head head.now }
{
    let m = head.m;
    let n = head.n;
    let version = head.version.0;
    let _count = head.count;
    let _object = head.object.bytes();
    1 <= m && m <= MOST_PARTS && m <= n && n <= MOST_ROWS && 1 <= version
}

// Reads the bytes that tell the code: 1, or 2 and 2 where it is systematic.
fn read_code(fields: &mut Fields) -> Result<bool, ReadFault>
    ensures read { IfOk result (λ systematic. fields.old ≡ code_string systematic ++ fields.new) }
    ensures spelled { (systematic : Bool) (rest : List ℕ) → fields.old ≡ code_string systematic ++ rest → Gets result fields.new systematic rest }
{
    match fields.take_u8()? {
        1 => Ok(false),
        2 => match fields.take_u8()? {
            2 => Ok(true),
            _ => Err(ReadFault::Foreign),
        },
        _ => Err(ReadFault::Foreign),
    }
}

// Reads so many entries, each with the names of n fragments.
fn read_entries(
    alloc: Global,
    fields: &mut Fields,
    n: u8,
    count: u32,
) -> Result<Items<Entry>, ReadFault>
    ensures read { IfOk result (λ entries. (fields.old ≡ flat_map entry_string entries ++ fields.new) × (length entries ≡ count) × IsTrue (list_all (is_entry n) entries)) }
    ensures spelled { (entries : List Entry) (rest : List ℕ) → length entries ≡ count → IsTrue (list_all (is_entry n) entries)
        → fields.old ≡ flat_map entry_string entries ++ rest → Gets result fields.new entries rest }
{
    let mut entries = Items::new(alloc);
    for _index in 0..count {
        entries.push(read_entry(alloc, fields, n)?)?;
    }
    Ok(entries)
}

// Reads an entry with the names of n fragments.
fn read_entry(alloc: Global, fields: &mut Fields, n: u8) -> Result<Entry, ReadFault>
    ensures read { IfOk result (λ entry. (fields.old ≡ entry_string entry ++ fields.new) × IsTrue (is_entry n entry)) }
    ensures spelled { (entry : Entry) (rest : List ℕ) → IsTrue (is_entry n entry)
        → fields.old ≡ entry_string entry ++ rest → Gets result fields.new entry rest }
{
    let name = fields.take_name()?;
    let length = fields.take_u32()?;
    if length == 0 {
        return Err(ReadFault::Foreign);
    }
    let fragments = read_names(alloc, fields, n)?;
    Ok(Entry {
        name,
        length,
        fragments,
    })
}

// Reads so many names.
fn read_names(alloc: Global, fields: &mut Fields, count: u8) -> Result<Items<Name>, ReadFault>
    ensures read { IfOk result (λ names. (fields.old ≡ flat_map name_string names ++ fields.new) × (length names ≡ count) × IsTrue (list_all is_name names)) }
    ensures spelled { (names : List (List ℕ)) (rest : List ℕ) → length names ≡ count → IsTrue (list_all is_name names)
        → fields.old ≡ flat_map name_string names ++ rest → Gets result fields.new names rest }
{
    let mut names = Items::new(alloc);
    for _index in 0..count {
        names.push(fields.take_name()?)?;
    }
    Ok(names)
}
