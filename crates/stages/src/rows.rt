// The rows of the strings of a job.
ghost use Rattle.std.specs.Prelude.{◌≡◌, IfOk, map};
ghost use Rattle.stages.specs.Rows.{rows_of};

use bytes::Bytes;
use cauchy_code::Code;
use pond_base::{Items, OutOfMemory};
use std::alloc::Global;

/// All rows of a string, in the order of their indexes.
fn rows_of(alloc: Global, code: &Code, string: &[u8]) -> Result<Items<Bytes>, OutOfMemory>
    ensures { IfOk result (λ rows. rows ≡ rows_of code.now string.now) }
{
    let mut rows = Vec::new(alloc);
    for row in code.encode(alloc, string)? {
        rows.push(Bytes::from_vec(row)?)?;
    }
    Ok(Items::from_vec(rows))
}

/// All rows of each string.
pub fn all_rows(
    alloc: Global,
    code: &Code,
    strings: &[Bytes],
) -> Result<Items<Items<Bytes>>, OutOfMemory>
    ensures { IfOk result (λ rows. rows ≡ map (rows_of code.now) strings.now) }
{
    let mut rows = Vec::new(alloc);
    for string in strings {
        rows.push(rows_of(alloc, code, string.as_slice())?)?;
    }
    Ok(Items::from_vec(rows))
}
