//! The indexes of the parts, and their order: those that are parts of the block first.

ghost use Rattle.std.specs.Prelude.{◌≡◌, ◌++◌, IfOk, map};
ghost use Rattle.std.specs.List.{concat};
ghost use Rattle.cauchy_code.specs.Systematic.{given, others};

use crate::Code;
use bytes::Bytes;
use pond_base::OutOfMemory;
use std::alloc::Global;

/// The indexes of the parts.
pub fn indexes(alloc: Global, parts: &[(u8, Bytes)]) -> Result<Vec<u8>, OutOfMemory>
    ensures { IfOk result (λ v. v.items ≡ map (λ p. p.0) parts.now) }
{
    let mut indexes = Vec::with_capacity(alloc, parts.len())?;
    for part in parts {
        indexes.push(part.0)?;
    }
    Ok(indexes)
}

/// The indexes whose rows are parts.
pub fn given(alloc: Global, code: &Code, xs: &[u8]) -> Result<Vec<u8>, OutOfMemory>
    ensures { IfOk result (λ v. v.items ≡ given code.now (λ i. i) xs.now) }
{
    let indexes = xs
        .iter()
        .copied()
        .filter(|i| code.is_part(*i))
        .collect(alloc)?;
    Ok(indexes)
}

/// The indexes whose rows are sums.
pub fn others(alloc: Global, code: &Code, xs: &[u8]) -> Result<Vec<u8>, OutOfMemory>
    ensures { IfOk result (λ v. v.items ≡ others code.now (λ i. i) xs.now) }
{
    let indexes = xs
        .iter()
        .copied()
        .filter(|i| !code.is_part(*i))
        .collect(alloc)?;
    Ok(indexes)
}

/// The bytes of the rows one after another, those that are parts first.
pub fn joined(alloc: Global, code: &Code, parts: &[(u8, Bytes)]) -> Result<Vec<u8>, OutOfMemory>
    ensures { IfOk result (λ v. v.items ≡ concat (map (λ p. p.1) (given code.now (λ p. p.0) parts.now ++ others code.now (λ p. p.0) parts.now))) }
{
    let mut rows = Vec::new(alloc);
    let mut sums = Vec::new(alloc);
    for part in parts {
        if code.is_part(part.0) {
            rows.extend_from_slice(&part.1)?;
        } else {
            sums.extend_from_slice(&part.1)?;
        }
    }
    rows.extend_from_slice(&sums)?;
    Ok(rows)
}
