//! Rows of a block, as parts for its rebuilding.

ghost use Rattle.std.specs.Prelude.{◌≡◌, ℕ, ◌+◌, ◌<◌, ◌≤◌, length, map, IfOk};
ghost use Rattle.std.specs.List.{range_with_len};
ghost use Rattle.cauchy_code.specs.Code.{part_length, AllLong};

use bytes::Bytes;
use cauchy_code::{Code, Inverses};
use pond_base::OutOfMemory;
use std::alloc::Global;

/// The rows from `from` on, as many as rebuild.
pub fn rows_from(
    alloc: Global,
    code: &Code,
    from: u8,
    block: &[u8],
) -> Result<Vec<(u8, Bytes)>, OutOfMemory>
    requires there { from + code.now.m ≤ code.now.n }
    requires few { code.now.n ≤ 64 }
    ensures indexes { IfOk result (λ v. map (λ p. p.0) v.items ≡ range_with_len from code.now.m) }
    ensures long { IfOk result (λ v. AllLong (part_length code.now.m (length block.now)) (map (λ p. p.1) v.items)) }
{
    let mut parts = Vec::new(alloc);
    for k in 0..code.m() {
        let row = code.row(alloc, from + k, block)?;
        let bytes = Bytes::copy_from_slice(alloc, &row)?;
        parts.push((from + k, bytes))?;
    }
    Ok(parts)
}

/// The block of which these are the rows from `from` on.
pub fn rebuild(
    alloc: Global,
    code: &Code,
    from: u8,
    size: usize,
    parts: &[(u8, Bytes)],
) -> Result<Vec<u8>, OutOfMemory>
    requires there { from + code.now.m ≤ code.now.n }
    requires indexes { map (λ p. p.0) parts.now ≡ range_with_len from code.now.m }
    requires long { AllLong (part_length code.now.m size) (map (λ p. p.1) parts.now) }
{
    code.rebuild(alloc, size, parts)
}

/// The same with tables that are kept.
pub fn rebuild_kept(
    inverses: &mut Inverses,
    from: u8,
    size: usize,
    parts: &[(u8, Bytes)],
) -> Result<Vec<u8>, OutOfMemory>
    requires there { from + inverses.old.code.m ≤ inverses.old.code.n }
    requires indexes { map (λ p. p.0) parts.now ≡ range_with_len from inverses.old.code.m }
    requires long { AllLong (part_length inverses.old.code.m size) (map (λ p. p.1) parts.now) }
    ensures { inverses.new.code ≡ inverses.old.code }
{
    inverses.rebuild(size, parts)
}
