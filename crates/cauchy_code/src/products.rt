//! The table of products, which is made only where parts are long enough to be summed by it.

ghost use Rattle.std.specs.Prelude.{◌<◌, length, IfOk, OnOk};
ghost use Rattle.gf_lanes.specs.ProductRows.{AreProducts, Serves};

use gf_lanes::{LANES, TABLE_BYTES, fill_products};
use pond_base::OutOfMemory;
use std::alloc::Global;

/// The table for parts of `part_len` bytes, and no bytes where these are too short for it.
pub fn products_for(alloc: Global, part_len: usize) -> Result<Vec<u8>, OutOfMemory>
    ensures { IfOk result (λ table. Serves table.items part_len) }
{
    if part_len < LANES {
        return Ok(Vec::new(alloc));
    }
    let mut table = vec![in alloc; 0; TABLE_BYTES]?;
    fill_products(&mut table);
    Ok(table)
}

/// Makes the table where there is none yet and parts of `part_len` bytes need it.
pub fn serve(alloc: Global, table: &mut Vec<u8>, part_len: usize) -> Result<(), OutOfMemory>
    requires { 0 < length table.old.items → AreProducts table.old.items }
    ensures made { 0 < length table.new.items → AreProducts table.new.items }
    ensures serves { OnOk result (Serves table.new.items part_len) }
{
    if part_len >= LANES && table.is_empty() {
        *table = products_for(alloc, part_len)?;
    }
    Ok(())
}
