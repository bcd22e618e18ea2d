// The writing of requests.
ghost use Rattle.std.specs.Prelude.{◌≡◌, IfOk, OnOk, IsTrue};
ghost use Rattle.guarded_update.specs.Fitting.{IsRequest, request_fits};
ghost use Rattle.guarded_update.specs.Spelling.{request_string};

use crate::Request;
use crate::fitting::kind_of;
use crate::spelled::write_items;
use bytes::Bytes;
use pond_base::OutOfMemory;
use std::alloc::Global;

/// The spelling of a request that fits. What is written has a spelling, so that it is read again.
pub fn write(alloc: Global, request: &Request) -> Result<Bytes, OutOfMemory>
    requires { IsTrue (request_fits request.now) }
    ensures string { IfOk result (λ string. string ≡ request_string request.now) }
    ensures allowed { OnOk result (IsRequest request.now) }
{
    let label = request.label.bytes();
    let clauses = request.update.clauses.as_slice();
    let mut out = Vec::new(alloc);
    out.push(kind_of(&request.update))?;
    out.push(request.client.0)?;
    out.extend_from_slice(&request.number.to_be_bytes())?;
    out.push(label.len() as u8)?;
    out.extend_from_slice(label)?;
    out.push(clauses.len() as u8)?;
    write_items(clauses, &mut out)?;
    Ok(Bytes::from_vec(out)?)
}
