// The reading of requests.
ghost use Rattle.std.specs.Prelude.{◌≡◌, ◌<◌, ◌++◌, List, ℕ, length, IfOk, IsTrue};
ghost use Rattle.std.specs.List.{AllByRecursion};
ghost use Rattle.pond_base.specs.Label.{is_label};
ghost use Rattle.guarded_update.specs.declared.request.Request.{Request};
ghost use Rattle.guarded_update.specs.declared.update.Update.{Update};
ghost use Rattle.guarded_update.specs.Fitting.{IsClause, HasPlaces, IsRequest};
ghost use Rattle.guarded_update.specs.Reads.{Gets, Finds};
ghost use Rattle.guarded_update.specs.Spelling.{label_field, update_field, request_fields, request_string};

use crate::fitting::{fits, kind_of};
use crate::spelled::read_items;
use crate::{Request, Update};
use pond_base::{BadLabel, ClientId, Fields, Label, OutOfMemory, Short};
use std::alloc::{AllocError, AllocFailed, Global};

/// Why bytes give no request.
#[derive(Clone, Copy, Debug, PartialEq, Eq)]
pub enum RequestFault {
    /// The bytes as a whole are no request's spelling.
    BadRequest,
    /// Memory ran out, which says nothing of the bytes.
    Memory,
}

impl From<Short> for RequestFault {
    ghost use Rattle.std.specs.Prelude.{◌≡◌};
    ghost use Rattle.guarded_update.specs.declared.reading.RequestFault.TheVariants.{BadRequest};

    ghost from_gives = { λ _ fault. fault ≡ BadRequest };

    fn from(_error: Short) -> RequestFault {
        RequestFault::BadRequest
    }
}

impl From<BadLabel> for RequestFault {
    ghost use Rattle.std.specs.Prelude.{◌≡◌};
    ghost use Rattle.guarded_update.specs.declared.reading.RequestFault.TheVariants.{BadRequest};

    ghost from_gives = { λ _ fault. fault ≡ BadRequest };

    fn from(_error: BadLabel) -> RequestFault {
        RequestFault::BadRequest
    }
}

impl From<OutOfMemory> for RequestFault {
    ghost use Rattle.std.specs.Prelude.{◌≡◌};
    ghost use Rattle.guarded_update.specs.declared.reading.RequestFault.TheVariants.{Memory};

    ghost from_gives = { λ _ fault. fault ≡ Memory };

    fn from(_error: OutOfMemory) -> RequestFault {
        RequestFault::Memory
    }
}

impl From<AllocError> for RequestFault {
    ghost use Rattle.std.specs.Prelude.{◌≡◌};
    ghost use Rattle.guarded_update.specs.declared.reading.RequestFault.TheVariants.{Memory};

    ghost from_gives = { λ _ fault. fault ≡ Memory };

    fn from(_error: AllocError) -> RequestFault {
        RequestFault::Memory
    }
}

impl<T: Drop> From<AllocFailed<T>> for RequestFault {
    ghost use Rattle.std.specs.Prelude.{◌≡◌};
    ghost use Rattle.guarded_update.specs.declared.reading.RequestFault.TheVariants.{Memory};

    ghost from_gives = { λ _ fault. fault ≡ Memory };

    fn from(_error: AllocFailed<T>) -> RequestFault {
        RequestFault::Memory
    }
}

/// The request that the bytes spell as a whole. The answer is `BadRequest` or `Memory` exactly where
/// there is none, or memory ran out.
pub fn read(alloc: Global, bytes: &[u8]) -> Result<Request, RequestFault>
    ensures read { IfOk result (λ request. (bytes.now ≡ request_string request) × IsRequest request) }
    ensures spelled { (request : Request) → IsRequest request → bytes.now ≡ request_string request → Finds result request }
{
    let mut fields = Fields::new(bytes);
    let kind = fields.take_u8()?;
    let request = read_fields(alloc, &mut fields)?;
    if fields.left() != 0 {
        return Err(RequestFault::BadRequest);
    }
    if kind != kind_of(&request.update) {
        return Err(RequestFault::BadRequest);
    }
    if !fits(&request) {
        return Err(RequestFault::BadRequest);
    }
    Ok(request)
}

// Reads the fields of a request.
fn read_fields(alloc: Global, fields: &mut Fields) -> Result<Request, RequestFault>
    ensures read { IfOk result (λ request. (fields.old ≡ request_fields request ++ fields.new) × HasPlaces request) }
    ensures spelled { (request : Request) (rest : List ℕ) → HasPlaces request → fields.old ≡ request_fields request ++ rest → Gets result fields.new request rest }
{
    let client = ClientId(fields.take_u8()?);
    let number = fields.take_u32()?;
    let label = read_label(fields)?;
    let update = read_update(alloc, fields)?;
    Ok(Request {
        client,
        number,
        label,
        update,
    })
}

// Reads the clauses of an update behind a byte that counts them.
fn read_update(alloc: Global, fields: &mut Fields) -> Result<Update, RequestFault>
    ensures read { IfOk result (λ update. (fields.old ≡ update_field update.clauses ++ fields.new) × (length update.clauses < 256) × AllByRecursion IsClause update.clauses) }
    ensures spelled { (update : Update) (rest : List ℕ) → AllByRecursion IsClause update.clauses → fields.old ≡ update_field update.clauses ++ rest → Gets result fields.new update rest }
{
    let count = fields.take_u8()?;
    let clauses = read_items(alloc, fields, count)?;
    Ok(Update { clauses })
}

// Reads a label behind a byte with its length.
fn read_label(fields: &mut Fields) -> Result<Label, RequestFault>
    ensures read { IfOk result (λ label. (fields.old ≡ label_field label ++ fields.new) × IsTrue (is_label label)) }
    ensures spelled { (label : List ℕ) (rest : List ℕ) → IsTrue (is_label label) → fields.old ≡ label_field label ++ rest → Gets result fields.new label rest }
{
    let count = fields.take_u8()?;
    let bytes = fields.take_bytes(usize::from(count))?;
    Ok(Label::read(bytes)?)
}
