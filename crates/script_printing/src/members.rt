// What a member shows.
ghost use Rattle.std.specs.Prelude.{◌≡◌, ◌+◌, ℕ, List, length, take, slice_get, Some, string_bytes, IfOk, IfSome};
ghost use Rattle.guarded_update.specs.declared.request.Request.{Request as Asked};
ghost use Rattle.guarded_update.specs.Fitting.{IsRequest};
ghost use Rattle.guarded_update.specs.Spelling.{request_string};
ghost use Rattle.object_model.specs.Folds.{Effect};
ghost use Rattle.object_model.specs.Outcomes.{outcome_of};
ghost use Rattle.fold_model.specs.Folds.{requests_of};
ghost use Rattle.text_model.specs.Blocks as model;
ghost use Rattle.script_printing.specs.Executed.{ForExecuted, line_after};

use crate::outcomes::outcome_text;
use bytes::Bytes;
use guarded_update::{Request, RequestFault, read};
use object_fold::Outcome;
use pond_base::{MemberId, OutOfMemory, Seq};
use pond_node::Node;
use std::alloc::Global;

/// What a correct member executed: how many requests, and for each slot a line with the client and the
/// number of its request and what became of it. Fails only where memory runs out.
pub fn member_text(alloc: Global, member: MemberId, node: &Node) -> Result<String, OutOfMemory>
    ensures { IfOk result (λ printed. ForExecuted node.now (λ h block strings. string_bytes printed ≡ model.member_text h block member (requests_of strings))) }
{
    let number = member.0;
    let count = node.executed();
    let mut text = format!(in alloc; "member {number} executed {count}\n")?;
    for place in 0..count {
        let line = slot_line(alloc, node, Seq(place + 1))?;
        text.push_str(&line)?;
    }
    Ok(text)
}

/// What is shown of a faulty member, which keeps nothing to show. Fails only where memory runs out.
pub fn faulty_text(alloc: Global, member: MemberId) -> Result<String, OutOfMemory>
    ensures { IfOk result (λ printed. string_bytes printed ≡ model.faulty_text member) }
{
    let number = member.0;
    Ok(format!(in alloc; "member {number} faulty\n")?)
}

// The line of a slot, and nothing where the slot is not executed.
fn slot_line(alloc: Global, node: &Node, slot: Seq) -> Result<String, OutOfMemory>
    ensures { IfOk result (λ printed. ForExecuted node.now (λ h block strings. (place : ℕ) (string : List ℕ) → slot.0 ≡ place + 1 → slice_get strings place ≡ Some string
        → string_bytes printed ≡ line_after h block (take place strings) string)) }
{
    let Some(string) = node.request(slot) else {
        return Ok(String::new(alloc));
    };
    let Some(outcome) = node.outcome(slot) else {
        return Ok(String::new(alloc));
    };
    let Some(request) = asked(alloc, string)? else {
        return Ok(String::new(alloc));
    };
    executed_line(alloc, slot.0, &request, outcome)
}

// The request that a string spells, and `None` where it spells none.
fn asked(alloc: Global, string: &Bytes) -> Result<Option<Request>, OutOfMemory>
    ensures read { IfOk result (λ found. IfSome found (λ request. (string.now ≡ request_string request) × IsRequest request)) }
    ensures spelled { (request : Asked) → IsRequest request → string.now ≡ request_string request → IfOk result (λ found. found ≡ Some request) }
{
    match read(alloc, string.as_slice()) {
        Ok(request) => Ok(Some(request)),
        Err(RequestFault::BadRequest) => Ok(None),
        Err(RequestFault::Memory) => Err(OutOfMemory),
    }
}

// The line of an executed request: its slot, its client, its number and its outcome.
fn executed_line(
    alloc: Global,
    slot: u32,
    request: &Request,
    outcome: &Outcome,
) -> Result<String, OutOfMemory>
    ensures { IfOk result (λ printed. (h : List ℕ → List ℕ) (block : ℕ) (effect : Effect) (versions : List (List ℕ)) → outcome.now ≡ outcome_of h block effect versions
        → string_bytes printed ≡ model.slot_line slot request.now (model.outcome_text (length versions) effect)) }
{
    let client = request.client.0;
    let number = request.number;
    let outcome = outcome_text(alloc, outcome)?;
    Ok(format!(in alloc; "{slot} c{client} {number} {outcome}\n")?)
}
