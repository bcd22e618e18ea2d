// The execution of one request.
ghost use Rattle.std.specs.Prelude.{◌≡◌, ◌≤◌, ◌<◌, ◌+◌, ◌^◌, ◌++◌, ◌∷◌, [], ℕ, List, length, map, Some, Contains, IfOk, IfErr, IfSome, OnOk};
ghost use Rattle.block_names.specs.Growth.{keep_all, Grew, IsClashIn, Keeps};
ghost use Rattle.block_names.specs.Clashes.{AreHeld};
ghost use Rattle.guarded_update.specs.declared.request.Request.{Request as Asked};
ghost use Rattle.guarded_update.specs.Fitting.{IsRequest};
ghost use Rattle.guarded_update.specs.Spelling.{request_string};
ghost use Rattle.object_fold.specs.Executed.{AreKnown};
ghost use Rattle.ring_model.specs.Messages.{Ring};
ghost use Rattle.ring_model.specs.Member.{answers};
ghost use Rattle.message_model.specs.Meaning.{packet};
ghost use Rattle.message_model.specs.Reading.{IsRingOf};
ghost use Rattle.fold_model.specs.Folds.{namings_by};
ghost use Rattle.fold_model.specs.Rings.{FoldsAs};
ghost use Rattle.pond_node.specs.Answers.{AreSeated};
ghost use Rattle.pond_node.specs.Standing.{AreOf, ForBefore, AddsOne};

use crate::answering::{reply, tell};
use block_names::{Book, Hash160, NameFault};
use bytes::Bytes;
use guarded_update::{Request, RequestFault, read};
use object_fold::{Objects, Outcome};
use pond_base::limits::MOST_CLIENTS;
use pond_base::{Items, OutOfMemory};
use ring_message::Out;
use std::alloc::Global;

/// Executes the request of a string, keeps its outcome, and adds what is owed for it: the reply to its
/// client and, where it made a version, that version to every client. A string that spells no request
/// does nothing.
pub(crate) fn execute<H: Hash160 + Drop>(
    alloc: Global,
    book: &mut Book<H>,
    clients: u8,
    string: &Bytes,
    objects: &mut Objects,
    outcomes: &mut Items<Outcome>,
    out: &mut Vec<Out>,
) -> Result<(), NameFault>
    requires clients { clients ≤ MOST_CLIENTS }
    requires known { AreKnown H.naming book.old.held objects.old }
    requires room { length objects.old.made + 1 < 2 ^ 32 }
    ensures done { OnOk result (ForBefore H.naming objects.old outcomes.old string.now (λ block before. AreOf H.naming block (before ++ string.now ∷ []) objects.new outcomes.new)) }
    ensures sent { OnOk result (ForBefore H.naming objects.old outcomes.old string.now (λ block before. (g : Ring) (i : ℕ) → IsRingOf H.naming g → FoldsAs H.naming block g → g.clients ≡ clients
        → map (packet i) out.new.items ≡ map (packet i) out.old.items ++ answers g i (before ++ string.now ∷ []))) }
    ensures seats { OnOk result (AreSeated out.old.items → AreSeated out.new.items) }
    ensures known { OnOk result (AreKnown H.naming book.new.held objects.new) }
    ensures one { OnOk result (AddsOne objects.old objects.new outcomes.old outcomes.new) }
    ensures keeps { Keeps book.old.held book.new.held }
    ensures held { OnOk result (ForBefore H.naming objects.old outcomes.old string.now (λ block before. book.new.held ≡ keep_all H.naming (namings_by H.naming block (before ++ string.now ∷ [])) book.old.held)) }
    ensures all { OnOk result (ForBefore H.naming objects.old outcomes.old string.now (λ block before. AreHeld H.naming book.new.held (namings_by H.naming block (before ++ string.now ∷ [])))) }
    ensures grew { ForBefore H.naming objects.old outcomes.old string.now (λ block before. Grew H.naming book.old.held (Contains (namings_by H.naming block (before ++ string.now ∷ []))) book.new.held) }
    ensures fault { IfErr result (λ fault. ForBefore H.naming objects.old outcomes.old string.now (λ block before. IsClashIn H.naming book.new.held (Contains (namings_by H.naming block (before ++ string.now ∷ []))) fault)) }
{
    let Some(request) = asked(alloc, string)? else {
        return Ok(());
    };
    let outcome = match objects.execute(book, &request) {
        Ok(outcome) => outcome,
        Err(fault) => return Err(fault),
    };
    reply(alloc, &request, &outcome, out)?;
    match tell(alloc, book, clients, &request.label, &outcome, out) {
        Ok(()) => (),
        Err(fault) => return Err(fault),
    }
    outcomes.push(outcome)?;
    Ok(())
}

// The request of a string, and `None` exactly where it spells none.
fn asked(alloc: Global, string: &Bytes) -> Result<Option<Request>, OutOfMemory>
    ensures read { IfOk result (λ found. IfSome found (λ request. (string.now ≡ request_string request) × IsRequest request)) }
    ensures spelled { (request : Asked) → IsRequest request → string.now ≡ request_string request → IfOk result (λ found. found ≡ Some request) }
{
    match read(alloc, string.as_slice()) {
        Ok(request) => Ok(Some(request)),
        Err(RequestFault::BadRequest) => Ok(None),
        Err(RequestFault::Memory) => Err(OutOfMemory),
    }
}
