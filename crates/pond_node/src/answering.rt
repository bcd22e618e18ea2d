// What is told of an executed request.
ghost use Rattle.std.specs.Prelude.{◌≡◌, ◌≤◌, ◌++◌, ◌∷◌, [], ℕ, map, Contains, IfOk, IfErr, OnOk};
ghost use Rattle.block_names.specs.Growth.{keep_all, Grew, IsClashIn};
ghost use Rattle.block_names.specs.Clashes.{AreHeld};
ghost use Rattle.guarded_update.specs.Fitting.{IsRequest};
ghost use Rattle.object_model.specs.Trees.{object_name};
ghost use Rattle.ring_message.specs.Grammar.{OutcomeFits};
ghost use Rattle.ring_message.specs.Spelling.{outcome_string};
ghost use Rattle.ring_model.specs.Messages.{Ring, to_clients, Member as AMember, Heart as AHeart};
ghost use Rattle.ring_model.specs.Member.{hearts};
ghost use Rattle.message_model.specs.Meaning.{meaning, packet};
ghost use Rattle.fold_model.specs.Folds.{mark_of, label_named};
ghost use Rattle.pond_node.specs.Answers.{reply_from, AreSeated};

use block_names::{Book, Hash160, NameFault};
use bytes::Bytes;
use guarded_update::Request;
use object_fold::Outcome;
use pond_base::limits::MOST_CLIENTS;
use pond_base::{ClientId, Label, Name, OutOfMemory, Party, Version};
use ring_message::{Message, Out, write};
use std::alloc::Global;
use tree_format::write_label;

/// Adds the reply to the client of a request.
pub(crate) fn reply(
    alloc: Global,
    request: &Request,
    outcome: &Outcome,
    out: &mut Vec<Out>,
) -> Result<(), OutOfMemory>
    requires request { IsRequest request.now }
    requires outcome { OutcomeFits outcome.now }
    ensures sent { OnOk result ((i : ℕ) → map (packet i) out.new.items ≡ map (packet i) out.old.items ++ reply_from i request.now.client.0 request.now.number (outcome_string outcome.now) ∷ []) }
    ensures seats { OnOk result (AreSeated out.old.items → AreSeated out.new.items) }
{
    let message = Message::Reply {
        number: request.number,
        outcome: *outcome,
    };
    let bytes = write(alloc, &message)?;
    out.push(Out {
        to: Party::Client(request.client),
        bytes,
    })?;
    Ok(())
}

/// Adds the version that an outcome made of the object of a label, to every client. Where one was made
/// the string of the label is named.
pub(crate) fn tell<H: Hash160 + Drop>(
    alloc: Global,
    book: &mut Book<H>,
    clients: u8,
    label: &Label,
    outcome: &Outcome,
    out: &mut Vec<Out>,
) -> Result<(), NameFault>
    requires clients { clients ≤ MOST_CLIENTS }
    requires outcome { OutcomeFits outcome.now }
    ensures sent { OnOk result ((g : Ring) (i : ℕ) → g.clients ≡ clients → map (packet i) out.new.items ≡ map (packet i) out.old.items ++ hearts g i (mark_of (object_name H.naming label.now) outcome.now)) }
    ensures seats { OnOk result (AreSeated out.old.items → AreSeated out.new.items) }
    ensures held { OnOk result (book.new.held ≡ keep_all H.naming (label_named label.now outcome.now) book.old.held) }
    ensures all { OnOk result (AreHeld H.naming book.new.held (label_named label.now outcome.now)) }
    ensures grew { Grew H.naming book.old.held (Contains (label_named label.now outcome.now)) book.new.held }
    ensures fault { IfErr result (IsClashIn H.naming book.new.held (Contains (label_named label.now outcome.now))) }
{
    match *outcome {
        Outcome::Made { version, name } => {
            let string = write_label(alloc, label)?;
            let object = book.name(string.as_slice())?;
            Ok(tell_made(alloc, clients, object, version, name, out)?)
        }
        Outcome::NoClause | Outcome::OutOfRange | Outcome::TooLong | Outcome::Repeat => Ok(()),
    }
}

// Adds a version of an object, to every client.
fn tell_made(
    alloc: Global,
    clients: u8,
    object: Name,
    version: Version,
    name: Name,
    out: &mut Vec<Out>,
) -> Result<(), OutOfMemory>
    requires clients { clients ≤ MOST_CLIENTS }
    requires version { 1 ≤ version.0 }
    ensures sent { OnOk result ((g : Ring) (i : ℕ) → g.clients ≡ clients → map (packet i) out.new.items ≡ map (packet i) out.old.items ++ to_clients g (AMember i) (AHeart object version.0 name)) }
    ensures seats { OnOk result (AreSeated out.old.items → AreSeated out.new.items) }
{
    let message = Message::Heart {
        object,
        version,
        name,
    };
    let bytes = write(alloc, &message)?;
    send_to_clients(clients, &bytes, out)?;
    Ok(())
}

// Adds bytes to every client, rising.
fn send_to_clients(clients: u8, bytes: &Bytes, out: &mut Vec<Out>) -> Result<(), OutOfMemory>
    requires clients { clients ≤ MOST_CLIENTS }
    ensures sent { OnOk result ((g : Ring) (i : ℕ) → g.clients ≡ clients → map (packet i) out.new.items ≡ map (packet i) out.old.items ++ to_clients g (AMember i) (meaning bytes.now)) }
    ensures seats { OnOk result (AreSeated out.old.items → AreSeated out.new.items) }
{
    for client in 0..clients {
        out.push(Out {
            to: Party::Client(ClientId(client)),
            bytes: bytes.clone()?,
        })?;
    }
    Ok(())
}
