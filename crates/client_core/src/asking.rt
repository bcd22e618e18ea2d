// The messages that carry requests.
ghost use Rattle.std.specs.Prelude.{◌≡◌, ◌<◌, ℕ, List, map, IsTrue, OnOk, IfOk, ◌∷◌, []};
ghost use Rattle.std.specs.List.{range_with_len};
ghost use Rattle.block_names.specs.Growth.{Holds};
ghost use Rattle.tree_format.specs.Strings.{label_string};
ghost use Rattle.guarded_update.specs.Fitting.{IsRequest, request_fits};
ghost use Rattle.guarded_update.specs.Spelling.{request_string};
ghost use Rattle.ring_message.specs.Grammar.{IsRequestString};
ghost use Rattle.ring_model.specs.Messages.{Request as ARequest};
ghost use Rattle.message_model.specs.Meaning.{meaning};
ghost use Rattle.client_core.specs.Naming.{Names};
ghost use Rattle.client_core.specs.Sending.{sent, asks};

use block_names::{Book, Hash160, NameFault};
use bytes::Bytes;
use guarded_update::Request;
use message_model::messages_are_meant;
use pond_base::{MemberId, OutOfMemory, Party};
use ring_message::{Message, Out};
use std::alloc::Global;
use tree_format::write_label;

/// A submitted request: its string, and the message that carries it.
#[derive(Debug, Drop)]
pub struct Asked {
    pub text: Bytes,
    pub message: Bytes,
}

/// Names the label's string and then the request's, and gives the latter.
pub fn name_request<H: Hash160 + Drop>(
    alloc: Global,
    book: &mut Book<H>,
    request: &Request,
) -> Result<Bytes, NameFault>
    requires { IsTrue (request_fits request.now) }
    ensures text { IfOk result (λ text. text ≡ request_string request.now) }
    ensures allowed { OnOk result (IsRequest request.now) }
    ensures holds { IfOk result (λ text. Holds H.naming book.new.held text) }
    ensures names { Names H.naming (label_string request.now.label ∷ request_string request.now ∷ []) book.old.held book.new.held result }
{
    let label = write_label(alloc, &request.label)?;
    book.name(label.as_slice())?;
    let text = guarded_update::write(alloc, request)?;
    book.name(text.as_slice())?;
    Ok(text)
}

/// The message that carries a request.
pub fn message_of(alloc: Global, text: &Bytes) -> Result<Bytes, OutOfMemory>
    requires { IsRequestString text.now }
    ensures { IfOk result (λ message. meaning message ≡ ARequest text.now) }
{
    messages_are_meant();
    let message = Message::Request(text.clone()?);
    ring_message::write(alloc, &message)
}

/// A message to each of so many members, rising.
pub fn to_each(alloc: Global, members: u8, message: &Bytes) -> Result<Vec<Out>, OutOfMemory>
    ensures { IfOk result (λ outs. (c : ℕ) → map (sent c) outs.items ≡ asks members c message.now) }
{
    let mut outs: Vec<Out> = Vec::new(alloc);
    for number in 0..members {
        outs.push(Out {
            to: Party::Member(MemberId(number)),
            bytes: message.clone()?,
        })?;
    }
    Ok(outs)
}
