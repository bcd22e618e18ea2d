// Messages to all members.
ghost use Rattle.std.specs.Prelude.{◌≡◌, ◌≤◌, ◌++◌, ℕ, map, flat_map, IfOk, OnOk};
ghost use Rattle.std.specs.List.{AllByRecursion};
ghost use Rattle.ring_message.specs.Grammar.{MessageFits};
ghost use Rattle.ring_model.specs.Messages.{Ring, to_members, Member as AMember};
ghost use Rattle.message_model.specs.Meaning.{said, meaning, packet};
ghost use Rattle.message_model.specs.Members.{AreToMembers};

use bytes::Bytes;
use pond_base::{MemberId, OutOfMemory, Party};
use ring_message::{Message, Out, write};
use std::alloc::Global;

/// Each message to every member, rising.
pub(crate) fn broadcast(alloc: Global, f: u8, messages: &[Message]) -> Result<Vec<Out>, OutOfMemory>
    requires few { f ≤ 3 }
    requires fits { AllByRecursion MessageFits messages.now }
    ensures sent { IfOk result (λ out. (g : Ring) (i : ℕ) → g.f ≡ f → map (packet i) out.items ≡ flat_map (λ m. to_members g (AMember i) (said m)) messages.now) }
    ensures seats { IfOk result (λ out. AreToMembers out.items) }
{
    let mut out = Vec::new(alloc);
    for message in messages {
        let bytes = write(alloc, message)?;
        send_to_all(f, &bytes, &mut out)?;
    }
    Ok(out)
}

// Bytes to every member, rising.
fn send_to_all(f: u8, bytes: &Bytes, out: &mut Vec<Out>) -> Result<(), OutOfMemory>
    requires few { f ≤ 3 }
    ensures sent { OnOk result ((g : Ring) (i : ℕ) → g.f ≡ f → map (packet i) out.new.items ≡ map (packet i) out.old.items ++ to_members g (AMember i) (meaning bytes.now)) }
    ensures seats { OnOk result (AreToMembers out.old.items → AreToMembers out.new.items) }
{
    for member in 0..3 * f + 1 {
        out.push(Out {
            to: Party::Member(MemberId(member)),
            bytes: bytes.clone()?,
        })?;
    }
    Ok(())
}
