// What members do with letters.
ghost use Rattle.std.specs.Prelude.{◌≡◌, List, map, OnOk, IfOk, IsTrue, is_some};
ghost use Rattle.std.specs.List.{AllByRecursion, list_any};
ghost use Rattle.block_names.specs.Growth.{Keeps};
ghost use Rattle.ring_model.specs.Messages.{Member as member};
ghost use Rattle.message_model.specs.Meaning.{who, letter, packet};
ghost use Rattle.ring_model.specs.Seats.{IsSeat};
ghost use Rattle.ring_world.specs.Crew.{AreMembers, NodesKnown, ForLetter, with_letter, owed_for};
ghost use Rattle.ring_world.specs.Nodes.{HasNode};
ghost use Rattle.message_model.specs.Naming.{named_for};
ghost use Rattle.client_core.specs.Naming.{Names};

use crate::members::Members;
use block_names::{Book, Hash160, NameFault};
use bytes::Bytes;
use pond_base::{MemberId, Party};
use ring_message::Out;
use ring_node::Node;
use std::alloc::Global;

impl<N: Node> Members<N> {
    // Hands bytes to a member, and gives all that it sends. A faulty one does nothing.
    pub(crate) fn take<H: Hash160 + Drop>(
        &mut self,
        alloc: Global,
        book: &mut Book<H>,
        to: MemberId,
        from: Party,
        bytes: &Bytes,
    ) -> Result<Vec<Out>, NameFault>
        requires { NodesKnown N.knows H.naming book.old.held self.old }
        ensures members { OnOk result (ForLetter N.stands H.naming self.old from to.0 (λ g got archived. AreMembers N.stands g self.new (with_letter got (member to.0) (letter from bytes.now)) archived)) }
        ensures out { IfOk result (λ out. ForLetter N.stands H.naming self.old from to.0 (λ g got archived. map (packet to.0) out.items ≡ owed_for g to.0 (got (member to.0)) (letter from bytes.now))) }
        ensures seats { IfOk result (λ out. AllByRecursion (λ o. IsSeat (who o.to)) out.items) }
        ensures known { OnOk result (NodesKnown N.knows H.naming book.new.held self.new) }
        ensures keeps { Keeps book.old.held book.new.held }
        ensures names { ForLetter N.stands H.naming self.old from to.0 (λ g got archived. Names H.naming (named_for g (member to.0) (got (member to.0)) (letter from bytes.now)) book.old.held book.new.held result) }
    {
        let at = to.0 as usize;
        if at >= self.nodes.len() {
            return Ok(Vec::new(alloc));
        }
        let Some(node) = &mut self.nodes[at] else {
            return Ok(Vec::new(alloc));
        };
        let out = node.take(book, from, bytes)?;
        Ok(out)
    }
}

// The number of the first member that is correct, where there is one.
pub(crate) fn first_correct<N>(nodes: &[Option<N>]) -> usize
    requires { IsTrue (list_any is_some nodes.now) }
    ensures { HasNode nodes.now result }
{
    let mut at = 0;
    while at < nodes.len() && nodes[at].is_none() {
        at += 1;
    }
    at
}
