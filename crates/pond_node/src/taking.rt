// What a node does with bytes from a party.
ghost use Rattle.std.specs.Prelude.{◌≡◌, ◌≤◌, [], Contains, IfOk, IfErr, OnOk};
ghost use Rattle.block_names.specs.Growth.{keep_all, Grew, IsClashIn};
ghost use Rattle.block_names.specs.Clashes.{AreHeld};
ghost use Rattle.object_model.specs.Trees.{version_strings};
ghost use Rattle.ring_model.specs.Messages.{Ring};
ghost use Rattle.message_model.specs.Reading.{IsRingOf};
ghost use Rattle.fold_model.specs.Rings.{FoldsAs};
ghost use Rattle.pond_node.specs.Standing.{NodeStands, IsKnown};

use crate::Node;
use block_names::{Book, Hash160, NameFault};
use bytes::Bytes;
use object_fold::Objects;
use pond_base::limits::{LEAST_BLOCK, MOST_BLOCK, MOST_CLIENTS, MOST_FAULTY, MOST_SLOTS};
use pond_base::{Items, MemberId, Party};
use ring_member::Member;
use ring_message::Out;
use std::alloc::Global;

impl Node {
    /// A node that nothing was delivered to, of a ring that tolerates f faulty members, with so many
    /// clients, and with leaves of `block` bytes. The one string that is named is the root string of
    /// version 0.
    pub fn new<H: Hash160 + Drop>(
        alloc: Global,
        book: &mut Book<H>,
        id: MemberId,
        f: u8,
        clients: u8,
        block: u32,
    ) -> Result<Node, NameFault>
        requires faults { f ≤ MOST_FAULTY }
        requires clients { clients ≤ MOST_CLIENTS }
        requires least { LEAST_BLOCK ≤ block }
        requires most { block ≤ MOST_BLOCK }
        ensures stands { IfOk result (λ node. (g : Ring) → IsRingOf H.naming g → g.f ≡ f → g.clients ≡ clients → g.slots ≡ MOST_SLOTS → FoldsAs H.naming block g
            → NodeStands node g id.0 [] 0) }
        ensures known { IfOk result (IsKnown H.naming book.new.held) }
        ensures held { OnOk result (book.new.held ≡ keep_all H.naming (version_strings H.naming block [] []) book.old.held) }
        ensures all { OnOk result (AreHeld H.naming book.new.held (version_strings H.naming block [] [])) }
        ensures grew { Grew H.naming book.old.held (Contains (version_strings H.naming block [] [])) book.new.held }
        ensures fault { IfErr result (IsClashIn H.naming book.new.held (Contains (version_strings H.naming block [] []))) }
    {
        let objects = match Objects::new(alloc, book, block) {
            Ok(objects) => objects,
            Err(fault) => return Err(fault),
        };
        Ok(Node {
            alloc,
            clients,
            block,
            member: Member::new(alloc, id, f),
            objects,
            outcomes: Items::new(alloc),
            archived: 0,
        })
    }
}

impl ring_node::Node for Node {
    ghost use Rattle.object_fold.proofs.Kept.{known_still};
    ghost use Rattle.pond_node.specs.Standing.{NodeStands, IsKnown};

    ghost stands = { NodeStands };

    ghost knows = { IsKnown };

    /// Takes bytes from a party, and answers all that the node owes for them, in order: PrePrepares if
    /// it is member 0, Prepares and Commits, each to every member, and then for each slot that it newly
    /// executes the reply to the client of its request and, where a version was made, that version to
    /// every client. After a fault the node is spent.
    fn take<H: Hash160 + Drop>(
        &mut self,
        book: &mut Book<H>,
        from: Party,
        bytes: &Bytes,
    ) -> Result<Vec<Out>, NameFault> {
        let mut out = match self.member.take(book, from, bytes) {
            Ok(out) => out,
            Err(fault) => return Err(fault),
        };
        match self.execute_new(book, &mut out) {
            Ok(()) => Ok(out),
            Err(fault) => Err(fault),
        }
    }

    fn executed(&self) -> u32 {
        self.executed()
    }

    ghost stays = { λ h held now node keeps is. record { objects_known = known_still h held now node.objects keeps is.objects_known; few = is.few } };
}
