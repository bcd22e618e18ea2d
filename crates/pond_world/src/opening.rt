// The world of a setup before any event.
ghost use Rattle.std.specs.Prelude.{◌≡◌, ◌+◌, ◌*◌, ◌<◌, ◌≤◌, ℕ, [], not, cond, length, slice_index_or, Option, is_some, IfSome, Contains, IfOk, IfErr, OnOk};
ghost use Rattle.std.specs.List.{AllByRecursion};
ghost use Rattle.block_names.specs.Growth.{keep_all, Grew, IsClashIn};
ghost use Rattle.block_names.specs.Clashes.{AreHeld, NoneClash, IsClashAmong};
ghost use Rattle.object_model.specs.Trees.{version_strings};
ghost use Rattle.fold_model.specs.Folds.{Archiving};
ghost use Rattle.pond_node.specs.declared.node.Node.{Node};
ghost use Rattle.pond_node.specs.Standing as node;
ghost use Rattle.pond_node.specs.Standing.{NodeStands};
ghost use Rattle.ring_world.specs.Skipping.{skips, PassNothing};
ghost use Rattle.ring_world.specs.Worlds.{WorldStands, IsKnown};
ghost use Rattle.pond_world.specs.Setups.{IsSetup, is_among, ring_by, RingIsSound};

use block_names::{Book, Hash160, NameFault};
use guarded_update::Setup;
use pond_base::{MemberId, OutOfMemory};
use pond_node::Node;
use ring_world::World;
use std::alloc::Global;

/// The ring of a setup reads requests as the grammar does, and tolerates the members that are declared
/// faulty.
pub fn ring_is_sound()
    ensures { RingIsSound }
{}

/// The world of a setup before any event. There is a node for each correct member, and none for a member
/// that is declared faulty. Nothing is named but the root string of the empty version,
/// which all members have. `Clash` is answered only where the book held a different string of that name,
/// and where it did, `Ok` is not.
pub fn open<H: Hash160 + Drop>(
    alloc: Global,
    book: &mut Book<H>,
    setup: &Setup,
) -> Result<World<Node>, NameFault>
    requires { IsSetup setup.now }
    ensures stands { IfOk result (λ world. (archiving : Archiving) → WorldStands NodeStands (ring_by H.naming setup.now archiving) world []) }
    ensures skips { IfOk result (λ world. PassNothing (skips world)) }
    ensures known { IfOk result (IsKnown node.IsKnown H.naming book.new.held) }
    ensures held { OnOk result (book.new.held ≡ keep_all H.naming (version_strings H.naming setup.now.block [] []) book.old.held) }
    ensures all { OnOk result (AreHeld H.naming book.new.held (version_strings H.naming setup.now.block [] [])) }
    ensures apart { OnOk result (NoneClash H.naming book.old.held (Contains (version_strings H.naming setup.now.block [] []))) }
    ensures grew { Grew H.naming book.old.held (Contains (version_strings H.naming setup.now.block [] [])) book.new.held }
    ensures fault { IfErr result (IsClashIn H.naming book.new.held (Contains (version_strings H.naming setup.now.block [] []))) }
    ensures clash { IfErr result (IsClashAmong H.naming book.old.held (Contains (version_strings H.naming setup.now.block [] []))) }
{
    let faulty = setup.faulty.as_slice();
    let nodes = match nodes_of(alloc, book, setup, faulty) {
        Ok(nodes) => nodes,
        Err(fault) => return Err(fault),
    };
    match World::new(alloc, nodes, setup.f, setup.clients) {
        Ok(world) => Ok(world),
        Err(OutOfMemory) => Err(NameFault::Memory),
    }
}

// For each member the node, and `None` for those that are faulty.
fn nodes_of<H: Hash160 + Drop>(
    alloc: Global,
    book: &mut Book<H>,
    setup: &Setup,
    faulty: &[MemberId],
) -> Result<Vec<Option<Node>>, NameFault>
    requires setup { IsSetup setup.now }
    requires few { length faulty.now ≤ setup.now.f }
    ensures count { IfOk result (λ nodes. length nodes.items ≡ 3 * setup.now.f + 1) }
    ensures there { IfOk result (λ nodes. (i : ℕ) (d : Option Node) → i < length nodes.items → is_some (slice_index_or nodes.items i d) ≡ not (is_among faulty.now i)) }
    ensures stand { IfOk result (λ nodes. (archiving : Archiving) (i : ℕ) (d : Option Node) → i < length nodes.items
        → IfSome (slice_index_or nodes.items i d) (λ node. NodeStands node (ring_by H.naming setup.now archiving) i [] 0)) }
    ensures known { IfOk result (λ nodes. AllByRecursion (λ one. IfSome one (node.IsKnown H.naming book.new.held)) nodes.items) }
    ensures held { OnOk result (book.new.held ≡ keep_all H.naming (version_strings H.naming setup.now.block [] []) book.old.held) }
    ensures all { OnOk result (AreHeld H.naming book.new.held (version_strings H.naming setup.now.block [] [])) }
    ensures grew { Grew H.naming book.old.held (Contains (version_strings H.naming setup.now.block [] [])) book.new.held }
    ensures fault { IfErr result (IsClashIn H.naming book.new.held (Contains (version_strings H.naming setup.now.block [] []))) }
{
    let mut nodes = Vec::new(alloc);
    for id in 0..3 * setup.f + 1 {
        let node = match node_of(alloc, book, setup, faulty, MemberId(id)) {
            Ok(node) => node,
            Err(fault) => return Err(fault),
        };
        let Ok(()) = nodes.push(node) else {
            return Err(NameFault::Memory);
        };
    }
    Ok(nodes)
}

// The node of a member. One that is faulty has none, and then nothing is named.
fn node_of<H: Hash160 + Drop>(
    alloc: Global,
    book: &mut Book<H>,
    setup: &Setup,
    faulty: &[MemberId],
    id: MemberId,
) -> Result<Option<Node>, NameFault>
    requires { IsSetup setup.now }
    ensures there { IfOk result (λ node. is_some node ≡ not (is_among faulty.now id.0)) }
    ensures stands { IfOk result (λ node. IfSome node (λ node. (archiving : Archiving) → NodeStands node (ring_by H.naming setup.now archiving) id.0 [] 0)) }
    ensures known { IfOk result (λ one. IfSome one (node.IsKnown H.naming book.new.held)) }
    ensures held { IfOk result (λ node. book.new.held ≡ cond (is_some node) (keep_all H.naming (version_strings H.naming setup.now.block [] []) book.old.held) book.old.held) }
    ensures all { IfOk result (λ node. IfSome node (λ _. AreHeld H.naming book.new.held (version_strings H.naming setup.now.block [] []))) }
    ensures grew { Grew H.naming book.old.held (Contains (version_strings H.naming setup.now.block [] [])) book.new.held }
    ensures fault { IfErr result (IsClashIn H.naming book.new.held (Contains (version_strings H.naming setup.now.block [] []))) }
{
    if is_faulty(faulty, id.0) {
        return Ok(None);
    }
    match Node::new(alloc, book, id, setup.f, setup.clients, setup.block) {
        Ok(node) => Ok(Some(node)),
        Err(fault) => Err(fault),
    }
}

fn is_faulty(faulty: &[MemberId], id: u8) -> bool
    ensures { result ≡ is_among faulty.now id }
{
    faulty.iter().any(|member| member.0 == id)
}
