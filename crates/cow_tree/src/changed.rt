// Where a tree differs from another one.
ghost use Rattle.std.specs.Prelude.{◌≡◌, ◌++◌, [], ◌∷◌, unwrap_or, slice_get, if◌then◌else◌, OnOk};
ghost use Rattle.cow_tree.specs.Views.{NodeView};
ghost use Rattle.cow_tree.specs.Changed.{unless_there, changed_in_row, changed_in_rows};

use crate::leaf_row::Group;
use crate::node::{Node, node_at};
use crate::shared::Shared;
use pond_base::{Items, Name, OutOfMemory};

/// Adds the leaves of groups that have another name than the leaf at their place, or have none there.
/// Groups of the same names are passed over as a whole.
pub(crate) fn add_changed_leaves(
    changed: &mut Items<Node>,
    groups: &[Shared<Group>],
    before: &[Shared<Group>],
) -> Result<(), OutOfMemory>
    ensures { OnOk result (changed.new ≡ changed.old ++ changed_in_rows groups.now before.now) }
{
    for (place, group) in groups.iter().enumerate() {
        add_changed_group(changed, group.get(), before, place)?;
    }
    Ok(())
}

// The same of the leaves of one group, against the old group at its place.
fn add_changed_group(
    changed: &mut Items<Node>,
    group: &Group,
    before: &[Shared<Group>],
    place: usize,
) -> Result<(), OutOfMemory>
    ensures { OnOk result (changed.new ≡ changed.old ++ changed_in_row group.now (unwrap_or (slice_get before.now place) [])) }
{
    match before.get(place) {
        Some(before) => add_unless_same(changed, group, before.get()),
        None => add_changed_nodes(changed, group.leaves(), &[]),
    }
}

fn add_unless_same(
    changed: &mut Items<Node>,
    group: &Group,
    before: &Group,
) -> Result<(), OutOfMemory>
    ensures { OnOk result (changed.new ≡ changed.old ++ changed_in_row group.now before.now) }
{
    if group.has_names_of(before) {
        return Ok(());
    }
    add_changed_nodes(changed, group.leaves(), before.leaves())
}

/// The same of the nodes of rows.
pub(crate) fn add_changed_rows(
    changed: &mut Items<Node>,
    rows: &[Items<Node>],
    before: &[Items<Node>],
) -> Result<(), OutOfMemory>
    ensures { OnOk result (changed.new ≡ changed.old ++ changed_in_rows rows.now before.now) }
{
    for (level, row) in rows.iter().enumerate() {
        add_changed_nodes(changed, row.as_slice(), row_at(before, level))?;
    }
    Ok(())
}

// The nodes of a row, none where there is no such row.
fn row_at(rows: &[Items<Node>], level: usize) -> &[Node]
    ensures { result.now ≡ unwrap_or (slice_get rows.now level) [] }
{
    match rows.get(level) {
        Some(row) => row.as_slice(),
        None => &[],
    }
}

fn add_changed_nodes(
    changed: &mut Items<Node>,
    nodes: &[Node],
    before: &[Node],
) -> Result<(), OutOfMemory>
    ensures { OnOk result (changed.new ≡ changed.old ++ changed_in_row nodes.now before.now) }
{
    for (place, node) in nodes.iter().enumerate() {
        add_changed_node(changed, node, before, place)?;
    }
    Ok(())
}

// The same of one node, against the old node at its place.
fn add_changed_node(
    changed: &mut Items<Node>,
    node: &Node,
    before: &[Node],
    place: usize,
) -> Result<(), OutOfMemory>
    ensures { OnOk result (changed.new ≡ changed.old ++ unless_there node.now (slice_get before.now place)) }
{
    if has_name_at(before, place, node.name()) {
        return Ok(());
    }
    changed.push(node.share()?)
}

// Whether there is a node at a place, and it has a name.
fn has_name_at(nodes: &[Node], place: usize, name: Name) -> bool
    ensures { (n : NodeView) → n.name ≡ name → unless_there n (slice_get nodes.now place) ≡ (if result then [] else n ∷ []) }
{
    match node_at(nodes, place) {
        Some(node) => node.name() == name,
        None => false,
    }
}
