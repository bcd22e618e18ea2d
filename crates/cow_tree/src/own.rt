// How many nodes have one holder: figures, of which nothing is claimed.
use crate::leaf_row::Group;
use crate::node::Node;
use crate::shared::Shared;
use pond_base::Items;

/// Of the leaves of groups. The leaves of a group that is shared count for none.
pub(crate) fn own_leaves(groups: &[Shared<Group>]) -> usize {
    let mut count = 0usize;
    for group in groups {
        if group.is_sole() {
            count = count.saturating_add(own_among(group.get().leaves()));
        }
    }
    count
}

/// Of the nodes of rows.
pub(crate) fn own_in_rows(rows: &[Items<Node>]) -> usize {
    let mut count = 0usize;
    for row in rows {
        count = count.saturating_add(own_among(row.as_slice()));
    }
    count
}

fn own_among(nodes: &[Node]) -> usize {
    let mut count = 0usize;
    for node in nodes {
        if node.is_sole() {
            count = count.saturating_add(1);
        }
    }
    count
}
