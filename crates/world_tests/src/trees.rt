//! Whether two trees are the same.
use plain_tree::{Node, NodeKind, Slot, Tree};

fn is_same_slot(slot: &Option<Slot>, wanted: &Option<Slot>) -> bool {
    match (slot, wanted) {
        (None, None) => true,
        (Some(a), Some(b)) => a.name == b.name && a.number == b.number,
        _ => false,
    }
}

fn are_same_slots(slots: &[Option<Slot>], wanted: &[Option<Slot>]) -> bool {
    let mut pairs = slots.iter().zip(wanted.iter());
    slots.len() == wanted.len() && pairs.all(|(a, b)| is_same_slot(a, b))
}

fn is_same_node(node: &Node, wanted: &Node) -> bool {
    if node.count != wanted.count {
        return false;
    }
    match (&node.kind, &wanted.kind) {
        (NodeKind::File { bytes: a }, NodeKind::File { bytes: b }) => a == b,
        (NodeKind::Directory { slots: a }, NodeKind::Directory { slots: b }) => {
            are_same_slots(a.as_slice(), b.as_slice())
        }
        _ => false,
    }
}

/// Whether two trees of directories and files have the same nodes.
pub fn is_same_tree(tree: &Tree, wanted: &Tree) -> bool {
    for number in 0..tree.ninodes() {
        let is_same = match (tree.node(number), wanted.node(number)) {
            (None, None) => true,
            (Some(a), Some(b)) => is_same_node(a, b),
            _ => false,
        };
        if !is_same {
            return false;
        }
    }
    tree.ninodes() == wanted.ninodes()
}
