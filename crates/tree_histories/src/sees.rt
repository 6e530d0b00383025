//! What the kept tree shows of a node to who takes its lock.
ghost use Rattle.std.specs.Prelude.{◌≡◌, ◌<◌, ◌^◌, ◌++◌, ℕ, drop, List, Some};
ghost use Rattle.tree_histories.specs.Vocabulary.{Version, any_used, size_of, look, tree_of, empty_in, face_seen, found_in, is_empty_kind, type_of_kind, face_of, query_in, type_of, IsSought, IsSoughtInOne};
ghost use Rattle.tree_histories.specs.Sights.{FewSlots, ShowsSo};

use crate::paths::name_in;
use image_versions::Version;
use path_walk::{Face, InodeType, Query, Sight};
use plain_tree::{Node, NodeKind, Slot, Tree};

/// The slots of a new directory, for itself and its parent.
const FIRST_SLOTS: usize = 2;

fn type_of(kind: &NodeKind) -> InodeType
    ensures { type_of result ≡ type_of_kind kind.now }
{
    match kind {
        NodeKind::Directory { .. } => InodeType::Directory,
        NodeKind::File { .. } => InodeType::File,
        NodeKind::Device { major, .. } => InodeType::Device(*major),
    }
}

// How many bytes it has.
fn size_of(version: Version, kind: &NodeKind) -> u64
    ensures { FewSlots version kind.now → result ≡ size_of version kind.now }
{
    match kind {
        NodeKind::Directory { slots } => (version.dirent_len() as u64).saturating_mul(
            slots.as_slice().len() as u64,
        ),
        NodeKind::File { bytes } => bytes.as_slice().len() as u64,
        NodeKind::Device { size, .. } => u64::from(*size),
    }
}

fn face_of(version: Version, node: &Node) -> Face
    ensures { FewSlots version node.now.kind → Some (face_of result) ≡ face_seen version (Some node.now) }
{
    Face {
        inode_type: type_of(&node.kind),
        count: node.count,
        size: size_of(version, &node.kind),
    }
}

#[tactic(auto, unfolding(plain_tree::specs::Steps::any_used))]
fn slot_in_use(slots: &[Option<Slot>]) -> bool
    ensures { result ≡ any_used slots.now }
{
    for slot in slots {
        if slot.is_some() {
            return true;
        }
    }
    false
}

// A slot past the first two is used.
fn has_entries(slots: &[Option<Slot>]) -> bool
    ensures { result ≡ any_used (drop 2 slots.now) }
{
    slots.len() > FIRST_SLOTS && slot_in_use(&slots[FIRST_SLOTS..])
}

// No slot past the first two is used.
fn is_empty(kind: &NodeKind) -> bool
    ensures { result ≡ is_empty_kind kind.now }
{
    match kind {
        NodeKind::Directory { slots } => !has_entries(slots.as_slice()),
        _ => true,
    }
}

// What a node of this number has under the name.
fn found(tree: &Tree, number: u32, name: &[u8]) -> Option<u32>
    ensures { number < 2 ^ 16 → result ≡ look (tree_of tree.now).nodes number name.now }
{
    let Ok(number) = u16::try_from(number) else {
        return None;
    };
    match tree.look(number, name) {
        Some(found) => Some(u32::from(found)),
        None => None,
    }
}

// What it has under the name that is looked for.
fn found_in(tree: &Tree, number: u32, query: &Query, path: &[u8], second: &[u8]) -> Option<u32>
    ensures { (v : Version) → number < 2 ^ 16 → IsSought v (path.now ++ second.now) query.now → IsSoughtInOne path.now query.now
        → result ≡ found_in number ((tree_of tree.now).nodes number) (query_in (path.now ++ second.now) query.now) }
{
    match query {
        Query::Name(element) => found(tree, number, name_in(path, second, element)),
        _ => None,
    }
}

// Whether it is empty, if that is looked for.
fn empty_in(node: &Node, query: &Query) -> bool
    ensures { (text : List ℕ) → result ≡ empty_in (Some node.now) (query_in text query.now) }
{
    match query {
        Query::Entries => is_empty(&node.kind),
        _ => true,
    }
}

/// What is seen of the node of this number when this is looked for in it, in a call with this path and a second one
/// after it. It holds if the node's lock is free, or taken by who looks: nobody else has changes of it in hand.
pub(crate) fn sight(
    version: Version,
    tree: &Tree,
    number: u32,
    query: &Query,
    path: &[u8],
    second: &[u8],
) -> Sight
    ensures { ShowsSo version (tree_of tree.now) number query.now path.now second.now result }
{
    let found = found_in(tree, number, query, path, second);
    match tree.node(number as usize) {
        Some(node) => Sight {
            face: Some(face_of(version, node)),
            found,
            empty: empty_in(node, query),
        },
        None => Sight {
            face: None,
            found,
            empty: true,
        },
    }
}
