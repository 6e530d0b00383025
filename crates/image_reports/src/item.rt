//! A node as a path names it.
use plain_tree::Bytes;

/// A node's number, and a path that names it. The root's own path is empty; any other begins with '/'.
#[derive(Drop)]
pub struct Item {
    pub path: Bytes,
    pub number: u16,
}
