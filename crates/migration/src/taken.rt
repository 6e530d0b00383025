//! What is taken from the old image.
use crate::node::NewNode;

/// The number of inodes, and the nodes as the new image has them, inode 1 first.
#[derive(Drop)]
pub(crate) struct Taken {
    pub(crate) ninodes: u32,
    pub(crate) nodes: Vec<NewNode>,
}
