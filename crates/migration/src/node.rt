//! A node of the new image.

/// What a node's inode says, and its content. A free inode has kind 0, and nothing else.
#[derive(Drop)]
pub struct NewNode {
    pub kind: i16,
    pub major: i16,
    pub minor: i16,
    pub nlink: i16,
    pub content: Vec<u8>,
}
