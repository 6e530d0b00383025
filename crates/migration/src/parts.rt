//! The parts of an image.
ghost use Rattle.std.specs.Prelude.{◌≡◌, ◌^◌, ◌<◌, ◌≤◌, ◌++◌, length, map, OnOk};
ghost use Rattle.migration.specs.Vocabulary.{Dinode, flat_map, largest_size, spell_dinode};
ghost use Rattle.migration.specs.Nodes.{node_of};
ghost use Rattle.migration.specs.Image.{data_from, inode_for, inodes_from};
ghost use Rattle.migration.specs.Parts.{HaveContents};

use crate::node::NewNode;
use fs_layout::widths::{BLOCK_LEN, INODE_LEN};
use fs_layout::{Dinode, write_dinode};
use mkfs::{addresses, node_blocks, push_content};
use std::alloc::AllocError;

// The inode of a node whose blocks begin at `first`.
fn inode_for(first: u32, node: &NewNode) -> Dinode
    requires size { length node.now.content.items ≤ largest_size }
    requires first { first < 2 ^ 31 }
    ensures { result ≡ inode_for first (node_of node.now) }
{
    let content = node.content.as_slice();
    let size = content.len();
    Dinode {
        kind: node.kind,
        major: node.major,
        minor: node.minor,
        nlink: node.nlink,
        size: size as u32,
        addrs: addresses(first, node_blocks(size)),
    }
}

// Appends the inode of a node whose blocks begin at `first`.
fn push_inode(image: &mut Vec<u8>, first: u32, node: &NewNode) -> Result<(), AllocError>
    requires size { length node.now.content.items ≤ largest_size }
    requires first { first < 2 ^ 31 }
    ensures { OnOk result (image.new.items ≡ image.old.items ++ spell_dinode (inode_for first (node_of node.now))) }
{
    let inode = inode_for(first, node);
    let mut block = [0; BLOCK_LEN];
    write_dinode(&mut block, 0, &inode);
    image.extend_from_slice(&block[..INODE_LEN])
}

/// Appends the nodes' inodes, if the first node's blocks begin at `first`.
pub fn push_inodes(image: &mut Vec<u8>, first: u32, nodes: &[NewNode]) -> Result<(), AllocError>
    requires contents { HaveContents (map node_of nodes.now) }
    requires first { first < 2 ^ 16 }
    ensures { OnOk result (image.new.items ≡ image.old.items ++ flat_map spell_dinode (inodes_from first (map node_of nodes.now))) }
{
    let mut at = first;
    for node in nodes {
        push_inode(image, at, node)?;
        let content = node.content.as_slice();
        at += node_blocks(content.len()) as u32;
    }
    Ok(())
}

/// Appends the nodes' blocks, of which the first will be block `first`.
pub fn push_data(image: &mut Vec<u8>, first: u32, nodes: &[NewNode]) -> Result<(), AllocError>
    requires contents { HaveContents (map node_of nodes.now) }
    requires first { first < 2 ^ 16 }
    ensures { OnOk result (image.new.items ≡ image.old.items ++ data_from first (map node_of nodes.now)) }
{
    let mut at = first;
    for node in nodes {
        let content = node.content.as_slice();
        push_content(image, at, content)?;
        at += node_blocks(content.len()) as u32;
    }
    Ok(())
}
