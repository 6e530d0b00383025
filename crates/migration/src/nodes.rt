//! The old image's nodes, as the new image has them.
ghost use Rattle.std.specs.Prelude.{◌≡◌, ◌<◌, ◌≤◌, ◌++◌, ◌∷◌, [], map, false, IfOk, IfErr, OnOk};
ghost use Rattle.image_tree.specs.Checks.{HasGoodNumbers};
ghost use Rattle.image_tree.specs.Damage.{JudgesFault, faults_with};
ghost use Rattle.image_tree.specs.Inodes.{is_free};
ghost use Rattle.image_tree.specs.Layout.{IsLayout};
ghost use Rattle.migration.specs.Vocabulary.{ComesByCalls, OnlyReads, inode_of};
ghost use Rattle.migration.specs.Kept.{content_as, new_node, new_nodes};
ghost use Rattle.migration.specs.Nodes.{free_node, node_of};
ghost use Rattle.migration.specs.Refusals.{IsLater};

use crate::node::NewNode;
use crate::slots::spell_slots;
use block_device::Device;
use fs_layout::Dinode;
use image_tree::{
    Layout, MountFault, is_directory, is_free, is_live, load_content, load_inode, load_slots,
    numbers_at,
};
use image_versions::Version;
use std::alloc::{AllocError, Global};

// The content of a node, as this version has it.
fn load_new_content<D: Device>(
    alloc: Global,
    old: &mut D,
    layout: &Layout,
    version: Version,
    i: u32,
    inode: &Dinode,
) -> Result<Vec<u8>, MountFault>
    requires layout { IsLayout (D.contents old.old) layout.now }
    requires later { IsLater layout.now.version version }
    requires low { 1 ≤ i }
    requires bound { i < layout.now.sizes.ninodes }
    requires numbers { HasGoodNumbers (D.contents old.old) }
    requires inode { inode.now ≡ inode_of (D.contents old.old) i }
    requires used { is_free inode.now ≡ false }
    ensures content { IfOk result (λ content. content.items ≡ content_as layout.now.version version (D.contents old.old) inode.now) }
    ensures err { IfErr result (JudgesFault layout.now.version (D.contents old.old)) }
    ensures device { OnlyReads D.contents D.failures (faults_with result) old.old old.new }
    ensures calls { ComesByCalls D.Called old.old old.new }
{
    let numbers = numbers_at(old, layout, i)?;
    if !is_directory(inode) {
        return load_content(alloc, old, layout, inode, numbers.as_slice());
    }
    let slots = load_slots(alloc, old, layout, inode, numbers.as_slice())?;
    let content = spell_slots(alloc, version, slots.as_slice())?;
    Ok(content)
}

// The node that a free inode becomes.
fn free_node(alloc: Global) -> NewNode
    ensures { node_of result ≡ free_node }
{
    NewNode {
        kind: 0,
        major: 0,
        minor: 0,
        nlink: 0,
        content: Vec::new(alloc),
    }
}

// Node i, as the new image has it.
fn load_new_node<D: Device>(
    alloc: Global,
    old: &mut D,
    layout: &Layout,
    version: Version,
    i: u32,
) -> Result<NewNode, MountFault>
    requires layout { IsLayout (D.contents old.old) layout.now }
    requires later { IsLater layout.now.version version }
    requires low { 1 ≤ i }
    requires bound { i < layout.now.sizes.ninodes }
    requires numbers { HasGoodNumbers (D.contents old.old) }
    ensures node { IfOk result (λ node. node_of node ≡ new_node layout.now.version version (D.contents old.old) i) }
    ensures err { IfErr result (JudgesFault layout.now.version (D.contents old.old)) }
    ensures device { OnlyReads D.contents D.failures (faults_with result) old.old old.new }
    ensures calls { ComesByCalls D.Called old.old old.new }
{
    let inode = load_inode(old, layout, i)?;
    if is_free(&inode) {
        return Ok(free_node(alloc));
    }
    if !is_live(&inode) {
        return Ok(free_node(alloc));
    }
    let content = load_new_content(alloc, old, layout, version, i, &inode)?;
    Ok(NewNode {
        kind: inode.kind,
        major: inode.major,
        minor: inode.minor,
        nlink: inode.nlink,
        content,
    })
}

// Puts a node after the others. If memory is refused, it ends the node.
fn push(nodes: &mut Vec<NewNode>, node: NewNode) -> Result<(), AllocError>
    ensures { OnOk result (nodes.new.items ≡ nodes.old.items ++ node ∷ []) }
{
    nodes.push(node)?;
    Ok(())
}

/// All nodes, as the new image has them, inode 1 first.
pub fn load_new_nodes<D: Device>(
    alloc: Global,
    old: &mut D,
    layout: &Layout,
    version: Version,
) -> Result<Vec<NewNode>, MountFault>
    requires layout { IsLayout (D.contents old.old) layout.now }
    requires later { IsLater layout.now.version version }
    requires numbers { HasGoodNumbers (D.contents old.old) }
    ensures nodes { IfOk result (λ nodes. map node_of nodes.items ≡ new_nodes layout.now.version version (D.contents old.old)) }
    ensures err { IfErr result (JudgesFault layout.now.version (D.contents old.old)) }
    ensures device { OnlyReads D.contents D.failures (faults_with result) old.old old.new }
    ensures calls { ComesByCalls D.Called old.old old.new }
{
    let mut nodes = Vec::new(alloc);
    for i in 1..layout.sizes.ninodes {
        let node = load_new_node(alloc, old, layout, version, i)?;
        push(&mut nodes, node)?;
    }
    Ok(nodes)
}
