//! The tree that an image holds.
ghost use Rattle.std.specs.Prelude.{◌≡◌, ◌≢◌, ◌<◌, ◌≤◌, ℕ, List, length, map, Option, IfOk, IfErr, false};
ghost use Rattle.image_tree.specs.Vocabulary.{ComesByCalls, sizes_of};
ghost use Rattle.image_tree.specs.Checks.{HasGoodNumbers};
ghost use Rattle.image_tree.specs.Damage.{IsWellFormed, JudgesFault, JudgesWith, faults_with};
ghost use Rattle.image_tree.specs.Inodes.{inode_of, is_free};
ghost use Rattle.image_tree.specs.Layout.{IsLayout};
ghost use Rattle.image_tree.specs.Trees.{count_of, first_nodes, is_file, kind_of, node_of, slot_of, tree_in};
ghost use Rattle.image_tree.specs.Reads.{OnlyReads};

use crate::content::load_content;
use crate::disk::{Layout, load_inode};
use crate::examination::examine_layout;
use crate::fault::MountFault;
use crate::inodes::{is_directory, is_free, is_live};
use crate::limits::KIND_FILE;
use crate::numbers::numbers_at;
use crate::rows::push;
use crate::slots::load_slots;
use block_device::Device;
use fs_layout::{Dinode, Dirent, Name};
use image_versions::Version;
use plain_tree::{Bytes, Node, NodeKind, Slot, Slots, Tree};
use std::alloc::{AllocError, Global};

fn copied_name(alloc: Global, name: &Name) -> Result<Bytes, AllocError>
    ensures { IfOk result (λ bytes. bytes ≡ name.now) }
{
    let bytes = Vec::from_slice(alloc, name.as_bytes())?;
    Ok(Bytes::new(bytes))
}

fn slot_in(alloc: Global, slot: &Option<Dirent>) -> Result<Option<Slot>, AllocError>
    ensures { IfOk result (λ s. s ≡ slot_of slot.now) }
{
    match slot {
        Some(Dirent::Used { number, name }) => {
            let name = copied_name(alloc, name)?;
            Ok(Some(Slot {
                name,
                number: *number,
            }))
        }
        _ => Ok(None),
    }
}

fn slots_in(alloc: Global, entries: &[Option<Dirent>]) -> Result<Slots, AllocError>
    ensures { IfOk result (λ slots. slots ≡ map slot_of entries.now) }
{
    let mut slots = Vec::new(alloc);
    for s in 0..entries.len() {
        let slot = slot_in(alloc, &entries[s])?;
        push(&mut slots, slot)?;
    }
    Ok(Slots::new(slots))
}

fn is_file(inode: &Dinode) -> bool
    ensures { result ≡ is_file inode.now }
{
    inode.kind == KIND_FILE
}

/// What a node in use is.
fn load_kind<D: Device>(
    alloc: Global,
    device: &mut D,
    layout: &Layout,
    i: u32,
    inode: &Dinode,
) -> Result<NodeKind, MountFault>
    requires layout { IsLayout (D.contents device.old) layout.now }
    requires low { 1 ≤ i }
    requires bound { i < layout.now.sizes.ninodes }
    requires numbers { HasGoodNumbers (D.contents device.old) }
    requires inode { inode.now ≡ inode_of (D.contents device.old) i }
    requires used { is_free inode.now ≡ false }
    ensures kind { IfOk result (λ kind. kind ≡ kind_of layout.now.version (D.contents device.old) inode.now) }
    ensures err { IfErr result (JudgesFault layout.now.version (D.contents device.old)) }
    ensures device { OnlyReads D.contents D.failures (faults_with result) device.old device.new }
    ensures calls { ComesByCalls D.Called device.old device.new }
{
    let numbers = numbers_at(device, layout, i)?;
    if is_directory(inode) {
        let entries = load_slots(alloc, device, layout, inode, numbers.as_slice())?;
        let slots = slots_in(alloc, entries.as_slice())?;
        return Ok(NodeKind::Directory { slots });
    }
    if is_file(inode) {
        let bytes = load_content(alloc, device, layout, inode, numbers.as_slice())?;
        return Ok(NodeKind::File {
            bytes: Bytes::new(bytes),
        });
    }
    Ok(NodeKind::Device {
        major: inode.major,
        minor: inode.minor,
        size: inode.size,
    })
}

fn count_in(inode: &Dinode) -> u16
    ensures { result ≡ count_of inode.now.nlink }
{
    if inode.nlink < 0 {
        return 0;
    }
    inode.nlink as u16
}

/// Node i of the tree, if there is one.
fn load_node<D: Device>(
    alloc: Global,
    device: &mut D,
    layout: &Layout,
    i: u32,
) -> Result<Option<Node>, MountFault>
    requires layout { IsLayout (D.contents device.old) layout.now }
    requires low { 1 ≤ i }
    requires bound { i < layout.now.sizes.ninodes }
    requires numbers { HasGoodNumbers (D.contents device.old) }
    ensures node { IfOk result (λ node. node ≡ node_of layout.now.version (D.contents device.old) i) }
    ensures err { IfErr result (JudgesFault layout.now.version (D.contents device.old)) }
    ensures device { OnlyReads D.contents D.failures (faults_with result) device.old device.new }
    ensures calls { ComesByCalls D.Called device.old device.new }
{
    let inode = load_inode(device, layout, i)?;
    if is_free(&inode) {
        return Ok(None);
    }
    if !is_live(&inode) {
        return Ok(None);
    }
    let kind = load_kind(alloc, device, layout, i, &inode)?;
    Ok(Some(Node {
        count: count_in(&inode),
        kind,
    }))
}

fn load_nodes<D: Device>(
    alloc: Global,
    device: &mut D,
    layout: &Layout,
) -> Result<Vec<Option<Node>>, MountFault>
    requires layout { IsLayout (D.contents device.old) layout.now }
    requires numbers { HasGoodNumbers (D.contents device.old) }
    ensures nodes { IfOk result (λ nodes. nodes.items
        ≡ first_nodes layout.now.version (D.contents device.old) (sizes_of (D.contents device.old)).ninodes) }
    ensures err { IfErr result (JudgesFault layout.now.version (D.contents device.old)) }
    ensures device { OnlyReads D.contents D.failures (faults_with result) device.old device.new }
    ensures calls { ComesByCalls D.Called device.old device.new }
{
    let mut nodes = Vec::new(alloc);
    push(&mut nodes, None)?;
    for i in 1..layout.sizes.ninodes {
        let node = load_node(alloc, device, layout, i)?;
        push(&mut nodes, node)?;
    }
    Ok(nodes)
}

/// The tree that an image of this version holds as recovery would leave it: its live nodes with their contents. The image is examined
/// first, with the answers of [`examine`](crate::examine).
pub fn tree_of<D: Device>(
    alloc: Global,
    device: &mut D,
    version: Version,
) -> Result<Tree, MountFault>
    ensures judges { JudgesWith version
        (λ tree. IsWellFormed version (D.contents device.old) × (tree ≡ tree_in version (D.contents device.old)))
        (D.contents device.old) result }
    ensures device { OnlyReads D.contents D.failures (faults_with result) device.old device.new }
    ensures calls { ComesByCalls D.Called device.old device.new }
{
    let layout = examine_layout(alloc, device, version)?;
    let nodes = load_nodes(alloc, device, &layout)?;
    Ok(Tree::of_nodes(alloc, nodes))
}
