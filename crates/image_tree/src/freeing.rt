//! Nodes without a name are freed, one after the other.
ghost use Rattle.std.specs.Prelude.{◌≡◌, ◌≢◌, ◌⊎◌, ◌+◌, ◌/◌, ◌%◌, ◌<◌, ◌≤◌, ◌&&◌, not, ℕ, [], true, false, All, IfOk, OnOk};
ghost use Rattle.image_tree.specs.Vocabulary.{faults_after, ComesByCalls, bit_of, dinode_at, logged, recovered, sizes_of, inodes_per_block};
ghost use Rattle.image_tree.specs.Checks.{is_marked};
ghost use Rattle.image_tree.specs.Damage.{IsWellFormed};
ghost use Rattle.image_tree.specs.Inodes.{inode_of, is_free, is_live};
ghost use Rattle.image_tree.specs.Layout.{IsLayout};
ghost use Rattle.image_tree.specs.Reads.{OnlyReads};
ghost use Rattle.image_tree.specs.Shape.{is_orphan};
ghost use Rattle.image_tree.specs.Trees.{tree_in};
ghost use Rattle.image_tree.specs.Views.{IsViewOf};
ghost use Rattle.image_tree.specs.Freeing.{AreFreed, AreNamed, FreedDisksAgree, FreedNodesLeaveImages, IsFreedAlone, IsReclaimed, freed_inode};

use crate::putting::put_both;
use crate::{Layout, load, load_inode, numbers_at};
use arrayvec::ArrayVec;
use block_device::{Device, Fault};
use fs_layout::widths::{ADDRESSES, BLOCK_LEN, Block, INODES_PER_BLOCK};
use fs_layout::{Dinode, LogHead, Super, clear_bit, read_dinode, write_dinode};
use image_versions::Version;

/// The type of an inode that is free.
const KIND_FREE: i16 = 0;

/// A node without a name is freed, and the image stays well formed. The function does nothing: it carries the law.
pub fn freed_nodes_leave_images()
    ensures { FreedNodesLeaveImages }
{}

/// What freeing leaves is one disk, except for its log. The function does nothing: it carries the law.
pub fn freed_disks_agree()
    ensures { FreedDisksAgree }
{}

/// Frees each node of an image of this version with count 0, in rising number. In a transaction of its own, the
/// blocks that it names are marked free, and its type becomes 0 (xv6: `ireclaim`). The device has an empty log. It
/// takes no memory.
///
/// Wherever it stops, even in the middle of a write, the image is well formed, and recovery leaves the same tree.
pub fn reclaim<D: Device>(device: &mut D, version: Version, sizes: Super) -> Result<(), Fault>
    requires well { IsWellFormed version (D.contents device.old) }
    requires empty { logged (D.contents device.old) ≡ [] }
    requires sizes { sizes ≡ sizes_of (D.contents device.old) }
    ensures faults { D.failures device.new ≡ faults_after result (D.failures device.old) }
    ensures calls { ComesByCalls D.Called device.old device.new }

    // Whatever it answers, the image stays well formed, with the same tree.
    ensures sizes { sizes_of (D.contents device.new) ≡ sizes_of (D.contents device.old) }
    ensures well { IsWellFormed version (D.contents device.new) }
    ensures tree { tree_in version (D.contents device.new) ≡ tree_in version (D.contents device.old) }

    // Afterwards each node has a name, those that had none are free, and so are their blocks. Nothing else is changed
    // outside the log, which is empty.
    ensures named { OnOk result (AreNamed (D.contents device.new)) }
    ensures freed { OnOk result (AreFreed (D.contents device.old) (D.contents device.new)) }
    ensures empty { OnOk result (logged (D.contents device.new) ≡ []) }

    // If each node has a name, nothing is written.
    ensures same { AreNamed (D.contents device.old) → D.contents device.new ≡ D.contents device.old }
{
    let layout = Layout {
        version,
        sizes,
        head: LogHead {
            blocks: ArrayVec::new(),
        },
    };
    for i in 1..layout.sizes.ninodes {
        reclaim_at(device, &layout, i)?;
    }
    Ok(())
}

/// Frees inode i, if it is a node without a name.
fn reclaim_at<D: Device>(device: &mut D, layout: &Layout, i: u32) -> Result<(), Fault>
    requires layout { IsLayout (D.contents device.old) layout.now }
    requires empty { logged (D.contents device.old) ≡ [] }
    requires well { IsWellFormed layout.now.version (D.contents device.old) }
    requires low { 1 ≤ i }
    requires bound { i < layout.now.sizes.ninodes }
    ensures faults { D.failures device.new ≡ faults_after result (D.failures device.old) }
    ensures calls { ComesByCalls D.Called device.old device.new }
    ensures sizes { sizes_of (D.contents device.new) ≡ sizes_of (D.contents device.old) }
    ensures well { IsWellFormed layout.now.version (D.contents device.new) }
    ensures tree { tree_in layout.now.version (D.contents device.new) ≡ tree_in layout.now.version (D.contents device.old) }
    ensures empty { OnOk result (logged (D.contents device.new) ≡ []) }
    ensures done { OnOk result (IsReclaimed layout.now.version (D.contents device.old) (D.contents device.new) i) }
    ensures same { is_orphan (D.contents device.old) i ≡ false → D.contents device.new ≡ D.contents device.old }
{
    let nameless = is_nameless(device, layout, i)?;
    if !nameless {
        return Ok(());
    }
    free(device, layout, i)
}

/// Whether inode i is a node without a name.
fn is_nameless<D: Device>(device: &mut D, layout: &Layout, i: u32) -> Result<bool, Fault>
    requires layout { IsLayout (D.contents device.old) layout.now }
    requires low { 1 ≤ i }
    requires bound { i < layout.now.sizes.ninodes }
    ensures is { IfOk result (λ nameless. nameless ≡ is_orphan (D.contents device.old) i) }
    ensures device { OnlyReads D.contents D.failures (faults_after result) device.old device.new }
    ensures calls { ComesByCalls D.Called device.old device.new }
{
    let inode = load_inode(device, layout, i)?;
    Ok(has_no_name(&inode))
}

fn has_no_name(inode: &Dinode) -> bool
    ensures { result ≡ (not (is_free inode.now) && not (is_live inode.now)) }
{
    !is_free(inode) && !is_live(inode)
}

fn is_free(inode: &Dinode) -> bool
    ensures { result ≡ is_free inode.now }
{
    inode.kind == KIND_FREE
}

/// Whether it has a name.
fn is_live(inode: &Dinode) -> bool
    ensures { result ≡ is_live inode.now }
{
    0 < inode.nlink
}

/// Frees inode i, which is a node without a name.
fn free<D: Device>(device: &mut D, layout: &Layout, i: u32) -> Result<(), Fault>
    requires layout { IsLayout (D.contents device.old) layout.now }
    requires empty { logged (D.contents device.old) ≡ [] }
    requires well { IsWellFormed layout.now.version (D.contents device.old) }
    requires low { 1 ≤ i }
    requires bound { i < layout.now.sizes.ninodes }
    requires nameless { is_orphan (D.contents device.old) i ≡ true }
    ensures faults { D.failures device.new ≡ faults_after result (D.failures device.old) }
    ensures calls { ComesByCalls D.Called device.old device.new }
    ensures either { IsViewOf layout.now.version (D.contents device.old) (D.contents device.new)
        ⊎ IsFreedAlone layout.now.version (D.contents device.old) (D.contents device.new) i }
    ensures empty { OnOk result (logged (D.contents device.new) ≡ []) }
    ensures freed { OnOk result (IsFreedAlone layout.now.version (D.contents device.old) (D.contents device.new) i) }
{
    let numbers = numbers_at(device, layout, i)?;
    let bitmap = freed_bitmap(device, layout, numbers.as_slice())?;
    let inodes = freed_inodes(device, layout, i)?;
    let home = layout.sizes.inodestart + i / INODES_PER_BLOCK as u32;
    put_both(device, layout, home, &bitmap, &inodes)
}

/// The bitmap, with these blocks free.
fn freed_bitmap<D: Device>(device: &mut D, layout: &Layout, numbers: &[u32]) -> Result<Block, Fault>
    requires layout { IsLayout (D.contents device.old) layout.now }
    requires small { All (λ b. b < 8192) numbers.now }
    ensures cleared { IfOk result (λ bitmap. All (λ b. b ≢ 0 → bit_of bitmap b ≡ false) numbers.now) }
    ensures kept { IfOk result
        (λ bitmap. (b : ℕ) → All (λ c. c ≢ 0 → c ≢ b) numbers.now → bit_of bitmap b ≡ is_marked (D.contents device.old) b) }
    ensures fewer { IfOk result (λ bitmap. (b : ℕ) → is_marked (D.contents device.old) b ≡ false → bit_of bitmap b ≡ false) }
    ensures device { OnlyReads D.contents D.failures (faults_after result) device.old device.new }
    ensures calls { ComesByCalls D.Called device.old device.new }
{
    let mut bitmap = [0; BLOCK_LEN];
    load(device, layout, layout.sizes.bmapstart, &mut bitmap)?;
    clear_all(&mut bitmap, numbers);
    Ok(bitmap)
}

fn clear_all(bitmap: &mut Block, numbers: &[u32])
    requires small { All (λ b. b < 8192) numbers.now }
    ensures cleared { All (λ b. b ≢ 0 → bit_of bitmap.new b ≡ false) numbers.now }
    ensures kept { (b : ℕ) → All (λ c. c ≢ 0 → c ≢ b) numbers.now → bit_of bitmap.new b ≡ bit_of bitmap.old b }
    ensures fewer { (b : ℕ) → bit_of bitmap.old b ≡ false → bit_of bitmap.new b ≡ false }
{
    for i in 0..numbers.len() {
        if numbers[i] != 0 {
            clear_bit(bitmap, numbers[i] as usize);
        }
    }
}

/// The block of inode i, with that inode free.
fn freed_inodes<D: Device>(device: &mut D, layout: &Layout, i: u32) -> Result<Block, Fault>
    requires layout { IsLayout (D.contents device.old) layout.now }
    requires bound { i < layout.now.sizes.ninodes }
    ensures emptied { IfOk result (λ inodes. dinode_at (i % inodes_per_block) inodes ≡ freed_inode (inode_of (D.contents device.old) i)) }
    ensures others { IfOk result (λ inodes. (q : ℕ) → q < inodes_per_block → q ≢ i % inodes_per_block
        → dinode_at q inodes
        ≡ dinode_at q (recovered (D.contents device.old) ((sizes_of (D.contents device.old)).inodestart + i / inodes_per_block))) }
    ensures device { OnlyReads D.contents D.failures (faults_after result) device.old device.new }
    ensures calls { ComesByCalls D.Called device.old device.new }
{
    let mut inodes = [0; BLOCK_LEN];
    let home = layout.sizes.inodestart + i / INODES_PER_BLOCK as u32;
    load(device, layout, home, &mut inodes)?;
    let place = i as usize % INODES_PER_BLOCK;
    let inode = read_dinode(&inodes, place);
    write_dinode(&mut inodes, place, &freed(&inode));
    Ok(inodes)
}

/// The inode, emptied and free. Its device numbers stay.
fn freed(inode: &Dinode) -> Dinode
    ensures { result ≡ freed_inode inode.now }
{
    Dinode {
        kind: KIND_FREE,
        major: inode.major,
        minor: inode.minor,
        nlink: 0,
        size: 0,
        addrs: [0; ADDRESSES],
    }
}
