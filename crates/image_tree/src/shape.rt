//! What an examination says of an image.
ghost use Rattle.std.specs.Prelude.{◌≡◌, ◌<◌, ◌≤◌, ◌&&◌, not, if◌then◌else◌, length, filter, IfOk};
ghost use Rattle.image_tree.specs.Vocabulary.{faults_after, ComesByCalls};
ghost use Rattle.image_tree.specs.Inodes.{is_block, is_free, is_live};
ghost use Rattle.image_tree.specs.Shape.{shape_of};
ghost use Rattle.image_tree.specs.Checks.{HasGoodNumbers};
ghost use Rattle.image_tree.specs.Layout.{IsLayout};
ghost use Rattle.image_tree.specs.Reads.{OnlyReads};

use crate::disk::{Layout, load_inode};
use crate::inodes::{is_free, is_live};
use crate::numbers::numbers_at;
use block_device::{Device, Fault};
use fs_layout::Dinode;

/// How large a well-formed image is, and what is on it.
#[derive(Clone, Copy, PartialEq, Eq, Debug)]
pub struct Shape {
    /// Its size, in blocks.
    pub size: u32,
    /// How many inodes it has, counting inode 0.
    pub ninodes: u32,
    /// How many nodes have a count above 0.
    pub live: u32,
    /// How many nodes have a count of 0.
    pub orphans: u32,
    /// How many blocks the nodes name: those with their content, and indirect blocks.
    pub blocks: u32,
}

/// 1 for a node with a name, else 0.
fn count_live(inode: &Dinode) -> u32
    ensures { result ≡ (if not (is_free inode.now) && is_live inode.now then 1 else 0) }
{
    u32::from(!is_free(inode) && is_live(inode))
}

/// 1 for a node without a name, else 0.
fn count_orphan(inode: &Dinode) -> u32
    ensures { result ≡ (if not (is_free inode.now) && not (is_live inode.now) then 1 else 0) }
{
    u32::from(!is_free(inode) && !is_live(inode))
}

/// How many of the numbers name a block.
fn count_blocks(numbers: &[u32]) -> u32
    requires { length numbers.now ≤ 269 }
    ensures blocks { result ≡ length (filter is_block numbers.now) }
    ensures few { result ≤ length numbers.now }
{
    let mut blocks = 0;
    for i in 0..numbers.len() {
        if numbers[i] != 0 {
            blocks += 1;
        }
    }
    blocks
}

/// Counts what is on an image.
pub fn find_shape<D: Device>(device: &mut D, layout: &Layout) -> Result<Shape, Fault>
    requires layout { IsLayout (D.contents device.old) layout.now }
    requires numbers { HasGoodNumbers (D.contents device.old) }
    ensures shape { IfOk result (λ shape. shape ≡ shape_of (D.contents device.old)) }
    ensures device { OnlyReads D.contents D.failures (faults_after result) device.old device.new }
    ensures calls { ComesByCalls D.Called device.old device.new }
{
    let mut live = 0;
    let mut orphans = 0;
    let mut blocks = 0;
    for i in 1..layout.sizes.ninodes {
        let inode = load_inode(device, layout, i)?;
        let numbers = numbers_at(device, layout, i)?;
        live += count_live(&inode);
        orphans += count_orphan(&inode);
        blocks += count_blocks(numbers.as_slice());
    }
    Ok(Shape {
        size: layout.sizes.size,
        ninodes: layout.sizes.ninodes,
        live,
        orphans,
        blocks,
    })
}
