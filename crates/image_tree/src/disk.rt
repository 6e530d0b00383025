//! A disk, seen as recovery would leave it.
ghost use Rattle.std.specs.Prelude.{◌≡◌, ◌+◌, ◌<◌, ◌≤◌, ◌^◌, ◌==◌, length, position, OnOk, IfOk, IfSome};
ghost use Rattle.image_tree.specs.Vocabulary.{faults_after, ComesByCalls, place_of, recovered};
ghost use Rattle.image_tree.specs.Inodes.{inode_of};
ghost use Rattle.image_tree.specs.Layout.{IsLayout};
ghost use Rattle.image_tree.specs.Reads.{OnlyReads};

use block_device::{Device, Fault};
use fs_layout::widths::{BLOCK_LEN, Block, INODES_PER_BLOCK};
use fs_layout::{Dinode, LogHead, Super, read_dinode};
use image_versions::Version;

/// The version of an image, its superblock and the head of its log.
#[derive(Drop)]
pub struct Layout {
    pub version: Version,
    pub sizes: Super,
    pub head: LogHead,
}

fn find_in(blocks: &[u32], b: u32) -> Option<usize>
    ensures found { result ≡ position (λ x. x == b) blocks.now }
    ensures bound { IfSome result (λ i. i < length blocks.now) }
{
    blocks.iter().position(|x| *x == b)
}

fn place_in(logstart: u32, blocks: &[u32], b: u32) -> u32
    requires { logstart + 1 + length blocks.now < 2 ^ 32 }
    ensures { result ≡ place_of logstart blocks.now b }
{
    match find_in(blocks, b) {
        Some(i) => logstart + 1 + i as u32,
        None => b,
    }
}

/// Reads a block as recovery would leave it.
pub fn load<D: Device>(device: &mut D, layout: &Layout, b: u32, to: &mut Block) -> Result<(), Fault>
    requires layout { IsLayout (D.contents device.old) layout.now }
    requires bound { b < length (D.contents device.old) }
    ensures read { OnOk result (to.new ≡ recovered (D.contents device.old) b) }
    ensures device { OnlyReads D.contents D.failures (faults_after result) device.old device.new }
    ensures calls { ComesByCalls D.Called device.old device.new }
{
    let place = place_in(layout.sizes.logstart, layout.head.blocks.as_slice(), b);
    device.read(place, to)
}

/// Reads an inode.
pub fn load_inode<D: Device>(device: &mut D, layout: &Layout, i: u32) -> Result<Dinode, Fault>
    requires layout { IsLayout (D.contents device.old) layout.now }
    requires bound { i < layout.now.sizes.ninodes }
    ensures inode { IfOk result (λ d. d ≡ inode_of (D.contents device.old) i) }
    ensures device { OnlyReads D.contents D.failures (faults_after result) device.old device.new }
    ensures calls { ComesByCalls D.Called device.old device.new }
{
    let mut block = [0; BLOCK_LEN];
    load(
        device,
        layout,
        layout.sizes.inodestart + i / INODES_PER_BLOCK as u32,
        &mut block,
    )?;
    Ok(read_dinode(&block, i as usize % INODES_PER_BLOCK))
}
