//! The content of a file.
ghost use Rattle.std.specs.Prelude.{◌≡◌, ◌≢◌, ◌<◌, ◌≤◌, ◌++◌, ℕ, List, length, IfOk, IfErr, OnOk, All};
ghost use Rattle.image_tree.specs.Vocabulary.{ComesByCalls, sizes_of};
ghost use Rattle.image_tree.specs.Inodes.{content_of, numbers_of};
ghost use Rattle.image_tree.specs.Checks.{IsData};
ghost use Rattle.image_tree.specs.Damage.{JudgesFault, faults_with};
ghost use Rattle.image_tree.specs.Layout.{IsLayout};
ghost use Rattle.image_tree.specs.Reads.{OnlyReads};

use crate::disk::{Layout, load};
use crate::fault::MountFault;
use crate::sizes::block_number;
use block_device::Device;
use fs_layout::Dinode;
use fs_layout::widths::{BLOCK_LEN, Block};
use std::alloc::{AllocError, Global};

fn append_block(bytes: &mut Vec<u8>, block: &Block) -> Result<(), AllocError>
    ensures { OnOk result (bytes.new.items ≡ bytes.old.items ++ block.now) }
{
    bytes.extend_from_slice(block)?;
    Ok(())
}

/// The bytes of a file with these block numbers, as many as its size says.
pub fn load_content<D: Device>(
    alloc: Global,
    device: &mut D,
    layout: &Layout,
    inode: &Dinode,
    numbers: &[u32],
) -> Result<Vec<u8>, MountFault>
    requires layout { IsLayout (D.contents device.old) layout.now }
    requires numbers { numbers.now ≡ numbers_of (D.contents device.old) inode.now }
    requires good { All (λ b. b ≢ 0 → IsData (sizes_of (D.contents device.old)) b) numbers.now }
    ensures content { IfOk result (λ bytes. bytes.items ≡ content_of (D.contents device.old) inode.now) }
    ensures err { IfErr result (JudgesFault layout.now.version (D.contents device.old)) }
    ensures device { OnlyReads D.contents D.failures (faults_with result) device.old device.new }
    ensures calls { ComesByCalls D.Called device.old device.new }
{
    let mut bytes = Vec::new(alloc);
    let mut block = [0; BLOCK_LEN];
    let size = inode.size as usize;
    for k in 0..size.div_ceil(BLOCK_LEN) {
        load(device, layout, block_number(numbers, k), &mut block)?;
        append_block(&mut bytes, &block)?;
    }
    bytes.truncate(size);
    Ok(bytes)
}
