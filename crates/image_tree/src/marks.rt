//! That the bitmap shows the blocks in use as used.
ghost use Rattle.std.specs.Prelude.{◌≡◌, ◌≢◌, ◌<◌, ◌≤◌, ◌↔◌, ℕ, Bool, true, length, IfOk, All, IsTrue};
ghost use Rattle.image_tree.specs.Vocabulary.{faults_after, ComesByCalls, bit_of};
ghost use Rattle.image_tree.specs.Checks.{HasGoodNumbers, HasMarks};
ghost use Rattle.image_tree.specs.Layout.{IsLayout};
ghost use Rattle.image_tree.specs.Reads.{OnlyReads};

use crate::disk::{Layout, load};
use crate::numbers::numbers_at;
use block_device::{Device, Fault};
use fs_layout::bit;
use fs_layout::widths::{BLOCK_LEN, Block};

fn are_marked(bitmap: &Block, numbers: &[u32]) -> bool
    requires { All (λ b. b < 8192) numbers.now }
    ensures { IsTrue result ↔ All (λ b. b ≢ 0 → bit_of bitmap.now b ≡ true) numbers.now }
{
    for i in 0..numbers.len() {
        if numbers[i] != 0 && !bit(bitmap, numbers[i] as usize) {
            return false;
        }
    }
    true
}

fn is_front_marked(bitmap: &Block, last: u32) -> bool
    requires { last < 8192 }
    ensures { IsTrue result ↔ ((b : ℕ) → b ≤ last → bit_of bitmap.now b ≡ true) }
{
    for b in 0..last as usize + 1 {
        if !bit(bitmap, b) {
            return false;
        }
    }
    true
}

/// Whether the bits of the blocks up to the bitmap and of the blocks that inodes name are set.
pub fn has_marks<D: Device>(device: &mut D, layout: &Layout) -> Result<bool, Fault>
    requires layout { IsLayout (D.contents device.old) layout.now }
    requires numbers { HasGoodNumbers (D.contents device.old) }
    ensures marked { IfOk result (λ marked. IsTrue marked ↔ HasMarks (D.contents device.old)) }
    ensures device { OnlyReads D.contents D.failures (faults_after result) device.old device.new }
    ensures calls { ComesByCalls D.Called device.old device.new }
{
    let mut bitmap = [0; BLOCK_LEN];
    load(device, layout, layout.sizes.bmapstart, &mut bitmap)?;
    if !is_front_marked(&bitmap, layout.sizes.bmapstart) {
        return Ok(false);
    }
    for i in 1..layout.sizes.ninodes {
        let numbers = numbers_at(device, layout, i)?;
        if !are_marked(&bitmap, numbers.as_slice()) {
            return Ok(false);
        }
    }
    Ok(true)
}
