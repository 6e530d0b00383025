//! The bitmap's bits of the blocks up to itself.
ghost use Rattle.std.specs.Prelude.{◌≡◌, ◌<◌, ◌≤◌, ℕ, true, false, IfOk};
ghost use Rattle.std.specs.Option.{MatchOption};
ghost use Rattle.image_tree.specs.Vocabulary.{faults_after, bit_of};
ghost use Rattle.damage_places.specs.Vocabulary.{IsLayout, OnlyReads, is_marked, sizes_of};
ghost use Rattle.damage_places.specs.Places.{IsFrontMarked, IsFreeInFront};

use block_device::{Device, Fault};
use fs_layout::bit;
use fs_layout::widths::{BLOCK_LEN, Block};
use image_tree::{Layout, load};

/// The first block up to `last` that is free in the bitmap.
fn first_free(bitmap: &Block, last: u32) -> Option<u32>
    requires { last < 8192 }
    ensures { MatchOption result
        ((b : ℕ) → b ≤ last → bit_of bitmap.now b ≡ true)
        (λ f. (f ≤ last) × (bit_of bitmap.now f ≡ false) × ((b : ℕ) → b < f → bit_of bitmap.now b ≡ true)) }
{
    for b in 0..last + 1 {
        if !bit(bitmap, b as usize) {
            return Some(b);
        }
    }
    None
}

/// The first block up to the bitmap that is free in it.
pub fn find_front<D: Device>(device: &mut D, layout: &Layout) -> Result<Option<u32>, Fault>
    requires { IsLayout (D.contents device.old) layout.now }
    ensures front { IfOk result (λ found. MatchOption found
        (IsFrontMarked (D.contents device.old))
        (IsFreeInFront (D.contents device.old))) }
    ensures device { OnlyReads D.contents D.failures (faults_after result) device.old device.new }
{
    let mut bitmap = [0; BLOCK_LEN];
    load(device, layout, layout.sizes.bmapstart, &mut bitmap)?;
    Ok(first_free(&bitmap, layout.sizes.bmapstart))
}
