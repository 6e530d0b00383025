//! The bytes of a bitmap block with a bit changed, and of a block that is taken.
ghost use Rattle.std.specs.Prelude.{◌≡◌, ◌<◌};
ghost use Rattle.bitmap_alloc.specs.Vocabulary.{bits_per_block};
ghost use Rattle.bitmap_alloc.specs.Bytes.{with_bit, without_bit, zeros};

use fs_layout::widths::{BITS_PER_BLOCK, BLOCK_LEN, Block};

/// Sets a block's bit.
#[tactic(auto, unfolding(crate::specs::Bytes::with_bit))]
pub fn set(bitmap: &mut Block, b: usize)
    requires { b < bits_per_block }
    ensures { bitmap.new ≡ with_bit b bitmap.old }
{
    bitmap[b / 8] |= 1 << (b % 8);
}

/// Clears a block's bit. A number past the bitmap has none, and changes nothing.
#[tactic(auto, unfolding(crate::specs::Bytes::without_bit))]
pub fn clear(bitmap: &mut Block, b: usize)
    ensures { bitmap.new ≡ without_bit b bitmap.old }
{
    if b < BITS_PER_BLOCK {
        bitmap[b / 8] &= !(1 << (b % 8));
    }
}

// Fills a block with zeros.
#[tactic(auto, unfolding(crate::specs::Bytes::zeros))]
pub(crate) fn zero(block: &mut Block)
    ensures { block.new ≡ zeros }
{
    *block = [0; BLOCK_LEN];
}
