//! The search of a bitmap block.
ghost use Rattle.std.specs.Prelude.{◌≡◌, ◌≢◌, ◌<◌, ◌≤◌, ℕ, IfSome, slice_index};
ghost use Rattle.bitmap_alloc.specs.Vocabulary.{bit_at};
ghost use Rattle.bitmap_alloc.specs.First.{first_clear_below};

use fs_layout::widths::{BITS_PER_BLOCK, BLOCK_LEN, Block};

// A byte whose bits are all set.
const FULL: u8 = 0xff;

// The first byte with a clear bit, or the block's length if none has one.
fn first_open(bitmap: &Block) -> usize
    ensures within { result ≤ BLOCK_LEN }
    ensures before { (k : ℕ) → k < result → slice_index bitmap.now k ≡ FULL }
    ensures unfull { result < BLOCK_LEN → slice_index bitmap.now result ≢ FULL }
{
    for (i, byte) in bitmap.iter().enumerate() {
        if *byte != FULL {
            return i;
        }
    }
    BLOCK_LEN
}

// The lowest clear bit of a byte that has one.
fn lowest_clear(byte: u8) -> usize
    requires { byte ≢ FULL }
    ensures below { result < 8 }
    ensures clear { bit_at byte result ≡ 0 }
    ensures before { (k : ℕ) → k < result → bit_at byte k ≡ 1 }
{
    byte.trailing_ones() as usize
}

/// The first clear bit below a limit. Bytes without a clear bit are passed over as a whole.
pub fn first_clear(bitmap: &Block, limit: usize) -> Option<u32>
    requires { limit ≤ BITS_PER_BLOCK }
    ensures first { result ≡ first_clear_below limit bitmap.now }
    ensures below { IfSome result (λ b. b < limit) }
{
    let byte = first_open(bitmap);
    if byte == BLOCK_LEN {
        return None;
    }
    let bit = 8 * byte + lowest_clear(bitmap[byte]);
    if bit < limit { Some(bit as u32) } else { None }
}
