//! What holds of the programs and of the bits that they change. The functions do nothing: each carries a law.
ghost use Rattle.bitmap_alloc.specs.Laws.{TakesTheFirst, FreesByTheBitmap, SetsOneBit, ClearsOneBit};

/// The block that is taken is the first one whose bit is clear in the bitmap as it was fetched. Then the bitmap with
/// that bit set is recorded, and the block with zeros. If no bit below the disk's size is clear, nothing is recorded.
pub fn takes_the_first()
    ensures { TakesTheFirst }
{}

/// A block given back records the bitmap with its bit clear, and nothing else.
pub fn frees_by_the_bitmap()
    ensures { FreesByTheBitmap }
{}

/// The bitmap with a block's bit set has that bit set, and the others as they were.
pub fn sets_one_bit()
    ensures { SetsOneBit }
{}

/// The bitmap with a block's bit clear has that bit clear, and the others as they were.
pub fn clears_one_bit()
    ensures { ClearsOneBit }
{}
