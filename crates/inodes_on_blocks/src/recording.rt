//! Blocks recorded for an inode that a hart is changing. Each such put may be made and leaves what is the other
//! harts', and the world above stays as it is shown.

ghost use Rattle.inodes_on_blocks.specs.Recording.{BitmapsPutBits, ClearedBitsLeave, DataPutsLeave, MarksAreBits, NamingPutsLeave, RecordPutsLeave, RecordedPutsKeep, SetBitsLeave};
ghost use Rattle.inodes_on_blocks.specs.Giving.{BlocksAreGivenBack, NumbersAreGivenBack};
ghost use Rattle.inodes_on_blocks.specs.Taking.{BlocksAreTaken};

/// A block is recorded for an inode whose lock the hart has, in its transaction. That leaves the others theirs and
/// the world above as it is shown.
pub fn recorded_puts_keep()
    ensures { RecordedPutsKeep }
{}

/// So a data block that is the inode's, or that the hart has taken.
pub fn data_puts_leave()
    ensures { DataPutsLeave }
{}

/// And the bitmap with the bit of a block of the inode clear, which is nobody's then.
pub fn cleared_bits_leave()
    ensures { ClearedBitsLeave }
{}

/// And the bitmap with a bit set that was clear, whose block is in the hart's hand then.
pub fn set_bits_leave()
    ensures { SetBitsLeave }
{}

/// And the inode's block with its record, if the hart has taken no block.
pub fn record_puts_leave()
    ensures { RecordPutsLeave }
{}

/// And the inode's block with its record, if this names blocks that the hart has taken: they are the inode's then.
pub fn naming_puts_leave()
    ensures { NamingPutsLeave }
{}

/// A block is marked on the seen disk just if its bit is set in the bitmap as it is seen.
pub fn marks_are_bits()
    ensures { MarksAreBits }
{}

/// The bitmap as the programs put it that take a block or give one back sets or clears that bit alone.
pub fn bitmaps_put_bits()
    ensures { BitmapsPutBits }
{}

/// A block of the inode is given back whatever the other harts do, while at most one other buffer is in the hart's
/// hand.
pub fn blocks_are_given_back()
    ensures { BlocksAreGivenBack }
{}

/// So are all its blocks, one after the other.
pub fn numbers_are_given_back()
    ensures { NumbersAreGivenBack }
{}

/// A block is taken for the inode whatever the other harts do. It is the hart's, of zeros, until a record names it;
/// or none is free.
pub fn blocks_are_taken()
    ensures { BlocksAreTaken }
{}
