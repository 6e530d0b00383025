//! The places of the numbers of a content's blocks.
ghost use Rattle.std.specs.Prelude.{◌≡◌, ◌<◌};
ghost use Rattle.inode_data.specs.Addresses.{address, IsPlace};
ghost use Rattle.inode_data.specs.Widths.{most_blocks};

use image_versions::widths;

/// How many block numbers are in the inode itself; that of the indirect block comes after them.
pub const DIRECT: usize = widths::DIRECT;

/// How many blocks a content has at most.
pub const MOST_BLOCKS: usize = widths::MOST_CONTENT_BLOCKS;

/// The place of a block's number.
#[derive(Clone, Copy, PartialEq, Eq, Debug)]
pub enum Address {
    /// At this place of the inode.
    Direct(usize),
    /// At this place of its indirect block.
    InTable(usize),
}

/// The place of the number of block `k` of a content.
pub fn address_of(k: usize) -> Address
    requires { k < most_blocks }
    ensures there { result ≡ address k }
    ensures place { IsPlace result }
{
    if k < DIRECT {
        Address::Direct(k)
    } else {
        Address::InTable(k - DIRECT)
    }
}
