//! The numbers of a content's blocks that aren't 0.
ghost use Rattle.std.specs.Prelude.{◌<◌, IfSome, take};
ghost use Rattle.inode_data.specs.Vocabulary.{numbers_in, numbers_per_block};
ghost use Rattle.inode_data.specs.Numbers.{IsNext};
ghost use Rattle.inode_data.specs.Widths.{direct};

use crate::addresses::DIRECT;
use fs_layout::widths::{Block, NUMBERS_PER_BLOCK};
use fs_layout::{Dinode, read_number};

/// The place of the next of the inode's own block numbers, from a place on.
pub fn next_own(inode: &Dinode, from: usize) -> Option<usize>
    ensures next { IsNext (take direct inode.now.addrs) from result }
    ensures within { IfSome result (λ i. i < direct) }
{
    for i in from..DIRECT {
        if inode.addrs[i] != 0 {
            return Some(i);
        }
    }
    None
}

/// The place of the next number in an indirect block, from a place on.
pub fn next_listed(table: &Block, from: usize) -> Option<usize>
    ensures next { IsNext (numbers_in table.now) from result }
    ensures within { IfSome result (λ i. i < numbers_per_block) }
{
    for i in from..NUMBERS_PER_BLOCK {
        if read_number(table, i) != 0 {
            return Some(i);
        }
    }
    None
}
