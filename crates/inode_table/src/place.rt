//! The place of an inode, and what its block's buffer has there.
ghost use Rattle.std.specs.Prelude.{◌≡◌, ◌<◌, ◌^◌, IsSome, ◌+◌};
ghost use Rattle.inode_table.specs.Vocabulary.{MatchOption, inodes_per_block, buffer_at, bytes_at, with_bytes, dinode_at};
ghost use Rattle.inode_table.specs.Programs.{inode_block, place_of, with_dinode};

use fs_layout::widths::INODES_PER_BLOCK;
use fs_layout::{Dinode, read_dinode, write_dinode};
use fs_machine::{Hand, Place};

// The block of an inode.
pub(crate) fn block_of(inodestart: u32, number: u32) -> u32
    requires { inode_block inodestart number < 2 ^ 32 }
    ensures { result ≡ inode_block inodestart number }
{
    inodestart + number / INODES_PER_BLOCK as u32
}

// Its place in its block, counted in inodes.
fn place_in(number: u32) -> usize
    ensures place { result ≡ place_of number }
    ensures within { result < inodes_per_block }
{
    number as usize % INODES_PER_BLOCK
}

// Writes the inode into its block's buffer, at a place of the hand. It stays a function, so that its callers are
// small enough to be inlined.
#[inline(never)]
#[tactic(auto, unfolding(crate::specs::Programs::with_dinode))]
pub(crate) fn write_dinode_at(hand: &mut Hand, place: Place, number: u32, inode: &Dinode)
    requires { MatchOption (buffer_at place hand.old) ⊥ (λ g. IsSome g.value.content) }
    ensures { hand.new ≡ with_bytes place (with_dinode number inode.now (bytes_at place hand.old)) hand.old }
{
    write_dinode(hand.block_mut(place), place_in(number), inode);
}

// The inode as its block's buffer has it.
pub(crate) fn dinode_at(hand: &Hand, place: Place, number: u32) -> Dinode
    requires { MatchOption (buffer_at place hand.now) ⊥ (λ g. IsSome g.value.content) }
    ensures { result ≡ dinode_at (place_of number) (bytes_at place hand.now) }
{
    read_dinode(hand.block(place), place_in(number))
}
