//! An inode on the disk, of which a block has 16. docs/FORMATS.md has its table.
ghost use Rattle.std.specs.Prelude.{◌≡◌, ◌+◌, ◌*◌, ◌≤◌, ◌<◌, ◌≢◌, ℕ, List, length};
ghost use Rattle.fs_layout.specs.Bytes.{overwrite, IsBytes};
ghost use Rattle.fs_layout.specs.Inode.{dinode_at, dinode_of, spell_dinode, IsDinode};
ghost use Rattle.fs_layout.specs.declared.inode.Dinode.{Dinode};
ghost use Rattle.fs_layout.specs.Widths.{inode_len, inodes_per_block};

use crate::bytes::{i16_in, put_i16, put_u32, put_u32s, u32_in, u32s_in};
use crate::widths::{
    ADDRESSES, Block, INODE_ADDRESSES_AT, INODE_LEN, INODE_MAJOR_AT, INODE_MINOR_AT,
    INODE_NLINK_AT, INODE_SIZE_AT,
};

/// An inode as it is on the disk. Any 64 bytes are one: the examination of an image says whether its fields are
/// right, as a well-formed image has them (xv6: `struct dinode`).
#[derive(Clone, Copy, PartialEq, Eq, Debug)]
pub struct Dinode {
    /// Its type: 0 free, 1 directory, 2 file, 3 device.
    pub kind: i16,
    /// The major number of a device.
    pub major: i16,
    /// The minor number of a device.
    pub minor: i16,
    /// How many names it has: of a node in a well-formed image not below 0.
    pub nlink: i16,
    /// Its size in bytes: of a node in a well-formed image at most 274,432.
    pub size: u32,
    /// The numbers of its first 12 blocks, then that of its indirect block. A number 0 is none.
    pub addrs: [u32; ADDRESSES],
}

/// The inode at a place of an inode block, counted in inodes.
pub fn read_dinode(block: &Block, place: usize) -> Dinode
    requires { place < inodes_per_block }
    ensures { result ≡ dinode_at place block.now }
{
    let at = INODE_LEN * place;
    let mut addrs = [0; ADDRESSES];
    u32s_in(block, at + INODE_ADDRESSES_AT, &mut addrs);
    Dinode {
        kind: i16_in(block, at),
        major: i16_in(block, at + INODE_MAJOR_AT),
        minor: i16_in(block, at + INODE_MINOR_AT),
        nlink: i16_in(block, at + INODE_NLINK_AT),
        size: u32_in(block, at + INODE_SIZE_AT),
        addrs,
    }
}

/// Writes an inode at a place of an inode block, counted in inodes.
pub fn write_dinode(block: &mut Block, place: usize, inode: &Dinode)
    requires { place < inodes_per_block }
    ensures bytes { block.new ≡ overwrite block.old (inode_len * place) (spell_dinode inode.now) }
    ensures reads_back { dinode_at place block.new ≡ inode.now }
    ensures others { (q : ℕ) → q < inodes_per_block → q ≢ place → dinode_at q block.new ≡ dinode_at q block.old }
{
    let at = INODE_LEN * place;
    put_i16(block, at, inode.kind);
    put_i16(block, at + INODE_MAJOR_AT, inode.major);
    put_i16(block, at + INODE_MINOR_AT, inode.minor);
    put_i16(block, at + INODE_NLINK_AT, inode.nlink);
    put_u32(block, at + INODE_SIZE_AT, inode.size);
    put_u32s(block, at + INODE_ADDRESSES_AT, &inode.addrs);
}

/// An inode and its bytes determine each other.
pub fn dinode_spelling()
    ensures reads_back { (d : Dinode) → IsDinode d → dinode_of (spell_dinode d) ≡ d }
    ensures only { (bytes : List ℕ) → length bytes ≡ inode_len → IsBytes bytes → spell_dinode (dinode_of bytes) ≡ bytes }
{}
