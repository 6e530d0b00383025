//! The superblock: block 1 of a disk. docs/FORMATS.md has its table; the xv6 book, chapter 8, its use.
ghost use Rattle.std.specs.Prelude.{◌≡◌, ◌↔◌, ℕ, List, Some, IsSome, length};
ghost use Rattle.fs_layout.specs.Vocabulary.{version_of_magic, Version};
ghost use Rattle.fs_layout.specs.Bytes.{overwrite, u32_at, IsBytes};
ghost use Rattle.fs_layout.specs.Super.{spell_super, super_of, IsSuper};
ghost use Rattle.fs_layout.specs.declared.superblock.Super.{Super};
ghost use Rattle.fs_layout.specs.Widths.{super_len, super_magic_at};

use crate::bytes::{put_u32s, u32_in};
use crate::widths::{
    Block, SUPER_BMAPSTART_AT, SUPER_INODESTART_AT, SUPER_LOGSTART_AT, SUPER_MAGIC_AT,
    SUPER_NBLOCKS_AT, SUPER_NINODES_AT, SUPER_NLOG_AT, SUPER_SIZE_AT,
};
use image_versions::Version;

/// The places of a disk's parts, by block numbers, and how many inodes it has (xv6: `struct superblock`). Any values
/// are one: the examination of an image says whether they fit together, as a well-formed image has them.
#[derive(Clone, Copy, PartialEq, Eq, Debug)]
pub struct Super {
    /// The version of the disk's image, as its magic number says.
    pub version: Version,
    /// How many blocks the disk has: at most 8191 in a well-formed image.
    pub size: u32,
    /// How many of them are data blocks. An examination doesn't look at it.
    pub nblocks: u32,
    /// How many inodes there are, with inode 0, which is never used: from 2 to 65,535 in a well-formed image.
    pub ninodes: u32,
    /// How many blocks the log has, its head and the copies: at least 11 in a well-formed image.
    pub nlog: u32,
    /// The block of the log's head. The copies follow it.
    pub logstart: u32,
    /// The first block of inodes.
    pub inodestart: u32,
    /// The block of the bitmap. The data blocks follow it.
    pub bmapstart: u32,
}

/// The version whose magic number a superblock begins with; `None` if there is no such version.
pub fn read_version(block: &Block) -> Option<Version>
    ensures { result ≡ version_of_magic (u32_at block.now super_magic_at) }
{
    Version::of_magic(u32_in(block, SUPER_MAGIC_AT))
}

/// The superblock of this version that a block is; `None` if its magic number is another.
pub fn read_super(version: Version, block: &Block) -> Option<Super>
    ensures { result ≡ super_of version block.now }
{
    if u32_in(block, SUPER_MAGIC_AT) != version.magic() {
        return None;
    }
    Some(Super {
        version,
        size: u32_in(block, SUPER_SIZE_AT),
        nblocks: u32_in(block, SUPER_NBLOCKS_AT),
        ninodes: u32_in(block, SUPER_NINODES_AT),
        nlog: u32_in(block, SUPER_NLOG_AT),
        logstart: u32_in(block, SUPER_LOGSTART_AT),
        inodestart: u32_in(block, SUPER_INODESTART_AT),
        bmapstart: u32_in(block, SUPER_BMAPSTART_AT),
    })
}

/// Writes the magic number of its version, and the fields. The bytes after them stay: begin with a block of zeros if
/// they must be zero.
pub fn write_super(block: &mut Block, superblock: &Super)
    ensures bytes { block.new ≡ overwrite block.old super_magic_at (spell_super superblock.now) }
    ensures reads_back { super_of superblock.now.version block.new ≡ Some superblock.now }
{
    let numbers = [
        superblock.version.magic(),
        superblock.size,
        superblock.nblocks,
        superblock.ninodes,
        superblock.nlog,
        superblock.logstart,
        superblock.inodestart,
        superblock.bmapstart,
    ];
    put_u32s(block, SUPER_MAGIC_AT, &numbers);
}

/// A superblock and its bytes determine each other, and other bytes are none. Its magic number says which version's
/// it is.
pub fn super_spelling()
    ensures reads_back { (s : Super) → IsSuper s → super_of s.version (spell_super s) ≡ Some s }
    ensures only { (v : Version) (bytes : List ℕ) (s : Super) → length bytes ≡ super_len → IsBytes bytes
        → super_of v bytes ≡ Some s → spell_super s ≡ bytes }
    ensures of_version { (v : Version) (block : List ℕ) (s : Super) → super_of v block ≡ Some s → s.version ≡ v }
    ensures version { (v : Version) (block : List ℕ)
        → IsSome (super_of v block) ↔ (version_of_magic (u32_at block super_magic_at) ≡ Some v) }
{}
