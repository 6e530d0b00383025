//! What is sought and found in a block of a directory.
ghost use Rattle.std.specs.Prelude.{◌≡◌, ◌+◌, ◌-◌, ◌*◌, ◌≤◌, ◌<◌, IfSome};
ghost use Rattle.directory.specs.Vocabulary.{dirents_per_block_of, most_blocks};
ghost use Rattle.directory.specs.Programs.{slot_count, block_count, slots_in, first_in, found_at, found_in, is_directory, is_live_directory};
ghost use Rattle.directory.specs.Sought.{aim_of, IsSlot, IsSought};

use crate::slots::{first_free, first_named, first_used, number_at};
use fs_layout::Dinode;
use fs_layout::widths::Block;
use image_versions::Version;

// The type of a directory.
const DIRECTORY: i16 = 1;

// The slots "." and "..".
pub(crate) const DOTS: usize = 2;

/// A slot that was found.
#[derive(Clone, Copy, PartialEq, Eq, Debug)]
pub struct Found {
    /// Its place, counted from the directory's first slot.
    pub slot: u32,
    /// The inode's number in it; 0 in a free slot.
    pub number: u32,
}

/// What is sought among the slots of a directory.
#[derive(Clone, Copy)]
pub enum Sought<'a> {
    /// A used slot of this name.
    Name(&'a [u8]),
    /// A free slot.
    Free,
    /// A used slot past the first two.
    Entry,
}

// How many slots a directory has.
pub(crate) fn slot_count(version: Version, inode: &Dinode) -> usize
    ensures { result ≡ slot_count version inode.now }
{
    version
        .most_slots()
        .min(inode.size as usize / version.dirent_len())
}

/// How many blocks have a directory's slots.
pub fn block_count(version: Version, inode: &Dinode) -> usize
    ensures count { result ≡ block_count version inode.now }
    ensures bound { result ≤ most_blocks }
{
    slot_count(version, inode).div_ceil(version.dirents_per_block())
}

// How many of them a block has.
pub(crate) fn slots_in(version: Version, inode: &Dinode, k: usize) -> usize
    requires { k < most_blocks }
    ensures count { result ≡ slots_in version inode.now k }
    ensures bound { result ≤ dirents_per_block_of version }
{
    let whole = version.dirents_per_block();
    whole.min(slot_count(version, inode).saturating_sub(whole * k))
}

// The first slot of a block that is sought.
#[inline(always)]
fn first_in(
    version: Version,
    block: &Block,
    k: usize,
    limit: usize,
    sought: Sought,
) -> Option<usize>
    requires block { k < most_blocks }
    requires limit { limit ≤ dirents_per_block_of version }
    requires sought { IsSought version sought }
    ensures first { result ≡ first_in version (aim_of sought.entry) k limit block.now }
    ensures below { IfSome result (λ place. place < limit) }
{
    match sought {
        Sought::Name(name) => first_named(version, block, limit, name),
        Sought::Free => first_free(version, block, limit),
        Sought::Entry => {
            let from = DOTS.saturating_sub(version.dirents_per_block() * k);
            first_used(version, block, from, limit)
        }
    }
}

// The slot at a place of a block.
fn found_at(version: Version, block: &Block, k: usize, place: usize) -> Found
    requires block { k < most_blocks }
    requires place { place < dirents_per_block_of version }
    ensures { result ≡ found_at version k block.now place }
{
    Found {
        slot: (version.dirents_per_block() * k + place) as u32,
        number: u32::from(number_at(version, block, place)),
    }
}

/// What is found in block `k` of a directory.
#[inline(always)]
#[tactic(auto, unfolding(crate::specs::Programs::found_in))]
pub fn found_in(
    version: Version,
    block: &Block,
    inode: &Dinode,
    k: usize,
    sought: Sought,
) -> Option<Found>
    requires block { k < most_blocks }
    requires sought { IsSought version sought }
    ensures found { result ≡ found_in version (aim_of sought.entry) inode.now k block.now }
    ensures slot { IsSlot version result }
{
    match first_in(version, block, k, slots_in(version, inode, k), sought) {
        Some(place) => Some(found_at(version, block, k, place)),
        None => None,
    }
}

/// Whether it is a directory.
pub fn is_directory(inode: &Dinode) -> bool
    ensures { result ≡ is_directory inode.now }
{
    inode.kind == DIRECTORY
}

/// Whether it is one that has a link.
pub fn is_live_directory(inode: &Dinode) -> bool
    ensures { result ≡ is_live_directory inode.now }
{
    is_directory(inode) && inode.nlink > 0
}
