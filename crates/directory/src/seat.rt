//! The index of the directory whose lock is at a seat.
ghost use Rattle.std.specs.Prelude.{◌≡◌, ◌<◌, ◌≤◌, length, IsSome};
ghost use Rattle.directory.specs.Vocabulary.{MatchOption, option_map, bytes_at, dirent_len_of, dirents_per_block_of, index_at, index_of, indexed, most_blocks, record_in, with_index, First, IsLoadedAt};
ghost use Rattle.directory.specs.Programs.{found_in, most_slots, slots_in};
ghost use Rattle.directory.specs.Indexes.{cleared, raised, used_in, with_block, with_entry};
ghost use Rattle.directory.specs.Sought.{aim_of, IsSlot, IsSought};

use crate::found::{Found, Sought, found_in, slots_in};
use crate::index::{clear, enter, raise};
use fs_layout::Dinode;
use fs_layout::widths::Block;
use fs_machine::{Hand, Inode, InodePlace, NameIndex, Place};
use image_versions::Version;
use inode_table::record_at;
use sleep_lock::Guard;

// The index.
pub(crate) fn index_at(hand: &Hand, seat: InodePlace) -> &NameIndex
    requires { IsLoadedAt seat hand.now }
    ensures { result.now ≡ index_at seat hand.now }
{
    hand.inode(seat).index()
}

fn raise_in(
    version: Version,
    place: &mut Option<Guard<Inode>>,
    k: usize,
    count: usize,
    block: &Block,
)
    requires loaded { MatchOption place.old ⊥ (λ g. IsSome g.value.content) }
    requires block { k < most_blocks }
    requires count { count ≤ dirents_per_block_of version }
    ensures { place.new ≡ option_map (λ g. indexed (with_block k (used_in version k count block.now) (index_of g.value)) g) place.old }
{
    match place {
        Some(guard) => raise(version, guard.value_mut().index_mut(), k, count, block),
        None => unreachable!(),
    }
}

// The block in hand, which is block `k`, was read; `count` of its slots are the directory's.
#[inline(always)]
fn raise_at(version: Version, hand: &mut Hand, seat: InodePlace, k: usize, count: usize)
    requires valid { MatchOption hand.old.first ⊥ (λ g. IsSome g.value.content) }
    requires loaded { IsLoadedAt seat hand.old }
    requires block { k < most_blocks }
    requires count { count ≤ dirents_per_block_of version }
    ensures { hand.new
        ≡ with_index seat (with_block k (used_in version k count (bytes_at First hand.old)) (index_at seat hand.old)) hand.old }
{
    match &hand.first {
        None => unreachable!(),
        Some(guard) => match seat {
            InodePlace::One => raise_in(version, &mut hand.one, k, count, guard.value().bytes()),
            InodePlace::Two => raise_in(version, &mut hand.two, k, count, guard.value().bytes()),
        },
    }
}

// What is found in the block in hand, which is block `k`.
#[inline(always)]
fn found_at(
    version: Version,
    hand: &Hand,
    inode: &Dinode,
    k: usize,
    sought: Sought,
) -> Option<Found>
    requires valid { MatchOption hand.now.first ⊥ (λ g. IsSome g.value.content) }
    requires block { k < most_blocks }
    requires sought { IsSought version sought }
    ensures found { result ≡ found_in version (aim_of sought.entry) inode.now k (bytes_at First hand.now) }
    ensures slot { IsSlot version result }
{
    found_in(version, hand.block(Place::First), inode, k, sought)
}

// The same, and the block is indexed besides, if it may be.
#[inline(always)]
#[tactic(auto, unfolding(crate::specs::Indexes::raised))]
pub(crate) fn look_at(
    version: Version,
    hand: &mut Hand,
    seat: InodePlace,
    k: usize,
    sought: Sought,
) -> Option<Found>
    requires valid { MatchOption hand.old.first ⊥ (λ g. IsSome g.value.content) }
    requires loaded { IsLoadedAt seat hand.old }
    requires block { k < most_blocks }
    requires sought { IsSought version sought }
    ensures found { result ≡ found_in version (aim_of sought.entry) (record_in seat hand.old) k (bytes_at First hand.old) }
    ensures slot { IsSlot version result }
    ensures hand { hand.new
        ≡ with_index seat (raised version (record_in seat hand.old) k (bytes_at First hand.old) (index_at seat hand.old)) hand.old }
{
    let inode = record_at(hand, seat);
    let found = found_at(version, hand, inode, k, sought);
    let count = slots_in(version, inode, k);
    raise_at(version, hand, seat, k, count);
    found
}

// An entry of these bytes was put into a slot.
pub(crate) fn enter_at(
    version: Version,
    hand: &mut Hand,
    seat: InodePlace,
    slot: usize,
    bytes: &[u8],
)
    requires loaded { IsLoadedAt seat hand.old }
    requires slot { slot < most_slots version }
    requires bytes { length bytes.now ≡ dirent_len_of version }
    ensures { hand.new ≡ with_index seat (with_entry version slot bytes.now (index_at seat hand.old)) hand.old }
{
    enter(version, hand.index_mut(seat), slot, bytes);
}

/// A slot of the directory was cleared, and goes from its index.
pub fn clear_in_index(hand: &mut Hand, seat: InodePlace, slot: u32)
    requires { IsLoadedAt seat hand.old }
    ensures { hand.new ≡ with_index seat (cleared slot (index_at seat hand.old)) hand.old }
{
    clear(hand.index_mut(seat), slot);
}
