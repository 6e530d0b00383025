//! The index of a directory's names: what is sought found in it, and kept as the directory's blocks are read and its
//! slots written.
ghost use Rattle.std.specs.Prelude.{◌≡◌, ◌+◌, ◌*◌, ◌^◌, ◌≤◌, ◌<◌, nat_le, IfSome, MatchOption, insert, length, remove};
ghost use Rattle.directory.specs.Vocabulary.{IsName, dirent_of, dirent_len_of, dirents_per_block_of, most_blocks, record_at};
ghost use Rattle.directory.specs.Aims.{most_slots};
ghost use Rattle.directory.specs.Slots.{is_named};
ghost use Rattle.directory.specs.Indexes.{cleared, first_gap, first_of, first_that, found_as, free_below, kept, on_disk, placed, used_in, with_block, with_entry, without};
ghost use Rattle.directory.specs.Sought.{aim_of, IsSlot, IsSought};
ghost use Rattle.fs_machine.specs.declared.name_index.IndexedSlot.{IndexedSlot as IndexedSlotState};

use crate::found::{DOTS, Found, Sought, slot_count};
use crate::slots::{has_name, number_at, number_in, words_of};
use fs_layout::Dinode;
use fs_layout::widths::Block;
use fs_machine::{INDEXED_SLOTS, IndexedSlot, NameIndex};
use image_versions::Version;
use image_versions::widths::LONGEST_DIRENT_LEN;

// A slot of the index, as one that was found.
fn found_as(slot: &IndexedSlot) -> Found
    ensures { result ≡ found_as slot.now }
{
    Found {
        slot: slot.place,
        number: u32::from(number_in(&slot.bytes)),
    }
}

// The first one of this name, among the first `count` slots of the directory.
fn first_named(version: Version, slots: &[IndexedSlot], count: usize, name: &[u8]) -> Option<Found>
    requires { IsName version name.now }
    ensures found { result ≡ first_that (λ e. is_named name.now (dirent_of version (on_disk version e.bytes))) count slots.now }
    ensures below { IfSome result (λ f. f.slot < count) }
{
    let words = words_of(name);
    for slot in slots {
        if (slot.place as usize) < count && has_name(version, &slot.bytes, 0, &words) {
            return Some(found_as(slot));
        }
    }
    None
}

// The first one past the first two of the directory, among the first `count` of its slots.
fn first_entry(slots: &[IndexedSlot], count: usize) -> Option<Found>
    ensures found { result ≡ first_that (λ e. nat_le 2 e.place) count slots.now }
    ensures below { IfSome result (λ f. f.slot < count) }
{
    for slot in slots {
        if (slot.place as usize) < count && DOTS <= slot.place as usize {
            return Some(found_as(slot));
        }
    }
    None
}

// The first slot of the directory that isn't among them.
fn first_gap(slots: &[IndexedSlot]) -> usize
    ensures gap { result ≡ first_gap 0 slots.now }
    ensures few { result ≤ length slots.now }
{
    for (at, slot) in slots.iter().enumerate() {
        if slot.place as usize != at {
            return at;
        }
    }
    slots.len()
}

// This slot, if it is below the limit.
fn free_below(limit: usize, slot: usize) -> Option<Found>
    requires { limit < 2 ^ 32 }
    ensures free { result ≡ free_below limit slot }
    ensures below { IfSome result (λ f. f.slot < limit) }
{
    if slot < limit {
        Some(Found {
            slot: slot as u32,
            number: 0,
        })
    } else {
        None
    }
}

// The first slot in the blocks of an index that is sought.
#[inline(always)]
#[tactic(auto, unfolding(crate::specs::Indexes::first_of))]
pub(crate) fn first_of(
    version: Version,
    index: &NameIndex,
    inode: &Dinode,
    sought: Sought,
) -> Option<Found>
    requires sought { IsSought version sought }
    ensures found { result ≡ first_of version (aim_of sought.entry) inode.now index.now }
    ensures slot { IsSlot version result }
{
    let count = slot_count(version, inode);
    match sought {
        Sought::Name(name) => first_named(version, index.slots(), count, name),
        Sought::Free => {
            let blocks = index.blocks();
            let known = version.dirents_per_block().saturating_mul(blocks);
            free_below(known.min(count), first_gap(index.slots()))
        }
        Sought::Entry => first_entry(index.slots(), count),
    }
}

// Block `k`, of which `count` slots are the directory's, was read. If it is the next one, and there is room for its
// used slots, the index has that too.
pub(crate) fn raise(version: Version, index: &mut NameIndex, k: usize, count: usize, block: &Block)
    requires block { k < most_blocks }
    requires count { count ≤ dirents_per_block_of version }
    ensures { index.new ≡ with_block k (used_in version k count block.now) index.old }
{
    if index.blocks() != k {
        return;
    }
    let had = index.slots().len();
    for place in 0..count {
        if number_at(version, block, place) != 0 {
            if index.slots().len() == INDEXED_SLOTS {
                index.truncate(had);
                return;
            }
            index.push(slot_at(version, block, k, place));
        }
    }
    index.set_blocks(k + 1);
}

// The slot at a place of block `k`.
fn slot_at(version: Version, block: &Block, k: usize, place: usize) -> IndexedSlot
    requires block { k < most_blocks }
    requires place { place < dirents_per_block_of version }
    ensures { result ≡ record {
      place = dirents_per_block_of version * k + place;
      bytes = kept (record_at (dirent_len_of version) place block.now);
    } }
{
    let len = version.dirent_len();
    let at = len * place;
    IndexedSlot {
        place: (version.dirents_per_block() * k + place) as u32,
        bytes: kept(&block[at..at + len]),
    }
}

// A slot's bytes, and zeros after them.
fn kept(bytes: &[u8]) -> [u8; LONGEST_DIRENT_LEN]
    requires { length bytes.now ≤ LONGEST_DIRENT_LEN }
    ensures { result ≡ kept bytes.now }
{
    let mut all = [0; LONGEST_DIRENT_LEN];
    all[..bytes.len()].copy_from_slice(bytes);
    all
}

// An entry of these bytes was put into a slot.
#[tactic(auto, unfolding(crate::specs::Indexes::with_entry))]
pub(crate) fn enter(version: Version, index: &mut NameIndex, slot: usize, bytes: &[u8])
    requires slot { slot < most_slots version }
    requires bytes { length bytes.now ≡ dirent_len_of version }
    ensures { index.new ≡ with_entry version slot bytes.now index.old }
{
    if slot / version.dirents_per_block() >= index.blocks() {
        return;
    }
    if index.slots().len() == INDEXED_SLOTS {
        index.clear();
        return;
    }
    let slot = IndexedSlot {
        place: slot as u32,
        bytes: kept(bytes),
    };
    let at = first_behind(index.slots(), slot.place);
    index.insert(at, slot);
}

// Before which one a slot comes in their order.
fn first_behind(slots: &[IndexedSlot], place: u32) -> usize
    ensures within { result ≤ length slots.now }
    ensures placed { (e : IndexedSlotState) → e.place ≡ place → placed e slots.now ≡ insert slots.now result e }
{
    for (at, slot) in slots.iter().enumerate() {
        if place < slot.place {
            return at;
        }
    }
    slots.len()
}

// A slot was cleared.
#[tactic(auto, unfolding(crate::specs::Indexes::cleared))]
pub(crate) fn clear(index: &mut NameIndex, slot: u32)
    ensures { index.new ≡ cleared slot index.old }
{
    match position(index.slots(), slot) {
        None => {}
        Some(at) => index.remove(at),
    }
}

// Which of them is at that place.
fn position(slots: &[IndexedSlot], place: u32) -> Option<usize>
    ensures { MatchOption result (without place slots.now ≡ slots.now)
        (λ at. (at < length slots.now) × (without place slots.now ≡ remove slots.now at)) }
{
    for (at, slot) in slots.iter().enumerate() {
        if slot.place == place {
            return Some(at);
        }
    }
    None
}
