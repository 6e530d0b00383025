//! The slots of a directory's block, looked at in their places: no name is built for one.
ghost use Rattle.std.specs.Prelude.{◌≡◌, ◌+◌, ◌*◌, ◌<◌, ◌≤◌, ℕ, List, length, IfSome};
ghost use Rattle.directory.specs.Vocabulary.{u16_at, dirent_at, dirent_of, record_at, IsBytes, IsName, dirent_len_of, dirents_per_block_of, longest_name};
ghost use Rattle.directory.specs.Slots.{AreWords, first_free, first_named, first_used, is_free, is_named, is_used, u64_at};

use byteorder::{ByteOrder, LittleEndian};
use fs_layout::widths::{Block, DIRENT_NAME_AT};
use fs_layout::{Dirent, read_dirent};
use image_versions::Version;
use image_versions::widths::LONGEST_DIRENT_LEN;

// How many bytes a word has.
const WORD_LEN: usize = 8;

// How many words the longest slot has.
const MOST_WORDS: usize = LONGEST_DIRENT_LEN / WORD_LEN;

// A name as the words of a slot that has it. The first begins with the name, and so the next one overlaps it.
#[derive(Drop)]
pub(crate) struct Words {
    words: [u64; MOST_WORDS],
}

// The word at a place.
#[tactic(auto, unfolding(crate::specs::Slots::u64_at))]
fn word_at(bytes: &[u8], at: usize) -> u64
    requires { at + 8 ≤ length bytes.now }
    ensures { result ≡ u64_at bytes.now at }
{
    LittleEndian::read_u64(&bytes[at..])
}

// The words of a name.
pub(crate) fn words_of(name: &[u8]) -> Words
    requires { length name.now ≤ longest_name }
    ensures { AreWords result.words name.now }
{
    let mut slot = [0; LONGEST_DIRENT_LEN];
    slot[DIRENT_NAME_AT..DIRENT_NAME_AT + name.len()].copy_from_slice(name);
    Words {
        words: [
            word_at(&slot, DIRENT_NAME_AT),
            word_at(&slot, WORD_LEN),
            word_at(&slot, 2 * WORD_LEN),
            word_at(&slot, 3 * WORD_LEN),
        ],
    }
}

/// The number in a slot.
#[tactic(auto, unfolding(fs_layout::specs::Bytes::u16_at))]
pub fn number_at(version: Version, block: &Block, place: usize) -> u16
    requires { place < dirents_per_block_of version }
    ensures { result ≡ u16_at block.now (dirent_len_of version * place) }
{
    number_in(&block[version.dirent_len() * place..])
}

// The number that a slot begins with.
#[tactic(auto, unfolding(fs_layout::specs::Bytes::u16_at))]
pub(crate) fn number_in(slot: &[u8]) -> u16
    requires { 2 ≤ length slot.now }
    ensures { result ≡ u16_at slot.now 0 }
{
    LittleEndian::read_u16(slot)
}

// Whether one of some slots is used, by the name that has these words.
pub(crate) fn has_name(version: Version, slots: &[u8], place: usize, words: &Words) -> bool
    requires { dirent_len_of version * place + dirent_len_of version ≤ length slots.now }
    ensures { (name : List ℕ) → IsName version name → IsBytes name → AreWords words.now.words name
        → result ≡ is_named name (dirent_of version (record_at (dirent_len_of version) place slots.now)) }
{
    let len = version.dirent_len();
    let at = len * place;
    if word_at(slots, at + DIRENT_NAME_AT) != words.words[0] {
        return false;
    }
    for i in 1..len / WORD_LEN {
        if word_at(slots, at + WORD_LEN * i) != words.words[i] {
            return false;
        }
    }
    number_in(&slots[at..]) != 0
}

// Whether a slot is all zeros.
fn is_clear(version: Version, block: &Block, place: usize) -> bool
    requires { place < dirents_per_block_of version }
    ensures { result ≡ is_free (dirent_at version place block.now) }
{
    let len = version.dirent_len();
    let at = len * place;
    for i in 0..len / WORD_LEN {
        if word_at(block, at + WORD_LEN * i) != 0 {
            return false;
        }
    }
    true
}

// Whether it is used.
fn is_used(version: Version, block: &Block, place: usize) -> bool
    requires { place < dirents_per_block_of version }
    ensures { result ≡ is_used (dirent_at version place block.now) }
{
    matches!(
        read_dirent(version, block, place),
        Some(Dirent::Used { .. })
    )
}

/// The first slot of this name among the first `limit` (xv6: `namecmp`).
#[tactic(auto, unfolding(crate::specs::Slots::first_named))]
pub fn first_named(version: Version, block: &Block, limit: usize, name: &[u8]) -> Option<usize>
    requires limit { limit ≤ dirents_per_block_of version }
    requires name { IsName version name.now }
    ensures first { result ≡ first_named version name.now limit block.now }
    ensures below { IfSome result (λ place. place < limit) }
{
    let words = words_of(name);
    for place in 0..limit {
        if has_name(version, block, place, &words) {
            return Some(place);
        }
    }
    None
}

/// The first free slot among the first `limit`.
#[tactic(auto, unfolding(crate::specs::Slots::first_free))]
pub fn first_free(version: Version, block: &Block, limit: usize) -> Option<usize>
    requires { limit ≤ dirents_per_block_of version }
    ensures first { result ≡ first_free version limit block.now }
    ensures below { IfSome result (λ place. place < limit) }
{
    for place in 0..limit {
        if is_clear(version, block, place) {
            return Some(place);
        }
    }
    None
}

/// The first used slot from a place on, among the first `limit`.
#[tactic(auto, unfolding(crate::specs::Slots::first_used))]
pub fn first_used(version: Version, block: &Block, from: usize, limit: usize) -> Option<usize>
    requires { limit ≤ dirents_per_block_of version }
    ensures first { result ≡ first_used version from limit block.now }
    ensures below { IfSome result (λ place. place < limit) }
{
    for place in from..limit {
        if is_used(version, block, place) {
            return Some(place);
        }
    }
    None
}
