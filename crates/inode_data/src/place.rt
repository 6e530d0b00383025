//! What a buffer in hand has of a content.
ghost use Rattle.std.specs.Prelude.{◌≡◌, ◌<◌, Some, IsSome, ◌≤◌, IfSome, slice_index, ◌+◌, length, None};
ghost use Rattle.inode_data.specs.Vocabulary.{MatchOption, block_at, buffer_at, bytes_at, with_bytes, numbers_in, numbers_per_block, overwrite, First};
ghost use Rattle.inode_data.specs.Numbers.{IsNext};
ghost use Rattle.inode_data.specs.Writing.{with_number, with_part};
ghost use Rattle.inode_data.specs.Programs.{blocks_between};

use crate::numbers::next_listed;
use fs_layout::widths::BLOCK_LEN;
use fs_layout::{read_number, write_number};
use fs_machine::{Hand, Place};

// The number at a place of an indirect block in hand.
pub(crate) fn number_at(hand: &Hand, place: Place, at: usize) -> u32
    requires place { at < numbers_per_block }
    requires valid { MatchOption (buffer_at place hand.now) ⊥ (λ g. IsSome g.value.content) }
    ensures { result ≡ slice_index (numbers_in (bytes_at place hand.now)) at }
{
    read_number(hand.block(place), at)
}

// Writes a number at a place of an indirect block in hand.
pub(crate) fn name_at(hand: &mut Hand, place: Place, at: usize, number: u32)
    requires place { at < numbers_per_block }
    requires valid { MatchOption (buffer_at place hand.old) ⊥ (λ g. IsSome g.value.content) }
    ensures { hand.new ≡ with_bytes place (with_number at number (bytes_at place hand.old)) hand.old }
{
    write_number(hand.block_mut(place), at, number);
}

// The place of the next number in an indirect block in hand, from a place on.
pub(crate) fn next_at(hand: &Hand, place: Place, from: usize) -> Option<usize>
    requires valid { MatchOption (buffer_at place hand.now) ⊥ (λ g. IsSome g.value.content) }
    ensures next { IsNext (numbers_in (bytes_at place hand.now)) from result }
    ensures within { IfSome result (λ i. i < numbers_per_block) }
{
    next_listed(hand.block(place), from)
}

// The block whose buffer is at a place.
pub(crate) fn block_number(hand: &Hand, place: Place) -> u32
    requires { IsSome (buffer_at place hand.now) }
    ensures { result ≡ block_at place hand.now }
{
    let place = match place {
        Place::First => &hand.first,
        Place::Second => &hand.second,
    };
    match place {
        Some(guard) => guard.value().block(),
        None => unreachable!(),
    }
}

// How many blocks have bytes from one offset up to another.
pub(crate) fn blocks(from: usize, upto: usize) -> usize
    ensures { result ≡ blocks_between from upto }
{
    if from < upto {
        (upto - 1) / BLOCK_LEN + 1 - from / BLOCK_LEN
    } else {
        0
    }
}

// Copies these bytes to a place.
pub(crate) fn copy_into(bytes: &mut [u8], at: usize, from: &[u8])
    requires { at + length from.now ≤ length bytes.old }
    ensures { bytes.new ≡ overwrite bytes.old at from.now }
{
    bytes[at..at + from.len()].copy_from_slice(from);
}

// Writes these bytes into the buffer in hand of the block of this offset, as many as are its own.
pub(crate) fn write_at(hand: &mut Hand, at: usize, bytes: &[u8])
    requires { MatchOption hand.old.first ⊥ (λ g. IsSome g.value.content) }
    ensures { hand.new ≡ with_bytes First (with_part at bytes.now (bytes_at First hand.old)) hand.old }
{
    let start = at % BLOCK_LEN;
    let count = bytes.len().min(BLOCK_LEN - start);
    copy_into(hand.block_mut(Place::First), start, &bytes[..count]);
}
