//! The block numbers of an indirect block.
ghost use Rattle.std.specs.Prelude.{◌≡◌, ◌+◌, ◌*◌, ◌<◌, ◌^◌, ℕ, List, length, slice_index, slice_set};
ghost use Rattle.fs_layout.specs.Vocabulary.{AllByRecursion};
ghost use Rattle.fs_layout.specs.Bytes.{overwrite, u32_bytes, IsBytes};
ghost use Rattle.fs_layout.specs.Indirect.{numbers_in, spell_numbers};
ghost use Rattle.fs_layout.specs.Widths.{block_len, number_len, numbers_per_block};

use crate::bytes::{put_u32, put_u32s, u32_in, u32s_in};
use crate::widths::{Block, NUMBER_LEN, NUMBERS_PER_BLOCK};

/// The number at a place of an indirect block. 0 means that there is no block.
pub fn read_number(block: &Block, place: usize) -> u32
    requires { place < numbers_per_block }
    ensures { result ≡ slice_index (numbers_in block.now) place }
{
    u32_in(block, NUMBER_LEN * place)
}

/// Writes the number at a place of an indirect block.
pub fn write_number(block: &mut Block, place: usize, number: u32)
    requires { place < numbers_per_block }
    ensures bytes { block.new ≡ overwrite block.old (number_len * place) (u32_bytes number) }
    ensures numbers { numbers_in block.new ≡ slice_set (numbers_in block.old) place number }
{
    put_u32(block, NUMBER_LEN * place, number);
}

/// All numbers of an indirect block.
pub fn read_numbers(block: &Block) -> [u32; NUMBERS_PER_BLOCK]
    ensures { result ≡ numbers_in block.now }
{
    let mut numbers = [0; NUMBERS_PER_BLOCK];
    u32s_in(block, 0, &mut numbers);
    numbers
}

/// Writes all numbers of an indirect block.
pub fn write_numbers(block: &mut Block, numbers: &[u32; NUMBERS_PER_BLOCK])
    ensures bytes { block.new ≡ spell_numbers numbers.now }
    ensures reads_back { numbers_in block.new ≡ numbers.now }
{
    put_u32s(block, 0, numbers);
}

/// A list of numbers and the bytes of its block determine each other.
pub fn numbers_spelling()
    ensures reads_back { (numbers : List ℕ) → length numbers ≡ numbers_per_block → AllByRecursion (λ n. n < 2 ^ 32) numbers
        → numbers_in (spell_numbers numbers) ≡ numbers }
    ensures only { (bytes : List ℕ) → length bytes ≡ block_len → IsBytes bytes → spell_numbers (numbers_in bytes) ≡ bytes }
{}
