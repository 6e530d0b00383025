//! The bits of the bitmap block: set for a block in use. docs/FORMATS.md has the place of each.
ghost use Rattle.std.specs.Prelude.{◌≡◌, ◌<◌, ◌==◌, ℕ, if◌then◌else◌, true, false};
ghost use Rattle.fs_layout.specs.Bits.{bit_of};
ghost use Rattle.fs_layout.specs.Widths.{bits_per_block};

use crate::widths::Block;

/// Whether the bit for block b is set.
pub fn bit(block: &Block, b: usize) -> bool
    requires { b < bits_per_block }
    ensures { result ≡ bit_of block.now b }
{
    (block[b / 8] >> (b % 8)) % 2 == 1
}

/// Sets the bit for block b.
pub fn set_bit(block: &mut Block, b: usize)
    requires { b < bits_per_block }
    ensures { (c : ℕ) → bit_of block.new c ≡ (if c == b then true else bit_of block.old c) }
{
    block[b / 8] |= 1 << (b % 8);
}

/// Clears the bit for block b.
pub fn clear_bit(block: &mut Block, b: usize)
    requires { b < bits_per_block }
    ensures { (c : ℕ) → bit_of block.new c ≡ (if c == b then false else bit_of block.old c) }
{
    block[b / 8] &= !(1 << (b % 8));
}
