//! Bytes at the end of an image.
ghost use Rattle.std.specs.Prelude.{◌≡◌, ◌++◌, replicate, OnOk};
ghost use Rattle.mkfs.specs.Image.{whole};

use fs_layout::widths::BLOCK_LEN;
use std::alloc::AllocError;

/// Appends a byte `n` times.
pub fn push_many(image: &mut Vec<u8>, n: usize, byte: u8) -> Result<(), AllocError>
    ensures { OnOk result (image.new.items ≡ image.old.items ++ replicate n byte) }
{
    let len = image.len().checked_add(n).ok_or(AllocError)?;
    image.resize(len, byte)
}

/// Appends bytes, and zeros up to a whole block.
pub fn push_whole(image: &mut Vec<u8>, bytes: &[u8]) -> Result<(), AllocError>
    ensures { OnOk result (image.new.items ≡ image.old.items ++ whole bytes.now) }
{
    image.extend_from_slice(bytes)?;
    let missing = (BLOCK_LEN - bytes.len() % BLOCK_LEN) % BLOCK_LEN;
    push_many(image, missing, 0)
}
