//! Images made by hand, byte by byte.
ghost use Rattle.std.specs.Prelude.{◌<◌};

use block_device::MemoryDisk;
use std::alloc::{AllocError, Global};

/// Bytes to write at a place of an image.
pub type Change = (usize, &'static [u8]);

/// Writes bytes from this place on, as far as the image goes.
pub fn put(image: &mut [u8], at: usize, bytes: &[u8]) {
    for i in 0..bytes.len() {
        if let Some(byte) = image.get_mut(at.saturating_add(i)) {
            *byte = bytes[i];
        }
    }
}

/// `blocks` blocks of zeros with these bytes written, one after the other.
pub fn with(alloc: Global, blocks: usize, changes: &[Change]) -> Result<Vec<u8>, AllocError>
    requires { blocks < 8192 }
{
    let mut image = vec![in alloc; 0u8; blocks * 1024]?;
    for change in changes {
        put(&mut image, change.0, change.1);
    }
    Ok(image)
}

/// 2000 blocks, 200 inodes, a log of 31 blocks, and a root without names in block 47.
pub const FRESH: [Change; 5] = [
    (
        1024,
        b"\x40\x30\x20\x10\xd0\x07\0\0\xa1\x07\0\0\xc8\0\0\0\x1f\0\0\0\x02\0\0\0\x21\0\0\0\x2e\0\0\0",
    ),
    (33856, b"\x01\0\0\0\0\0\x01\0\0\x04\0\0\x2f\0\0\0"),
    (47104, b"\xff\xff\xff\xff\xff\xff"),
    (48128, b"\x01\0."),
    (48144, b"\x01\0.."),
];

/// 40 blocks, 16 inodes, a log of 30 blocks, and a root without names in block 34.
pub const SMALL: [Change; 5] = [
    (
        1024,
        b"\x40\x30\x20\x10\x28\0\0\0\x06\0\0\0\x10\0\0\0\x1e\0\0\0\x02\0\0\0\x20\0\0\0\x21\0\0\0",
    ),
    (32832, b"\x01\0\0\0\0\0\x01\0\0\x04\0\0\x22\0\0\0"),
    (33792, b"\xff\xff\xff\xff\x07"),
    (34816, b"\x01\0."),
    (34832, b"\x01\0.."),
];

/// 64 blocks, 16 inodes, a log of 30 blocks. The log hides the inode block 32 by its copy in block 3. "/d" is inode
/// 2. "/f" and "/d/g" are inode 3 with 12 blocks, an indirect block and 5 bytes after it. "/t" is the device 4, and
/// inode 5 is a file without a name.
pub const RICH: [Change; 19] = [
    (
        1024,
        b"\x40\x30\x20\x10\x40\0\0\0\x1e\0\0\0\x10\0\0\0\x1e\0\0\0\x02\0\0\0\x20\0\0\0\x21\0\0\0",
    ),
    (2048, b"\x01\0\0\0\x20\0\0\0"),
    (3136, b"\x01\0\0\0\0\0\x02\0\x50\0\0\0\x22\0\0\0"),
    (3200, b"\x01\0\0\0\0\0\x01\0\x40\0\0\0\x23\0\0\0"),
    (
        3264,
        b"\x02\0\0\0\0\0\x02\0\x05\x30\0\0\x24\0\0\0\x25\0\0\0\x26\0\0\0\x27\0\0\0\x28\0\0\0\x29\0\0\0",
    ),
    (
        3300,
        b"\x2a\0\0\0\x2b\0\0\0\x2c\0\0\0\x2d\0\0\0\x2e\0\0\0\x2f\0\0\0\x30\0\0\0",
    ),
    (3328, b"\x03\0\x01\0\x02\0\x01\0"),
    (3392, b"\x02\0\0\0\0\0\0\0\x01\0\0\0\x32\0\0\0"),
    (33792, b"\xff\xff\xff\xff\xff\xff\x07"),
    (34816, b"\x01\0."),
    (34832, b"\x01\0.."),
    (34848, b"\x02\0d"),
    (34864, b"\x03\0f"),
    (34880, b"\x04\0t"),
    (35840, b"\x02\0.\0\0\0\0\0\0\0\0\0\0\0\0\0\x01\0.."),
    (35872, b"\x03\0g"),
    (36864, b"A"),
    (49152, b"\x31"),
    (50176, b"hello"),
];

/// An image of 2000 blocks and 200 inodes, whose root has no names, with these bytes written.
pub fn fresh(alloc: Global, changes: &[Change]) -> Result<MemoryDisk, AllocError> {
    let mut image = with(alloc, 2000, &FRESH)?;
    for change in changes {
        put(&mut image, change.0, change.1);
    }
    Ok(MemoryDisk::new(image))
}
