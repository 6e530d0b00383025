//! Images that the tests begin with.
use crate::memory::copied;
use block_device::MemoryDisk;
use image_tree::{examine, find_version, tree_of};
use image_versions::Version;
use mkfs::{NewFile, make, make_as};
use plain_tree::Tree;
use std::alloc::Global;
use std::ops::Range;
use std::process::Abort;

/// An image that a row begins with.
#[derive(Clone, Copy)]
pub enum Image {
    /// Directories `/d` (inode 2) and `/d/e` (3), the file `/d/e/f` (4) with the byte A, and the devices `/t` (5) and `/u` (6).
    Tree,
    /// The directory `/d` (inode 2) and the root, each with 17,152 slots; and a file (3) with 32,767 names. The names
    /// fill the root from `/aaad` on, and the slots of `/d` up to its last ones.
    Crowded,
    /// A root without names, and a log of 30 blocks.
    ShortLog,
    /// A new one of this version, of this number of blocks and inodes, without names.
    Made(Version, u32, u32),
    /// A new one of this number of blocks and 16 inodes, whose file `/f` (inode 2) has these bytes. The blocks before
    /// the data are 36.
    WithFile(u32, &'static [u8]),
}

/// A new small one: 23 blocks are free.
pub const SMALL: Image = Image::Made(Version::One, 60, 16);

/// The same of version 2.
pub const SMALL_OF_VERSION_2: Image = Image::Made(Version::Two, 60, 16);

// Bytes at a place of an image.
type Part = (usize, &'static [u8]);

// 64 blocks, 200 inodes, a log of 31 blocks. There are directories `/d` (inode 2) and `/d/e` (3), the file `/d/e/f`
// (4) with one byte, and the devices `/t` (5) of major 1 and `/u` (6) of major 10. Of its blocks four have contents.
const TREE: [Part; 20] = [
    (
        1024,
        b"\x40\x30\x20\x10\x40\0\0\0\x11\0\0\0\xc8\0\0\0\x1f\0\0\0\x02\0\0\0\x21\0\0\0\x2e\0\0\0",
    ),
    (33856, b"\x01\0\0\0\0\0\x02\0\0\x04\0\0\x2f\0\0\0"),
    (33920, b"\x01\0\0\0\0\0\x02\0\x30\0\0\0\x30\0\0\0"),
    (33984, b"\x01\0\0\0\0\0\x01\0\x30\0\0\0\x31\0\0\0"),
    (34048, b"\x02\0\0\0\0\0\x01\0\x01\0\0\0\x32\0\0\0"),
    (34112, b"\x03\0\x01\0\0\0\x01\0"),
    (34176, b"\x03\0\x0a\0\0\0\x01\0"),
    (47104, b"\xff\xff\xff\xff\xff\xff\x07"),
    (48128, b"\x01\0."),
    (48144, b"\x01\0.."),
    (48160, b"\x02\0d"),
    (48176, b"\x05\0t"),
    (48192, b"\x06\0u"),
    (49152, b"\x02\0."),
    (49168, b"\x01\0.."),
    (49184, b"\x03\0e"),
    (50176, b"\x03\0."),
    (50192, b"\x02\0.."),
    (50208, b"\x04\0f"),
    (51200, b"A"),
];

// 64 blocks, 200 inodes, a log of 30 blocks, and a root without names.
const SHORT_LOG: [Part; 5] = [
    (
        1024,
        b"\x40\x30\x20\x10\x40\0\0\0\x12\0\0\0\xc8\0\0\0\x1e\0\0\0\x02\0\0\0\x20\0\0\0\x2d\0\0\0",
    ),
    (32832, b"\x01\0\0\0\0\0\x01\0\0\x04\0\0\x2e\0\0\0"),
    (46080, b"\xff\xff\xff\xff\xff\x7f"),
    (47104, b"\x01\0."),
    (47120, b"\x01\0.."),
];

// 2000 blocks, 200 inodes, a log of 31 blocks: the root, a directory and a file, without the numbers of their blocks,
// and without names.
const CROWDED: [Part; 11] = [
    (
        1024,
        b"\x40\x30\x20\x10\xd0\x07\0\0\xa1\x07\0\0\xc8\0\0\0\x1f\0\0\0\x02\0\0\0\x21\0\0\0\x2e\0\0\0",
    ),
    (33856, b"\x01\0\0\0\0\0\x02\0\0\x30\x04\0"),
    (33920, b"\x01\0\0\0\0\0\x01\0\0\x30\x04\0"),
    (33984, b"\x02\0\0\0\0\0\xff\x7f"),
    (47104, &[0xff; 73]),
    (47177, b"\x01"),
    (48128, b"\x01\0."),
    (48144, b"\x01\0.."),
    (48160, b"\x02\0d"),
    (323_584, b"\x02\0."),
    (323_600, b"\x01\0.."),
];

fn put(image: &mut [u8], at: usize, bytes: &[u8]) {
    for i in 0..bytes.len() {
        if let Some(byte) = image.get_mut(at.saturating_add(i)) {
            *byte = bytes[i];
        }
    }
}

fn image_of(rt: &impl Abort, alloc: Global, blocks: usize, parts: &[Part]) -> Vec<u8> {
    let mut image = vec![in alloc; 0u8; blocks.saturating_mul(1024)].expect(rt, "error");
    for part in parts {
        put(image.as_mut_slice(), part.0, part.1);
    }
    image
}

// The place of a slot of a directory whose blocks, the indirect one among them, are in a row from this one on.
fn slot_at(first: u16, slot: u16) -> usize {
    let block = first as usize + slot as usize / 64;
    let table = if slot < 768 { 0 } else { 1 };
    (block + table) * 1024 + slot as usize % 64 * 16
}

// Rising numbers of blocks.
fn put_numbers(image: &mut [u8], at: usize, first: u32, count: u32) {
    for k in 0..count {
        let number = first.saturating_add(k);
        put(
            image,
            at.saturating_add(4 * k as usize),
            &number.to_le_bytes(),
        );
    }
}

// The numbers of such a directory's 268 blocks, and names of inode 3 in its slots from one on to another.
fn put_names(image: &mut [u8], inode: u16, first: u16, slots: Range<u16>) {
    let numbers = 33_804 + 64 * inode as usize;
    put_numbers(image, numbers, first as u32, 13);
    put_numbers(image, (first as usize + 12) * 1024, first as u32 + 13, 256);
    for slot in slots {
        let [a, b, c, d] = name(slot as u32);
        put(image, slot_at(first, slot), &[3, 0, a, b, c, d]);
    }
}

// Both directories' blocks are in a row.
fn crowded(rt: &impl Abort, alloc: Global) -> Vec<u8> {
    let mut image = image_of(rt, alloc, 2000, &CROWDED);
    put_names(image.as_mut_slice(), 1, 47, 3..17_152);
    put_names(image.as_mut_slice(), 2, 316, 2..15_620);
    image
}

fn with_file(rt: &impl Abort, alloc: Global, size: u32, bytes: &[u8]) -> MemoryDisk {
    let (name, content) = (copied(rt, alloc, b"f"), copied(rt, alloc, bytes));
    make(alloc, size, 16, &[NewFile { name, content }]).expect(rt, "error")
}

/// A disk with an image. If memory for it is refused, the test says so, and ends.
pub fn disk_of(rt: &impl Abort, alloc: Global, image: Image) -> MemoryDisk {
    match image {
        Image::Tree => MemoryDisk::new(image_of(rt, alloc, 64, &TREE)),
        Image::Crowded => MemoryDisk::new(crowded(rt, alloc)),
        Image::ShortLog => MemoryDisk::new(image_of(rt, alloc, 64, &SHORT_LOG)),
        Image::Made(version, size, ninodes) => {
            make_as(alloc, version, size, ninodes, &[]).expect(rt, "error")
        }
        Image::WithFile(size, bytes) => with_file(rt, alloc, size, bytes),
    }
}

fn letter(digit: u32) -> u8 {
    b'a' + (digit % 16) as u8
}

/// A name for a number below 65,536, which is no other's.
pub fn name(number: u32) -> [u8; 4] {
    [
        letter(number / 4096),
        letter(number / 256),
        letter(number / 16),
        letter(number),
    ]
}

/// The version of an image.
pub fn version_in(rt: &impl Abort, disk: &mut MemoryDisk) -> Version {
    find_version(disk).expect(rt, "error")
}

/// The tree of an image that is in order.
pub fn tree_in(rt: &impl Abort, alloc: Global, disk: &mut MemoryDisk) -> Tree {
    let version = version_in(rt, disk);
    tree_of(alloc, disk, version).expect(rt, "error")
}

/// How many nodes with a name, nodes without one and blocks of contents are on a disk, whose image is well formed.
pub fn counts(rt: &impl Abort, alloc: Global, disk: MemoryDisk) -> (u32, u32, u32) {
    let mut disk = disk;
    let version = version_in(rt, &mut disk);
    let shape = examine(alloc, &mut disk, version).expect(rt, "error");
    (shape.live, shape.orphans, shape.blocks)
}
