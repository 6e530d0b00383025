//! Images of many and of large files, and the names that are refused. What a command line can ask for is shown by examples/rows/.
use crate::told_images::holds;
use block_device::MemoryDisk;
use mkfs::{MakeRefused, NewFile};
use std::alloc::{AllocError, Global};
use std::test::Fail;

// Makes an image, once more if memory was refused: that changed nothing, so the answer is the same.
fn make(
    alloc: Global,
    size: u32,
    ninodes: u32,
    files: &[NewFile],
) -> Result<MemoryDisk, MakeRefused> {
    match mkfs::make(alloc, size, ninodes, files) {
        Err(MakeRefused::NoMemory) => mkfs::make(alloc, size, ninodes, files),
        made => made,
    }
}

// Files with these names, and as many bytes.
fn files_of(alloc: Global, asked: &[(&[u8], usize)]) -> Result<Vec<NewFile>, AllocError> {
    let mut files = Vec::new(alloc);
    for (name, len) in asked {
        let name = Vec::from_slice(alloc, name)?;
        let mut content = Vec::new(alloc);
        for i in 0..*len {
            content.push((i % 251) as u8)?;
        }
        files.push(NewFile { name, content })?;
    }
    Ok(files)
}

// Files of no bytes, as many as asked for, whose names are numbers of six digits.
fn many(alloc: Global, count: usize) -> Result<Vec<NewFile>, AllocError> {
    let mut files = Vec::new(alloc);
    for i in 0..count {
        let name = format!(in alloc; "{i:06}")?;
        let name = Vec::from_slice(alloc, name.as_bytes())?;
        files.push(NewFile {
            name,
            content: Vec::new(alloc),
        })?;
    }
    Ok(files)
}

fn made(alloc: Global, size: u32, ninodes: u32, files: &[NewFile]) -> Option<Vec<u8>> {
    Some(make(alloc, size, ninodes, files).ok()?.into_bytes())
}

fn refusal(made: Result<MemoryDisk, MakeRefused>) -> u32 {
    match made {
        Ok(_) => 0,
        Err(refused) => refused.number(),
    }
}

// The number at a place.
fn number_at(bytes: &[u8], at: usize) -> usize {
    let mut number = 0usize;
    for &byte in bytes.iter().skip(at).take(4).rev() {
        number = number.wrapping_mul(256).wrapping_add(byte as usize);
    }
    number
}

// An image of 2000 blocks and 200 inodes with these files; no byte if none is made.
fn image_with(alloc: Global, files: &[NewFile]) -> Vec<u8> {
    made(alloc, 2000, 200, files).unwrap_or(Vec::new(alloc))
}

// How many bits of the bitmap are set.
fn count_used(bytes: &[u8]) -> u32 {
    let mut count: u32 = 0;
    for byte in bytes.iter().skip(46 * 1024).take(1024) {
        count = count.wrapping_add(byte.count_ones());
    }
    count
}

// The places of the inodes of the root and of the first file.
const ROOT: usize = 33 * 1024 + 64;

const FIRST: usize = 33 * 1024 + 128;

// How many files, the root's size, and the blocks that are in use.
const ROOTS: [(usize, usize, u32); 3] = [(61, 1024, 48), (62, 1024, 48), (63, 2048, 49)];

// A root of 64 entries fills its block, and one more takes another.
#[test]
fn root_sizes(rt: HostRuntime) -> Result<(), Fail> {
    for (count, size, used) in ROOTS.iter() {
        let files = many(rt.alloc(), *count)?;
        let bytes = image_with(rt.alloc(), &files);
        holds(&rt, number_at(&bytes, ROOT + 8) == *size, "files", *count);
        holds(&rt, number_at(&bytes, FIRST + 12) == 0, "files", *count);
        holds(&rt, count_used(&bytes) == *used, "files", *count);
    }
    Ok(())
}

// The number of a file's blocks, and numbers at places of the image. These are the file's size, the numbers of its
// first block, its twelfth and its indirect one, and the first and the last number in the indirect block. The root is
// block 47, so the file's first block is 48.
const LARGE: [(usize, [(usize, usize); 6]); 3] = [
    (
        12,
        [
            (8, 12_288),
            (12, 48),
            (56, 59),
            (60, 0),
            (27_520, 0),
            (28_540, 0),
        ],
    ),
    (
        13,
        [
            (8, 13_312),
            (12, 48),
            (56, 59),
            (60, 60),
            (27_520, 61),
            (28_540, 0),
        ],
    ),
    (
        268,
        [
            (8, 274_432),
            (12, 48),
            (56, 59),
            (60, 60),
            (27_520, 61),
            (28_540, 316),
        ],
    ),
];

// If these numbers aren't at their places after the file's inode, the first such place.
fn wrong_place(bytes: &[u8], numbers: &[(usize, usize)]) -> Option<usize> {
    for (behind, number) in numbers {
        if number_at(bytes, FIRST.saturating_add(*behind)) != *number {
            return Some(*behind);
        }
    }
    None
}

// Whether a block of the image has the second byte of this block of the file.
fn has_byte(bytes: &[u8], block: usize, of_file: usize) -> bool {
    bytes.get(block.saturating_mul(1024).saturating_add(1))
        == Some(&((of_file.saturating_mul(1024).saturating_add(1) % 251) as u8))
}

#[test]
fn large_files(rt: HostRuntime) -> Result<(), Fail> {
    for (blocks, numbers) in LARGE.iter() {
        let files = files_of(rt.alloc(), &[(b"large", blocks.saturating_mul(1024))])?;
        let bytes = image_with(rt.alloc(), &files);
        holds(
            &rt,
            wrong_place(&bytes, numbers).is_none(),
            "blocks",
            *blocks,
        );
        holds(&rt, has_byte(&bytes, 59, 11), "blocks", *blocks);
        holds(
            &rt,
            *blocks == 12 || has_byte(&bytes, 61, 12),
            "blocks",
            *blocks,
        );
    }
    Ok(())
}

const NAMES: [(&[u8], u32); 9] = [
    (b"", 82),
    (b".", 82),
    (b"..", 82),
    (b"...", 0),
    (b"a/b", 82),
    (b"a\0b", 82),
    (b"fourteen_bytes", 0),
    (b"fifteen_bytes__", 82),
    (b"double", 82),
];

#[test]
fn refused_names(rt: HostRuntime) -> Result<(), Fail> {
    for (row, (name, want)) in NAMES.iter().enumerate() {
        let files = files_of(rt.alloc(), &[(b"double", 0), (*name, 0)])?;
        holds(
            &rt,
            refusal(make(rt.alloc(), 60, 16, &files)) == *want,
            "name",
            row,
        );
    }
    Ok(())
}

#[test]
fn more_files_are_refused(rt: HostRuntime) -> Result<(), Fail> {
    let files = many(rt.alloc(), 17_150)?;
    assert!(rt; refusal(make(rt.alloc(), 8191, 65535, &files)) == 0);
    let files = many(rt.alloc(), 17_151)?;
    let Err(refused) = make(rt.alloc(), 8191, 65535, &files) else {
        return Err(Fail::new("it is made"));
    };
    assert!(rt; matches!(refused, MakeRefused::FileTooBig) && refused.name() == "FileTooBig");
    Ok(())
}
