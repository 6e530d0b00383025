//! Images: made, and examined.
use crate::workload::WorkloadError;
use block_device::MemoryDisk;
use image_tree::examine;
use image_versions::Version;
use image_versions::widths::{BLOCK_LEN, MOST_DISK_BLOCKS};
use mkfs::{NewFile, make_as};
use std::alloc::{AllocError, Global};

const FRESH_BLOCKS: u32 = 2000;

const FRESH_INODES: u32 = 200;

const LARGEST_INODES: u32 = 1200;

/// `count` files `f0`, `f1` .. of `size` bytes.
pub fn files(alloc: Global, count: u32, size: usize) -> Result<Vec<NewFile>, AllocError> {
    let mut files = Vec::new(alloc);
    for number in 0..count {
        let name = format!(in alloc; "f{number}")?;
        let name = Vec::from_slice(alloc, name.as_bytes())?;
        files.push(NewFile {
            name,
            content: vec![in alloc; b'x'; size]?,
        })?;
    }
    Ok(files)
}

/// An image of this version, of this number of blocks and inodes, with these files.
pub fn image(
    alloc: Global,
    version: Version,
    size: u32,
    inodes: u32,
    files: &[NewFile],
) -> Result<MemoryDisk, WorkloadError> {
    make_as(alloc, version, size, inodes, files).map_err(|_| WorkloadError::Wrong)
}

fn examine_often(
    alloc: Global,
    mut disk: MemoryDisk,
    rounds: u64,
    live: u32,
) -> Result<u64, WorkloadError> {
    let mut right = 0u64;
    for _ in 0..rounds {
        match examine(alloc, &mut disk, Version::One) {
            Ok(shape) if shape.live == live => right = right.wrapping_add(1),
            _ => return Err(WorkloadError::Wrong),
        }
    }
    Ok(right)
}

/// A fresh image of 2000 blocks, examined.
pub fn examine_fresh(alloc: Global) -> Result<u64, WorkloadError> {
    let disk = image(alloc, Version::One, FRESH_BLOCKS, FRESH_INODES, &[])?;
    examine_often(alloc, disk, 200, 1)
}

/// A full image of 8191 blocks with 1000 files, examined.
pub fn examine_full(alloc: Global) -> Result<u64, WorkloadError> {
    let files = files(alloc, 1000, 8 * BLOCK_LEN)?;
    let disk = image(
        alloc,
        Version::One,
        MOST_DISK_BLOCKS,
        LARGEST_INODES,
        files.as_slice(),
    )?;
    examine_often(alloc, disk, 20, 1001)
}

/// An image of 2000 blocks with 100 files of 10 KiB, made.
pub fn make_image(alloc: Global) -> Result<u64, WorkloadError> {
    let files = files(alloc, 100, 10 * BLOCK_LEN)?;
    let mut count = 0u64;
    for _ in 0..50 {
        let disk = image(
            alloc,
            Version::One,
            FRESH_BLOCKS,
            FRESH_INODES,
            files.as_slice(),
        )?;
        if disk.into_bytes().len() != FRESH_BLOCKS as usize * BLOCK_LEN {
            return Err(WorkloadError::Wrong);
        }
        count = count.wrapping_add(1);
    }
    Ok(count)
}
