//! Blocks of a disk in memory.
use crate::workload::WorkloadError;
use block_device::{BLOCK_LEN, Device, MemoryDisk};
use std::alloc::Global;

const DISK_BLOCKS: u32 = 2000;

const ROUNDS: u32 = 100;

/// A disk of 2 MB, read block by block.
pub fn read_blocks(alloc: Global) -> Result<u64, WorkloadError> {
    let mut disk = MemoryDisk::new(vec![in alloc; 1; DISK_BLOCKS as usize * BLOCK_LEN]?);
    let mut block = [0; BLOCK_LEN];
    let mut count = 0u64;
    let mut sum = 0u64;
    for _ in 0..ROUNDS {
        for b in 0..disk.blocks() {
            if b < disk.blocks() {
                disk.read(b, &mut block)?;
                sum = sum.wrapping_add(u64::from(block[b as usize % BLOCK_LEN]));
                count = count.wrapping_add(1);
            }
        }
    }
    if sum == count {
        Ok(count)
    } else {
        Err(WorkloadError::Wrong)
    }
}
