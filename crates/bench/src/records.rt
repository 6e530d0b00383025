//! Records of one block, at places that a row of pseudorandom numbers gives.
use crate::workload::WorkloadError;
use bitmap_alloc::{clear, first_clear, set};
use fs_layout::widths::{BITS_PER_BLOCK, BLOCK_LEN, INODES_PER_BLOCK};
use fs_layout::{
    Dinode, Dirent, Name, bit, read_dinode, read_dirent, set_bit, write_dinode, write_dirent,
};
use image_versions::Version;
use image_versions::one::DIRENTS_PER_BLOCK;
use image_versions::widths::{ADDRESSES, MOST_DISK_BLOCKS};

const OPERATIONS: u32 = 4_000_000;

const SEARCHES: u32 = 400_000;

// The last block of the largest disk.
const LAST_BLOCK: usize = MOST_DISK_BLOCKS as usize - 1;

// The number after `state` in a row of pseudorandom ones: its upper bits vary well.
fn next(state: u32) -> u32 {
    state.wrapping_mul(1_664_525).wrapping_add(1_013_904_223)
}

/// A file's inode.
pub fn inode_of_size(size: u32) -> Dinode {
    Dinode {
        kind: 2,
        major: 0,
        minor: 0,
        nlink: 1,
        size,
        addrs: [size; ADDRESSES],
    }
}

fn checked(is_right: bool) -> Result<u64, WorkloadError> {
    if is_right {
        Ok(u64::from(OPERATIONS))
    } else {
        Err(WorkloadError::Wrong)
    }
}

/// Inodes, written.
pub fn write_inodes() -> Result<u64, WorkloadError> {
    let mut block = [0; BLOCK_LEN];
    let mut state = 1;
    let mut place = 0;
    for _ in 0..OPERATIONS {
        state = next(state ^ u32::from(block[8]));
        place = (state >> 16) as usize % INODES_PER_BLOCK;
        write_dinode(&mut block, place, &inode_of_size(state));
    }
    checked(read_dinode(&block, place % INODES_PER_BLOCK) == inode_of_size(state))
}

/// Inodes, read.
pub fn read_inodes() -> Result<u64, WorkloadError> {
    let mut block = [0; BLOCK_LEN];
    for place in 0..INODES_PER_BLOCK {
        write_dinode(&mut block, place, &inode_of_size(3));
    }
    let mut state = 1;
    let mut sum = 0u64;
    for _ in 0..OPERATIONS {
        let inode = read_dinode(&block, (state >> 16) as usize % INODES_PER_BLOCK);
        sum = sum.wrapping_add(u64::from(inode.size));
        state = next(state ^ inode.addrs[12]);
    }
    checked(sum == 3 * u64::from(OPERATIONS))
}

/// Entries, written.
pub fn write_dirents() -> Result<u64, WorkloadError> {
    let Some(name) = Name::new(Version::One, b"a_name") else {
        return Err(WorkloadError::Wrong);
    };
    let entry = Dirent::Used { number: 7, name };
    let mut block = [0; BLOCK_LEN];
    let mut state = 1;
    let mut place = 0;
    for _ in 0..OPERATIONS {
        state = next(state ^ u32::from(block[0]));
        place = (state >> 16) as usize % DIRENTS_PER_BLOCK;
        write_dirent(Version::One, &mut block, place, &entry);
    }
    let last = read_dirent(Version::One, &block, place % DIRENTS_PER_BLOCK);
    checked(matches!(last, Some(Dirent::Used { number: 7, .. })))
}

/// Entries, read.
pub fn read_dirents() -> Result<u64, WorkloadError> {
    let mut block = [0; BLOCK_LEN];
    for place in 0..DIRENTS_PER_BLOCK {
        block[16 * place] = 7;
        block[16 * place + 2..16 * place + 8].copy_from_slice(b"a_name");
    }
    let mut state = 1;
    let mut sum = 0u64;
    for _ in 0..OPERATIONS {
        if let Some(Dirent::Used { number, name }) = read_dirent(
            Version::One,
            &block,
            (state >> 16) as usize % DIRENTS_PER_BLOCK,
        ) {
            sum = sum.wrapping_add(name.as_bytes().len() as u64);
            state = next(state ^ u32::from(number));
        }
    }
    checked(sum == 6 * u64::from(OPERATIONS))
}

/// Bits of a bitmap, set.
pub fn set_bits() -> Result<u64, WorkloadError> {
    let mut block = [0; BLOCK_LEN];
    let mut state = 1;
    let mut b = 0;
    for _ in 0..OPERATIONS {
        state = next(state ^ u32::from(block[0]));
        b = (state >> 16) as usize % BITS_PER_BLOCK;
        set_bit(&mut block, b);
    }
    checked(bit(&block, b % BITS_PER_BLOCK))
}

/// Bits of a bitmap, tested.
pub fn test_bits() -> Result<u64, WorkloadError> {
    let block = [0xff; BLOCK_LEN];
    let mut state = 1;
    let mut sum = 0u64;
    for _ in 0..OPERATIONS {
        let is_set = bit(&block, (state >> 16) as usize % BITS_PER_BLOCK);
        sum = sum.wrapping_add(u64::from(is_set));
        state = next(state ^ u32::from(is_set));
    }
    checked(sum == u64::from(OPERATIONS))
}

/// The last block of 8191 taken, while all others are: the search of the bitmap, and its bit set. One operation is that, and the bit cleared again.
pub fn take_last_block() -> Result<u64, WorkloadError> {
    let mut block = [0xff; BLOCK_LEN];
    let mut right = 0u32;
    for _ in 0..SEARCHES {
        clear(&mut block, LAST_BLOCK);
        if let Some(b) = first_clear(&block, LAST_BLOCK + 1) {
            let b = b as usize;
            set(&mut block, b);
            right = right.saturating_add(u32::from(b == LAST_BLOCK));
        }
    }
    if right == SEARCHES {
        Ok(u64::from(SEARCHES))
    } else {
        Err(WorkloadError::Wrong)
    }
}
