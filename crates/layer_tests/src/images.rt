//! An image that the tests begin with.
use block_device::MemoryDisk;
use mkfs::{MakeRefused, make};
use std::alloc::{AllocError, Global};
use std::test::Fail;

/// A new image of 2000 blocks and 200 inodes, whose root has no names. Its bitmap is block 46, and the root has block 47.
pub fn fresh(alloc: Global) -> Result<MemoryDisk, Fail> {
    match make(alloc, 2000, 200, &[]) {
        Ok(disk) => Ok(disk),
        Err(MakeRefused::NoMemory) => Err(Fail::from(AllocError)),
        Err(_) => Err(Fail::new("no image is made")),
    }
}
