//! Recovery that is stopped at each call of the device in turn.
use crate::by_hand::fresh;
use crate::made_images::examine;
use crate::told_images::holds;
use block_device::{Device, Fused, MemoryDisk};
use image_tree::{Damage, MountFault, Shape, recover, recovered_tree};
use image_versions::Version;
use plain_tree::{NodeKind, Tree};
use std::alloc::{AllocError, Global};
use std::test::Fail;

// The places of the log's first block, and of the three copies after it.
const HEAD: usize = 2048;

const COPIES: usize = 3072;

// The fresh image, with the bitmap, the root's inode and block 48 in the log alone.
fn logged(alloc: Global) -> Result<MemoryDisk, AllocError> {
    fresh(
        alloc,
        &[
            (47104, b"\0\0\0\0\0\0"),
            (33856, b"\0\0\0\0\0\0\0\0\0\0\0\0\0"),
            (HEAD, b"\x03\0\0\0\x2e\0\0\0\x21\0\0\0\x30\0\0\0"),
            (COPIES, b"\xff\xff\xff\xff\xff\xff\x01"),
            (4160, b"\x01\0\0\0\0\0\x01\0\0\x04\0\0\x2f\0\0\0"),
            (5120, b"new"),
        ],
    )
}

fn byte_at(bytes: &Vec<u8>, at: usize) -> Option<u8> {
    bytes.get(at).copied()
}

#[test]
fn recovery_goes_on_where_it_stopped(rt: HostRuntime) -> Result<(), Fail> {
    let shape = Shape {
        size: 2000,
        ninodes: 200,
        live: 1,
        orphans: 0,
        blocks: 1,
    };
    for calls in 0..12u64 {
        let mut disk = Fused::new(logged(rt.alloc())?, calls);
        // Superblock and head are read, each block is read and written, and the head is written.
        let want = if calls < 9 {
            Err(MountFault::DeviceFault)
        } else {
            Ok(())
        };
        holds(
            &rt,
            recover(&mut disk, Version::One) == want,
            "after calls",
            calls,
        );
        let mut disk = disk.into_disk();
        holds(
            &rt,
            examine(rt.alloc(), &mut disk) == Ok(shape),
            "after calls",
            calls,
        );
        holds(
            &rt,
            recover(&mut disk, Version::One) == Ok(()),
            "after calls",
            calls,
        );
        holds(
            &rt,
            examine(rt.alloc(), &mut disk) == Ok(shape),
            "after calls",
            calls,
        );
        let bytes = disk.into_bytes();
        for (at, byte) in [
            (HEAD, 0),
            (47104, 0xff),
            (47110, 1),
            (33856, 1),
            (33868, 0x2f),
            (49152, b'n'),
            (49154, b'w'),
        ] {
            holds(&rt, byte_at(&bytes, at) == Some(byte), "byte", at);
        }
    }
    Ok(())
}

// Recovers, and makes the tree, once more if memory was refused.
fn tree_after<D: Device>(alloc: Global, device: &mut D) -> Result<Tree, MountFault> {
    match recovered_tree(alloc, device, Version::One) {
        Err(MountFault::NoMemory) => recovered_tree(alloc, device, Version::One),
        tree => tree,
    }
}

// Recovery makes nine calls; a tree is asked for after a stop at each of them.
#[test]
fn the_tree_is_there_after_any_stop(rt: HostRuntime) -> Result<(), Fail> {
    for calls in 0..10u64 {
        let mut disk = Fused::new(logged(rt.alloc())?, calls);
        match tree_after(rt.alloc(), &mut disk) {
            Err(fault) => holds(&rt, fault == MountFault::DeviceFault, "after calls", calls),
            Ok(_) => return Err(Fail::new("the device failed")),
        }
        let mut disk = disk.into_disk();
        let Ok(tree) = tree_after(rt.alloc(), &mut disk) else {
            return Err(Fail::new("no tree"));
        };
        let Some(root) = tree.node(1) else {
            return Err(Fail::new("no root"));
        };
        assert!(rt; root.count == 1);
        let NodeKind::Directory { slots } = &root.kind else {
            return Err(Fail::new("the root is no directory"));
        };
        assert!(rt; slots.as_slice().len() == 64);
        assert!(rt; byte_at(&disk.into_bytes(), HEAD) == Some(0));
    }
    Ok(())
}

#[test]
fn recovery_writes_nothing_to_a_damaged_image(rt: HostRuntime) -> Result<(), Fail> {
    // A block below the inodes is named.
    let mut disk = fresh(
        rt.alloc(),
        &[(HEAD, b"\x02\0\0\0\x2e\0\0\0\x20\0\0\0"), (COPIES, b"new")],
    )?;
    assert!(rt; recover(&mut disk, Version::One) == Err(MountFault::Damaged(Damage::BadLog)));
    let bytes = disk.into_bytes();
    assert!(rt; (byte_at(&bytes, HEAD), byte_at(&bytes, 47104)) == (Some(2), Some(0xff)));
    Ok(())
}
