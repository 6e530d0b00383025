//! Nodes without a name that are freed, even by a call that is stopped at each call of the device in turn.
ghost use Rattle.std.specs.Prelude.{◌≡◌, IfOk};
ghost use Rattle.group_log.specs.Vocabulary.{sizes_of};
ghost use Rattle.image_tree.specs.Damage.{IsWellFormed};

use crate::by_hand::{Change, fresh, with};
use crate::made_images::examine;
use crate::told_images::holds;
use block_device::{Device, Fused, MemoryDisk};
use image_tree::{Layout, MountFault, Shape, examine_layout, settle};
use image_versions::Version;
use std::alloc::Global;
use std::test::Fail;

// The places of the log's head and of its two copies in a fresh image.
const HEAD: usize = 2048;

const FIRST_COPY: usize = 3072;

const SECOND_COPY: usize = 4096;

const BITMAP: usize = 47104;

// The place of inode 2.
const INODE: usize = 33920;

// In a fresh image, inode 2: a file of one byte in block 48, without a name.
const ORPHAN: [Change; 2] = [
    (33920, b"\x02\0\0\0\0\0\0\0\x01\0\0\0\x30"),
    (47110, b"\x01"),
];

// 64 blocks, 16 inodes, and a log of 11 blocks. Three inodes have no name: 2 is a file of 13 blocks with an indirect
// one, 3 a directory of one block, and 5 a device. Inode 4 is the file "/f" of one block.
const THREE: [Change; 10] = [
    (
        1024,
        b"\x40\x30\x20\x10\x40\0\0\0\x31\0\0\0\x10\0\0\0\x0b\0\0\0\x02\0\0\0\x0d\0\0\0\x0e\0\0\0",
    ),
    (13376, b"\x01\0\0\0\0\0\x01\0\x30\0\0\0\x0f\0\0\0"),
    (
        13440,
        b"\x02\0\0\0\0\0\0\0\x01\x30\0\0\x10\0\0\0\x11\0\0\0\x12\0\0\0\x13\0\0\0\x14\0\0\0\x15\0\0\0",
    ),
    (
        13476,
        b"\x16\0\0\0\x17\0\0\0\x18\0\0\0\x19\0\0\0\x1a\0\0\0\x1b\0\0\0\x1c\0\0\0",
    ),
    (13504, b"\x01\0\0\0\0\0\0\0\0\x04\0\0\x1e\0\0\0"),
    (13568, b"\x02\0\0\0\0\0\x01\0\x01\0\0\0\x1f\0\0\0"),
    (13632, b"\x03\0\x01\0\x02\0\0\0"),
    (14336, b"\xff\xff\xff\xff"),
    (
        15360,
        b"\x01\0.\0\0\0\0\0\0\0\0\0\0\0\0\0\x01\0..\0\0\0\0\0\0\0\0\0\0\0\0\x04\0f",
    ),
    (28672, b"\x1d"),
];

fn byte_at(bytes: &Vec<u8>, at: usize) -> Option<u8> {
    bytes.get(at).copied()
}

// Examines an image, once more if memory was refused.
fn examined<D: Device>(alloc: Global, device: &mut D) -> Result<Layout, MountFault>
    ensures { IfOk result (λ layout. IsWellFormed Version.One (D.contents device.new) × (layout.sizes ≡ sizes_of (D.contents device.new))) }
{
    match examine_layout(alloc, device, Version::One) {
        Err(MountFault::NoMemory) => examine_layout(alloc, device, Version::One),
        layout => layout,
    }
}

// Settles an image, on a device that fails after `calls` calls. It says whether that was done, and gives the image.
fn stopped(alloc: Global, disk: MemoryDisk, calls: u64) -> Result<(bool, MemoryDisk), Fail> {
    let mut disk = disk;
    let Ok(layout) = examined(alloc, &mut disk) else {
        return Err(Fail::new("the image is refused"));
    };
    let mut device = Fused::new(disk, calls);
    let done = settle(&mut device, Version::One, layout.sizes).is_ok();
    Ok((done, device.into_disk()))
}

// The device makes 214 calls: two to recover, one for each inode, and for the orphan three further reads. Calls 8 to
// 10 write its copies in the log and the head, and calls 14, 16 and 17 are the writes of recovery.
#[test]
fn an_orphan_goes_in_six_writes(rt: HostRuntime) -> Result<(), Fail> {
    for calls in [0, 7, 8, 9, 10, 13, 14, 15, 16, 17, 213, 214u64] {
        let (done, disk) = stopped(rt.alloc(), fresh(rt.alloc(), &ORPHAN)?, calls)?;
        holds(&rt, done == (calls == 214), "after calls", calls);
        let mut disk = disk;
        let shape = Shape {
            size: 2000,
            ninodes: 200,
            live: 1,
            orphans: u32::from(calls < 10),
            blocks: if calls < 10 { 2 } else { 1 },
        };
        holds(
            &rt,
            examine(rt.alloc(), &mut disk) == Ok(shape),
            "after calls",
            calls,
        );
        let bytes = disk.into_bytes();
        for (at, written, before, after) in [
            (FIRST_COPY, 8u64, 0, 0xff),
            (SECOND_COPY + 64, 9, 0, 1),
            (HEAD, 10, 0, 2),
            (HEAD + 4, 10, 0, 46),
            (HEAD + 8, 10, 0, 33),
            (BITMAP + 6, 14, 1, 0),
            (INODE, 16, 2, 0),
        ] {
            let cleared = calls >= 17 && HEAD <= at && at < FIRST_COPY;
            let want = if calls < written || cleared {
                before
            } else {
                after
            };
            holds(&rt, byte_at(&bytes, at) == Some(want), "byte", at);
        }
    }
    Ok(())
}

#[test]
fn three_go_wherever_the_device_fails(rt: HostRuntime) -> Result<(), Fail> {
    let mut ended = false;
    for calls in 0..80u64 {
        let image = MemoryDisk::new(with(rt.alloc(), 64, &THREE)?);
        let (done, disk) = stopped(rt.alloc(), image, calls)?;
        ended = done;
        let (again, disk) = stopped(rt.alloc(), disk, 80)?;
        holds(&rt, again, "after calls", calls);
        let mut disk = disk;
        let shape = Shape {
            size: 64,
            ninodes: 16,
            live: 2,
            orphans: 0,
            blocks: 2,
        };
        holds(
            &rt,
            examine(rt.alloc(), &mut disk) == Ok(shape),
            "after calls",
            calls,
        );
        // The bitmap keeps the blocks up to the root's, and that of "/f".
        let bytes = disk.into_bytes();
        for (at, byte) in [
            (14336, 0xff),
            (14337, 0xff),
            (14338, 0),
            (14339, 0x80),
            (2048, 0),
        ] {
            holds(&rt, byte_at(&bytes, at) == Some(byte), "byte", at);
        }
    }
    assert!(rt; ended);
    Ok(())
}
