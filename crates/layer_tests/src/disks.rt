//! Disks in memory: what a write leaves of the other bytes, and how many calls a fuse passes.
ghost use Rattle.std.specs.Prelude.{◌≡◌, ◌<◌, length, IfOk};
ghost use Rattle.group_log.specs.Vocabulary.{faults_after};

use crate::told::holds;
use block_device::{BLOCK_LEN, Device, Fault, Fused, MemoryDisk};
use std::alloc::{AllocError, Global};
use std::test::Fail;

// Over any disk a block that was written reads back.
fn write_and_read<D: Device>(
    device: &mut D,
    b: u32,
    block: &[u8; BLOCK_LEN],
) -> Result<[u8; BLOCK_LEN], Fault>
    requires { b < length (D.contents device.old) }
    ensures reads_back { IfOk result (λ bytes. bytes ≡ block.now) }
    ensures count { length (D.contents device.new) ≡ length (D.contents device.old) }
    ensures faults { D.failures device.new ≡ faults_after result (D.failures device.old) }
{
    device.write(b, block)?;
    let mut bytes = [0; BLOCK_LEN];
    device.read(b, &mut bytes)?;
    Ok(bytes)
}

fn counted(alloc: Global, len: usize) -> Result<Vec<u8>, AllocError> {
    let mut bytes = Vec::new(alloc);
    for i in 0..len {
        bytes.push((i % 251) as u8)?;
    }
    Ok(bytes)
}

#[test]
fn keeps_the_bytes_behind_the_last_block(rt: HostRuntime) -> Result<(), Fail> {
    let given = counted(rt.alloc(), 2500)?;
    let mut disk = MemoryDisk::new(given.clone()?);
    assert!(rt; 1 < disk.blocks());
    assert!(rt; write_and_read(&mut disk, 1, &[7; BLOCK_LEN]) == Ok([7; BLOCK_LEN]));
    let mut first = [0; BLOCK_LEN];
    assert!(rt; disk.read(0, &mut first) == Ok(()));
    for (&was, &read) in given.iter().zip(first.iter()) {
        assert!(rt; read == was);
    }
    let bytes = disk.into_bytes();
    assert!(rt; bytes.len() == 2500);
    for (i, (&was, &byte)) in given.iter().zip(bytes.iter()).enumerate() {
        let want = if 1024 <= i && i < 2048 { 7 } else { was };
        holds(&rt, byte == want, "byte", i);
    }
    Ok(())
}

// A fuse of `k` over two blocks of zeros. Five times a block of 1, 2, 3, 4, 5 is written and read;
// `last` is what block 1 holds in the end.
#[test]
fn passes_as_many_calls_as_the_fuse(rt: HostRuntime) -> Result<(), Fail> {
    for (k, good, faults, last) in [(0, 0, 5, 0), (1, 0, 5, 1), (3, 1, 4, 2), (10, 5, 0, 5)] {
        let mut disk = Fused::new(MemoryDisk::new(vec![in rt.alloc(); 0; 2048]?), k);
        let mut done = 0u64;
        for n in 1..6u8 {
            assert!(rt; 1 < disk.blocks());
            if write_and_read(&mut disk, 1, &[n; BLOCK_LEN]).is_ok() {
                done = done.saturating_add(1);
            }
        }
        holds(&rt, done == good, "fuse", k);
        holds(&rt, disk.faults() == faults, "fuse", k);
        let bytes = disk.into_disk().into_bytes();
        assert!(rt; bytes.len() == 2048);
        for (i, &byte) in bytes.iter().enumerate() {
            let want = if i < 1024 { 0 } else { last };
            holds(&rt, byte == want, "byte", i);
        }
    }
    Ok(())
}
