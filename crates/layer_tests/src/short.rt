//! What calls do if memory is short. `bin/short-memory` refuses, in turn, each request for memory that a call makes
//! between the lines "call" and "done". Then the call answers 33, and what it was given is as before. Made once more,
//! it has its usual result.
use crate::by_hand::{RICH, with};
use block_device::MemoryDisk;
use image_tree::{examine, tree_of};
use image_versions::Version;
use migration::migrate;
use mkfs::{NewFile, make};
use std::test::Fail;

// The answer of a call that was refused memory, and that of one that wasn't.
const NO_MEMORY: u32 = 33;

const ANSWERED: u32 = 0;

/// An image that wasn't made for want of memory is made the next time, from the same files.
#[test]
fn of_make(rt: HostRuntime) -> Result<(), Fail> {
    let alloc = rt.alloc();
    let file = NewFile {
        name: Vec::from_slice(alloc, b"f")?,
        content: vec![in alloc; b'x'; 13_000]?,
    };
    let files = [file];
    let Ok(wanted) = make(alloc, 60, 16, &files) else {
        return Err(Fail::new("no image is made"));
    };
    let _ = println!(rt; "call");
    let came = make(alloc, 60, 16, &files);
    let _ = println!(rt; "done");
    let (made, answer) = match came {
        Ok(disk) => (Ok(disk), ANSWERED),
        Err(refused) => (make(alloc, 60, 16, &files), refused.number()),
    };
    println!(rt; "answer {answer}")?;
    assert!(rt; answer == ANSWERED || answer == NO_MEMORY);
    let Ok(disk) = made else {
        return Err(Fail::new("no image is made"));
    };
    assert!(rt; disk.into_bytes().as_slice() == wanted.into_bytes().as_slice());
    Ok(())
}

/// An image that wasn't examined for want of memory is unchanged, and is examined the next time.
#[test]
fn of_examine(rt: HostRuntime) -> Result<(), Fail> {
    let alloc = rt.alloc();
    let image = with(alloc, 64, &RICH)?;
    let mut disk = MemoryDisk::new(image.clone()?);
    let wanted = examine(alloc, &mut disk, Version::One);
    let _ = println!(rt; "call");
    let came = examine(alloc, &mut disk, Version::One);
    let _ = println!(rt; "done");
    let answer = match &came {
        Ok(_) => ANSWERED,
        Err(fault) => u32::from(fault.number()),
    };
    println!(rt; "answer {answer}")?;
    assert!(rt; came == wanted || answer == NO_MEMORY);
    assert!(rt; examine(alloc, &mut disk, Version::One) == wanted);
    assert!(rt; disk.into_bytes().as_slice() == image.as_slice());
    Ok(())
}

/// An image whose tree wasn't made for want of memory is unchanged, and its tree is made the next time.
#[test]
fn of_tree_of(rt: HostRuntime) -> Result<(), Fail> {
    let alloc = rt.alloc();
    let image = with(alloc, 64, &RICH)?;
    let mut disk = MemoryDisk::new(image.clone()?);
    let _ = println!(rt; "call");
    let came = tree_of(alloc, &mut disk, Version::One);
    let _ = println!(rt; "done");
    let answer = match came {
        Ok(_) => ANSWERED,
        Err(fault) => u32::from(fault.number()),
    };
    println!(rt; "answer {answer}")?;
    assert!(rt; answer == ANSWERED || answer == NO_MEMORY);
    assert!(rt; tree_of(alloc, &mut disk, Version::One).is_ok());
    assert!(rt; disk.into_bytes().as_slice() == image.as_slice());
    Ok(())
}

/// An image that wasn't migrated for want of memory is unchanged, and is migrated the next time.
#[test]
fn of_migrate(rt: HostRuntime) -> Result<(), Fail> {
    let alloc = rt.alloc();
    let image = with(alloc, 64, &RICH)?;
    let mut disk = MemoryDisk::new(image.clone()?);
    let Ok(wanted) = migrate(alloc, &mut disk, Version::Two, 64) else {
        return Err(Fail::new("no image is made"));
    };
    let _ = println!(rt; "call");
    let came = migrate(alloc, &mut disk, Version::Two, 64);
    let _ = println!(rt; "done");
    let (made, answer) = match came {
        Ok(made) => (Ok(made), ANSWERED),
        Err(refused) => (
            migrate(alloc, &mut disk, Version::Two, 64),
            refused.number(),
        ),
    };
    println!(rt; "answer {answer}")?;
    assert!(rt; answer == ANSWERED || answer == NO_MEMORY);
    let Ok(made) = made else {
        return Err(Fail::new("no image is made"));
    };
    assert!(rt; made.into_bytes().as_slice() == wanted.into_bytes().as_slice());
    assert!(rt; disk.into_bytes().as_slice() == image.as_slice());
    Ok(())
}
