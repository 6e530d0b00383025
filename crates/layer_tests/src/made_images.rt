//! What the examination answers for images that are made by hand.
use crate::by_hand::{Change, FRESH, RICH, SMALL, fresh, with};
use crate::told_images::holds;
use block_device::{Device, Fused, MemoryDisk};
use image_tree::{MountFault, Shape};
use image_versions::Version;
use plain_tree::{Node, NodeKind, Slot, Tree};
use std::alloc::{AllocError, Global};
use std::test::Fail;

// Examines an image, once more if memory was refused: that changed nothing, so the answer is the same.
pub fn examine<D: Device>(alloc: Global, device: &mut D) -> Result<Shape, MountFault> {
    match image_tree::examine(alloc, device, Version::One) {
        Err(MountFault::NoMemory) => image_tree::examine(alloc, device, Version::One),
        examined => examined,
    }
}

// Makes an image's tree, once more if memory was refused.
fn tree_of<D: Device>(alloc: Global, device: &mut D) -> Result<Tree, MountFault> {
    match image_tree::tree_of(alloc, device, Version::One) {
        Err(MountFault::NoMemory) => image_tree::tree_of(alloc, device, Version::One),
        tree => tree,
    }
}

// 0 for a well-formed image.
fn answer(outcome: &Result<Shape, MountFault>) -> u8 {
    match outcome {
        Ok(_) => 0,
        Err(fault) => fault.number(),
    }
}

fn shape_of(size: u32, ninodes: u32, live: u32, orphans: u32, blocks: u32) -> Shape {
    Shape {
        size,
        ninodes,
        live,
        orphans,
        blocks,
    }
}

// In a fresh image a file without a name.
const ORPHAN: [Change; 2] = [
    (33920, b"\x02\0\0\0\0\0\0\0\x01\0\0\0\x30"),
    (47110, b"\x01"),
];

#[test]
fn shapes_count_nodes_and_blocks(rt: HostRuntime) -> Result<(), Fail> {
    for (mut disk, shape) in [
        (fresh(rt.alloc(), &[])?, shape_of(2000, 200, 1, 0, 1)),
        (
            MemoryDisk::new(with(rt.alloc(), 40, &SMALL)?),
            shape_of(40, 16, 1, 0, 1),
        ),
        (
            MemoryDisk::new(with(rt.alloc(), 64, &RICH)?),
            shape_of(64, 16, 4, 1, 17),
        ),
        (fresh(rt.alloc(), &ORPHAN)?, shape_of(2000, 200, 1, 1, 2)),
    ] {
        assert!(rt; examine(rt.alloc(), &mut disk) == Ok(shape));
    }
    Ok(())
}

// Examines the first `length` bytes of an image: the answer, and the image.
fn examine_cut(alloc: Global, image: Vec<u8>, length: usize) -> (u8, Vec<u8>) {
    let mut image = image;
    image.truncate(length);
    let mut disk = MemoryDisk::new(image);
    let answer = answer(&examine(alloc, &mut disk));
    (answer, disk.into_bytes())
}

#[test]
fn cut_images_are_too_short(rt: HostRuntime) -> Result<(), Fail> {
    let mut image = with(rt.alloc(), 2000, &FRESH)?;
    let mut answer;
    for blocks in 1..2000usize {
        (answer, image) = examine_cut(rt.alloc(), image, 2_048_000 - 1024 * blocks);
        holds(&rt, answer == 51, "blocks less", blocks);
    }
    for length in [1500, 1024] {
        (answer, _) = examine_cut(rt.alloc(), with(rt.alloc(), 2000, &FRESH)?, length);
        holds(&rt, answer == 51, "bytes", length);
    }
    Ok(())
}

#[test]
fn each_call_of_the_device_can_fail(rt: HostRuntime) -> Result<(), Fail> {
    let mut passes = 0u64;
    for k in 0..2000u64 {
        let mut disk = Fused::new(MemoryDisk::new(with(rt.alloc(), 64, &RICH)?), k);
        let number = match tree_of(rt.alloc(), &mut disk) {
            Ok(_) => 0,
            Err(fault) => fault.number(),
        };
        if number == 0 {
            assert!(rt; disk.faults() == 0);
            passes = k;
            break;
        }
        holds(&rt, (number, disk.faults()) == (31, 1), "after calls", k);
    }
    assert!(rt; 100 < passes);
    Ok(())
}

// How often each answer comes, from 51 on; 0 comes first.
fn tally(counts: &mut [u32; 13], number: u8) {
    let place = if number < 51 || 62 < number {
        0
    } else {
        number as usize - 50
    };
    counts[place] = counts[place].saturating_add(1);
}

fn turned(
    alloc: Global,
    image: Vec<u8>,
    blocks: &[usize],
    by: u8,
) -> Result<[u32; 13], AllocError> {
    let mut counts = [0; 13];
    let mut image = image;
    for block in blocks {
        for at in 0..1024usize {
            let place = block.saturating_mul(1024).saturating_add(at);
            turn(&mut image, place, by);
            let mut disk = MemoryDisk::new(image);
            tally(&mut counts, answer(&examine(alloc, &mut disk)));
            image = disk.into_bytes();
            turn(&mut image, place, by);
        }
    }
    Ok(counts)
}

fn turn(image: &mut [u8], place: usize, by: u8) {
    if let Some(byte) = image.get_mut(place) {
        *byte ^= by;
    }
}

// The numbers come from a separate checker, written in another language.
#[test]
fn every_turned_byte_is_judged(rt: HostRuntime) -> Result<(), Fail> {
    let image = with(rt.alloc(), 2000, &FRESH)?;
    let blocks = [
        1, 33, 34, 35, 36, 37, 38, 39, 40, 41, 42, 43, 44, 45, 46, 47,
    ];
    let counts = turned(rt.alloc(), image, &blocks, 0xff)?;
    assert!(rt; counts == [14872, 0, 25, 0, 399, 40, 0, 19, 4, 1024, 0, 1, 0]);
    let image = with(rt.alloc(), 64, &RICH)?;
    let counts = turned(rt.alloc(), image, &[1, 2, 3, 33, 34, 35, 48], 0x01)?;
    assert!(rt; counts == [5664, 2, 26, 6, 15, 1268, 15, 8, 14, 133, 3, 11, 3]);
    Ok(())
}

fn is_slot(slot: Option<&Option<Slot>>, name: &[u8], number: u16) -> bool {
    match slot {
        Some(Some(slot)) => slot.name.as_slice() == name && slot.number == number,
        _ => false,
    }
}

// The slots of a directory with this count of links.
fn slots_of(tree: &Tree, number: usize, links: u16) -> &[Option<Slot>] {
    match tree.node(number) {
        Some(
            Node {
                count,
                kind: NodeKind::Directory { slots },
            },
        ) if *count == links => slots.as_slice(),
        _ => &[],
    }
}

// The bytes of a file with this count of links.
fn bytes_of(tree: &Tree, number: usize, links: u16) -> &[u8] {
    match tree.node(number) {
        Some(
            Node {
                count,
                kind: NodeKind::File { bytes },
            },
        ) if *count == links => bytes.as_slice(),
        _ => &[],
    }
}

fn is_device(node: Option<&Node>) -> bool {
    matches!(
        node,
        Some(Node {
            count: 1,
            kind: NodeKind::Device {
                major: 1,
                minor: 2,
                size: 0
            }
        })
    )
}

// Whether each hart is in the root, and has nothing.
fn are_harts_new(tree: &Tree) -> bool {
    for hart in 0..8u8 {
        let is_there = tree.directory(hart) == 1;
        if !is_there || tree.hold(hart).is_some() || tree.descriptor(hart, 0).is_some() {
            return false;
        }
    }
    true
}

const ROOT_NAMES: [(&[u8], u16); 5] = [(b".", 1), (b"..", 1), (b"d", 2), (b"f", 3), (b"t", 4)];

fn are_slots(slots: &[Option<Slot>], names: &[(&[u8], u16)]) -> bool {
    for (s, (name, number)) in names.iter().enumerate() {
        if !is_slot(slots.get(s), *name, *number) {
            return false;
        }
    }
    slots.len() == names.len()
}

#[test]
fn trees_have_what_the_image_has(rt: HostRuntime) -> Result<(), Fail> {
    let mut disk = MemoryDisk::new(with(rt.alloc(), 64, &RICH)?);
    let Ok(tree) = tree_of(rt.alloc(), &mut disk) else {
        return Err(Fail::new("no tree"));
    };
    assert!(rt; tree.ninodes() == 16 && are_harts_new(&tree));
    for number in [0, 5, 6, 15, 16] {
        holds(&rt, tree.node(number).is_none(), "node", number);
    }
    assert!(rt; are_slots(slots_of(&tree, 1, 2), &ROOT_NAMES));
    let d = slots_of(&tree, 2, 1);
    assert!(rt; d.len() == 4 && is_slot(d.get(2), b"g", 3) && matches!(d.last(), Some(None)));
    let f = bytes_of(&tree, 3, 2);
    assert!(rt; f.len() == 12_293 && f.starts_with(b"A\0") && f.ends_with(b"\0hello"));
    assert!(rt; is_device(tree.node(4)));
    Ok(())
}

// If memory is refused (bin/short-memory), the answer is 33 and the bytes are the same.
#[test]
fn refused_memory_changes_nothing(rt: HostRuntime) -> Result<(), Fail> {
    let image = with(rt.alloc(), 64, &RICH)?;
    let mut disk = MemoryDisk::new(with(rt.alloc(), 64, &RICH)?);
    let number = match image_tree::tree_of(rt.alloc(), &mut disk, Version::One) {
        Ok(_) => 0,
        Err(fault) => fault.number(),
    };
    holds(&rt, number == 0 || number == 33, "answer", number);
    assert!(rt; disk.faults() == 0);
    assert!(rt; disk.into_bytes().as_slice() == image.as_slice());
    Ok(())
}
