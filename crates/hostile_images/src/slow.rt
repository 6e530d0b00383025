//! The twelve checks of docs/FORMATS.md, one after the other, each over the whole image as its line there says it.
//! This is slow, and shares nothing with the examination that it judges.
use crate::sight::{Inode, Sight, Slot};
use std::alloc::{AllocError, Global};

/// What is found of an image: the number of its first damage, or 0; and if that is 0, what is on it.
#[derive(Clone, Copy, PartialEq, Eq, Debug)]
pub struct Found {
    pub damage: u8,
    pub live: u32,
    pub orphans: u32,
    pub blocks: u32,
}

const MAGIC: u32 = 0x10203040;

const LARGEST_SIZE: u32 = 274_432;

const ROOT: u32 = 1;

// 52.
fn has_super(sight: &Sight) -> bool {
    let sizes = sight.sizes;
    let log_end = u64::from(sizes.logstart).saturating_add(u64::from(sizes.nlog));
    let inode_blocks = u64::from(sizes.ninodes).saturating_add(15) / 16;
    sizes.magic == MAGIC
        && sizes.size <= 8191
        && 2 <= sizes.logstart
        && 11 <= sizes.nlog
        && log_end <= u64::from(sizes.inodestart)
        && 2 <= sizes.ninodes
        && sizes.ninodes <= 65_535
        && u64::from(sizes.inodestart).saturating_add(inode_blocks) <= u64::from(sizes.bmapstart)
        && sizes.bmapstart < sizes.size
}

// Whether no number comes twice.
fn are_once(numbers: &[u32]) -> bool {
    numbers.iter().enumerate().all(|(k, number)| numbers.iter().position(|other| other == number)
        == Some(k))
}

// 53.
fn has_log(sight: &Sight) -> bool {
    let sizes = sight.sizes;
    let count = sight.log_count();
    count < sizes.nlog
        && count <= 255
        && sight
            .logged()
            .iter()
            .all(|block| sizes.inodestart <= *block && *block < sizes.size)
        && are_once(sight.logged())
}

// 54.
fn has_types(sight: &Sight) -> bool {
    (1..sight.sizes.ninodes).all(|number| {
        let inode = sight.inode(number);
        inode.kind <= 3 && (!inode.is_node() || inode.count <= 32_767)
    })
}

// 62.
fn has_root(sight: &Sight) -> bool {
    sight.inode(ROOT).is_live_directory()
}

// The numbers other than 0 that nodes name.
fn named(alloc: Global, sight: &Sight) -> Result<Vec<u32>, AllocError> {
    let mut numbers = Vec::new(alloc);
    for number in 1..sight.sizes.ninodes {
        let inode = sight.inode(number);
        if inode.is_node() {
            sight.named_by(&inode, &mut numbers)?;
        }
    }
    Ok(numbers)
}

// 57.
fn has_marks(sight: &Sight, named: &[u32]) -> bool {
    (0..=sight.sizes.bmapstart).all(|block| sight.is_marked(block))
        && named.iter().all(|block| sight.is_marked(*block))
}

// Whether each block inside a node's size has a number.
fn has_blocks(sight: &Sight, inode: &Inode) -> bool {
    let blocks = inode.size.div_ceil(1024) as usize;
    (0..blocks).all(|k| sight.number_of_block(inode, k) != 0)
}

// 58.
fn has_sizes(sight: &Sight) -> bool {
    (1..sight.sizes.ninodes).all(|number| {
        let inode = sight.inode(number);
        let is_whole = 32 <= inode.size && inode.size % 16 == 0;
        !inode.is_node()
            || inode.size <= LARGEST_SIZE
                && has_blocks(sight, &inode)
                && (!inode.is_live_directory() || is_whole)
    })
}

// Whether these 14 bytes are a name: not empty, without '/', and with nothing but zeros after the first zero.
fn is_name(bytes: &[u8]) -> bool {
    let len = bytes
        .iter()
        .position(|byte| *byte == 0)
        .unwrap_or(bytes.len());
    0 < len
        && bytes.iter().all(|byte| *byte != b'/')
        && bytes.iter().skip(len).all(|byte| *byte == 0)
}

fn is_named(sight: &Sight, slot: &Slot, name: &[u8]) -> bool {
    let bytes = sight.name(slot);
    bytes.starts_with(name) && bytes.iter().skip(name.len()).all(|byte| *byte == 0)
}

fn is_node(sight: &Sight, number: u32) -> bool {
    1 <= number && number < sight.sizes.ninodes && sight.inode(number).is_node()
}

// Whether a slot before this one has its name and is used.
fn comes_before(sight: &Sight, directory: &Inode, place: usize) -> bool {
    let slot = sight.slot(directory, place);
    (0..place).any(|before| {
        let other = sight.slot(directory, before);
        other.number != 0 && sight.name(&other) == sight.name(&slot)
    })
}

fn is_good_slot(sight: &Sight, directory: &Inode, place: usize) -> bool {
    let slot = sight.slot(directory, place);
    if slot.number == 0 {
        return sight.name(&slot).iter().all(|byte| *byte == 0);
    }
    is_node(sight, slot.number)
        && is_name(sight.name(&slot))
        && !comes_before(sight, directory, place)
}

// 59, of one directory.
fn has_slots(sight: &Sight, number: u32) -> bool {
    let directory = sight.inode(number);
    let (first, second) = (sight.slot(&directory, 0), sight.slot(&directory, 1));
    first.number == number
        && is_named(sight, &first, b".")
        && second.number != 0
        && is_named(sight, &second, b"..")
        && (0..sight.slots(&directory)).all(|place| is_good_slot(sight, &directory, place))
}

// 59.
fn has_entries(sight: &Sight) -> bool {
    (1..sight.sizes.ninodes).all(|number| !sight.inode(number).is_live_directory()
        || has_slots(sight, number))
}

/// A slot of a live directory that is used: the directory, its place there, and what it names.
#[derive(Clone, Copy)]
struct Used {
    directory: u32,
    place: usize,
    names: u32,
}

impl Used {
    // Whether it is past "." and "..".
    fn is_further(&self) -> bool {
        2 <= self.place
    }
}

fn add_used(sight: &Sight, directory: u32, to: &mut Vec<Used>) -> Result<(), AllocError> {
    let inode = sight.inode(directory);
    for place in 0..sight.slots(&inode) {
        let names = sight.slot(&inode, place).number;
        if names != 0 {
            to.push(Used {
                directory,
                place,
                names,
            })?;
        }
    }
    Ok(())
}

// The used slots of live directories.
fn used_slots(alloc: Global, sight: &Sight) -> Result<Vec<Used>, AllocError> {
    let mut slots = Vec::new(alloc);
    for number in 1..sight.sizes.ninodes {
        if sight.inode(number).is_live_directory() {
            add_used(sight, number, &mut slots)?;
        }
    }
    Ok(slots)
}

// What a directory's ".." names.
fn up(sight: &Sight, directory: u32) -> u32 {
    sight.slot(&sight.inode(directory), 1).number
}

// Whether going up by ".." leads to the root.
fn reaches_root(sight: &Sight, directory: u32) -> bool {
    let mut at = directory;
    for _ in 0..sight.sizes.ninodes {
        if at == ROOT {
            return true;
        }
        at = up(sight, at);
    }
    false
}

// 60, of one live directory.
fn is_in_tree(sight: &Sight, used: &[Used], number: u32) -> bool {
    let mut naming = used
        .iter()
        .filter(|slot| slot.is_further() && slot.names == number);
    let (first, second) = (naming.next(), naming.next());
    if number == ROOT {
        return first.is_none() && up(sight, ROOT) == ROOT;
    }
    match first {
        Some(slot) => {
            second.is_none() && up(sight, number) == slot.directory && reaches_root(sight, number)
        }
        None => false,
    }
}

// 60.
fn is_tree(sight: &Sight, used: &[Used]) -> bool {
    (1..sight.sizes.ninodes).all(|number| {
        !sight.inode(number).is_live_directory() || is_in_tree(sight, used, number)
    })
}

// How many of these slots name an inode.
fn names_of(used: &[Used], number: u32) -> usize {
    used.iter().filter(|slot| slot.names == number).count()
}

// How many live directories other than an inode have it as their "..".
fn children_of(sight: &Sight, number: u32) -> usize {
    (1..sight.sizes.ninodes)
        .filter(|other| {
            *other != number
                && sight.inode(*other).is_live_directory()
                && up(sight, *other) == number
        })
        .count()
}

fn is_counted(sight: &Sight, used: &[Used], number: u32) -> bool {
    let inode = sight.inode(number);
    let count = inode.count as usize;
    if !inode.is_directory() {
        return count == names_of(used, number);
    }
    if inode.is_live() {
        return children_of(sight, number).checked_add(1) == Some(count);
    }
    !used
        .iter()
        .any(|slot| slot.is_further() && slot.names == number)
}

// 61.
fn has_counts(sight: &Sight, used: &[Used]) -> bool {
    (1..sight.sizes.ninodes).all(|number| !sight.inode(number).is_node()
        || is_counted(sight, used, number))
}

// The first damage from 57 on.
fn damage_of_nodes(alloc: Global, sight: &Sight, named: &[u32]) -> Result<u8, AllocError> {
    if !has_marks(sight, named) {
        return Ok(57);
    }
    if !has_sizes(sight) {
        return Ok(58);
    }
    if !has_entries(sight) {
        return Ok(59);
    }
    let used = used_slots(alloc, sight)?;
    if !is_tree(sight, used.as_slice()) {
        return Ok(60);
    }
    if !has_counts(sight, used.as_slice()) {
        return Ok(61);
    }
    Ok(0)
}

// The first damage of all, with the numbers that nodes name unless it is among the first ones.
fn damage_of(alloc: Global, sight: &mut Sight) -> Result<(u8, Vec<u32>), AllocError> {
    let none = Vec::new(alloc);
    if sight.blocks() < 2 {
        return Ok((51, none));
    }
    if !has_super(sight) {
        return Ok((52, none));
    }
    if sight.blocks() < sight.sizes.size as usize {
        return Ok((51, none));
    }
    sight.read_log()?;
    if !has_log(sight) {
        return Ok((53, none));
    }
    if !has_types(sight) {
        return Ok((54, none));
    }
    if !has_root(sight) {
        return Ok((62, none));
    }
    let named = named(alloc, sight)?;
    if !named.iter().all(|number| sight.is_data(*number)) {
        return Ok((55, none));
    }
    if !are_once(named.as_slice()) {
        return Ok((56, none));
    }
    let damage = damage_of_nodes(alloc, sight, named.as_slice())?;
    Ok((damage, named))
}

// How many nodes there are with a count above 0, or without.
fn count(sight: &Sight, is_live: bool) -> u32 {
    let mut count = 0u32;
    for number in 1..sight.sizes.ninodes {
        let inode = sight.inode(number);
        if inode.is_node() && inode.is_live() == is_live {
            count = count.saturating_add(1);
        }
    }
    count
}

/// What is found of an image of these bytes.
pub fn judge(alloc: Global, bytes: &[u8]) -> Result<Found, AllocError> {
    let mut sight = Sight::new(alloc, bytes);
    let (damage, named) = damage_of(alloc, &mut sight)?;
    if damage != 0 {
        return Ok(Found {
            damage,
            live: 0,
            orphans: 0,
            blocks: 0,
        });
    }
    Ok(Found {
        damage,
        live: count(&sight, true),
        orphans: count(&sight, false),
        blocks: named.len().min(u32::MAX as usize) as u32,
    })
}
