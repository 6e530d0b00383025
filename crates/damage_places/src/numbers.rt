//! The block numbers of an inode.
ghost use Rattle.std.specs.Prelude.{◌≡◌, ◌≢◌, ◌<◌, ◌≤◌, ◌++◌, ◌+◌, ◌↔◌, ℕ, true, List, length, slice_index, IfOk, All, IsTrue};
ghost use Rattle.std.specs.Option.{MatchOption};
ghost use Rattle.image_tree.specs.Inodes.{direct};
ghost use Rattle.image_tree.specs.Vocabulary.{faults_after, bit_of};
ghost use Rattle.damage_places.specs.Vocabulary.{IsLayout, OnlyReads, IsData, HasGoodNumbers, numbers_by, numbers_of, recovered, sizes_of};
ghost use Rattle.damage_places.specs.Checks.{Passes};
ghost use Rattle.damage_places.specs.Places.{IsFaultOf, IsFirstAt};
ghost use Rattle.damage_places.specs.Reads.{faults_with};
ghost use Rattle.damage_places.specs.declared.place.Check.TheVariants as checks;

use crate::place::InodeFault;
use crate::search_fault::SearchFault;
use arrayvec::ArrayVec;
use block_device::{Device, Fault};
use fs_layout::widths::{BLOCK_LEN, Block};
use fs_layout::{Dinode, Super, bit, read_numbers};
use image_tree::{Layout, is_free, load, load_inode, numbers_at};
use image_versions::widths::{ADDRESSES, DIRECT, NUMBERS_PER_BLOCK};

/// How many block numbers an inode can have, in itself and in its indirect block.
pub const NUMBERS: usize = ADDRESSES + NUMBERS_PER_BLOCK;

fn is_good(sizes: &Super, b: u32) -> bool
    ensures { IsTrue result ↔ (b ≢ 0 → IsData sizes.now b) }
{
    b == 0 || (sizes.bmapstart < b && b < sizes.size)
}

/// The place of the first number that isn't a data block's.
fn first_outside(sizes: &Super, numbers: &[u32]) -> Option<usize>
    ensures { MatchOption result
        (All (λ b. b ≢ 0 → IsData sizes.now b) numbers.now)
        (IsFirstAt (λ b. b ≢ 0 → IsData sizes.now b) numbers.now) }
{
    for i in 0..numbers.len() {
        if !is_good(sizes, numbers[i]) {
            return Some(i);
        }
    }
    None
}

fn append(numbers: &mut ArrayVec<u32, NUMBERS>, more: &[u32])
    requires { length numbers.old.items + length more.now ≤ 269 }
    ensures { numbers.new.items ≡ numbers.old.items ++ more.now }
{
    numbers.try_extend_from_slice(more).unwrap();
}

/// The numbers in an inode, and those in its indirect block.
pub fn load_numbers<D: Device>(
    device: &mut D,
    layout: &Layout,
    inode: &Dinode,
) -> Result<ArrayVec<u32, NUMBERS>, Fault>
    requires layout { IsLayout (D.contents device.old) layout.now }
    requires bound { slice_index inode.now.addrs direct < length (D.contents device.old) }
    ensures numbers { IfOk result (λ v. v.items ≡ numbers_of (D.contents device.old) inode.now) }
    ensures device { OnlyReads D.contents D.failures (faults_after result) device.old device.new }
{
    let mut numbers = ArrayVec::new();
    append(&mut numbers, &inode.addrs);
    let indirect = inode.addrs[DIRECT];
    if indirect == 0 {
        return Ok(numbers);
    }
    let mut block = [0; BLOCK_LEN];
    load(device, layout, indirect, &mut block)?;
    append(&mut numbers, &read_numbers(&block));
    Ok(numbers)
}

fn outside(numbers: &[u32], place: usize) -> InodeFault
    requires { place < length numbers.now }
    ensures { result ≡ InodeFault.Outside place (slice_index numbers.now place) }
{
    InodeFault::Outside {
        place,
        block: numbers[place],
    }
}

/// The first number of inode i that isn't a data block's.
pub fn outside_fault<D: Device>(
    device: &mut D,
    layout: &Layout,
    i: u32,
) -> Result<Option<InodeFault>, SearchFault>
    requires layout { IsLayout (D.contents device.old) layout.now }
    requires bound { i < layout.now.sizes.ninodes }
    ensures fault { IfOk result (λ found. MatchOption found
        (Passes layout.now.version (D.contents device.old) checks.Numbers i)
        (IsFaultOf layout.now.version (D.contents device.old) i checks.Numbers)) }
    ensures device { OnlyReads D.contents D.failures (faults_with result) device.old device.new }
{
    let inode = load_inode(device, layout, i)?;
    if is_free(&inode) {
        return Ok(None);
    }
    if let Some(place) = first_outside(&layout.sizes, &inode.addrs) {
        return Ok(Some(outside(&inode.addrs, place)));
    }
    let numbers = load_numbers(device, layout, &inode)?;
    let numbers = numbers.as_slice();
    match first_outside(&layout.sizes, numbers) {
        Some(place) => Ok(Some(outside(numbers, place))),
        None => Ok(None),
    }
}

fn is_free_block(bitmap: &Block, b: u32) -> bool
    requires { b < 8192 }
    ensures { IsTrue result ↔ ¬ (b ≢ 0 → bit_of bitmap.now b ≡ true) }
{
    b != 0 && !bit(bitmap, b as usize)
}

/// The place of the first number whose block is free in the bitmap.
fn first_unmarked(bitmap: &Block, numbers: &[u32]) -> Option<usize>
    requires { All (λ b. b < 8192) numbers.now }
    ensures { MatchOption result
        (All (λ b. b ≢ 0 → bit_of bitmap.now b ≡ true) numbers.now)
        (IsFirstAt (λ b. b ≢ 0 → bit_of bitmap.now b ≡ true) numbers.now) }
{
    for i in 0..numbers.len() {
        if is_free_block(bitmap, numbers[i]) {
            return Some(i);
        }
    }
    None
}

/// The first number of inode i whose block is free in this bitmap, the image's.
pub fn unmarked_fault<D: Device>(
    device: &mut D,
    layout: &Layout,
    i: u32,
) -> Result<Option<InodeFault>, SearchFault>
    requires layout { IsLayout (D.contents device.old) layout.now }
    requires numbers { HasGoodNumbers (D.contents device.old) }
    requires low { 1 ≤ i }
    requires bound { i < layout.now.sizes.ninodes }
    ensures fault { IfOk result (λ found. MatchOption found
        (Passes layout.now.version (D.contents device.old) checks.Marks i)
        (IsFaultOf layout.now.version (D.contents device.old) i checks.Marks)) }
    ensures device { OnlyReads D.contents D.failures (faults_with result) device.old device.new }
{
    let numbers = numbers_at(device, layout, i)?;
    let mut bitmap = [0; BLOCK_LEN];
    load(device, layout, layout.sizes.bmapstart, &mut bitmap)?;
    let numbers = numbers.as_slice();
    match first_unmarked(&bitmap, numbers) {
        Some(place) => Ok(Some(InodeFault::Unmarked {
            place,
            block: numbers[place],
        })),
        None => Ok(None),
    }
}
