//! The device's length, the superblock and the log's head.
ghost use Rattle.std.specs.Prelude.{◌≡◌, ◌≢◌, ◌<◌, ◌≤◌, ◌↔◌, ℕ, length, All, IfOk, IsTrue, MatchResult, slice_index, take};
ghost use Rattle.std.specs.Option.{MatchOption};
ghost use Rattle.damage_places.specs.Vocabulary.{IsLayout, OnlyReads, IsGoodSuper, IsOnce, UpToShort, UpToSize, HasSuper, sizes_of};
ghost use Rattle.damage_places.specs.Places.{IsFirstAt, IsFirstPlace, IsFirstRepeat, IsListFault, IsLoggable, Keeps, KeepsBefore};
ghost use Rattle.damage_places.specs.Reads.{faults_with};

use crate::place::{LogFault, Place, SuperRule};
use crate::repeats::first_repeat;
use crate::search_fault::SearchFault;
use block_device::Device;
use fs_layout::widths::{BLOCK_LEN, INODES_PER_BLOCK};
use fs_layout::{Super, read_log_head, read_number, read_super};
use image_tree::Layout;
use image_versions::Version;
use image_versions::widths::MOST_DISK_BLOCKS;

/// The block of the superblock.
const SUPER_BLOCK: u32 = 1;

/// The limits of a superblock's sizes.
const FIRST_LOG_BLOCK: u32 = 2;

const SHORTEST_LOG: u32 = 11;

const FEWEST_INODES: u32 = 2;

const MOST_INODES: u32 = 65_535;

/// The first of the rules about the log that these sizes break.
fn broken_log_rule(s: &Super) -> Option<SuperRule>
    ensures { MatchOption result (KeepsBefore s.now SuperRule.FewInodes)
        (λ rule. KeepsBefore s.now rule × (¬ Keeps s.now rule)) }
{
    if s.size > MOST_DISK_BLOCKS {
        return Some(SuperRule::Size);
    }
    if s.logstart < FIRST_LOG_BLOCK {
        return Some(SuperRule::LogStart);
    }
    if s.nlog < SHORTEST_LOG {
        return Some(SuperRule::LogLength);
    }
    if u64::from(s.logstart) + u64::from(s.nlog) > u64::from(s.inodestart) {
        return Some(SuperRule::Log);
    }
    None
}

/// The first rule that these sizes break.
fn broken_rule(s: &Super) -> Option<SuperRule>
    ensures { MatchOption result (IsGoodSuper s.now) (λ rule. KeepsBefore s.now rule × (¬ Keeps s.now rule)) }
{
    if let Some(rule) = broken_log_rule(s) {
        return Some(rule);
    }
    if s.ninodes < FEWEST_INODES {
        return Some(SuperRule::FewInodes);
    }
    if s.ninodes > MOST_INODES {
        return Some(SuperRule::ManyInodes);
    }
    let inode_blocks = u64::from(s.ninodes).div_ceil(INODES_PER_BLOCK as u64);
    if u64::from(s.inodestart) + inode_blocks > u64::from(s.bmapstart) {
        return Some(SuperRule::Inodes);
    }
    if s.bmapstart >= s.size {
        return Some(SuperRule::Bitmap);
    }
    None
}

fn find_super<D: Device>(
    device: &mut D,
    version: Version,
) -> Result<Result<Super, Place>, SearchFault>
    requires { UpToShort (D.contents device.old) }
    ensures found { IfOk result (λ found. MatchResult found
        (λ s. (s ≡ sizes_of (D.contents device.old)) × HasSuper version (D.contents device.old))
        (IsFirstPlace version (D.contents device.old))) }
    ensures device { OnlyReads D.contents D.failures (faults_with result) device.old device.new }
{
    let mut block = [0; BLOCK_LEN];
    device.read(SUPER_BLOCK, &mut block)?;
    let Some(sizes) = read_super(version, &block) else {
        let found = read_number(&block, 0);
        return Ok(Err(Place::Magic { found }));
    };
    match broken_rule(&sizes) {
        Some(rule) => Ok(Err(Place::Sizes { rule, sizes })),
        None => Ok(Ok(sizes)),
    }
}

/// The index of the first block that may not be logged.
fn first_outside(s: &Super, blocks: &[u32]) -> Option<usize>
    ensures { MatchOption result (All (IsLoggable s.now) blocks.now) (IsFirstAt (IsLoggable s.now) blocks.now) }
{
    for i in 0..blocks.len() {
        if blocks[i] < s.inodestart || s.size <= blocks[i] {
            return Some(i);
        }
    }
    None
}

/// What is wrong with the blocks that the log names, of which there are not too many.
fn list_fault(s: &Super, blocks: &[u32]) -> Option<LogFault>
    ensures { MatchOption result (All (IsLoggable s.now) blocks.now × IsOnce blocks.now) (IsListFault s.now blocks.now) }
{
    if let Some(index) = first_outside(s, blocks) {
        return Some(LogFault::Outside {
            index,
            block: blocks[index],
        });
    }
    if let Some((first, second)) = first_repeat(blocks) {
        return Some(LogFault::Twice {
            first,
            second,
            block: blocks[second],
        });
    }
    None
}

fn too_many(count: u32) -> Place
    ensures { result ≡ Place.Log (LogFault.TooMany count) }
{
    Place::Log {
        fault: LogFault::TooMany { count },
    }
}

fn find_log<D: Device>(
    device: &mut D,
    version: Version,
    sizes: Super,
) -> Result<Result<Layout, Place>, SearchFault>
    requires sizes { sizes ≡ sizes_of (D.contents device.old) }
    requires passed { UpToSize version (D.contents device.old) }
    ensures found { IfOk result (λ found. MatchResult found
        (λ layout. IsLayout (D.contents device.old) layout × (layout.version ≡ version))
        (IsFirstPlace version (D.contents device.old))) }
    ensures device { OnlyReads D.contents D.failures (faults_with result) device.old device.new }
{
    let mut block = [0; BLOCK_LEN];
    device.read(sizes.logstart, &mut block)?;
    let count = read_number(&block, 0);
    let Some(head) = read_log_head(&block) else {
        return Ok(Err(too_many(count)));
    };
    if count >= sizes.nlog {
        return Ok(Err(too_many(count)));
    }
    match list_fault(&sizes, head.blocks.as_slice()) {
        Some(fault) => Ok(Err(Place::Log { fault })),
        None => Ok(Ok(Layout {
            version,
            sizes,
            head,
        })),
    }
}

/// The parts of an image of this version, or what is wrong before they can be known.
pub fn find_layout<D: Device>(
    device: &mut D,
    version: Version,
) -> Result<Result<Layout, Place>, SearchFault>
    ensures found { IfOk result (λ found. MatchResult found
        (λ layout. IsLayout (D.contents device.old) layout × (layout.version ≡ version))
        (IsFirstPlace version (D.contents device.old))) }
    ensures device { OnlyReads D.contents D.failures (faults_with result) device.old device.new }
{
    let blocks = device.blocks();
    if blocks <= SUPER_BLOCK {
        let needed = SUPER_BLOCK + 1;
        return Ok(Err(Place::Short { blocks, needed }));
    }
    let sizes = match find_super(device, version)? {
        Ok(sizes) => sizes,
        Err(place) => return Ok(Err(place)),
    };
    if blocks < sizes.size {
        let needed = sizes.size;
        return Ok(Err(Place::Short { blocks, needed }));
    }
    find_log(device, version, sizes)
}
