//! What an image's blocks and inodes are used for.
ghost use Rattle.std.specs.Prelude.{◌≡◌, ◌<◌, ◌≤◌, ◌-◌, ◌&&◌, if◌then◌else◌, length, nat_lt, IfErr, IfOk, OnOk};
ghost use Rattle.image_reports.specs.Vocabulary.{Appends, IsLayout, HasGoodNumbers, IsWellFormed, JudgesWith, bit_of, blocks_of, count_upto, filter, gathered, is_block, last, sizes_of, version_in};
ghost use Rattle.image_reports.specs.Faults.{IsSilent, RefusesImage};
ghost use Rattle.image_reports.specs.Usage.{TellsUsage, blocks_by, free_blocks, free_inodes, free_text, has_name_as, is_marked_data, lost, nodes_text, unused_text, usage_of, usage_text, used_text};

use crate::fault::ReportFault;
use block_device::{Device, Fault, MemoryDisk};
use fs_layout::widths::{BLOCK_LEN, Block};
use fs_layout::{Dinode, bit};
use image_tree::{
    Layout, MountFault, examine, find_layout, find_version, is_live, load, load_inode, numbers_at,
};
use image_versions::Version;
use std::alloc::Global;
use std::io;
use std::io::Write;

/// What a well-formed image's blocks and inodes are used for.
#[derive(Clone, Copy, PartialEq, Eq, Debug)]
pub struct Usage {
    /// How many blocks there are.
    pub blocks: u32,
    /// How many come before the data.
    pub front: u32,
    /// How many blocks of data are marked as used.
    pub marked: u32,
    /// How many nodes with a name have.
    pub named: u32,
    /// How many nodes without a name have.
    pub unnamed: u32,
    /// How many inodes there are, counting inode 0.
    pub inodes: u32,
    /// How many nodes have a name.
    pub live: u32,
    /// How many nodes have none.
    pub orphans: u32,
}

fn has_name_as(live: bool, inode: &Dinode) -> bool
    ensures { result ≡ has_name_as live inode.now }
{
    if live {
        is_live(inode)
    } else {
        !is_live(inode)
    }
}

// How many of the numbers name a block.
fn count_blocks(numbers: &[u32]) -> u32
    requires { length numbers.now ≤ 269 }
    ensures blocks { result ≡ length (filter is_block numbers.now) }
    ensures few { result ≤ 269 }
{
    let mut blocks = 0;
    for i in 0..numbers.len() {
        if numbers[i] != 0 {
            blocks += 1;
        }
    }
    blocks
}

// How many blocks inode i names, if it has a name or has none, as is asked.
fn count_blocks_of<D: Device>(
    device: &mut D,
    layout: &Layout,
    live: bool,
    i: u32,
) -> Result<u32, Fault>
    requires layout { IsLayout (D.contents device.old) layout.now }
    requires numbers { HasGoodNumbers (D.contents device.old) }
    requires low { 1 ≤ i }
    requires bound { i < layout.now.sizes.ninodes }
    ensures blocks { IfOk result (λ n. n ≡ length (blocks_by (D.contents device.old) live i)) }
    ensures few { IfOk result (λ n. n ≤ 269) }
    ensures device { D.contents device.new ≡ D.contents device.old }
{
    let inode = load_inode(device, layout, i)?;
    if !has_name_as(live, &inode) {
        return Ok(0);
    }
    let numbers = numbers_at(device, layout, i)?;
    Ok(count_blocks(numbers.as_slice()))
}

// How many blocks the nodes name that have a name, or those that have none.
fn count_named<D: Device>(device: &mut D, layout: &Layout, live: bool) -> Result<u32, Fault>
    requires layout { IsLayout (D.contents device.old) layout.now }
    requires numbers { HasGoodNumbers (D.contents device.old) }
    ensures blocks { IfOk result (λ n. n
        ≡ length (gathered (blocks_by (D.contents device.old) live) (last (D.contents device.old)))) }
    ensures device { D.contents device.new ≡ D.contents device.old }
{
    let mut blocks = 0;
    for i in 1..layout.sizes.ninodes {
        blocks += count_blocks_of(device, layout, live, i)?;
    }
    Ok(blocks)
}

// 1 if the block is one of data and marked as used, else 0.
fn count_mark(bitmap: &Block, bmapstart: u32, b: u32) -> u32
    requires { b < 8192 }
    ensures { result ≡ (if nat_lt bmapstart b && bit_of bitmap.now b then 1 else 0) }
{
    u32::from(b > bmapstart && bit(bitmap, b as usize))
}

// How many blocks of data are marked as used.
fn count_marked<D: Device>(device: &mut D, layout: &Layout) -> Result<u32, Fault>
    requires layout { IsLayout (D.contents device.old) layout.now }
    ensures blocks { IfOk result (λ n. n
        ≡ count_upto (is_marked_data (D.contents device.old)) ((sizes_of (D.contents device.old)).size - 1)) }
    ensures device { D.contents device.new ≡ D.contents device.old }
{
    let mut bitmap = [0; BLOCK_LEN];
    load(device, layout, layout.sizes.bmapstart, &mut bitmap)?;
    let mut marked = 0;
    for b in 1..layout.sizes.size {
        marked += count_mark(&bitmap, layout.sizes.bmapstart, b);
    }
    Ok(marked)
}

// Examines the device as an image of this version, and counts.
fn measure<D: Device>(alloc: Global, device: &mut D, version: Version) -> Result<Usage, MountFault>
    ensures { JudgesWith version
        (λ usage. IsWellFormed version (D.contents device.old) × (usage ≡ usage_of (D.contents device.old)))
        (D.contents device.old) result }
{
    let shape = examine(alloc, device, version)?;
    let layout = find_layout(device, version)?;
    let marked = count_marked(device, &layout)?;
    let named = count_named(device, &layout, true)?;
    let unnamed = count_named(device, &layout, false)?;
    Ok(Usage {
        blocks: shape.size,
        front: layout.sizes.bmapstart + 1,
        marked,
        named,
        unnamed,
        inodes: shape.ninodes,
        live: shape.live,
        orphans: shape.orphans,
    })
}

/// Examines the image that has these bytes, as one of the version that its magic number says, and counts.
pub fn find_usage(alloc: Global, image: Vec<u8>) -> Result<Usage, MountFault>
    ensures { JudgesWith (version_in (blocks_of image.items))
        (λ usage. IsWellFormed (version_in (blocks_of image.items)) (blocks_of image.items) × (usage ≡ usage_of (blocks_of image.items)))
        (blocks_of image.items) result }
{
    let mut disk = MemoryDisk::new(image);
    let version = find_version(&mut disk)?;
    measure(alloc, &mut disk, version)
}

impl Usage {
    /// How many blocks are marked as used, and no node names them.
    pub fn lost(&self) -> u32
        ensures { result ≡ lost self.now }
    {
        self.marked
            .saturating_sub(self.named)
            .saturating_sub(self.unnamed)
    }

    /// How many blocks can be taken.
    pub fn free_blocks(&self) -> u32
        ensures { result ≡ free_blocks self.now }
    {
        self.blocks
            .saturating_sub(self.front)
            .saturating_sub(self.marked)
    }

    /// How many inodes can be taken.
    pub fn free_inodes(&self) -> u32
        ensures { result ≡ free_inodes self.now }
    {
        self.inodes
            .saturating_sub(1)
            .saturating_sub(self.live)
            .saturating_sub(self.orphans)
    }
}

// The blocks that are used by something.
fn write_used<W: Write>(out: &mut W, usage: &Usage) -> io::Result<()>
    ensures { OnOk result (Appends (W.contents out.old) (W.contents out.new) (used_text usage.now)) }
{
    let (front, named, unnamed) = (usage.front, usage.named, usage.unnamed);
    write!(
        out,
        "blocks: {front} before the data, {named} of nodes with a name, {unnamed} of nodes without, "
    )
}

// The other blocks, and all.
fn write_unused<W: Write>(out: &mut W, usage: &Usage) -> io::Result<()>
    ensures { OnOk result (Appends (W.contents out.old) (W.contents out.new) (unused_text usage.now)) }
{
    let (lost, free, total) = (usage.lost(), usage.free_blocks(), usage.blocks);
    writeln!(
        out,
        "{lost} marked and named by nothing, {free} free, {total} in total"
    )
}

// The inodes of nodes.
fn write_nodes<W: Write>(out: &mut W, usage: &Usage) -> io::Result<()>
    ensures { OnOk result (Appends (W.contents out.old) (W.contents out.new) (nodes_text usage.now)) }
{
    let (live, orphans) = (usage.live, usage.orphans);
    write!(
        out,
        "inodes: {live} of nodes with a name, {orphans} of nodes without, "
    )
}

// The other inodes, and all.
fn write_free<W: Write>(out: &mut W, usage: &Usage) -> io::Result<()>
    ensures { OnOk result (Appends (W.contents out.old) (W.contents out.new) (free_text usage.now)) }
{
    let (free, total) = (usage.free_inodes(), usage.inodes);
    writeln!(out, "1 never used, {free} free, {total} in total")
}

// Both lines.
fn write_lines<W: Write>(out: &mut W, usage: &Usage) -> io::Result<()>
    ensures { OnOk result (Appends (W.contents out.old) (W.contents out.new) (usage_text usage.now)) }
{
    write_used(out, usage)?;
    write_unused(out, usage)?;
    write_nodes(out, usage)?;
    write_free(out, usage)
}

/// Writes the lines of an image's blocks and inodes. A refused image writes nothing.
pub fn write_usage<W: Write>(alloc: Global, image: Vec<u8>, out: &mut W) -> Result<(), ReportFault>
    ensures tells { OnOk result (TellsUsage (blocks_of image.items) (W.contents out.old) (W.contents out.new)) }
    ensures refused { IfErr result (RefusesImage (blocks_of image.items)) }
    ensures silent { IfErr result (IsSilent (W.contents out.old) (W.contents out.new)) }
{
    let usage = find_usage(alloc, image)?;
    write_lines(out, &usage).map_err(ReportFault::Write)
}
