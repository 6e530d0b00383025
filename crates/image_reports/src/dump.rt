//! The fields of an image's parts.
ghost use Rattle.std.specs.Prelude.{◌≡◌, IfErr, OnOk};
ghost use Rattle.image_reports.specs.Vocabulary.{IsLayout, IsWellFormed, JudgesWith, blocks_of, logged, sizes_of, version_in};
ghost use Rattle.image_reports.specs.Faults.{IsSilent, RefusesDirectory, RefusesImage, RefusesInode};
ghost use Rattle.image_reports.specs.Parts.{IsInode, Prints, PrintsDirectory, PrintsInode, log_text, super_text};

use crate::fault::ReportFault;
use crate::fields::{write_inode, write_log, write_slots, write_super};
use crate::opened::{Opened, open_image};
use block_device::{Device, MemoryDisk};
use fs_layout::Dinode;
use image_tree::{Layout, MountFault, examine, find_layout, find_version, load_inode};
use image_versions::Version;
use plain_tree::{Node, NodeKind};
use std::alloc::Global;
use std::io::Write;

// Examines the device as an image of this version, and finds its parts.
fn find_parts<D: Device>(
    alloc: Global,
    device: &mut D,
    version: Version,
) -> Result<Layout, MountFault>
    ensures judges { JudgesWith version
        (λ layout. IsWellFormed version (D.contents device.old) × IsLayout (D.contents device.old) layout)
        (D.contents device.old) result }
    ensures device { D.contents device.new ≡ D.contents device.old }
{
    let _shape = examine(alloc, device, version)?;
    find_layout(device, version)
}

// The parts of the image that has these bytes, as one of the version that its magic number says.
fn layout_in(alloc: Global, image: Vec<u8>) -> Result<Layout, MountFault>
    ensures { JudgesWith (version_in (blocks_of image.items))
        (λ layout. IsWellFormed (version_in (blocks_of image.items)) (blocks_of image.items) × IsLayout (blocks_of image.items) layout)
        (blocks_of image.items) result }
{
    let mut disk = MemoryDisk::new(image);
    let version = find_version(&mut disk)?;
    find_parts(alloc, &mut disk, version)
}

// The inode of this number, if the device has one.
fn find_inode<D: Device>(
    alloc: Global,
    device: &mut D,
    version: Version,
    number: u32,
) -> Result<Option<Dinode>, MountFault>
    ensures { JudgesWith version
        (λ found. IsWellFormed version (D.contents device.old) × IsInode (D.contents device.old) number found)
        (D.contents device.old) result }
{
    let layout = find_parts(alloc, device, version)?;
    if number >= layout.sizes.ninodes {
        return Ok(None);
    }
    Ok(Some(load_inode(device, &layout, number)?))
}

// The inode of this number, if the image that has these bytes has one.
fn inode_in(alloc: Global, image: Vec<u8>, number: u32) -> Result<Option<Dinode>, MountFault>
    ensures { JudgesWith (version_in (blocks_of image.items))
        (λ found. IsWellFormed (version_in (blocks_of image.items)) (blocks_of image.items) × IsInode (blocks_of image.items) number found)
        (blocks_of image.items) result }
{
    let mut disk = MemoryDisk::new(image);
    let version = find_version(&mut disk)?;
    find_inode(alloc, &mut disk, version, number)
}

/// Writes the fields of an image's superblock. A refused image writes nothing.
pub fn dump_super<W: Write>(alloc: Global, image: Vec<u8>, out: &mut W) -> Result<(), ReportFault>
    ensures prints { OnOk result (Prints (blocks_of image.items) (super_text (sizes_of (blocks_of image.items)))
        (W.contents out.old) (W.contents out.new)) }
    ensures refused { IfErr result (RefusesImage (blocks_of image.items)) }
    ensures silent { IfErr result (IsSilent (W.contents out.old) (W.contents out.new)) }
{
    let layout = layout_in(alloc, image)?;
    write_super(out, &layout.sizes).map_err(ReportFault::Write)
}

/// Writes which blocks an image's log holds. A refused image writes nothing.
pub fn dump_log<W: Write>(alloc: Global, image: Vec<u8>, out: &mut W) -> Result<(), ReportFault>
    ensures prints { OnOk result (Prints (blocks_of image.items) (log_text (logged (blocks_of image.items)))
        (W.contents out.old) (W.contents out.new)) }
    ensures refused { IfErr result (RefusesImage (blocks_of image.items)) }
    ensures silent { IfErr result (IsSilent (W.contents out.old) (W.contents out.new)) }
{
    let layout = layout_in(alloc, image)?;
    write_log(out, layout.head.blocks.as_slice()).map_err(ReportFault::Write)
}

/// Writes the fields of the inode of this number. A refused image or number writes nothing.
pub fn dump_inode<W: Write>(
    alloc: Global,
    image: Vec<u8>,
    number: u32,
    out: &mut W,
) -> Result<(), ReportFault>
    ensures prints { OnOk result (PrintsInode (blocks_of image.items) number (W.contents out.old) (W.contents out.new)) }
    ensures refused { IfErr result (RefusesInode (blocks_of image.items) number) }
    ensures silent { IfErr result (IsSilent (W.contents out.old) (W.contents out.new)) }
{
    let Some(inode) = inode_in(alloc, image, number)? else {
        return Err(ReportFault::NoInode);
    };
    write_inode(out, &inode).map_err(ReportFault::Write)
}

/// Writes the slots of the directory of this number. A refused image or number writes nothing.
pub fn dump_directory<W: Write>(
    alloc: Global,
    image: Vec<u8>,
    number: u32,
    out: &mut W,
) -> Result<(), ReportFault>
    ensures prints { OnOk result (PrintsDirectory (blocks_of image.items) number (W.contents out.old) (W.contents out.new)) }
    ensures refused { IfErr result (RefusesDirectory (blocks_of image.items) number) }
    ensures silent { IfErr result (IsSilent (W.contents out.old) (W.contents out.new)) }
{
    let Opened { tree, .. } = open_image(alloc, image)?;
    match tree.node(number as usize) {
        Some(
            Node {
                kind: NodeKind::Directory { slots },
                ..
            },
        ) => write_slots(out, slots.as_slice()).map_err(ReportFault::Write),
        _ => Err(ReportFault::NoDirectory),
    }
}
