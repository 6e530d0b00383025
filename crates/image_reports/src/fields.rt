//! The lines of an image's parts.
ghost use Rattle.std.specs.Prelude.{OnOk};
ghost use Rattle.image_reports.specs.Vocabulary.{Appends, flat_map};
ghost use Rattle.image_reports.specs.Parts.{content_text, count_text, field_text, kind_text, links_text, inode_text, log_text, number_text, sizes_text, slot_line, starts_text, super_text};

use crate::shown::write_shown;
use fs_layout::{Dinode, Super};
use plain_tree::Slot;
use std::io;
use std::io::Write;

// The version, and how much there is.
fn write_sizes<W: Write>(out: &mut W, version: u32, sizes: &Super) -> io::Result<()>
    ensures { OnOk result (Appends (W.contents out.old) (W.contents out.new) (sizes_text version sizes.now)) }
{
    let (size, nblocks, ninodes) = (sizes.size, sizes.nblocks, sizes.ninodes);
    writeln!(
        out,
        "version: {version}\nsize in blocks: {size}\nnumber of data blocks: {nblocks}\nnumber of inodes: {ninodes}"
    )
}

// The log's size, and the first block of each part.
fn write_starts<W: Write>(out: &mut W, sizes: &Super) -> io::Result<()>
    ensures { OnOk result (Appends (W.contents out.old) (W.contents out.new) (starts_text sizes.now)) }
{
    let (nlog, logstart, inodestart, bmapstart) = (
        sizes.nlog,
        sizes.logstart,
        sizes.inodestart,
        sizes.bmapstart,
    );
    writeln!(
        out,
        "number of log blocks: {nlog}\nstart of log: {logstart}\nstart of inodes: {inodestart}\nstart of bitmap: {bmapstart}"
    )
}

/// Writes the fields of a superblock, a line each.
pub fn write_super<W: Write>(out: &mut W, sizes: &Super) -> io::Result<()>
    ensures { OnOk result (Appends (W.contents out.old) (W.contents out.new) (super_text sizes.now)) }
{
    write_sizes(out, sizes.version.number(), sizes)?;
    write_starts(out, sizes)
}

fn write_number<W: Write>(out: &mut W, number: u32) -> io::Result<()>
    ensures { OnOk result (Appends (W.contents out.old) (W.contents out.new) (number_text number)) }
{
    write!(out, " {number}")
}

fn write_numbers<W: Write>(out: &mut W, numbers: &[u32]) -> io::Result<()>
    ensures { OnOk result (Appends (W.contents out.old) (W.contents out.new) (flat_map number_text numbers.now)) }
{
    for number in numbers {
        write_number(out, *number)?;
    }
    Ok(())
}

fn write_count<W: Write>(out: &mut W, count: usize) -> io::Result<()>
    ensures { OnOk result (Appends (W.contents out.old) (W.contents out.new) (count_text count)) }
{
    write!(out, "number of logged blocks: {count}\nnumbers:")
}

/// Writes how many blocks a log holds, and the number of each.
pub fn write_log<W: Write>(out: &mut W, blocks: &[u32]) -> io::Result<()>
    ensures { OnOk result (Appends (W.contents out.old) (W.contents out.new) (log_text blocks.now)) }
{
    write_count(out, blocks.len())?;
    write_numbers(out, blocks)?;
    writeln!(out)
}

fn write_signed<W: Write>(out: &mut W, name: &str, value: i16) -> io::Result<()>
    ensures { OnOk result (Appends (W.contents out.old) (W.contents out.new) (field_text name.now value)) }
{
    writeln!(out, "{name}: {value}")
}

fn write_kind<W: Write>(out: &mut W, inode: &Dinode) -> io::Result<()>
    ensures { OnOk result (Appends (W.contents out.old) (W.contents out.new) (kind_text inode.now)) }
{
    write_signed(out, "type", inode.kind)?;
    write_signed(out, "major", inode.major)
}

fn write_links<W: Write>(out: &mut W, inode: &Dinode) -> io::Result<()>
    ensures { OnOk result (Appends (W.contents out.old) (W.contents out.new) (links_text inode.now)) }
{
    write_signed(out, "minor", inode.minor)?;
    write_signed(out, "links", inode.nlink)
}

fn write_content<W: Write>(out: &mut W, inode: &Dinode) -> io::Result<()>
    ensures { OnOk result (Appends (W.contents out.old) (W.contents out.new) (content_text inode.now)) }
{
    let size = inode.size;
    write!(out, "size: {size}\naddresses:")?;
    write_numbers(out, &inode.addrs)?;
    writeln!(out)
}

/// Writes the fields of an inode, a line each.
pub fn write_inode<W: Write>(out: &mut W, inode: &Dinode) -> io::Result<()>
    ensures { OnOk result (Appends (W.contents out.old) (W.contents out.new) (inode_text inode.now)) }
{
    write_kind(out, inode)?;
    write_links(out, inode)?;
    write_content(out, inode)
}

fn write_slot<W: Write>(out: &mut W, slot: &Option<Slot>) -> io::Result<()>
    ensures { OnOk result (Appends (W.contents out.old) (W.contents out.new) (slot_line slot.now)) }
{
    match slot {
        None => writeln!(out, "free"),
        Some(slot) => {
            let number = slot.number;
            write!(out, "{number} ")?;
            write_shown(out, slot.name.as_slice())?;
            writeln!(out)
        }
    }
}

/// Writes a line for each slot: that it is free, or its number and its name.
pub fn write_slots<W: Write>(out: &mut W, slots: &[Option<Slot>]) -> io::Result<()>
    ensures { OnOk result (Appends (W.contents out.old) (W.contents out.new) (flat_map slot_line slots.now)) }
{
    for slot in slots {
        write_slot(out, slot)?;
    }
    Ok(())
}
