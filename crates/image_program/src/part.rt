//! The parts that can be printed.
use crate::command_line::{NUMBER, PART};
use crate::fault::Fault;
use clap::ArgMatches;
use image_reports::{ReportFault, dump_directory, dump_inode, dump_log, dump_super};
use std::alloc::Global;
use std::io::Write;

/// A part of an image.
#[derive(Clone, Copy, PartialEq, Eq, Debug)]
pub enum Part {
    Superblock,
    Log,
    /// The inode of this number.
    Inode(u32),
    /// The directory of this number.
    Directory(u32),
}

/// The part that the words say.
pub fn part_in<'a>(matches: &ArgMatches<'a>) -> Result<Part, Fault<'a>> {
    let word = matches.get_str(PART).unwrap_or("");
    let number = matches.get_one::<u32>(NUMBER);
    match (word, number) {
        ("superblock", None) => Ok(Part::Superblock),
        ("log", None) => Ok(Part::Log),
        ("inode", Some(number)) => Ok(Part::Inode(number)),
        ("directory", Some(number)) => Ok(Part::Directory(number)),
        _ => Err(Fault::NoPart(word)),
    }
}

/// Writes the fields of the part.
pub fn dump<W: Write>(
    alloc: Global,
    image: Vec<u8>,
    part: Part,
    out: &mut W,
) -> Result<(), ReportFault> {
    match part {
        Part::Superblock => dump_super(alloc, image, out),
        Part::Log => dump_log(alloc, image, out),
        Part::Inode(number) => dump_inode(alloc, image, number, out),
        Part::Directory(number) => dump_directory(alloc, image, number, out),
    }
}
