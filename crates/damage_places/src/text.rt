//! What is printed of a place of damage.
use crate::place::{InodeFault, LogFault, Naming, Place, SuperRule};
use fs_layout::Super;
use image_versions::widths::{DIRECT, LARGEST_SIZE, MOST_DISK_BLOCKS};
use std::fmt;
use std::fmt::{Display, Formatter, Write};

/// Bytes as they are printed: those of no plain character as `\x` and two digits.
#[derive(Drop)]
struct Shown<'a>(&'a [u8]);

impl Display for Shown<'_> {
    fn fmt<W: Write>(&self, f: &mut Formatter<W>) -> fmt::Result {
        for byte in self.0 {
            match byte {
                b'"' | b'\\' => write!(f, "\\{}", char::from(*byte))?,
                b' '..=b'~' => write!(f, "{}", char::from(*byte))?,
                _ => write!(f, "\\x{byte:02x}")?,
            }
        }
        Ok(())
    }
}

/// What the number at a place of an inode's is to it.
#[derive(Drop)]
struct Part(usize);

impl Display for Part {
    fn fmt<W: Write>(&self, f: &mut Formatter<W>) -> fmt::Result {
        match self.0 {
            DIRECT => write!(f, "the indirect block"),
            place if place < DIRECT => write!(f, "block {place}"),
            place => write!(f, "block {}", place.saturating_sub(1)),
        }
    }
}

impl Display for Naming {
    fn fmt<W: Write>(&self, f: &mut Formatter<W>) -> fmt::Result {
        write!(f, "{} of inode {}", Part(self.place), self.inode)
    }
}

/// So many things were found: the words for one, and for another number.
#[derive(Drop)]
struct Found<'a>(u32, &'a str, &'a str);

impl Display for Found<'_> {
    fn fmt<W: Write>(&self, f: &mut Formatter<W>) -> fmt::Result {
        let words = if self.0 == 1 { self.1 } else { self.2 };
        write!(f, "{} {words}", self.0)
    }
}

/// How a superblock's sizes break a rule.
#[derive(Drop)]
struct Broken<'a>(SuperRule, &'a Super);

impl Display for Broken<'_> {
    fn fmt<W: Write>(&self, f: &mut Formatter<W>) -> fmt::Result {
        let s = self.1;
        match self.0 {
            SuperRule::Size => write!(f, "size {} is above {MOST_DISK_BLOCKS}", s.size),
            SuperRule::LogStart => write!(f, "logstart {} is below 2", s.logstart),
            SuperRule::LogLength => write!(f, "nlog {} is below 11", s.nlog),
            SuperRule::Log => write!(
                f,
                "logstart {} + nlog {} is above inodestart {}",
                s.logstart, s.nlog, s.inodestart
            ),
            SuperRule::FewInodes => write!(f, "ninodes {} is below 2", s.ninodes),
            SuperRule::ManyInodes => write!(f, "ninodes {} is above 65535", s.ninodes),
            SuperRule::Inodes => write!(
                f,
                "inodestart {} and the blocks of {} inodes end above bmapstart {}",
                s.inodestart, s.ninodes, s.bmapstart
            ),
            SuperRule::Bitmap => write!(
                f,
                "bmapstart {} + 1 is above size {}",
                s.bmapstart, s.size
            ),
        }
    }
}

impl Display for LogFault {
    fn fmt<W: Write>(&self, f: &mut Formatter<W>) -> fmt::Result {
        match self {
            LogFault::TooMany { count } => {
                write!(f, "log: {count} blocks are more than it has room for")
            }
            LogFault::Outside { index, block } => write!(
                f,
                "log: number {index} is block {block}, which is none of inodes, bitmap and data"
            ),
            LogFault::Twice {
                first,
                second,
                block,
            } => write!(
                f,
                "log: block {block} is number {first} and number {second}"
            ),
        }
    }
}

/// What is wrong with an inode of this number.
#[derive(Drop)]
struct Wrong<'a>(u32, &'a InodeFault);

impl<'a> Wrong<'a> {
    // What its own fields say.
    fn fields<W: Write>(&self, f: &mut Formatter<W>) -> fmt::Result {
        let i = self.0;
        match self.1 {
            InodeFault::Type { kind, links } => {
                write!(f, "inode {i} has type {kind} and {links} links")
            }
            InodeFault::Outside { place, block } => write!(
                f,
                "{} of inode {i} is block {block}, which is none of data",
                Part(*place)
            ),
            InodeFault::Unmarked { place, block } => write!(
                f,
                "block {block} is {} of inode {i}, and free in the bitmap",
                Part(*place)
            ),
            InodeFault::TooLarge { size } => {
                write!(f, "inode {i} has size {size}, above {LARGEST_SIZE}")
            }
            InodeFault::PartSlots { size } => write!(
                f,
                "directory {i} has size {size}, which is not that of two or more whole slots"
            ),
            InodeFault::Hole { block, size } => {
                write!(f, "inode {i} has size {size}, and no block {block}")
            }
            _ => self.slots(f),
        }
    }

    // What its slots say.
    fn slots<W: Write>(&self, f: &mut Formatter<W>) -> fmt::Result {
        let i = self.0;
        match self.1 {
            InodeFault::NoDot => write!(f, "slot 0 of directory {i}: not \".\" with number {i}"),
            InodeFault::NoDotDot => write!(f, "slot 1 of directory {i}: not \"..\""),
            InodeFault::NoEntry { slot } => {
                write!(f, "slot {slot} of directory {i}: its bytes are no entry")
            }
            InodeFault::NoNode { slot, number } => write!(
                f,
                "slot {slot} of directory {i}: inode {number} is free, or there is none"
            ),
            InodeFault::NameTwice { first, slot, name } => write!(
                f,
                "slot {slot} of directory {i}: the name \"{}\" comes twice, first in slot {first}",
                Shown(name.as_slice())
            ),
            _ => self.links(f),
        }
    }

    // What the directories say of it.
    fn links<W: Write>(&self, f: &mut Formatter<W>) -> fmt::Result {
        let i = self.0;
        match self.1 {
            InodeFault::RootUp { up } => {
                write!(
                    f,
                    "slot 1 of directory {i}: the root's \"..\" is inode {up}"
                )
            }
            InodeFault::RootNamed { times } => {
                write!(
                    f,
                    "inode {i} is the root, and {} it",
                    Found(u32::from(*times), "slot names", "slots name")
                )
            }
            InodeFault::Named { times } => {
                write!(
                    f,
                    "directory {i} is named by {}, not by one",
                    Found(u32::from(*times), "slot", "slots")
                )
            }
            InodeFault::Elsewhere { up } => write!(
                f,
                "directory {i} has \"..\" {up}, which is not the directory that names it"
            ),
            InodeFault::Astray { up } => write!(
                f,
                "directory {i} has \"..\" {up}, and going up from it never comes to the root"
            ),
            InodeFault::Names { links, names } => {
                write!(
                    f,
                    "inode {i} has {links} links, {} found",
                    Found(u32::from(*names), "name was", "names were")
                )
            }
            InodeFault::Children { links, children } => write!(
                f,
                "directory {i} has {links} links, {} found",
                Found(
                    u32::from(*children),
                    "directory in it was",
                    "directories in it were"
                )
            ),
            InodeFault::DeadNamed { times } => {
                write!(
                    f,
                    "directory {i} has 0 links, {} found",
                    Found(u32::from(*times), "name was", "names were")
                )
            }
            _ => Ok(()),
        }
    }
}

impl Display for Wrong<'_> {
    fn fmt<W: Write>(&self, f: &mut Formatter<W>) -> fmt::Result {
        self.fields(f)
    }
}

impl Display for Place {
    fn fmt<W: Write>(&self, f: &mut Formatter<W>) -> fmt::Result {
        match self {
            Place::Short { blocks, needed } => {
                write!(
                    f,
                    "the device has {}, {needed} are needed",
                    Found(*blocks, "block", "blocks")
                )
            }
            Place::Magic { found } => write!(
                f,
                "superblock: the magic number is 0x{found:08x}, which is not its version's"
            ),
            Place::Sizes { rule, sizes } => write!(f, "superblock: {}", Broken(*rule, sizes)),
            Place::Log { fault } => write!(f, "{fault}"),
            Place::Root { kind, links } => write!(
                f,
                "inode 1 has type {kind} and {links} links, and is no live directory"
            ),
            Place::Shared {
                block,
                first,
                second,
            } => write!(f, "block {block} is {first} and {second}"),
            Place::Front { block } => {
                write!(
                    f,
                    "block {block} comes before the data, and is free in the bitmap"
                )
            }
            Place::Inode {
                check: _,
                inode,
                fault,
            } => write!(f, "{}", Wrong(*inode, fault)),
        }
    }
}
