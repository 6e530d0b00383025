//! Places of damage. What each says of an image is in specs/Places.antt.

use fs_layout::Super;

/// A check of inodes, one after another.
#[derive(Clone, Copy, PartialEq, Eq, Debug)]
pub enum Check {
    /// That its type is one, and its count isn't negative.
    Types,
    /// That it names data blocks.
    Numbers,
    /// That the blocks it names are marked in the bitmap.
    Marks,
    /// That its size is within the limits, and has its blocks.
    Sizes,
    /// That its slots are entries, if it is a live directory.
    Slots,
    /// That it is at its place in the tree, if it is a live directory.
    Tree,
    /// That its count is how often it is named.
    Counts,
}

/// What a superblock's sizes have to keep, in the order in which it is asked.
#[derive(Clone, Copy, PartialEq, Eq, Debug)]
pub enum SuperRule {
    /// At most 8191 blocks.
    Size,
    /// The log is after the superblock.
    LogStart,
    /// The log has at least 11 blocks.
    LogLength,
    /// The log ends before the inodes.
    Log,
    /// At least 2 inodes.
    FewInodes,
    /// At most 65,535 inodes.
    ManyInodes,
    /// The inodes end before the bitmap.
    Inodes,
    /// The bitmap is on the disk.
    Bitmap,
}

/// What is wrong with the log's head.
#[derive(Clone, Copy, PartialEq, Eq, Debug)]
pub enum LogFault {
    /// It names so many blocks, more than the log or its head has room for.
    TooMany {
        count: u32,
    },
    /// The block number at this index is neither of inodes, nor the bitmap's, nor of data.
    Outside {
        index: usize,
        block: u32,
    },
    /// The block is named at two indexes.
    Twice {
        first: usize,
        second: usize,
        block: u32,
    },
}

/// The number at a place of an inode's: 0 to 11 are direct, 12 is that of the indirect block, and those in it follow.
#[derive(Clone, Copy, PartialEq, Eq, Debug)]
pub struct Naming {
    pub inode: u32,
    pub place: usize,
}

/// What is wrong with an inode.
#[derive(Drop, Debug)]
pub enum InodeFault {
    /// The type isn't one, or the count is negative.
    Type {
        kind: i16,
        links: i16,
    },
    /// A number isn't that of a data block.
    Outside {
        place: usize,
        block: u32,
    },
    /// A block that it names is free in the bitmap.
    Unmarked {
        place: usize,
        block: u32,
    },
    /// The size is above the limit.
    TooLarge {
        size: u32,
    },
    /// The size of a live directory isn't one of whole slots, two or more.
    PartSlots {
        size: u32,
    },
    /// Block `block` of its content isn't there.
    Hole {
        block: usize,
        size: u32,
    },
    /// Slot 0 isn't "." with its own number.
    NoDot,
    /// Slot 1 isn't "..".
    NoDotDot,
    /// The bytes of this slot are no entry.
    NoEntry {
        slot: usize,
    },
    /// The number in this slot isn't that of a node.
    NoNode {
        slot: usize,
        number: u16,
    },
    /// The name in a slot is in an earlier one too.
    NameTwice {
        first: usize,
        slot: usize,
        name: Vec<u8>,
    },
    /// The root's ".." is another number.
    RootUp {
        up: u16,
    },
    /// So many slots past the first two name the root.
    RootNamed {
        times: u16,
    },
    /// Other than one slot past the first two names this directory.
    Named {
        times: u16,
    },
    /// The one that names it isn't in its "..".
    Elsewhere {
        up: u16,
    },
    /// Going up from it never reaches the root.
    Astray {
        up: u16,
    },
    /// The count of a file or device isn't how many slots name it.
    Names {
        links: i16,
        names: u16,
    },
    /// The count of a live directory isn't 1 and the number of its children.
    Children {
        links: i16,
        children: u16,
    },
    /// A directory with count 0 is named by so many slots past the first two.
    DeadNamed {
        times: u16,
    },
}

/// The place of an image's damage.
#[derive(Drop, Debug)]
pub enum Place {
    /// The device has too few blocks.
    Short {
        blocks: u32,
        needed: u32,
    },
    /// The superblock begins with another number than its version's.
    Magic {
        found: u32,
    },
    /// The superblock's sizes break a rule.
    Sizes {
        rule: SuperRule,
        sizes: Super,
    },
    /// The log's head.
    Log {
        fault: LogFault,
    },
    /// Inode 1 is no live directory.
    Root {
        kind: i16,
        links: i16,
    },
    /// A block that is named twice.
    Shared {
        block: u32,
        first: Naming,
        second: Naming,
    },
    /// A block up to the bitmap is free in the bitmap.
    Front {
        block: u32,
    },
    /// An inode.
    Inode {
        check: Check,
        inode: u32,
        fault: InodeFault,
    },
}
