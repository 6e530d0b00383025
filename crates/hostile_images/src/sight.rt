//! What an image shows, read plainly by docs/FORMATS.md: the superblock, the blocks of the recovered disk, inodes and
//! slots. If there is no byte, a zero is read.
use std::alloc::{AllocError, Global};

const BLOCK_LEN: usize = 1024;

const INODE_LEN: usize = 64;

const SLOT_LEN: usize = 16;

/// The numbers in an inode: these direct ones, and then that of the indirect block.
pub const DIRECT: usize = 12;

// The numbers in an indirect block.
const INDIRECT: usize = 256;

// The numbers that a log's head has room for.
const LOG_HEAD: u32 = 255;

fn byte(bytes: &[u8], at: usize) -> u8 {
    bytes.get(at).copied().unwrap_or(0)
}

fn short(bytes: &[u8], at: usize) -> u16 {
    u16::from_le_bytes([byte(bytes, at), byte(bytes, at.saturating_add(1))])
}

fn long(bytes: &[u8], at: usize) -> u32 {
    u32::from_le_bytes([
        byte(bytes, at),
        byte(bytes, at.saturating_add(1)),
        byte(bytes, at.saturating_add(2)),
        byte(bytes, at.saturating_add(3)),
    ])
}

// The place of item `number` after `from`, if each item has `len` bytes.
fn place(from: usize, number: usize, len: usize) -> usize {
    from.saturating_add(number.saturating_mul(len))
}

/// The superblock.
#[derive(Clone, Copy)]
pub struct Sizes {
    pub magic: u32,
    pub size: u32,
    pub ninodes: u32,
    pub nlog: u32,
    pub logstart: u32,
    pub inodestart: u32,
    pub bmapstart: u32,
}

/// An inode, and the place of its numbers.
#[derive(Clone, Copy)]
pub struct Inode {
    pub kind: u16,
    pub count: u16,
    pub size: u32,
    numbers: usize,
}

impl Inode {
    pub fn is_node(&self) -> bool {
        self.kind != 0
    }

    pub fn is_directory(&self) -> bool {
        self.kind == 1
    }

    pub fn is_live(&self) -> bool {
        self.is_node() && self.count != 0
    }

    pub fn is_live_directory(&self) -> bool {
        self.is_directory() && self.is_live()
    }
}

/// A directory's slot.
#[derive(Clone, Copy)]
pub struct Slot {
    pub number: u32,
    at: usize,
}

/// An image, with the numbers of the blocks that its log lays over it.
#[derive(Drop)]
pub struct Sight<'a> {
    bytes: &'a [u8],
    pub sizes: Sizes,
    logged: Vec<u32>,
}

impl<'a> Sight<'a> {
    /// The image, before anything is known of it.
    pub fn new(alloc: Global, bytes: &'a [u8]) -> Sight<'a> {
        Sight {
            bytes,
            sizes: Sizes {
                magic: long(bytes, 1024),
                size: long(bytes, 1028),
                ninodes: long(bytes, 1036),
                nlog: long(bytes, 1040),
                logstart: long(bytes, 1044),
                inodestart: long(bytes, 1048),
                bmapstart: long(bytes, 1052),
            },
            logged: Vec::new(alloc),
        }
    }

    /// How many blocks the device has.
    pub fn blocks(&self) -> usize {
        self.bytes.len() / BLOCK_LEN
    }

    /// The log's n.
    pub fn log_count(&self) -> u32 {
        long(
            self.bytes,
            place(0, self.sizes.logstart as usize, BLOCK_LEN),
        )
    }

    /// Reads the numbers of the log's head.
    pub fn read_log(&mut self) -> Result<(), AllocError> {
        let head = place(0, self.sizes.logstart as usize, BLOCK_LEN);
        for k in 0..self.log_count().min(LOG_HEAD) as usize {
            let number = long(self.bytes, place(head, k.saturating_add(1), 4));
            self.logged.push(number)?;
        }
        Ok(())
    }

    pub fn logged(&self) -> &[u32] {
        self.logged.as_slice()
    }

    // The place of a block of the recovered disk: its last copy in the log, or the block itself.
    fn start(&self, block: u32) -> usize {
        let copies = place(BLOCK_LEN, self.sizes.logstart as usize, BLOCK_LEN);
        match self.logged.iter().position(|logged| *logged == block) {
            Some(k) => place(copies, k, BLOCK_LEN),
            None => place(0, block as usize, BLOCK_LEN),
        }
    }

    pub fn inode(&self, number: u32) -> Inode {
        let block = self.sizes.inodestart.saturating_add(number / 16);
        let at = place(self.start(block), number as usize % 16, INODE_LEN);
        Inode {
            kind: short(self.bytes, at),
            count: short(self.bytes, at.saturating_add(6)),
            size: long(self.bytes, at.saturating_add(8)),
            numbers: at.saturating_add(12),
        }
    }

    /// Whether it is the number of a data block.
    pub fn is_data(&self, number: u32) -> bool {
        self.sizes.bmapstart < number && number < self.sizes.size
    }

    /// Whether the bitmap shows a block as used.
    pub fn is_marked(&self, block: u32) -> bool {
        let bitmap = self.start(self.sizes.bmapstart);
        let bits = byte(self.bytes, place(bitmap, block as usize / 8, 1));
        bits >> (block % 8) & 1 == 1
    }

    // Adds those of the `count` numbers at a place that aren't 0.
    fn add_numbers(&self, to: &mut Vec<u32>, at: usize, count: usize) -> Result<(), AllocError> {
        for k in 0..count {
            let number = long(self.bytes, place(at, k, 4));
            if number != 0 {
                to.push(number)?;
            }
        }
        Ok(())
    }

    /// The numbers other than 0 that a node names: its own, and those in its indirect block if that one's number is
    /// in range.
    pub fn named_by(&self, inode: &Inode, to: &mut Vec<u32>) -> Result<(), AllocError> {
        self.add_numbers(to, inode.numbers, DIRECT + 1)?;
        let indirect = long(self.bytes, place(inode.numbers, DIRECT, 4));
        if self.is_data(indirect) {
            self.add_numbers(to, self.start(indirect), INDIRECT)?;
        }
        Ok(())
    }

    /// The number of block k of a node's content.
    pub fn number_of_block(&self, inode: &Inode, k: usize) -> u32 {
        if k < DIRECT {
            return long(self.bytes, place(inode.numbers, k, 4));
        }
        match long(self.bytes, place(inode.numbers, DIRECT, 4)) {
            0 => 0,
            indirect => long(self.bytes, place(self.start(indirect), k - DIRECT, 4)),
        }
    }

    /// How many slots a directory has.
    pub fn slots(&self, inode: &Inode) -> usize {
        inode.size as usize / SLOT_LEN
    }

    pub fn slot(&self, inode: &Inode, number: usize) -> Slot {
        let slots = BLOCK_LEN / SLOT_LEN;
        let block = self.number_of_block(inode, number / slots);
        let at = place(self.start(block), number % slots, SLOT_LEN);
        Slot {
            number: u32::from(short(self.bytes, at)),
            at,
        }
    }

    /// The 14 bytes of a slot's name, with the zeros after it.
    pub fn name(&self, slot: &Slot) -> &[u8] {
        let Some(rest) = self.bytes.get(slot.at.saturating_add(2)..) else {
            return &[];
        };
        match rest.split_at_checked(SLOT_LEN - 2) {
            Some((name, _)) => name,
            None => &[],
        }
    }
}
