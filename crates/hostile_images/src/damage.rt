//! Images that are damaged at random, from a seed.
use layer_tests::by_hand::{Change, RICH, put, with};
use std::alloc::{AllocError, Global};

const BLOCK_LEN: usize = 1024;

// The number of blocks of each image.
const BLOCKS: usize = 64;

// The places that the checks look at most, and how many bytes each has. They are the superblock, the log's head,
// inodes, the bitmap and a directory at home and in the log, the root and the indirect block.
const LOOKED_AT: [(usize, usize); 10] = [
    (1024, 32),
    (2048, 20),
    (3136, 320),
    (4096, 8),
    (5120, 48),
    (32_832, 320),
    (33_792, 8),
    (34_816, 80),
    (35_840, 48),
    (49_152, 8),
];

// Numbers at which a check turns.
const CORNERS: [u32; 20] = [
    0,
    1,
    2,
    3,
    4,
    5,
    15,
    16,
    32,
    33,
    34,
    48,
    63,
    64,
    255,
    1024,
    0x7fff,
    0x8000,
    274_433,
    u32::MAX,
];

// One image in this number is cut short.
const CUTS: usize = 64;

/// Numbers that look as if drawn.
#[derive(Drop)]
pub struct Draw {
    last: u64,
}

impl Draw {
    pub fn new(seed: u64) -> Draw {
        let mut draw = Draw {
            last: seed.wrapping_mul(0x9e37_79b9_7f4a_7c15) | 1,
        };
        for _ in 0..4 {
            draw.below(1);
        }
        draw
    }

    // A number below this one, which isn't 0.
    fn below(&mut self, most: usize) -> usize {
        let last = self.last ^ (self.last << 13);
        let last = last ^ (last >> 7);
        self.last = last ^ (last << 17);
        ((self.last >> 11) as usize).checked_rem(most).unwrap_or(0)
    }

    // A place, mostly one that is looked at.
    fn place(&mut self) -> usize {
        if self.below(4) == 0 {
            return self.below(BLOCKS * BLOCK_LEN);
        }
        let (from, len) = LOOKED_AT[self.below(10) % LOOKED_AT.len()];
        from.saturating_add(self.below(len))
    }

    fn corner(&mut self) -> u32 {
        CORNERS[self.below(20) % CORNERS.len()]
    }
}

fn set(image: &mut Vec<u8>, at: usize, byte: u8) {
    if let Some(place) = image.get_mut(at) {
        *place = byte;
    }
}

fn copy(image: &mut Vec<u8>, from: usize, to: usize) {
    for k in 0..BLOCK_LEN {
        let byte = image.get(from.saturating_add(k)).copied().unwrap_or(0);
        set(image, to.saturating_add(k), byte);
    }
}

fn swap(image: &mut Vec<u8>, one: usize, other: usize) {
    for k in 0..BLOCK_LEN {
        let (at, place) = (one.saturating_add(k), other.saturating_add(k));
        if at < image.len() && place < image.len() {
            image.swap(at, place);
        }
    }
}

fn set_word(image: &mut Vec<u8>, at: usize, word: u32, len: usize) {
    for (k, byte) in word.to_le_bytes().iter().enumerate() {
        if k < len {
            set(image, at.saturating_add(k), *byte);
        }
    }
}

// The places of the root's slots, and of those of the other directory at home and in the log.
const SLOTS: [usize; 3] = [34_816, 35_840, 5120];

// A byte, two or four of them, the number in a slot, or two blocks.
fn hurt(image: &mut Vec<u8>, draw: &mut Draw) {
    let place = draw.place();
    match draw.below(9) {
        0 => set(image, place, (draw.below(256) % 256) as u8),
        1 => {
            let byte = image.get(place).copied().unwrap_or(0);
            set(image, place, byte ^ 1 << (draw.below(8) % 8));
        }
        2 => set_word(image, place & !1, draw.corner(), 2),
        3 => {
            let other = draw.place() & !1;
            let low = image.get(other).copied().unwrap_or(0);
            let high = image.get(other.saturating_add(1)).copied().unwrap_or(0);
            set(image, place & !1, low);
            set(image, place | 1, high);
        }
        4 | 5 => set_word(image, place & !3, draw.corner(), 4),
        6 => {
            let other = draw.place();
            swap(image, place & !(BLOCK_LEN - 1), other & !(BLOCK_LEN - 1));
        }
        7 => {
            let slot = SLOTS[draw.below(3) % SLOTS.len()];
            let slot = slot.saturating_add(16 * (draw.below(5) % 5));
            set_word(image, slot, (draw.below(7) % 7) as u32, 2);
        }
        _ => {
            let other = draw.place();
            copy(image, place & !(BLOCK_LEN - 1), other & !(BLOCK_LEN - 1));
        }
    }
}

// The places of blocks of these images: the log's head, the inodes, the bitmap, and a directory.
const HEAD: usize = 2 * BLOCK_LEN;

const INODES: usize = 32 * BLOCK_LEN;

const BITMAP: usize = 33 * BLOCK_LEN;

const DIRECTORY: usize = 35 * BLOCK_LEN;

// A block that nothing names, of zeros.
const UNUSED: usize = 60 * BLOCK_LEN;

// A log that names the inodes, the bitmap and a directory.
const LOGGED: [Change; 1] = [(HEAD, b"\x03\0\0\0\x20\0\0\0\x21\0\0\0\x23\0\0\0")];

// With all blocks at home, and an empty log.
fn at_home(image: &mut Vec<u8>) {
    copy(image, 3 * BLOCK_LEN, INODES);
    set_word(image, HEAD, 0, 4);
}

// With three blocks in the log, of which those at home are older.
fn in_log(image: &mut Vec<u8>) {
    at_home(image);
    for (logged, home) in [
        (3 * BLOCK_LEN, INODES),
        (4 * BLOCK_LEN, BITMAP),
        (5 * BLOCK_LEN, DIRECTORY),
    ] {
        copy(image, home, logged);
        copy(image, UNUSED, home);
    }
    for (at, bytes) in LOGGED {
        put(image, at, bytes);
    }
}

/// The images that are damaged. They have the same tree, with an orphan. In one a log hides the inodes, in one it is
/// empty, and in one it hides three blocks.
pub fn whole(alloc: Global) -> Result<[Vec<u8>; 3], AllocError> {
    let first = with(alloc, BLOCKS, &RICH)?;
    let mut second = first.clone()?;
    at_home(&mut second);
    let mut third = first.clone()?;
    in_log(&mut third);
    Ok([first, second, third])
}

/// One of these images with some damage, as a seed has it.
pub fn damaged(whole: &[Vec<u8>; 3], seed: u64) -> Result<Vec<u8>, AllocError> {
    let mut draw = Draw::new(seed);
    let mut image = whole[draw.below(3) % 3].clone()?;
    for _ in 0..=draw.below(3) {
        hurt(&mut image, &mut draw);
    }
    if draw.below(CUTS) == 0 {
        image.truncate(draw.below(BLOCKS * BLOCK_LEN));
    }
    Ok(image)
}
