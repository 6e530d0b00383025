//! How an image's file is read.
ghost use Rattle.std.specs.Prelude.{◌≤◌, length, IfOk};

use crate::read_at_most;
use block_device::{Device, MemoryDisk};
use fs_layout::read_version;
use image_versions::widths::{BLOCK_LEN, MOST_DISK_BLOCKS};
use std::fs::File;
use std::io::{ErrorKind, Read};
use std::{fs, io};
use thiserror::Error;

/// The most bytes that an image uses: those of as many blocks as there can be.
const LONGEST_IMAGE: u64 = MOST_DISK_BLOCKS as u64 * BLOCK_LEN as u64;

/// The longest file that is taken for an image, in bytes: 4 GiB.
const LONGEST_FILE: u64 = 4_294_967_296;

/// The block of an image that has its magic number.
const SUPER_BLOCK: u32 = 1;

/// How many bytes come before the end of that block.
const FRONT_BYTES: usize = 2 * BLOCK_LEN;

/// Why the file of an image isn't taken.
#[derive(Debug, Drop, Error)]
pub enum ImageRefused {
    /// It has more bytes than this.
    #[error("larger than {0} bytes")]
    TooLarge(u64),
    #[error("{0}")]
    File(io::Error),
    #[error("out of memory")]
    NoMemory,
}

impl From<io::Error> for ImageRefused {
    fn from(error: io::Error) -> ImageRefused {
        if error.kind() == ErrorKind::OutOfMemory {
            return ImageRefused::NoMemory;
        }
        ImageRefused::File(error)
    }
}

/// The file of an image: its bytes, as many as an image can use, and the file, read so far.
#[derive(Drop)]
pub struct ImageFile {
    pub bytes: Vec<u8>,
    pub rest: File,
}

// The file's bytes, as many as an image can use and one more.
fn bytes_of(rt: &HostRuntime, file: &File) -> io::Result<Vec<u8>>
    ensures { IfOk result (λ bytes. length bytes.items ≤ 8387585) }
{
    let mut bytes = Vec::new(rt.alloc());
    let limit = LONGEST_IMAGE + 1;
    file.take(limit).read_to_end(&mut bytes)?;
    bytes.truncate(limit as usize);
    Ok(bytes)
}

/// Reads the file of an image, as far as an image can use it: the bytes after that aren't read into memory. A regular
/// file above 4 GiB is too large. So is anything else that has more than an image uses, as a device without end.
pub fn read_image(rt: &HostRuntime, path: &str) -> Result<ImageFile, ImageRefused>
    ensures { IfOk result (λ image. length image.bytes.items ≤ 8387585) }
{
    let metadata = fs::metadata(rt, path)?;
    if metadata.len() > LONGEST_FILE {
        return Err(ImageRefused::TooLarge(LONGEST_FILE));
    }
    let file = File::open(rt, path)?;
    let bytes = bytes_of(rt, &file)?;
    if bytes.len() as u64 > LONGEST_IMAGE && !metadata.is_file() {
        return Err(ImageRefused::TooLarge(LONGEST_IMAGE));
    }
    Ok(ImageFile { bytes, rest: file })
}

// Whether these bytes begin as an image does: their superblock has the magic number of a version.
fn begin_image(bytes: Vec<u8>) -> bool {
    let mut disk = MemoryDisk::new(bytes);
    if disk.blocks() <= SUPER_BLOCK {
        return false;
    }
    let mut block = [0; BLOCK_LEN];
    disk.read(SUPER_BLOCK, &mut block).is_ok() && read_version(&block).is_some()
}

/// Whether a regular file of this name is there that isn't empty, and is no image, not even a damaged one. A file
/// that can't be read counts as one.
pub fn is_other_file(rt: &HostRuntime, path: &str) -> bool {
    match fs::metadata(rt, path) {
        Ok(metadata) if metadata.is_file() && metadata.len() > 0 => {}
        _ => return false,
    }
    match read_at_most(rt, path, FRONT_BYTES) {
        Ok(bytes) => !begin_image(bytes),
        Err(_) => true,
    }
}
