//! The widths and limits that do not depend on the version.
use image_versions::widths;

/// Bytes of the largest file.
pub(crate) const LARGEST_SIZE: u64 = widths::LARGEST_SIZE as u64;

/// Bytes of a write's piece.
pub(crate) const PIECE_LEN: usize = 3072;

/// The greatest count of a node.
pub(crate) const COUNT_LIMIT: u16 = 32767;

/// How many harts there are.
pub const HARTS: u8 = 8;

/// Descriptors of a hart.
pub(crate) const DESCRIPTOR_COUNT: usize = 16;

/// Devices whose major is below this open.
pub(crate) const MAJOR_LIMIT: i16 = 10;

/// The number of the root directory.
pub(crate) const ROOT: u16 = 1;

/// The number of the one device.
pub(crate) const ROOT_DEVICE: u32 = 1;

/// Flags of open: write only, read and write, make the file, empty it.
pub(crate) const WRITE_ONLY: u32 = 1;

pub(crate) const READ_WRITE: u32 = 2;

pub(crate) const CREATE: u32 = 512;

pub(crate) const EMPTY_IT: u32 = 1024;

/// The byte between the elements of a path.
pub(crate) const SLASH: u8 = b'/';

/// The names of a directory itself and of its parent.
pub(crate) const DOT: [u8; 1] = [b'.'];

pub(crate) const DOTDOT: [u8; 2] = [b'.', b'.'];
