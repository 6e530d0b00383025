//! What is recorded of a file that is opened.
ghost use Rattle.std.specs.Prelude.{◌≡◌, ℕ};
ghost use Rattle.inode_parts.specs.Vocabulary.{has, file_for, kind_of, new_file as told_of, type_of};

use fs_machine::NewFile;
use path_walk::InodeType;

/// The numbers of an inode's type.
pub(crate) const DIRECTORY: i16 = 1;

pub(crate) const FILE: i16 = 2;

const DEVICE: i16 = 3;

/// Flags of open.
const WRITE_ONLY: u32 = 1;

const READ_WRITE: u32 = 2;

fn has_flag(flags: u32, bit: u32) -> bool
    ensures { result ≡ has flags bit }
{
    flags & bit != 0
}

/// The number of an inode's type.
pub(crate) fn kind(inode_type: InodeType) -> i16
    ensures { result ≡ kind_of (type_of inode_type) }
{
    match inode_type {
        InodeType::Directory => DIRECTORY,
        InodeType::File => FILE,
        InodeType::Device(_) => DEVICE,
    }
}

/// An inode of this type, opened with these flags.
pub(crate) fn new_file(flags: u32, inode_type: InodeType) -> NewFile
    ensures { (number : ℕ) → result ≡ told_of (file_for number flags) (type_of inode_type) }
{
    NewFile {
        kind: kind(inode_type),
        readable: !has_flag(flags, WRITE_ONLY),
        writable: has_flag(flags, WRITE_ONLY) || has_flag(flags, READ_WRITE),
    }
}
