//! The versions.
ghost use Rattle.std.specs.Prelude.{◌≡◌};
ghost use Rattle.image_versions.specs.Versions.{dirent_len_of, dirents_per_block_of, magic_of, most_slots_of, name_len_of, new_directory_size_of, number_of, version_of_magic, version_of_number};

use crate::{one, two};

/// A version of images.
#[derive(Clone, Copy, PartialEq, Eq, Debug)]
pub enum Version {
    One,
    Two,
}

impl Version {
    /// The version whose number this is, counted from 1.
    pub fn of_number(number: u32) -> Option<Version>
        ensures { result ≡ version_of_number number }
    {
        match number {
            1 => Some(Version::One),
            2 => Some(Version::Two),
            _ => None,
        }
    }

    /// Its number, counted from 1.
    pub fn number(self) -> u32
        ensures { result ≡ number_of self }
    {
        match self {
            Version::One => 1,
            Version::Two => 2,
        }
    }

    /// The version whose superblock begins with this number.
    pub fn of_magic(magic: u32) -> Option<Version>
        ensures { result ≡ version_of_magic magic }
    {
        match magic {
            one::MAGIC => Some(Version::One),
            two::MAGIC => Some(Version::Two),
            _ => None,
        }
    }

    /// The number that its superblock begins with.
    pub fn magic(self) -> u32
        ensures { result ≡ magic_of self }
    {
        match self {
            Version::One => one::MAGIC,
            Version::Two => two::MAGIC,
        }
    }

    /// The bytes of a name at most, and of the field that holds one. A longer element of a path is cut to this
    /// length.
    pub fn name_len(self) -> usize
        ensures { result ≡ name_len_of self }
    {
        match self {
            Version::One => one::NAME_LEN,
            Version::Two => two::NAME_LEN,
        }
    }

    /// The bytes of a directory's entry: the inode's number, and the name's field.
    pub fn dirent_len(self) -> usize
        ensures { result ≡ dirent_len_of self }
    {
        match self {
            Version::One => one::DIRENT_LEN,
            Version::Two => two::DIRENT_LEN,
        }
    }

    /// How many entries a block has.
    pub fn dirents_per_block(self) -> usize
        ensures { result ≡ dirents_per_block_of self }
    {
        match self {
            Version::One => one::DIRENTS_PER_BLOCK,
            Version::Two => two::DIRENTS_PER_BLOCK,
        }
    }

    /// The most entries of a directory.
    pub fn most_slots(self) -> usize
        ensures { result ≡ most_slots_of self }
    {
        match self {
            Version::One => one::MOST_SLOTS,
            Version::Two => two::MOST_SLOTS,
        }
    }

    /// The size of a new directory, in bytes: its two entries.
    pub fn new_directory_size(self) -> usize
        ensures { result ≡ new_directory_size_of self }
    {
        2 * self.dirent_len()
    }
}
