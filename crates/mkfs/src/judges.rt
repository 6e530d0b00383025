//! What can be made.
ghost use Rattle.std.specs.Prelude.{◌≢◌, ◌↔◌, length, All, AllPairs, IsTrue, IfOk};
ghost use Rattle.mkfs.specs.Image.{contents_of, names_of};
ghost use Rattle.mkfs.specs.Refusals.{HasGoodFiles, HasGoodNames, HasGoodSizes, IsFileName};

use crate::layout::{data_start, node_blocks, root_size};
use crate::new_file::NewFile;
use crate::widths::MOST_INODES;
use fs_layout::Name;
use image_versions::Version;
use image_versions::widths::{LARGEST_SIZE, MOST_DISK_BLOCKS};
use std::alloc::{AllocError, Global};
use std::collections::BTreeSet;

/// Whether the sizes are within their limits, and the root fits.
pub fn has_good_sizes(version: Version, size: u32, ninodes: u32, files: usize) -> bool
    ensures { IsTrue result ↔ HasGoodSizes version size ninodes files }
{
    if size > MOST_DISK_BLOCKS || ninodes < 2 || ninodes > MOST_INODES || files >= 1 << 24 {
        return false;
    }
    data_start(ninodes) as usize + node_blocks(root_size(version, files)) <= size as usize
}

/// Whether a file may be named so in an image of this version.
pub fn is_file_name(version: Version, name: &[u8]) -> bool
    ensures { IsTrue result ↔ IsFileName version name.now }
{
    name != b".".as_slice() && name != b"..".as_slice() && Name::new(version, name).is_some()
}

// Whether each file may be named so.
fn are_file_names(version: Version, files: &[NewFile]) -> bool
    ensures { IsTrue result ↔ All (IsFileName version) (names_of files.now) }
{
    for file in files {
        let name = file.name.as_slice();
        if !is_file_name(version, name) {
            return false;
        }
    }
    true
}

// Whether no two files have one name.
fn has_no_double(alloc: Global, files: &[NewFile]) -> Result<bool, AllocError>
    ensures { IfOk result (λ once. IsTrue once ↔ AllPairs (λ x y. x ≢ y) (names_of files.now)) }
{
    let mut seen = BTreeSet::new(alloc);
    for file in files {
        let name = file.name.as_slice();
        if !seen.insert(name)? {
            return Ok(false);
        }
    }
    Ok(true)
}

/// Whether files may be named so.
pub fn has_good_names(
    alloc: Global,
    version: Version,
    files: &[NewFile],
) -> Result<bool, AllocError>
    ensures { IfOk result (λ good. IsTrue good ↔ HasGoodNames version (names_of files.now)) }
{
    if !are_file_names(version, files) {
        return Ok(false);
    }
    has_no_double(alloc, files)
}

/// Whether no file is too large, and a directory may name as many.
pub fn has_good_files(version: Version, files: &[NewFile]) -> bool
    ensures { IsTrue result ↔ HasGoodFiles version (contents_of files.now) }
{
    if files.len() > version.most_slots() - 2 {
        return false;
    }
    for file in files {
        let content = file.content.as_slice();
        if content.len() > LARGEST_SIZE {
            return false;
        }
    }
    true
}
