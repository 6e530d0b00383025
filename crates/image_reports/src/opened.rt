//! The tree of an image in memory.
ghost use Rattle.std.specs.Prelude.{◌≡◌};
ghost use Rattle.image_reports.specs.Vocabulary.{JudgesWith, blocks_of, version_in};
ghost use Rattle.image_reports.specs.Faults.{IsOpened};

use block_device::MemoryDisk;
use image_tree::{MountFault, find_version, tree_of};
use image_versions::Version;
use plain_tree::Tree;
use std::alloc::Global;

/// The version of a well-formed image, and the tree that recovery would leave it.
#[derive(Drop)]
pub struct Opened {
    pub version: Version,
    pub tree: Tree,
}

/// Examines the image that has these bytes, as one of the version that its magic number says.
pub fn open_image(alloc: Global, image: Vec<u8>) -> Result<Opened, MountFault>
    ensures { JudgesWith (version_in (blocks_of image.items)) (IsOpened (blocks_of image.items)) (blocks_of image.items) result }
{
    let mut disk = MemoryDisk::new(image);
    let version = find_version(&mut disk)?;
    let tree = tree_of(alloc, &mut disk, version)?;
    Ok(Opened { version, tree })
}
