//! The search in an image in memory.
ghost use Rattle.std.specs.Prelude.{IfOk};
ghost use Rattle.std.specs.Option.{MatchOption};
ghost use Rattle.block_device.specs.Blocks.{blocks_of};
ghost use Rattle.fs_layout.specs.Recovered.{version_in};
ghost use Rattle.damage_places.specs.Vocabulary.{IsWellFormed};
ghost use Rattle.damage_places.specs.Places.{IsFirstPlace};

use crate::finding::find_place;
use crate::place::Place;
use crate::search_fault::SearchFault;
use block_device::MemoryDisk;
use image_tree::find_version;
use std::alloc::Global;

/// The first place of damage of the image that has these bytes, as one of the version that its magic number says; `None` if it is
/// well formed.
pub fn find_place_in(alloc: Global, image: Vec<u8>) -> Result<Option<Place>, SearchFault>
    ensures { IfOk result (λ found. MatchOption found
        (IsWellFormed (version_in (blocks_of image.items)) (blocks_of image.items))
        (IsFirstPlace (version_in (blocks_of image.items)) (blocks_of image.items))) }
{
    let mut disk = MemoryDisk::new(image);
    let version = find_version(&mut disk)?;
    find_place(alloc, &mut disk, version)
}
