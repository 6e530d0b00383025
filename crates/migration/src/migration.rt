//! Migrating an image.
ghost use Rattle.std.specs.Prelude.{◌≡◌, MatchResult};
ghost use Rattle.migration.specs.Vocabulary.{ComesByCalls, OnlyReads, version_in};
ghost use Rattle.migration.specs.Migrated.{IsMigrated};
ghost use Rattle.migration.specs.Refusals.{IsFirstRefusal, IsFirstRefusalOfAny, faults_with, least_size};

use crate::image::image_bytes;
use crate::refused::MigrateRefused;
use crate::taking::{count_blocks, take};
use block_device::{Device, MemoryDisk};
use image_tree::find_version;
use image_versions::Version;
use std::alloc::Global;

// Migrates an image of version `from`.
fn migrate_from<D: Device>(
    alloc: Global,
    old: &mut D,
    from: Version,
    version: Version,
    size: u32,
) -> Result<MemoryDisk, MigrateRefused>
    ensures made { MatchResult result
        (IsMigrated from version size (D.contents old.old))
        (IsFirstRefusal from version size (D.contents old.old)) }
    ensures device { OnlyReads D.contents D.failures (faults_with result) old.old old.new }
    ensures calls { ComesByCalls D.Called old.old old.new }
{
    let taken = take(alloc, old, from, version, size)?;
    // After this call it is known that the device holds bytes.
    let _count = old.blocks();
    let bytes = image_bytes(alloc, version, size, taken.ninodes, taken.nodes.as_slice())?;
    Ok(MemoryDisk::new(bytes))
}

/// Makes an image of this version and `size` blocks. It has the tree of an older image as recovery would leave that;
/// the older one is only read. Each live node keeps its number, its type, its count and its device numbers. A
/// directory keeps its slots in their places, even free ones, and any other node its bytes. Nodes without a name are
/// left out. A refusal is the first that holds, in the order of `MigrateRefused`.
pub fn migrate<D: Device>(
    alloc: Global,
    old: &mut D,
    version: Version,
    size: u32,
) -> Result<MemoryDisk, MigrateRefused>
    ensures made { MatchResult result
        (IsMigrated (version_in (D.contents old.old)) version size (D.contents old.old))
        (IsFirstRefusal (version_in (D.contents old.old)) version size (D.contents old.old)) }
    ensures device { OnlyReads D.contents D.failures (faults_with result) old.old old.new }
    ensures calls { ComesByCalls D.Called old.old old.new }
{
    let from = find_version(old)?;
    migrate_from(alloc, old, from, version, size)
}

/// How many blocks an image of this version needs, for the tree of an older one as recovery would leave that. The
/// older one is only read. `migrate` finds that the blocks suffice exactly if its size isn't below this. It may be
/// more than an image can have.
pub fn least_size<D: Device>(
    alloc: Global,
    old: &mut D,
    version: Version,
) -> Result<usize, MigrateRefused>
    ensures least { MatchResult result
        (λ least. least ≡ least_size (version_in (D.contents old.old)) version (D.contents old.old))
        (IsFirstRefusalOfAny (version_in (D.contents old.old)) version (D.contents old.old)) }
    ensures device { OnlyReads D.contents D.failures (faults_with result) old.old old.new }
    ensures calls { ComesByCalls D.Called old.old old.new }
{
    let from = find_version(old)?;
    count_blocks(alloc, old, from, version)
}
