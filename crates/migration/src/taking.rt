//! Taking from the old image what the new one needs.
ghost use Rattle.std.specs.Prelude.{◌≡◌, ◌↔◌, IsTrue, MatchResult};
ghost use Rattle.migration.specs.Vocabulary.{ComesByCalls, OnlyReads};
ghost use Rattle.migration.specs.Migrated.{IsTaken};
ghost use Rattle.migration.specs.Refusals.{IsFirstRefusal, IsFirstRefusalOfAny, IsLater, faults_with, least_size};

use crate::directories::has_good_directories;
use crate::nodes::load_new_nodes;
use crate::refused::MigrateRefused;
use crate::sizes::{has_good_sizes, used_blocks};
use crate::taken::Taken;
use block_device::Device;
use image_tree::examine_layout;
use image_versions::Version;
use mkfs::data_start;
use std::alloc::Global;

// Whether the second version is above the first.
fn is_later(from: Version, version: Version) -> bool
    ensures { IsTrue result ↔ IsLater from version }
{
    from.number() < version.number()
}

/// Takes from an image of version `from` what one of this version and `size` blocks needs; a refusal if none can be
/// made.
pub(crate) fn take<D: Device>(
    alloc: Global,
    old: &mut D,
    from: Version,
    version: Version,
    size: u32,
) -> Result<Taken, MigrateRefused>
    ensures taken { MatchResult result
        (IsTaken from version size (D.contents old.old))
        (IsFirstRefusal from version size (D.contents old.old)) }
    ensures device { OnlyReads D.contents D.failures (faults_with result) old.old old.new }
    ensures calls { ComesByCalls D.Called old.old old.new }
{
    let layout = examine_layout(alloc, old, from)?;
    let ninodes = layout.sizes.ninodes;
    if !is_later(from, version) {
        return Err(MigrateRefused::AlreadyNew);
    }
    let fits = has_good_sizes(old, &layout, version, size)?;
    if !fits {
        return Err(MigrateRefused::BadSizes);
    }
    let good = has_good_directories(old, &layout, version)?;
    if !good {
        return Err(MigrateRefused::DirectoryTooBig);
    }
    let nodes = load_new_nodes(alloc, old, &layout, version)?;
    if used_blocks(data_start(ninodes), nodes.as_slice()) > size as usize {
        return Err(MigrateRefused::NoBlocks);
    }
    Ok(Taken { ninodes, nodes })
}

/// How many blocks an image of this version needs, for the tree of an image of version `from`.
pub(crate) fn count_blocks<D: Device>(
    alloc: Global,
    old: &mut D,
    from: Version,
    version: Version,
) -> Result<usize, MigrateRefused>
    ensures least { MatchResult result
        (λ least. least ≡ least_size from version (D.contents old.old))
        (IsFirstRefusalOfAny from version (D.contents old.old)) }
    ensures device { OnlyReads D.contents D.failures (faults_with result) old.old old.new }
    ensures calls { ComesByCalls D.Called old.old old.new }
{
    let layout = examine_layout(alloc, old, from)?;
    if !is_later(from, version) {
        return Err(MigrateRefused::AlreadyNew);
    }
    let good = has_good_directories(old, &layout, version)?;
    if !good {
        return Err(MigrateRefused::DirectoryTooBig);
    }
    let nodes = load_new_nodes(alloc, old, &layout, version)?;
    Ok(used_blocks(data_start(layout.sizes.ninodes), nodes.as_slice()))
}
