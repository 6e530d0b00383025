//! A run in memory.
ghost use Rattle.std.specs.Prelude.{◌≡◌, IfOk, MatchResult};
ghost use Rattle.explain.specs.Vocabulary.{blocks_of, fault_count_of, tree_in, version_in};
ghost use Rattle.explain.specs.Explained.{IsRefusedMount, StartsOn, refused_by};
ghost use Rattle.explain.specs.Played.{IsPlayed};

use crate::keep::{Keeper, Telling};
use crate::refused::ExplainRefused;
use block_device::MemoryDisk;
use hart_core::{Came, Event, Run, World, run_noted};
use image_tree::{MountFault, find_version, tree_of};
use image_versions::Version;
use plain_tree::Tree;
use std::alloc::{AllocError, Global};

/// The outcomes of events on an image, and what was kept beside them.
#[derive(Drop)]
pub(crate) struct Played {
    pub(crate) outcomes: Vec<Came>,
    pub(crate) keeper: Keeper,
}

// A disk in memory with these bytes.
fn disk(alloc: Global, image: &[u8]) -> Result<MemoryDisk, AllocError>
    ensures { IfOk result (λ d. d ≡ image.now) }
{
    Ok(MemoryDisk::new(Vec::from_slice(alloc, image)?))
}

// The refusal for an image that wasn't taken. A disk in memory never fails.
fn refusal(fault: MountFault) -> ExplainRefused
    requires { 0 ≡ fault_count_of fault 0 }
    ensures { result ≡ refused_by fault }
{
    match fault {
        MountFault::Damaged(damage) => ExplainRefused::Damaged(damage),
        MountFault::DeviceFault => unreachable!(),
        MountFault::NoMemory => ExplainRefused::NoMemory,
    }
}

// The image's version, and its tree.
fn base_of(alloc: Global, image: &[u8]) -> Result<(Version, Tree), ExplainRefused>
    ensures { MatchResult result
        (λ found. (found.0 ≡ version_in (blocks_of image.now)) × (found.1 ≡ tree_in (blocks_of image.now)))
        (λ e. IsRefusedMount image.now e) }
{
    let Ok(disk) = disk(alloc, image) else {
        return Err(ExplainRefused::NoMemory);
    };
    let mut disk = disk;
    let Ok(version) = find_version(&mut disk) else {
        unreachable!();
    };
    match tree_of(alloc, &mut disk, version) {
        Ok(base) => Ok((version, base)),
        Err(fault) => Err(refusal(fault)),
    }
}

// A world mounted on a copy of the image.
fn mounted(alloc: Global, image: &[u8]) -> Result<World<MemoryDisk>, ExplainRefused>
    ensures { MatchResult result (λ w. StartsOn image.now w) (λ e. IsRefusedMount image.now e) }
{
    let Ok(disk) = disk(alloc, image) else {
        return Err(ExplainRefused::NoMemory);
    };
    match World::mount(alloc, disk) {
        Ok(world) => Ok(world),
        Err((_disk, fault)) => Err(refusal(fault)),
    }
}

/// Mounts a copy of the image in memory and runs these events.
pub(crate) fn play(alloc: Global, image: &[u8], events: &[Event]) -> Result<Played, ExplainRefused>
    ensures { MatchResult result (λ p. IsPlayed image.now events.now p) (λ e. IsRefusedMount image.now e) }
{
    let (version, base) = base_of(alloc, image)?;
    let Ok(keeper) = Keeper::new(alloc, version, &base) else {
        return Err(ExplainRefused::NoMemory);
    };
    let mut telling = Telling {
        keeper,
        events,
        place: 0,
    };
    let world = mounted(alloc, image)?;
    match run_noted(alloc, world, events, &mut telling) {
        Ok(run) => {
            let Run {
                world,
                outcomes,
                cut: _,
                doubt: _,
            } = run;
            let mut keeper = telling.keeper;
            keeper.ends(world.lacks_place());
            let _disk = world.unmount();
            Ok(Played { outcomes, keeper })
        }
        Err((world, _)) => {
            let _disk = world.unmount();
            Err(ExplainRefused::NoMemory)
        }
    }
}
