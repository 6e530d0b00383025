//! How a mount makes the harts over a device.
ghost use Rattle.std.specs.Prelude.{◌≡◌, IfOk, IfErr};
ghost use Rattle.hart_core.specs.Vocabulary.{HasBytes, HasWholeBlocks, ComesByCalls, sizes_of, buffer_count, unused_from, IsPlaced, IsWellFormed, faults_with};
ghost use Rattle.fs_machine.specs.Fresh.{fresh};
ghost use Rattle.hart_core.specs.Harts.{AreIdle};
ghost use Rattle.hart_core.specs.Mounting.{IsSettled, HandsBack, Rests};

use crate::calls::Calls;
use crate::harts::Harts;
use block_device::Device;
use buffer_cache::{Buffers, Cache};
use calls_on_blocks::logs_may_begin;
use fs_layout::Super;
use fs_machine::{Core, Tables};
use group_log::Log;
use image_tree::{MountFault, examine_layout, find_version, settle};
use std::alloc::Global;

/// All memory that a file system takes, and the sizes of its disk.
struct Ready {
    sizes: Super,
    buffers: Buffers,
    tables: Tables,
    calls: Calls,
}

// Examines the image as one of the version that it says, takes the memory, recovers the disk, and frees the nodes
// without a name.
#[tactic(auto, using(block_device::specs::CallLaws::by_calls))]
fn prepare<D: Device>(alloc: Global, device: &mut D) -> Result<Ready, MountFault>
    ensures ready { IfOk result
        (λ r. (r.sizes ≡ sizes_of (D.contents device.old)) × (r.buffers ≡ unused_from 0 buffer_count) × (r.tables ≡ fresh)
        × AreIdle r.calls) }
    ensures ok { IfOk result (λ _. IsWellFormed (D.contents device.old) × IsSettled (D.contents device.old) (D.contents device.new)) }
    ensures placed { IfOk result (λ r. IsPlaced (D.contents device.new) r.sizes) }
    ensures blocks { IfOk result (λ _. HasWholeBlocks (D.contents device.new) × HasBytes (D.contents device.new)) }
    ensures faults { D.failures device.new ≡ faults_with result (D.failures device.old) }
    ensures calls { ComesByCalls D.Called device.old device.new }
    ensures err { IfErr result (λ fault. HandsBack D.contents D.failures device.old device.new fault) }
{
    let version = find_version(device)?;
    let layout = examine_layout(alloc, device, version)?;
    let buffers = Buffers::new(alloc)?;
    let tables = Tables::new(alloc)?;
    let calls = Calls::idle(alloc)?;
    match settle(device, version, layout.sizes) {
        Ok(()) => {}
        Err(fault) => {
            calls.end();
            return Err(MountFault::from(fault));
        }
    }
    // It ensures that each block has its bytes, which is needed below.
    let _count = device.blocks();
    logs_may_begin();
    Ok(Ready {
        sizes: layout.sizes,
        buffers,
        tables,
        calls,
    })
}

/// Eight harts at rest over the settled disk, and its sizes; or the device, with the image's first damage, its own failure, or want
/// of memory. Nothing was written then, unless the device failed in the recovery or after it.
pub(crate) fn mount_harts<D: Device>(
    alloc: Global,
    device: D,
) -> Result<(Harts<D>, Super), (D, MountFault)>
    ensures ok { IfOk result (λ r. IsWellFormed (D.contents device) × Rests D.contents D.failures device r.0
        × (r.1 ≡ sizes_of (D.contents device))) }
    ensures err { IfErr result (λ e. HandsBack D.contents D.failures device e.0 e.1) }
    ensures calls { IfOk result (λ r. ComesByCalls D.Called device r.0.core.log.cache.device) }
    ensures back { IfErr result (λ e. ComesByCalls D.Called device e.0) }
{
    let mut device = device;
    match prepare(alloc, &mut device) {
        Ok(ready) => {
            let Ready {
                sizes,
                buffers,
                tables,
                calls,
            } = ready;
            let log = Log::new(Cache::new(buffers, device), sizes);
            Ok((Harts::new(Core { log, tables }, calls), sizes))
        }
        Err(fault) => Err((device, fault)),
    }
}
