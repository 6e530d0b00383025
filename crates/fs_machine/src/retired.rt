//! The end of all that harts share.
ghost use Rattle.std.specs.Prelude.{◌≡◌, ◌<◌};
ghost use Rattle.fs_machine.specs.Vocabulary.{GuardState, BufferState, IsHeld};
ghost use Rattle.fs_machine.specs.declared.entries.Inode.{Inode as InodeState};
ghost use Rattle.fs_machine.specs.Locks.{IsLocked};

use crate::shared::Core;
use block_device::Device;
use group_log::RetiredLog;
use sleep_lock::RetiredSlots;

/// The signs that all that harts share has ended: by them the transactions, guards and references that are out may be ended.
#[derive(Drop)]
pub struct RetiredCore {
    pub log: RetiredLog,
    pub buffers: RetiredSlots,
    pub inodes: RetiredSlots,
}

impl<D: Device> Core<D> {
    /// Ends all that harts share at any moment, without a write, and gives the device.
    pub fn retire(self) -> (RetiredCore, D)
        ensures buffers { (guard : GuardState BufferState) → IsHeld self.log.cache.seats guard → guard.number < result.0.buffers }
        ensures inodes { (guard : GuardState InodeState) → IsLocked guard self.tables → guard.number < result.0.inodes }
        ensures device { result.1 ≡ self.log.cache.device }
    {
        let Core { log, tables } = self;
        let (log, buffers, device) = log.retire();
        let inodes = tables.retire();
        (
            RetiredCore {
                log,
                buffers,
                inodes,
            },
            device,
        )
    }
}
