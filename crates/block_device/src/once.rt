//! A disk of which one call fails.
ghost use Rattle.std.specs.Prelude.{◌≡◌, ◌<◌, ◌↔◌, if◌then◌else◌, length, slice_set, Some, OnOk, OnErr, IsErr};
ghost use Rattle.block_device.specs.Blocks.{block_at, blocks_of, faults_after, rest_of};
ghost use Rattle.block_device.specs.Once.{bytes_after, left_after};

use crate::device::{BLOCK_LEN, Device, Fault};
use crate::memory::MemoryDisk;
use std::marker::Model;

/// A disk that passes some calls, fails the next one, and passes all later calls. A disk with one bad sector does so,
/// or one whose cable was pulled for a moment. A contract sees it as a `OneFault`.
#[derive(Drop)]
pub struct Once {
    disk: MemoryDisk,
    left: Option<u64>,
    done: bool,
    faults: u64,
}

impl Model for Once {
    ghost use Rattle.block_device.specs.Once.{OneFault};

    ghost Value = { OneFault };

    ghost view = { λ d. record { bytes = d.disk; left = d.left; done = d.done; faults = d.faults } };
}

impl Once {
    /// A disk that passes `k` calls, and fails the next one. Only reads and writes count. If the call that fails is a
    /// write, it leaves the new block if `done`, else the old one.
    pub fn new(disk: MemoryDisk, k: u64, done: bool) -> Once
        ensures { result ≡ record { bytes = disk; left = Some k; done = done; faults = 0 } }
    {
        Once {
            disk,
            left: Some(k),
            done,
            faults: 0,
        }
    }

    /// The disk, as the calls have left it.
    pub fn into_disk(self) -> MemoryDisk
        ensures { result ≡ self.bytes }
    {
        let Once {
            disk,
            left: _,
            done: _,
            faults: _,
        } = self;
        disk
    }

    // Counts a call, and fails the one that must fail.
    fn pass(&mut self) -> Result<(), Fault>
        ensures fails { IsErr result ↔ (self.old.left ≡ Some 0) }
        ensures after { self.new ≡ record self.old { left = left_after self.old.left; faults = faults_after result self.old.faults } }
    {
        match self.left {
            None => Ok(()),
            Some(0) => {
                self.left = None;
                self.faults = self.faults.saturating_add(1);
                Err(Fault)
            }
            Some(more) => {
                self.left = Some(more - 1);
                Ok(())
            }
        }
    }
}

impl Device for Once {
    ghost contents = { λ d. blocks_of d.bytes };

    ghost failures = { λ d. d.faults };

    // Each call counts, up to the one that fails.
    ghost Called = { λ old new. new.left ≡ left_after old.left };

    ghost use Rattle.block_device.specs.BlockLaws.{blocks_of-whole};

    ghost whole = { λ d. blocks_of-whole d.bytes };

    fn blocks(&self) -> u32 {
        self.disk.blocks()
    }

    fn faults(&self) -> u64 {
        self.faults
    }

    fn read(&mut self, b: u32, to: &mut [u8; BLOCK_LEN]) -> Result<(), Fault>
        requires { b < length (blocks_of self.old.bytes) }
        ensures fails { IsErr result ↔ (self.old.left ≡ Some 0) }
        ensures read { OnOk result (to.new ≡ block_at (blocks_of self.old.bytes) b) }
        ensures unread { OnErr result (to.new ≡ to.old) }
        ensures after { self.new ≡ record self.old { left = left_after self.old.left; faults = faults_after result self.old.faults } }
    {
        self.pass()?;
        self.disk.read(b, to)
    }

    fn write(&mut self, b: u32, from: &[u8; BLOCK_LEN]) -> Result<(), Fault>
        requires { b < length (blocks_of self.old.bytes) }
        ensures fails { IsErr result ↔ (self.old.left ≡ Some 0) }
        ensures after { self.new ≡ record {
          bytes = bytes_after result self.old b from.now;
          left = left_after self.old.left;
          done = self.old.done;
          faults = faults_after result self.old.faults;
        } }
        ensures written { OnOk result (blocks_of self.new.bytes ≡ slice_set (blocks_of self.old.bytes) b from.now) }
        ensures failed { OnErr result
            (blocks_of self.new.bytes
            ≡ (if self.old.done then slice_set (blocks_of self.old.bytes) b from.now else blocks_of self.old.bytes)) }
        ensures rest { rest_of self.new.bytes ≡ rest_of self.old.bytes }
    {
        match self.pass() {
            Ok(()) => self.disk.write(b, from),
            Err(fault) => {
                if self.done {
                    self.disk.write(b, from)?;
                }
                Err(fault)
            }
        }
    }
}
