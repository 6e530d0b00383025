//! A buffer, as its holder has it.
ghost use Rattle.std.specs.Prelude.{◌≡◌, ◌↔◌, ◌<◌, length, Some, None, IsSome, IsTrue, IfOk, OnOk, OnErr};
ghost use Rattle.std.specs.Borrow.{sem};
ghost use Rattle.block_device.specs.Blocks.{block_at, faults_after};

use block_device::{BLOCK_LEN, Device, Fault};
use std::alloc::{AllocError, Global};
use std::marker::Model;

/// A place for the bytes of one block (xv6: `struct buf`). A contract sees the bytes only if they are valid: filled
/// from the device, or recorded.
#[derive(Drop)]
pub struct Buffer {
    block: u32,
    valid: bool,
    bytes: Box<[u8; BLOCK_LEN]>,
}

impl Model for Buffer {
    ghost use Rattle.buffer_cache.specs.Buffers.{BufferState, content_of};

    ghost Value = { BufferState };

    ghost view = { λ b. record { block = b.block; content = content_of b.valid b.bytes.value } };
}

impl Buffer {
    ghost use Rattle.buffer_cache.specs.Lending.{LendsBytes};

    pub(crate) fn new(alloc: Global) -> Result<Buffer, AllocError>
        ensures { IfOk result (λ buffer. buffer.content ≡ None) }
    {
        Ok(Buffer {
            block: 0,
            valid: false,
            bytes: Box::new(alloc, [0; BLOCK_LEN])?,
        })
    }

    // Makes it the buffer of this block, and leaves the bytes.
    pub(crate) fn name(&mut self, block: u32)
        ensures { self.new ≡ record self.old { block = block } }
    {
        self.block = block;
    }

    // Makes it the buffer of this block, and not valid.
    pub(crate) fn renew(&mut self, block: u32)
        ensures { self.new ≡ record { block = block; content = None } }
    {
        self.block = block;
        self.valid = false;
    }

    // Reads its block from the device.
    pub(crate) fn read<D: Device>(&mut self, device: &mut D) -> Result<(), Fault>
        requires unread { self.old.content ≡ None }
        requires within { self.old.block < length (D.contents device.old) }
        ensures called { D.Called device.old device.new }
        ensures ok { OnOk result (self.new ≡ record self.old { content = Some (block_at (D.contents device.old) self.old.block) }) }
        ensures err { OnErr result (self.new ≡ self.old) }
        ensures contents { D.contents device.new ≡ D.contents device.old }
        ensures faults { D.failures device.new ≡ faults_after result (D.failures device.old) }
    {
        device.read(self.block, &mut *self.bytes)?;
        self.valid = true;
        Ok(())
    }

    /// The number of the block.
    pub fn block(&self) -> u32
        ensures { result ≡ self.now.block }
    {
        self.block
    }

    /// Whether the bytes are the block's.
    pub fn is_valid(&self) -> bool
        ensures { IsTrue result ↔ IsSome self.now.content }
    {
        self.valid
    }

    /// The bytes.
    pub fn bytes(&self) -> &[u8; BLOCK_LEN]
        requires { IsSome self.now.content }
        ensures { Some result.now ≡ self.now.content }
    {
        &*self.bytes
    }

    /// The bytes, to be changed. A holder that changes them must record them when it gives the buffer back.
    pub fn bytes_mut(&mut self) -> &mut [u8; BLOCK_LEN]
        requires { IsSome self.old.content }
        ensures* writes_back { sem 𝓛 (LendsBytes self.entry result) }
        ensures value { Some result.now ≡ self.old.content }
    {
        &mut *self.bytes
    }
}
