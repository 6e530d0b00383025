//! What the cache keeps of a buffer, and the list of these in order of giving back.
ghost use Rattle.std.specs.Prelude.{◌≡◌, IfSome};
ghost use Rattle.buffer_cache.specs.Seats.{has_block, is_free, is_held_by, is_pinned, unused, with_holder, without_holder, with_content, with_pin, as_new};

use block_device::BLOCK_LEN;
use std::marker::Model;
use std::snapshot::Snapshot;

/// What the cache keeps of a buffer. The bytes are those of the last fill or record, as clauses see them. They take
/// no memory, because the buffer in the slot has them; while it is out, no code reads them.
#[derive(Drop)]
pub(crate) struct BufferSeat {
    number: u32,
    // It means nothing before the first use. A search for a block reads one number of most seats.
    block: u32,
    used: bool,
    valid: bool,
    pinned: bool,
    holder: Option<u8>,
    bytes: Snapshot<[u8; BLOCK_LEN]>,
}

impl Model for BufferSeat {
    ghost use Rattle.buffer_cache.specs.Seats.{SeatState};
    ghost use Rattle.buffer_cache.specs.Buffers.{block_of, content_of};

    ghost Value = { SeatState };

    ghost view = { λ s. record {
      number = s.number;
      block = block_of s.used s.block;
      content = content_of s.valid s.bytes.value;
      pinned = s.pinned;
      holder = s.holder;
    } };
}

impl BufferSeat {
    pub fn new(number: u32) -> BufferSeat
        ensures { result ≡ unused number }
    {
        BufferSeat {
            number,
            block: 0,
            used: false,
            valid: false,
            pinned: false,
            holder: None,
            bytes: Snapshot::of(&[0; BLOCK_LEN]),
        }
    }

    pub fn number(&self) -> u32
        ensures { result ≡ self.now.number }
    {
        self.number
    }

    // The block, once it is used.
    pub fn block(&self) -> u32
        ensures { IfSome self.now.block (λ b. result ≡ b) }
    {
        self.block
    }

    pub fn has_block(&self, b: u32) -> bool
        ensures { result ≡ has_block b self.now }
    {
        if self.block != b {
            return false;
        }
        self.used
    }

    pub fn is_free(&self) -> bool
        ensures { result ≡ is_free self.now }
    {
        !self.pinned && self.holder.is_none()
    }

    pub fn is_held_by(&self, hart: u8) -> bool
        ensures { result ≡ is_held_by hart self.now }
    {
        self.holder == Some(hart)
    }

    pub fn is_pinned(&self) -> bool
        ensures { result ≡ is_pinned self.now }
    {
        self.pinned
    }

    pub fn lend(&mut self, hart: u8)
        ensures { self.new ≡ with_holder hart self.old }
    {
        self.holder = Some(hart);
    }

    pub fn renew(&mut self, hart: u8, b: u32)
        ensures { self.new ≡ as_new hart b self.old }
    {
        self.block = b;
        self.used = true;
        self.valid = false;
        self.holder = Some(hart);
    }

    pub fn take_back(&mut self)
        ensures { self.new ≡ without_holder self.old }
    {
        self.holder = None;
    }

    pub fn keep(&mut self, bytes: &[u8; BLOCK_LEN])
        ensures { self.new ≡ with_content bytes.now self.old }
    {
        self.bytes = Snapshot::of(bytes);
        self.valid = true;
    }

    pub fn set_pinned(&mut self, pinned: bool)
        ensures { self.new ≡ with_pin pinned self.old }
    {
        self.pinned = pinned;
    }
}
