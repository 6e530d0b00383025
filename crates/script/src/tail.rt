//! The last of many events.
ghost use Rattle.std.specs.Prelude.{◌≡◌, [], IfOk, OnOk, OnErr};
ghost use Rattle.script.specs.Tails.{TailsHoldTheLast, tail, with_event};

use circular_buffer::{HeapCircularBuffer, Iter};
use std::alloc::{AllocError, Global};
use std::marker::Model;

/// For how many events there is room when the first one is noted.
const FIRST_ROOM: usize = 16;

/// The last n of the events that were noted. It takes memory as it fills: for no more than n, and for no more than
/// twice the events that were noted. A contract sees it as a `Tail`: n, and the events.
#[derive(Drop)]
pub struct Tail<T> {
    most: u32,
    events: HeapCircularBuffer<T>,
}

impl<T> Model for Tail<T> {
    ghost use Rattle.std.specs.Prelude.{◌≤◌, length};
    ghost use Rattle.script.specs.Tails.{TailView, tail};

    ghost Value = { TailView T };

    ghost view = { λ t. tail t.most t.events.items };

    ghost invariant = { λ t. (length t.events.items ≤ t.events.capacity) × (t.events.capacity ≤ t.most) };
}

impl<T: Drop> Tail<T> {
    /// With no event yet, for the last `most`. An error is want of memory.
    pub fn new(alloc: Global, most: u32) -> Result<Tail<T>, AllocError>
        ensures { IfOk result (λ t. t ≡ tail most []) }
    {
        Ok(Tail {
            most,
            events: HeapCircularBuffer::with_capacity(alloc, 0)?,
        })
    }

    /// Notes an event; if there are more than n, the oldest is dropped. An error is want of memory, and then nothing
    /// changes.
    pub fn note(&mut self, event: T) -> Result<(), AllocError>
        ensures noted { OnOk result (self.new ≡ with_event self.old event) }
        ensures same { OnErr result (self.new ≡ self.old) }
    {
        let (most, room) = (self.most as usize, self.events.capacity());
        if self.events.len() == room && room < most {
            self.events
                .resize(most.min(room.saturating_mul(2).max(FIRST_ROOM)))?;
        }
        let _oldest = self.events.push_back(event);
        Ok(())
    }

    /// The events that are held, the oldest first.
    pub fn events(&self) -> Iter<'_, T>
        ensures { result ≡ self.now.events }
    {
        self.events.iter()
    }
}

/// Of all that was noted the last n events are held, in their order. The function does nothing: it carries a law.
pub fn tails_hold_the_last<T>()
    ensures { TailsHoldTheLast T }
{}
