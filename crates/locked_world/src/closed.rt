//! What a locked world leaves.
ghost use Rattle.std.specs.Prelude.{◌≡◌, ◌≢◌, IfOk, IfNone, IfSome, map, slice_get};
ghost use Rattle.locked_world.specs.Kept.{replies_of, HasOneHistory, LeavesDisk};

use crate::lent::Iter;
use crate::story::Story;
use block_device::MemoryDisk;
use hart_core::{Came, Event};
use plain_tree::Reply;
use std::alloc::{AllocError, Global};
use std::marker::{Model, PhantomData};
use std::sync::ledger::Ledger;

/// The list of a locked world that has ended, and the disk that it left. Only `Locked::end` makes one. A contract sees the image, the fuse,
/// the events and their outcomes, and that disk's bytes.
#[derive(Drop)]
pub struct Closed<L: Ledger> {
    image: Vec<u8>,
    fuse: u64,
    story: Story,
    disk: MemoryDisk,
    of: PhantomData<L>,
}

impl<L: Ledger> Model for Closed<L> {
    ghost use Rattle.locked_world.specs.Kept.{ClosedRun, LeavesDisk as HasLeft};

    ghost Value = { ClosedRun };

    ghost view = { λ s. record {
      stored = record { image = s.image.items; fuse = s.fuse; events = s.story.events; outcomes = s.story.outcomes };
      disk = s.disk;
    } };

    ghost invariant = { λ s. HasLeft
        (record {
          image = s.image.items;
          fuse = s.fuse;
          events = s.story.events;
          outcomes = s.story.outcomes;
        }) s.disk };
}

impl<L: Ledger> Closed<L> {
    // The run of these events on this image, with the disk that it left.
    pub(crate) fn new(image: Vec<u8>, fuse: u64, story: Story, disk: MemoryDisk) -> Closed<L>
        requires { LeavesDisk (record { image = image.items; fuse = fuse; events = story.events; outcomes = story.outcomes }) disk }
        ensures stored { result.stored ≡ record { image = image.items; fuse = fuse; events = story.events; outcomes = story.outcomes } }
        ensures disk { result.disk ≡ disk }
    {
        Closed {
            image,
            fuse,
            story,
            disk,
            of: PhantomData,
        }
    }

    pub fn image(&self) -> &[u8]
        ensures { result.now ≡ self.now.stored.image }
    {
        self.image.as_slice()
    }

    pub fn fuse(&self) -> u64
        ensures { result ≡ self.now.stored.fuse }
    {
        self.fuse
    }

    /// The events in their order, each with its outcome. It takes no memory: calls and replies are lent.
    pub fn iter(&self) -> Iter<'_>
        ensures events { map (λ p. p.0) result ≡ self.now.stored.events }
        ensures outcomes { map (λ p. p.1) result ≡ self.now.stored.outcomes }
    {
        self.story.iter()
    }

    /// Copies of the events, in their order. An error is want of memory: a step takes three bytes as it is kept, and 64 here.
    pub fn events(&self, alloc: Global) -> Result<Vec<Event>, AllocError>
        ensures { IfOk result (λ events. events.items ≡ self.now.stored.events) }
    {
        self.story.events(alloc)
    }

    /// Copies of the events' outcomes, in their order. An error is want of memory.
    pub fn outcomes(&self, alloc: Global) -> Result<Vec<Came>, AllocError>
        ensures { IfOk result (λ outcomes. outcomes.items ≡ self.now.stored.outcomes) }
    {
        self.story.outcomes(alloc)
    }

    /// The first place, from 0, at which these are not the hart's replies in the list. A missing one differs.
    pub fn difference(&self, hart: u8, replies: &[Reply]) -> Option<u64>
        ensures none { IfNone result (replies.now ≡ replies_of hart self.now.stored) }
        ensures some { IfSome result (λ k. slice_get replies.now k ≢ slice_get (replies_of hart self.now.stored) k) }
    {
        self.story.difference(hart, replies)
    }

    /// A law, for a reader; nothing is done. The events had their outcomes in some run, whose world has this disk. Of
    /// whichever run they are: if no step of it found no room, one list of tree steps explains all calls that were
    /// started, from the image's tree. That holds as long as no path has the element "..", or if one hart has made
    /// all calls.
    pub fn one_list_explains_it(&self)
        ensures { HasOneHistory self.now }
    {
        let _ = &self.disk;
    }

    /// The disk as the events have left it.
    pub fn into_disk(self) -> MemoryDisk
        ensures disk { result ≡ self.disk }
        ensures left { LeavesDisk self.stored result }
    {
        self.disk
    }
}
