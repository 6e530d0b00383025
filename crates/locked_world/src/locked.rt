//! The value under the kernel's lock. It is a run of its stored list, and changes by one event at a time.
ghost use Rattle.std.specs.Prelude.{◌≡◌, ◌≢◌, ◌<◌, ◌≤◌, ◌+◌, ◌∷◌, [], Some, None, IfOk, IfErr, IfNone, IfSome, MatchOption, All, map, sum_by, length, slice_get, slice_set, get_or};
ghost use Rattle.block_device.specs.Blocks.{blocks_of};
ghost use Rattle.image_tree.specs.Images.{IsWellFormed, JudgesFault};
ghost use Rattle.hart_core.specs.Runs.{IsMounted, all_shown, shown};
ghost use Rattle.locked_world.specs.Kept.{opened, closed_of, contents, failures, disk_of, count_of, replies_of, replies_in, replied_by, IsRun, HasOneHistory, LeavesDisk, ComesFromImage, device_of};
ghost use Rattle.locked_world.specs.Told.{Answers, StartAnswers, halt_for};

use crate::closed::Closed;
use crate::handing::{copied, filled};
use crate::story::Story;
use block_device::{Fused, MemoryDisk};
use fs_machine::Kind;
use hart_core::{Outcome, StartRefused, Stop, World};
use image_tree::MountFault;
use plain_tree::{Call, Reply};
use std::alloc::{AllocError, Global};
use std::marker::{Model, PhantomData};
use std::mem;
use std::sync::ledger;
use std::sync::ledger::{Blank, Book, Ledger};

/// One hart's part of the ledger. It counts the calls of the hart that were started, and its replies.
#[derive(Drop)]
pub struct Share<L: Ledger> {
    hart: u8,
    tally: ledger::Share<L>,
    ghost one: { tally.parts ≡ 1 },
}

/// A reply of the locked world: its hart, and how many replies the hart had before. Only `Locked::step` makes one.
#[derive(Drop)]
pub struct Receipt<L: Ledger> {
    hart: u8,
    place: u64,
    reply: Reply,
    of: PhantomData<L>,
}

/// A hart's call that was started, with a copy of it. Only `Locked::start` makes one.
#[derive(Drop)]
pub struct Begun<L: Ledger> {
    hart: u8,
    call: Call,
    of: PhantomData<L>,
}

/// Why a call is stopped.
#[derive(Clone, Copy, PartialEq, Eq, Debug)]
pub enum Halt {
    /// The device failed in this step.
    DeviceFault = 31,
    /// It had failed before.
    Halted = 32,
    /// Memory was refused. Nothing has changed, and the call can go on.
    NoMemory = 33,
}

/// The outcome of a step of the locked world.
#[derive(Drop)]
pub enum LockedOutcome<L: Ledger> {
    /// The hart has no call.
    Idle,
    /// It waits, for another hart or for the log. That isn't stored.
    Waits,
    /// One operation of this kind ran, and the call goes on.
    Ran(Kind),
    /// The call's last operation ran.
    Done(Receipt<L>),
    Stopped(Halt),
}

/// Why a call was not started.
#[derive(Clone, Copy, PartialEq, Eq, Debug)]
pub enum NotStarted {
    /// The world refuses it.
    Refused(StartRefused),
    /// Memory was refused. Nothing has changed.
    NoMemory,
}

/// A world with the list of the events that made it, and their outcomes. A contract sees the image, the fuse, the
/// events and their outcomes, and the world itself.
///
/// It must be ended.
pub struct Locked<L: Ledger> {
    image: Vec<u8>,
    fuse: u64,
    story: Story,
    book: Book<L>,
    world: World<Fused>,
    given: [u64; 8],
    spare: [Option<Call>; 8],
}

impl<L: Ledger> Model for Locked<L> {
    ghost use Rattle.locked_world.specs.Kept.{LockedRun, IsKept};

    ghost Value = { LockedRun };

    ghost view = { λ s. record {
      stored = record { image = s.image.items; fuse = s.fuse; events = s.story.events; outcomes = s.story.outcomes };
      world = s.world;
    } };

    ghost invariant = { λ s. IsKept
        (record {
          image = s.image.items;
          fuse = s.fuse;
          events = s.story.events;
          outcomes = s.story.outcomes;
        }) s.book.total s.world s.given s.spare };
}

impl<L: Ledger> Share<L> {
    pub fn hart(&self) -> u8
        ensures { result ≡ self.now.hart }
    {
        self.hart
    }

    fn into_tally(self) -> ledger::Share<L>
        ensures tally { result ≡ self.tally }
        ensures one { result.parts ≡ 1 }
    {
        let Share { hart: _, tally } = self;
        tally
    }
}

impl<L: Ledger> Begun<L> {
    pub fn hart(&self) -> u8
        ensures { result ≡ self.now.hart }
    {
        self.hart
    }

    pub fn call(&self) -> &Call
        ensures { result.now ≡ self.now.call }
    {
        &self.call
    }

    pub fn into_call(self) -> Call
        ensures { result ≡ self.call }
    {
        self.call
    }
}

impl<L: Ledger> Receipt<L> {
    pub fn hart(&self) -> u8
        ensures { result ≡ self.now.hart }
    {
        self.hart
    }

    pub fn place(&self) -> u64
        ensures { result ≡ self.now.place }
    {
        self.place
    }

    pub fn reply(&self) -> &Reply
        ensures { result.now ≡ self.now.reply }
    {
        &self.reply
    }

    pub fn into_reply(self) -> Reply
        ensures { result ≡ self.reply }
    {
        self.reply
    }
}

impl<L: Ledger> Locked<L> {
    /// A world mounted on a disk of this image that passes `fuse` calls and then fails, with no events; and a share
    /// for each hart. It answers the image's first damage, a failure of the device, or want of memory.
    pub fn new(
        alloc: Global,
        blank: Blank,
        image: Vec<u8>,
        fuse: u64,
    ) -> Result<(Locked<L>, [Share<L>; 8]), MountFault>
        requires name { blank.name ≡ L.name }
        requires parts { blank.parts ≡ L.parts }
        requires eight { blank.parts ≡ 8 }
        ensures opened { IfOk result (λ r. r.0.stored ≡ opened image.items fuse) }
        ensures mounted { IfOk result (λ r. IsMounted contents failures (disk_of r.0.stored) r.0.world) }
        ensures fuse { IfOk result (λ r. ComesFromImage r.0.stored (device_of r.0.world)) }
        ensures well { IfOk result (λ _. IsWellFormed (blocks_of image.items)) }
        ensures harts { IfOk result (λ r. map (λ s. s.hart) r.1 ≡ 0 ∷ 1 ∷ 2 ∷ 3 ∷ 4 ∷ 5 ∷ 6 ∷ 7 ∷ []) }
        ensures nothing { IfOk result (λ r. All (λ s. s.tally.amount ≡ 0) r.1) }
        ensures fault { IfErr result (λ fault. JudgesFault (blocks_of image.items) fault) }
    {
        let Ok(bytes) = copy_of(&image) else {
            return Err(MountFault::NoMemory);
        };
        let world = match World::mount(alloc, Fused::new(MemoryDisk::new(bytes), fuse)) {
            Ok(world) => world,
            Err(refused) => return Err(refused.1),
        };
        let (book, mut rest) = blank.open::<L>();
        let shares = [
            cut(&mut rest, 0),
            cut(&mut rest, 1),
            cut(&mut rest, 2),
            cut(&mut rest, 3),
            cut(&mut rest, 4),
            cut(&mut rest, 5),
            cut(&mut rest, 6),
            cut(&mut rest, 7),
        ];
        let locked = Locked {
            image,
            fuse,
            story: Story::new(alloc),
            book,
            world,
            given: [0; 8],
            spare: [None, None, None, None, None, None, None, None],
        };
        Ok((locked, shares))
    }

    /// One event: the start of a hart's call. If it was not started, the call comes back, and the share and the world
    /// stay; for want of memory nothing changes. It calls no device. It makes the copies of the call that its reply
    /// will want.
    pub fn start(
        &mut self,
        share: &mut Share<L>,
        hart: u8,
        call: Call,
    ) -> Result<Begun<L>, (Call, NotStarted)>
        ensures answer { StartAnswers self.old hart call result self.new share.old.tally.amount share.new.tally.amount }
        ensures hart { share.new.hart ≡ share.old.hart }
    {
        let Ok(copies) = copies_of(&call) else {
            return Err((call, NotStarted::NoMemory));
        };
        if self.story.make_room().is_err() {
            return Err((call, NotStarted::NoMemory));
        }
        match self.world.start(hart, call) {
            Ok(()) => {
                let Copies { event, spare, kept } = copies;
                lay_by(&mut self.spare, hart as usize, spare);
                self.story.started(hart, event);
                self.book.add(&mut share.tally, 1);
                Ok(Begun {
                    hart,
                    call: kept,
                    of: PhantomData,
                })
            }
            Err((call, why)) => {
                let event = one_of(copies);
                self.story.refused(hart, event, why);
                Err((call, NotStarted::Refused(why)))
            }
        }
    }

    /// One event: a step of a hart, with at most one call of the device. A try that waits is not stored, and changes nothing; for want of
    /// memory, which is asked for first, nothing changes either.
    pub fn step(&mut self, share: &mut Share<L>, hart: u8) -> LockedOutcome<L>
        ensures answer { Answers self.old hart result self.new share.old.tally.amount share.new.tally.amount }
        ensures hart { share.new.hart ≡ share.old.hart }
    {
        if self.story.make_room().is_err() {
            return LockedOutcome::Stopped(Halt::NoMemory);
        }
        match self.world.step(hart) {
            Outcome::Idle => {
                self.story.idle(hart);
                LockedOutcome::Idle
            }
            Outcome::Waits => LockedOutcome::Waits,
            Outcome::Ran(kind) => {
                self.story.ran(hart, kind);
                LockedOutcome::Ran(kind)
            }
            Outcome::Done(reply) => {
                let at = hart as usize;
                let Some(spare) = take_spare(&mut self.spare, at) else {
                    unreachable!()
                };
                let copy = Reply {
                    answer: reply.answer,
                    call: filled(spare, &reply),
                };
                let place = self.given[at];
                self.given[at] = place + 1;
                self.story.done(hart, copy);
                self.book.add(&mut share.tally, 1);
                LockedOutcome::Done(Receipt {
                    hart,
                    place,
                    reply,
                    of: PhantomData,
                })
            }
            Outcome::Stopped(stop) => {
                self.story.stopped(hart, stop);
                LockedOutcome::Stopped(halt_of(stop))
            }
        }
    }

    /// A law, for a reader; nothing is done. What is stored is a run of this very world: one was mounted on the
    /// image, on a disk whose fuse passes a given count of calls. The events had their outcomes, one after the other,
    /// and made this one of it. And its device is what calls have made of that disk: each has burned one of its fuse,
    /// and has failed if none was left.
    pub fn is_run(&self)
        ensures run { IsRun self.now }
        ensures calls { ComesFromImage self.now.stored (device_of self.now.world) }
    {
        let _ = &self.world;
    }

    /// Ends the world at any moment, without a call of the device, and leaves its disk. The shares together count the
    /// calls that were started and answered.
    pub fn end(self, shares: [Share<L>; 8]) -> Closed<L>
        requires { L.parts ≡ 8 }
        ensures same { result ≡ closed_of self }
        ensures counted { count_of result.stored ≡ sum_by (λ s. s.tally.amount) shares }
    {
        let Locked {
            image,
            fuse,
            story,
            mut book,
            world,
            given: _,
            spare: _,
        } = self;
        let mut all = merged(shares);
        book.audit(&mut all);
        Closed::new(image, fuse, story, world.unmount().into_disk())
    }
}

// A copy of an image.
fn copy_of(image: &Vec<u8>) -> Result<Vec<u8>, AllocError>
    ensures { IfOk result (λ copy. copy.items ≡ image.now.items) }
{
    image.clone()
}

// The world's stop.
fn halt_of(stop: Stop) -> Halt
    ensures { result ≡ halt_for stop }
{
    match stop {
        Stop::DeviceFault => Halt::DeviceFault,
        Stop::Halted => Halt::Halted,
    }
}

// A share for this hart.
fn cut<L: Ledger>(rest: &mut ledger::Share<L>, hart: u8) -> Share<L>
    requires part { 1 ≤ rest.old.parts }
    requires none { rest.old.amount ≡ 0 }
    ensures part { (result.hart ≡ hart) × (result.tally.amount ≡ 0) }
    ensures rest { (rest.new.parts + 1 ≡ rest.old.parts) × (rest.new.amount ≡ 0) }
{
    let tally = rest.split_off(1, 0);
    Share { hart, tally }
}

// One share with the parts and the amounts of all.
fn merged<L: Ledger>(shares: [Share<L>; 8]) -> ledger::Share<L>
    ensures parts { result.parts ≡ 8 }
    ensures amount { result.amount ≡ sum_by (λ s. s.tally.amount) shares }
{
    let [a, b, c, d, e, f, g, h] = shares;
    let mut all = a.into_tally();
    all.merge(b.into_tally());
    all.merge(c.into_tally());
    all.merge(d.into_tally());
    all.merge(e.into_tally());
    all.merge(f.into_tally());
    all.merge(g.into_tally());
    all.merge(h.into_tally());
    all
}

// Copies of a call: for its event, for its reply, and for its caller.
#[derive(Drop)]
struct Copies {
    event: Call,
    spare: Call,
    kept: Call,
}

fn copies_of(call: &Call) -> Result<Copies, AllocError>
    ensures { IfOk result (λ c. (c.event ≡ call.now) × (c.spare ≡ call.now) × (c.kept ≡ call.now)) }
{
    let event = copied(call)?;
    let spare = copied(call)?;
    let kept = copied(call)?;
    Ok(Copies { event, spare, kept })
}

fn one_of(copies: Copies) -> Call
    ensures { result ≡ copies.event }
{
    copies.event
}

// Lays a copy by at this place.
fn lay_by(spare: &mut [Option<Call>; 8], at: usize, call: Call)
    requires { at < 8 }
    ensures { spare.new ≡ slice_set spare.old at (Some call) }
{
    spare[at] = Some(call);
}

// The copy that is laid by at this place, which then has none.
fn take_spare(spare: &mut [Option<Call>; 8], at: usize) -> Option<Call>
    requires { at < 8 }
    ensures taken { result ≡ get_or spare.old at None }
    ensures left { spare.new ≡ slice_set spare.old at None }
{
    mem::replace(&mut spare[at], None)
}
