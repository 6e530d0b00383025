//! A mounted file system that scripts are run on.
ghost use Rattle.std.specs.Prelude.{◌≡◌, IfOk, IfErr, IfSome, None, replicate, set};
ghost use Rattle.fs_layout.specs.Recovered.{sizes_of};
ghost use Rattle.image_tree.specs.Images.{IsWellFormed};
ghost use Rattle.hart_core.specs.Mounting.{HandsBack, Rests};
ghost use Rattle.hart_core.specs.Harts.{AreHarts, shared_of};
ghost use Rattle.hart_core.specs.Telling.{heard_by, heard_in};
ghost use Rattle.explain.specs.Keeps.{HasNoted};
ghost use Rattle.console.specs.Sessions.{beside_in, doing_at, hart_in, is_event, is_event_step, known_at, with_beside, Happens, Hears};

use crate::doing::{Doing, done_after};
use crate::verb::Verb;
use block_device::Device;
use explain::Keeper;
use group_log::Phase;
use hart_core::{Came, Event, Outcome, World};
use image_tree::MountFault;
use image_versions::Version;
use path_walk::Heard;
use std::alloc::Global;
use std::marker::Model;

/// How many harts there are.
pub const HARTS: usize = 8;

/// A mounted file system, what each hart's call has done so far, and who keeps a tree beside it, if one is kept. It
/// must be unmounted.
pub struct Session<D: Device> {
    world: World<D>,
    doing: [Option<Doing>; HARTS],
    keeper: Option<Keeper>,
}

impl<D: Device> Model for Session<D> {
    ghost use Rattle.std.specs.Prelude.{◌≡◌, length};
    ghost use Rattle.console.specs.Sessions.{SessionOf, beside_in};

    ghost Value = { SessionOf D };

    ghost view = { λ s. record { world = s.world; doing = s.doing; beside = beside_in s.keeper } };

    ghost invariant = { λ s. length s.doing ≡ 8 };
}

/// The hart of an event.
pub fn hart_in(event: &Event) -> u8
    ensures { result ≡ hart_in event.now }
{
    match event {
        Event::Start { hart, call: _ } => *hart,
        Event::Step { hart } => *hart,
    }
}

// The hart, if there is one of this number, does this next.
fn put_doing(doing: &mut [Option<Doing>; HARTS], hart: u8, next: Option<Doing>)
    ensures { doing.new ≡ set doing.old hart next }
{
    let place = hart as usize;
    if place < doing.len() {
        doing[place] = next;
    }
}

// Whether what has this outcome is an event. A step of a hart without a call is none.
fn is_event(came: &Came) -> bool
    ensures { result ≡ is_event came.now }
{
    match came {
        Came::Started | Came::Refused(_) => true,
        Came::Stepped(outcome) => is_event_step(outcome),
    }
}

fn is_event_step(outcome: &Outcome) -> bool
    ensures { result ≡ is_event_step outcome.now }
{
    match outcome {
        Outcome::Idle => false,
        Outcome::Waits | Outcome::Ran(_) | Outcome::Done(_) | Outcome::Stopped(_) => true,
    }
}

// What the hart's call heard in an event with this outcome.
fn heard_in<D: Device>(world: &World<D>, hart: u8, came: &Came) -> Option<Heard>
    ensures heard { result ≡ heard_in came.now (heard_by world.now hart) }
    ensures fits { AreHarts (shared_of D.contents D.failures world.now.harts) world.now.harts.calls }
{
    let heard = world.heard(hart);
    match came {
        Came::Stepped(Outcome::Ran(_) | Outcome::Done(_)) => heard,
        _ => None,
    }
}

fn note(keeper: &mut Option<Keeper>, event: &Event, came: &Came, heard: Option<Heard>)
    ensures { HasNoted (beside_in keeper.old) event.now came.now heard (beside_in keeper.new) }
{
    if let Some(keeper) = keeper {
        keeper.note(event, came, heard);
    }
}

// Hands the keeper the last event, with this outcome. Without a copy of it nothing more is kept; nor after a step of
// a hart without a call, which isn't made.
fn hear<D: Device>(
    world: &World<D>,
    keeper: &mut Option<Keeper>,
    hart: u8,
    copy: &Option<Event>,
    came: &Came,
)
    ensures { Hears D.contents D.failures world.now hart copy.now came.now (beside_in keeper.old) (beside_in keeper.new) }
{
    match copy {
        Some(event) if is_event(came) => note(keeper, event, came, heard_in(world, hart, came)),
        _ => *keeper = None,
    }
}

impl<D: Device> Session<D> {
    /// Examines the image on a device and recovers it. No hart has a call or descriptors, and each is in the root. A damaged image, a
    /// device that fails and want of memory hand the device back.
    pub fn mount(alloc: Global, device: D) -> Result<Session<D>, (D, MountFault)>
        ensures well { IfOk result (λ s. IsWellFormed (D.contents device)) }
        ensures rests { IfOk result
            (λ s. Rests D.contents D.failures device s.world.harts × (s.world.sizes ≡ sizes_of (D.contents device))
            × (s.doing ≡ replicate 8 None)) }
        ensures err { IfErr result (λ e. HandsBack D.contents D.failures device e.0 e.1) }
    {
        match World::mount(alloc, device) {
            Ok(world) => Ok(Session {
                world,
                doing: [None; HARTS],
                keeper: None,
            }),
            Err(fault) => Err(fault),
        }
    }

    /// What a hart's call has done so far, if it has one.
    pub(crate) fn doing(&self, hart: u8) -> Option<Doing>
        ensures { result ≡ doing_at hart self.now.doing }
    {
        let (place, doing) = (hart as usize, &self.doing);
        if place < doing.len() {
            doing[place]
        } else {
            None
        }
    }

    /// The version of the image that it is mounted on.
    pub(crate) fn version(&self) -> Version
        ensures { result ≡ self.now.world.sizes.version }
    {
        self.world.version()
    }

    /// How far the log's commit is.
    pub(crate) fn phase(&self) -> Phase
        ensures { result ≡ self.now.world.harts.core.log.phase }
    {
        self.world.phase()
    }

    /// Makes an event, of a call with this word, and reports it to the keeper. The copy is the event again; without
    /// one nothing is kept from then on.
    pub(crate) fn event(&mut self, verb: Verb, event: Event, copy: &Option<Event>) -> Came
        requires { IfSome copy.now (λ again. again ≡ event) }
        ensures { Happens D.contents D.failures self.old (record { event = event; verb = verb; came = result }) self.new }
    {
        let hart = hart_in(&event);
        let doing = self.doing(hart);
        let came = self.world.event(event);
        let next = done_after(verb, &came, doing);
        put_doing(&mut self.doing, hart, next);
        hear(&self.world, &mut self.keeper, hart, copy, &came);
        came
    }

    /// From this call on a tree is kept beside it.
    pub(crate) fn keep(&mut self, keeper: Keeper)
        ensures { self.new ≡ with_beside keeper self.old }
    {
        self.keeper = Some(keeper);
    }

    /// Hands back who kept the tree, and noted that the run has ended. It is kept no more.
    pub(crate) fn hand_back(&mut self) -> Option<Keeper>
        ensures kept { beside_in result ≡ known_at self.old self.old.beside }
        ensures left { self.new ≡ with_beside None self.old }
    {
        let lacks_place = self.world.lacks_place();
        match self.keeper.take() {
            Some(keeper) => {
                let mut keeper = keeper;
                keeper.ends(lacks_place);
                Some(keeper)
            }
            None => None,
        }
    }

    /// Ends it at any moment, in mid-call too, without a call of the device, and gives the device.
    pub fn unmount(self) -> D
        ensures { result ≡ self.world.harts.core.log.cache.device }
    {
        let Session {
            world,
            doing: _,
            keeper: _keeper,
        } = self;
        world.unmount()
    }
}
