//! The world: eight harts with their calls on a mounted disk.
ghost use Rattle.std.specs.Prelude.{◌≡◌, IfOk, IfErr, None, get_or, length};
ghost use Rattle.block_device.specs.Calls.{ComesByCalls};
ghost use Rattle.atomic_programs.specs.Calls.{Start as StartOf, Step as StepOf};
ghost use Rattle.group_log.specs.Phases.{is_point};
ghost use Rattle.fs_machine.specs.Machines.{CallsOnce};
ghost use Rattle.fs_layout.specs.Recovered.{sizes_of};
ghost use Rattle.image_tree.specs.Images.{IsWellFormed};
ghost use Rattle.hart_core.specs.Harts.{outcome_of, said, shared_of, AreHarts};
ghost use Rattle.hart_core.specs.Mounting.{HandsBack, Rests};
ghost use Rattle.hart_core.specs.Promised.{IdleHartsHaveNothing, QuietBlocksAreAnImage, WaitsByTheRule};
ghost use Rattle.hart_core.specs.Starts.{child_refusal, fault_of, others_refusal, refusal_of, start_outcome, IsOfBytes};
ghost use Rattle.hart_core.specs.Telling.{KeepsLast, SetsAt, TellsOutcome, heard_by, some_lacks_place};
ghost use Rattle.hart_core.specs.Worlds.{Makes, Answers};
ghost use Rattle.syscalls.specs.Places.{HasBegun};

use crate::harts::Harts;
use crate::mount::mount_harts;
use crate::outcome::Outcome;
use crate::starts::{StartRefused, find_child, find_fault};
use block_device::Device;
use buffer_cache::HARTS;
use fs_layout::Super;
use group_log::Phase;
use image_tree::MountFault;
use image_versions::Version;
use path_walk::Heard;
use plain_tree::Call;
use std::alloc::Global;
use std::marker::Model;

/// A mounted file system, with the calls that eight harts have under way. A contract sees its harts, and the sizes of
/// its disk, which have the version of its image.
///
/// After it was mounted it takes no memory. It must be unmounted.
pub struct World<D: Device> {
    harts: Harts<D>,
    sizes: Super,
    // What the call that replied last heard in its last step.
    last: Option<Heard>,
}

impl<D: Device> Model for World<D> {
    ghost use Rattle.hart_core.specs.Worlds.{WorldOf, IsWorld};

    ghost Value = { WorldOf D };

    ghost view = { λ w. record { harts = w.harts; sizes = w.sizes; last = w.last } };

    ghost invariant = { λ w. IsWorld D.contents D.failures w.sizes w.harts };
}

impl<D: Device> World<D> {
    /// Examines the image on a device, takes all memory, and then recovers the disk and frees each node without a
    /// name. The image may be of version 1 or 2 (docs/FORMATS.md): it is examined and served as one of the version that
    /// its magic number says. If that is no version's, its superblock is damaged.
    ///
    /// If it finds a damage, or the device fails, or memory is short, it answers that and hands the device back. An
    /// image's first damage is the one answered. Nothing was written then, unless the device failed in the recovery or
    /// after it. Each hart is idle, in the root, and has no descriptors (xv6: `fsinit` with `readsb`, `initlog` and
    /// `ireclaim`; `binit`, `iinit`, `fileinit`).
    pub fn mount(alloc: Global, device: D) -> Result<World<D>, (D, MountFault)>
        ensures ok { IfOk result (λ w. IsWellFormed (D.contents device) × Rests D.contents D.failures device w.harts
            × (w.sizes ≡ sizes_of (D.contents device))) }
        ensures err { IfErr result (λ e. HandsBack D.contents D.failures device e.0 e.1) }
        ensures calls { IfOk result (λ w. ComesByCalls D.Called device w.harts.core.log.cache.device) }
        ensures back { IfErr result (λ e. ComesByCalls D.Called device e.0) }
    {
        match mount_harts(alloc, device) {
            Ok(mounted) => {
                let (harts, sizes) = mounted;
                Ok(World {
                    harts,
                    sizes,
                    last: None,
                })
            }
            Err(fault) => Err(fault),
        }
    }

    // Why a hart can't be the child of this one's inherit.
    fn find_child_refusal(&self, hart: u8, child: u8) -> Option<StartRefused>
        ensures { result ≡ child_refusal self.now.harts hart child }
    {
        if child >= HARTS {
            return Some(StartRefused::NoSuchHart);
        }
        if child == hart || self.harts.is_busy(child) || self.harts.is_reserved(child) {
            return Some(StartRefused::Busy);
        }
        if self.harts.has_file(child) {
            return Some(StartRefused::NotEmptyHart);
        }
        None
    }

    // Why another hart keeps a hart's call from being started.
    fn find_others_refusal(&self, hart: u8, call: &Call) -> Option<StartRefused>
        ensures { result ≡ others_refusal self.now.harts hart call.now }
    {
        match call {
            Call::Inherit { child } => self.find_child_refusal(hart, *child),
            _ => None,
        }
    }

    // Why a hart's call isn't started.
    fn find_start_refusal(&self, hart: u8, call: &Call) -> Option<StartRefused>
        ensures refusal { result ≡ refusal_of self.now.harts hart call.now }
        ensures eight { length self.now.harts.calls ≡ HARTS }
        ensures bytes { fault_of call.now ≡ None → IsOfBytes call.now }
    {
        let busy = self.harts.is_busy(hart);
        let reserved = self.harts.is_reserved(hart);
        let fault = find_fault(call);
        if hart >= HARTS {
            return Some(StartRefused::NoSuchHart);
        }
        if busy || reserved {
            return Some(StartRefused::Busy);
        }
        match fault {
            Some(why) => Some(why),
            None => self.find_others_refusal(hart, call),
        }
    }

    /// Starts a hart's call. It is refused, and handed back, if there is no such hart, or the hart has a call or is
    /// the child of another one's. It is also refused at the call's own first fault, and last if the child can't be
    /// one. A refusal changes nothing. A stopped world takes starts as before. No start calls the device.
    #[inline(always)]
    pub fn start(&mut self, hart: u8, call: Call) -> Result<(), (Call, StartRefused)>
        ensures makes { Makes D.contents D.failures self.old.sizes (StartOf hart call) self.old.harts
            (start_outcome result) self.new.harts }
        ensures sizes { self.new.sizes ≡ self.old.sizes }
        ensures core { self.new.harts.core ≡ self.old.harts.core }
        ensures begun { IfOk result (λ _. (get_or self.old.harts.calls hart None ≡ None)
            × HasBegun self.old.sizes call (get_or self.new.harts.calls hart None) × (fault_of call ≡ None)
            × SetsAt hart self.old.harts.calls self.new.harts.calls) }
        ensures last { self.new.last ≡ self.old.last }
        ensures back { IfErr result (λ e. (e.0 ≡ call) × (self.new ≡ self.old)) }
    {
        match self.find_start_refusal(hart, &call) {
            Some(why) => Err((call, why)),
            None => {
                let child = find_child(&call);
                self.harts.begin(hart, &self.sizes, call, child);
                Ok(())
            }
        }
    }

    /// One operation of a hart's call. It is idle if there is no such hart, or the hart has no call. A call is
    /// stopped if the device fails in this very step, or has failed before. At most one call of the device is made.
    #[inline(always)]
    pub fn step(&mut self, hart: u8) -> Outcome
        ensures makes { Makes D.contents D.failures self.old.sizes
            (StepOf hart (said result (shared_of D.contents D.failures self.new.harts))) self.old.harts (outcome_of result) self.new.harts }
        ensures honest { Answers D.contents D.failures self.old.sizes
            (StepOf hart (said result (shared_of D.contents D.failures self.new.harts))) self.old.harts }
        ensures sizes { self.new.sizes ≡ self.old.sizes }
        ensures called { CallsOnce D.Called self.old.harts.core.log.cache.device self.new.harts.core.log.cache.device }
        ensures tells { TellsOutcome hart (get_or self.old.harts.calls hart None) result (heard_by self.new hart)
            (get_or self.new.harts.calls hart None) (shared_of D.contents D.failures self.old.harts)
            (shared_of D.contents D.failures self.new.harts) }
        ensures last { KeepsLast result self.old.last self.new.last }
        ensures others { SetsAt hart self.old.harts.calls self.new.harts.calls }
    {
        self.harts.step(&mut self.last, hart)
    }

    /// What a hart's call heard in its last step that ran, if one of its operations over whole inodes ended in that
    /// step. Of a call that has replied it stays until another one does. A reader who keeps the tree beside a world
    /// (the crate explain) goes on by it: `step` says what it is after each step. What each call has in hand goes
    /// with what the harts share.
    pub fn heard(&self, hart: u8) -> Option<Heard>
        ensures heard { result ≡ heard_by self.now hart }
        ensures fits { AreHarts (shared_of D.contents D.failures self.now.harts) self.now.harts.calls }
    {
        self.harts.heard(hart, self.last)
    }

    /// Whether a call under way claims an inode for which none of the fifty places in memory was left, and will hear
    /// so in its next step. A reader who keeps the tree beside the world sees each other want of room in the step
    /// that finds it. This one the reader has to ask for, at the end of a run.
    pub fn lacks_place(&self) -> bool
        ensures { result ≡ some_lacks_place self.now.harts }
    {
        self.harts.lacks_place()
    }

    /// The version of the image that it is mounted on.
    pub fn version(&self) -> Version
        ensures { result ≡ self.now.sizes.version }
    {
        self.sizes.version
    }

    /// How far the log's commit is: none is under way, or how many of its blocks were copied.
    pub fn phase(&self) -> Phase
        ensures { result ≡ self.now.harts.core.log.phase }
    {
        self.harts.phase()
    }

    /// Whether the commit's next write is that of the head that names the group.
    pub(crate) fn is_at_point(&self) -> bool
        ensures { result ≡ is_point (length self.now.harts.core.log.group) self.now.harts.core.log.phase }
    {
        self.harts.is_at_point()
    }

    /// Ends it at any moment, also in mid-call, in the middle of a commit, or after a failure of the device. It makes
    /// no call of the device, and gives the device back. Its disk passes all checks as recovery sees it, so that it
    /// can be mounted again. It has the sizes, and so the version, with which it was mounted.
    pub fn unmount(self) -> D
        ensures device { result ≡ self.harts.core.log.cache.device }
        ensures well { IsWellFormed (D.contents result) }
        ensures sizes { sizes_of (D.contents result) ≡ self.sizes }
    {
        let World {
            harts,
            sizes: _,
            last: _,
        } = self;
        harts.unmount()
    }

    /// A law, for a reader; nothing is done. A hart without a call has no buffer and no inode's lock, and it is in no transaction;
    /// so too after a failure of the device has stopped the world.
    pub fn idle_harts_have_nothing(&self)
        ensures { IdleHartsHaveNothing D.contents D.failures self.now.harts }
    {
        let _ = &self.harts;
    }

    /// A law, for a reader; nothing is done. It holds unless a failure of the device has stopped the world. Whenever
    /// no hart is in a transaction, the blocks as the log and its buffers show them are a well-formed image. So is
    /// the disk that recovery would leave, also in the middle of a commit, with the same tree.
    pub fn quiet_blocks_are_an_image(&self)
        ensures { QuietBlocksAreAnImage D.contents D.failures self.now.harts }
    {
        let _ = &self.harts;
    }

    /// A law, for a reader; nothing is done. A step waits only if the hart has a call, and its next operation must
    /// wait. Either another hart has in hand the very lock or buffer that this operation asks for, or a commit has
    /// the buffer of the block that it copies next. Or the operation joins a transaction, and a commit is under way
    /// or the log has no room for one more.
    pub fn waits_by_the_rule(&self)
        ensures { WaitsByTheRule D.contents D.failures self.now.sizes self.now.harts }
    {
        let _ = &self.harts;
    }
}
