//! The log.
ghost use Rattle.std.specs.Prelude.{◌≡◌, ◌≢◌, ◌↔◌, ◌⊎◌, ◌+◌, ◌*◌, ◌<◌, ◌≤◌, ◌==◌, if◌then◌else◌, ℕ, [], length, replicate, slice_get, slice_set, Some, None, true, false, IsSome, IsNone, IfSome, IfNone, IsTrue, OnOk, OnErr};
ghost use Rattle.std.specs.Option.{unwrap_or};
ghost use Rattle.sleep_lock.specs.SleepLock.{GuardState};
ghost use Rattle.block_device.specs.Blocks.{block_at, faults_after};
ghost use Rattle.fs_layout.specs.Recovered.{logged, recovered, IsOutsideLog};
ghost use Rattle.buffer_cache.specs.Buffers.{BufferState};
ghost use Rattle.group_log.specs.Waiting.{progress_at, left_at};
ghost use Rattle.buffer_cache.specs.Lists.{count_of};
ghost use Rattle.buffer_cache.specs.Seats.{is_held_by, holder_of, IsHeld, KeepsHeld, KeepsOthers, with_seat, with_content, with_pin, given_back, unused_from};

use crate::commit::{Progress, show_each_once, write_next};
use crate::copies::Written;
use crate::limits::{BLOCKS_OF_A_TRANSACTION, MOST_LOGGED, PLACES};
use crate::members::{Members, add, contains};
use crate::phase::{Phase, after, clear_when_open};
use crate::txn::{RetiredLog, Txn};
use arrayvec::ArrayVec;
use block_device::{Device, Fault};
use buffer_cache::{BUFFERS, Buffer, Cache, Got, HARTS};
use fs_layout::Super;
use sleep_lock::{Guard, RetiredSlots};
use std::marker::Model;

/// What follows a leave.
#[derive(Debug, Clone, Copy, PartialEq, Eq)]
pub enum AfterLeave {
    /// The hart goes on.
    Free,
    /// The hart must make the commit's steps.
    Commits,
}

/// The log over a cache (xv6: `struct log`). A contract sees the cache, and the recorded blocks in the order of first
/// recording. It sees what each hart's transaction has added to them, and how far the commit is.
///
/// After it was made it takes no memory.
pub struct Log<D: Device> {
    cache: Cache<D>,
    sizes: Super,
    group: ArrayVec<u32, MOST_LOGGED>,
    // The slots of its blocks' buffers, as long as these are pinned.
    slots: ArrayVec<u32, MOST_LOGGED>,
    members: Members,
    phase: Phase,
}

impl<D: Device> Model for Log<D> {
    ghost use Rattle.group_log.specs.Slots.{IsSlottedLog};
    ghost use Rattle.group_log.specs.Soundness.{LogState};

    ghost Value = { LogState D };

    ghost view = { λ l. record { cache = l.cache; sizes = l.sizes; group = l.group.items; members = l.members; phase = l.phase } };

    ghost invariant = { λ l. IsSlottedLog (D.contents l.cache.device) l.cache.seats l.sizes l.group.items l.slots.items l.members l.phase };
}

impl<D: Device> Log<D> {
    ghost use Rattle.buffer_cache.specs.Getting.{get_of, IfHeld};
    ghost use Rattle.buffer_cache.specs.Seats.{seen, IsSound};
    ghost use Rattle.group_log.specs.Group.{joined, has, with_block, HasRoom, IsMember, members_with};
    ghost use Rattle.group_log.specs.Phases.{write_to, write_of, next_phase, group_in, is_point, phase_at_leave};
    ghost use Rattle.group_log.specs.Soundness.{IsPlaced, IsHome, IsSoundLog, limit_of};
    ghost use Rattle.group_log.specs.Turns.{turn_is_out, seats_after, seats_at_fault};
    ghost use Rattle.group_log.specs.Moves.{IsMove, IsCommitMove, begins_at};
    ghost use Rattle.group_log.specs.Waiting.{join_waits, faults_at, IfWaits, IfMade, IfFailed, StaysOrBecomes};
    ghost use Rattle.group_log.specs.declared.phase.Phase.TheVariants.{Open, Halted};

    /// A log with nothing recorded, over a fresh cache on a disk whose log is empty (xv6: `initlog`).
    pub fn new(cache: Cache<D>, sizes: Super) -> Log<D>
        requires fresh { cache.seats ≡ unused_from 0 BUFFERS }
        requires place { IsPlaced (D.contents cache.device) sizes }
        requires empty { logged (D.contents cache.device) ≡ [] }
        ensures log { result ≡ record { cache = cache; sizes = sizes; group = []; members = replicate PLACES None; phase = Open } }
        ensures seen { (b : ℕ) → seen D.contents result.cache b ≡ block_at (D.contents cache.device) b }
        ensures recovered { (b : ℕ) → recovered (D.contents result.cache.device) b ≡ seen D.contents result.cache b }
    {
        Log {
            cache,
            sizes,
            group: ArrayVec::new(),
            slots: ArrayVec::new(),
            members: Members::new(),
            phase: Phase::Open,
        }
    }

    /// The device.
    pub fn device(&self) -> &D
        ensures device { result.now ≡ self.now.cache.device }

        // What always holds of the log and of its cache.
        ensures sound { IsSoundLog
            (D.contents self.now.cache.device) self.now.cache.seats self.now.sizes self.now.group self.now.members self.now.phase }
        ensures cache { IsSound (D.contents self.now.cache.device) self.now.cache.seats }
    {
        self.cache.device()
    }

    /// How far the commit is.
    pub fn phase(&self) -> Phase
        ensures { result ≡ self.now.phase }
    {
        self.phase
    }

    /// Whether the commit's next write is that of the head that names the group.
    pub fn is_at_point(&self) -> bool
        ensures { result ≡ is_point (length self.now.group) self.now.phase }
    {
        match self.phase {
            Phase::Staging(i) => i as usize == self.group.len(),
            Phase::Open => false,
            Phase::Installing(_) => false,
            Phase::Halted => false,
        }
    }

    /// How many buffers a hart has in its hand.
    pub fn held_by(&self, hart: u8) -> usize
        ensures { result ≡ count_of (is_held_by hart) self.now.cache.seats }
    {
        self.cache.held_by(hart)
    }

    /// Whether a hart is in no transaction.
    pub fn is_idle(&self, hart: u8) -> bool
        requires { hart < HARTS }
        ensures { IsTrue result ↔ (slice_get self.now.members hart ≡ Some None) }
    {
        self.members.is_idle(hart as usize)
    }

    /// Whether the transaction's hart is in a transaction of this log.
    pub fn is_member(&self, txn: &Txn) -> bool
        ensures { IsTrue result ↔ IsMember self.now.members txn.now }
    {
        self.members.is_member(txn.hart() as usize)
    }

    /// Whether the transaction's hart is in one of this log that may add another block to the group.
    pub fn has_room(&self, txn: &Txn) -> bool
        ensures { IsTrue result ↔ HasRoom self.now.members txn.now }
    {
        self.members.has_room(txn.hart() as usize)
    }

    /// Whether a block is in the group: to record it again takes no room.
    pub fn is_recorded(&self, b: u32) -> bool
        ensures { result ≡ has self.now.group b }
    {
        contains(&self.group, b)
    }

    /// Whether a block is none of the log's, so that a hart may get it.
    pub fn is_outside(&self, b: u32) -> bool
        ensures { IsTrue result ↔ IsOutsideLog self.now.sizes b }
    {
        is_outside(&self.sizes, b)
    }

    /// Whether a block may be recorded: it is one from the inodes on, below the size that the superblock has.
    pub fn is_home(&self, b: u32) -> bool
        ensures { IsTrue result ↔ IsHome (D.contents self.now.cache.device) self.now.sizes b }
    {
        self.sizes.inodestart <= b && b < self.sizes.size
    }

    /// Joins a transaction. It waits exactly while a commit runs, if the group might outgrow the log, and for good
    /// after the log is halted. Then nothing changes (xv6: `begin_op`).
    pub fn join(&mut self, hart: u8) -> Option<Txn>
        requires hart { hart < HARTS }
        requires idle { slice_get self.old.members hart ≡ Some None }
        ensures waits { IsNone result
            ↔ IsTrue (join_waits self.old.phase (length self.old.group) (joined self.old.members) (limit_of self.old.sizes)) }
        ensures same { IfNone result (self.new ≡ self.old) }
        ensures joins { IfSome result
            (λ txn. (txn ≡ hart) × (self.new ≡ record self.old { members = slice_set self.old.members hart (Some 0) })) }
        ensures moves { IsMove D.contents false false self.old self.new }
    {
        let Phase::Open = self.phase else {
            return None;
        };
        let limit = MOST_LOGGED.min(self.sizes.nlog as usize - 1);
        let others = self.members.outstanding();
        if limit < self.group.len() + (others + 1) * BLOCKS_OF_A_TRANSACTION as usize {
            return None;
        }
        self.members.join(hart as usize);
        Some(Txn::new(hart))
    }

    /// Records a valid buffer and gives it back. From then on its block is seen with these bytes, and its buffer
    /// stays pinned until a commit has copied it home. A block that is recorded again takes no further place in the
    /// group. A transaction adds at most ten blocks (xv6: `log_write` and `brelse`).
    #[inline(always)]
    pub fn record(&mut self, txn: &mut Txn, guard: Guard<Buffer>)
        requires member { IsMember self.old.members txn.old }
        requires running { self.old.phase ≢ Halted }
        requires held { IsHeld self.old.cache.seats guard }
        requires valid { IsSome guard.value.content }
        requires home { IsHome (D.contents self.old.cache.device) self.old.sizes guard.value.block }
        requires room { has self.old.group guard.value.block ≡ false → HasRoom self.old.members txn.old }
        ensures txn { txn.new ≡ txn.old }
        ensures open { (self.old.phase ≡ Open) × (self.new.phase ≡ Open) }
        ensures records { IfSome guard.value.content (λ bytes. self.new ≡ record self.old {
          cache = record self.old.cache {
            seats = given_back guard.value.block (with_seat guard.value.block (with_content bytes)
                (with_seat guard.value.block (with_pin true) self.old.cache.seats));
          };
          group = with_block self.old.group guard.value.block;
          members = members_with self.old.group guard.value.block self.old.members txn.old;
        }) }
        ensures others { KeepsOthers guard.value.block self.old.cache.seats self.new.cache.seats }
        ensures seen { (k : ℕ) → seen D.contents self.new.cache k
            ≡ (if k == guard.value.block then unwrap_or guard.value.content [] else seen D.contents self.old.cache k) }
        ensures moves { IsMove D.contents false false self.old self.new }
    {
        show_each_once(&self.cache);
        let b = guard.value().block();
        add(
            &mut self.group,
            &mut self.slots,
            &mut self.members,
            txn.hart() as usize,
            b,
            guard.number(),
        );
        self.cache.pin(&guard);
        self.cache.release_changed(guard);
    }

    /// Leaves a transaction. The last one to leave begins the commit, if something was recorded (xv6: `end_op`).
    pub fn leave(&mut self, txn: Txn) -> AfterLeave
        requires member { IsMember self.old.members txn }
        requires running { self.old.phase ≢ Halted }
        ensures open { self.old.phase ≡ Open }
        ensures leaves { self.new ≡ record self.old {
          members = slice_set self.old.members txn None;
          phase = phase_at_leave (joined (slice_set self.old.members txn None)) self.old.group;
        } }
        ensures falls { joined self.new.members + 1 ≡ joined self.old.members }
        ensures left { result ≡ left_at (joined (slice_set self.old.members txn None)) self.old.group }
        ensures moves { IsMove D.contents (begins_at result) false self.old self.new }
    {
        let hart = txn.end();
        self.members.leave(hart as usize);
        match what_follows(self.members.outstanding(), &self.group) {
            AfterLeave::Free => AfterLeave::Free,
            AfterLeave::Commits => {
                self.phase = Phase::Staging(0);
                AfterLeave::Commits
            }
        }
    }

    /// Makes the next step of the commit: one write to the device. First each block of the group is copied into the
    /// log, then the head is written with their numbers. Then each block is copied home and its pin given back, and
    /// then the head is written with none. It waits exactly if the buffer of the block to be copied is out, and then
    /// nothing changes. After a fault the log is halted for good (xv6: `commit`; a write of `write_log`, `write_head`
    /// or `install_trans`).
    #[inline(always)]
    pub fn commit_step(&mut self, hart: u8) -> Progress
        requires hart { hart < HARTS }
        requires few { count_of (is_held_by hart) self.old.cache.seats ≤ 1 }
        requires begun { (self.old.phase ≢ Open) × (self.old.phase ≢ Halted) }
        ensures waits { (result ≡ Progress.Waits) ↔ IsTrue (turn_is_out self.old.cache.seats self.old.group self.old.phase) }
        ensures same { IfWaits result (self.new ≡ self.old) }
        ensures called { (result ≢ Progress.Waits) → D.Called self.old.cache.device self.new.cache.device }

        // The write, and what follows it.
        ensures write { IfMade result (D.contents self.new.cache.device
            ≡ slice_set (D.contents self.old.cache.device) (write_to self.old.sizes self.old.group self.old.phase)
            (write_of (seen D.contents self.old.cache) self.old.group self.old.phase)) }
        ensures phase { IfMade result (self.new.phase ≡ next_phase (length self.old.group) self.old.phase) }
        ensures group { IfMade result (self.new.group ≡ group_in self.new.phase self.old.group) }
        ensures progress { IfMade result (result ≡ progress_at self.new.phase) }
        ensures seats { IfMade result (self.new.cache.seats ≡ seats_after self.old.group self.old.phase self.old.cache.seats) }

        // The recovered disk becomes what is seen when the head begins to name the group, and else it stays.
        ensures recovered { IfMade result ((b : ℕ) → IsOutsideLog self.old.sizes b
            → recovered (D.contents self.new.cache.device) b
            ≡ (if is_point (length self.old.group) self.old.phase then seen D.contents self.old.cache b
            else recovered (D.contents self.old.cache.device) b)) }

        // After a fault.
        ensures halted { IfFailed result (self.new.phase ≡ Halted) }
        ensures stays { IfFailed result (self.new.group ≡ self.old.group) }
        ensures torn { IfFailed result ((D.contents self.new.cache.device ≡ D.contents self.old.cache.device)
            ⊎ (D.contents self.new.cache.device
            ≡ slice_set (D.contents self.old.cache.device) (write_to self.old.sizes self.old.group self.old.phase)
            (write_of (seen D.contents self.old.cache) self.old.group self.old.phase))) }
        ensures left { IfFailed result (self.new.cache.seats ≡ seats_at_fault self.old.group self.old.phase self.old.cache.seats) }
        ensures kept { IfFailed result (StaysOrBecomes self.old.sizes (recovered (D.contents self.old.cache.device))
            (λ b. if is_point (length self.old.group) self.old.phase then seen D.contents self.old.cache b
            else recovered (D.contents self.old.cache.device) b)
            (recovered (D.contents self.new.cache.device))) }
        ensures faults { D.failures self.new.cache.device ≡ faults_at result (D.failures self.old.cache.device) }

        // Whatever it answers.
        ensures members { self.new.members ≡ self.old.members }
        ensures sizes { self.new.sizes ≡ self.old.sizes }
        ensures others { KeepsHeld self.old.cache.seats self.new.cache.seats }
        ensures seen { (b : ℕ) → IsOutsideLog self.old.sizes b → seen D.contents self.new.cache b ≡ seen D.contents self.old.cache b }
        ensures moves { IsCommitMove D.contents result self.old self.new }
    {
        show_each_once(&self.cache);
        match write_next(
            &mut self.cache,
            hart,
            &self.sizes,
            &self.group,
            &self.slots,
            self.phase,
        ) {
            Written::Waits => Progress::Waits,
            Written::Failed => {
                self.phase = Phase::Halted;
                Progress::Failed
            }
            Written::Done => {
                let phase = after(self.phase, self.group.len());
                clear_when_open(&mut self.group, phase);
                clear_when_open(&mut self.slots, phase);
                self.phase = phase;
                progress_to(phase)
            }
        }
    }

    /// A block's buffer, as the cache has it (`Cache::get`). No hart gets a block of the log.
    pub fn get(&mut self, hart: u8, b: u32) -> Got
        requires hart { hart < HARTS }
        requires few { count_of (is_held_by hart) self.old.cache.seats ≤ 1 }
        requires outside { IsOutsideLog self.old.sizes b }
        ensures gives { (self.new.cache.seats, result) ≡ get_of hart b self.old.cache.seats }
        ensures waits { (result ≡ Got.Waits) ↔ IsSome (holder_of b self.old.cache.seats) }
        ensures same { (result ≡ Got.Waits) → self.new ≡ self.old }
        ensures held { IfHeld result (λ guard. (guard.hart ≡ hart) × (guard.value.block ≡ b) × IsHeld self.new.cache.seats guard) }
        ensures bytes { IfHeld result (λ guard. IfSome guard.value.content (λ bytes. bytes ≡ seen D.contents self.old.cache b)) }
        ensures others { KeepsHeld self.old.cache.seats self.new.cache.seats }
        ensures rest { self.new ≡ record self.old { cache = record self.old.cache { seats = self.new.cache.seats } } }
        ensures seen { (k : ℕ) → seen D.contents self.new.cache k ≡ seen D.contents self.old.cache k }
        ensures moves { IsMove D.contents false false self.old self.new }
    {
        self.cache.get(hart, b)
    }

    /// Reads the guard's block into its buffer, by one call of the device (`Cache::fill`).
    pub fn fill(&mut self, guard: &mut Guard<Buffer>) -> Result<(), Fault>
        requires held { IsHeld self.old.cache.seats guard.old }
        requires unread { guard.old.value.content ≡ None }
        requires within { guard.old.value.block < length (D.contents self.old.cache.device) }
        requires outside { IsOutsideLog self.old.sizes guard.old.value.block }
        ensures called { D.Called self.old.cache.device self.new.cache.device }
        ensures filled { OnOk result (guard.new ≡ record guard.old {
          value = record {
            block = guard.old.value.block;
            content = Some (block_at (D.contents self.old.cache.device) guard.old.value.block);
          };
        }) }
        ensures seats { OnOk result (self.new.cache.seats
            ≡ with_seat guard.old.value.block
            (with_content (block_at (D.contents self.old.cache.device) guard.old.value.block)) self.old.cache.seats) }
        ensures err { OnErr result ((guard.new ≡ guard.old) × (self.new.cache.seats ≡ self.old.cache.seats)) }
        ensures held_on { IsHeld self.new.cache.seats guard.new }
        ensures bytes { IfSome guard.new.value.content (λ bytes. bytes ≡ seen D.contents self.new.cache guard.new.value.block) }
        ensures others { KeepsOthers guard.old.value.block self.old.cache.seats self.new.cache.seats }
        ensures contents { D.contents self.new.cache.device ≡ D.contents self.old.cache.device }
        ensures faults { D.failures self.new.cache.device ≡ faults_after result (D.failures self.old.cache.device) }
        ensures rest { self.new ≡ record self.old { cache = self.new.cache } }
        ensures seen { (k : ℕ) → seen D.contents self.new.cache k ≡ seen D.contents self.old.cache k }
        ensures moves { IsMove D.contents false false self.old self.new }
    {
        self.cache.fill(guard)
    }

    /// Gives a buffer back unchanged (`Cache::release`).
    pub fn release(&mut self, guard: Guard<Buffer>)
        requires held { IsHeld self.old.cache.seats guard }
        requires unchanged { IfSome guard.value.content (λ bytes. bytes ≡ seen D.contents self.old.cache guard.value.block) }
        requires outside { IsOutsideLog self.old.sizes guard.value.block }
        ensures seats { self.new.cache.seats ≡ given_back guard.value.block self.old.cache.seats }
        ensures others { KeepsOthers guard.value.block self.old.cache.seats self.new.cache.seats }
        ensures rest { self.new ≡ record self.old { cache = record self.old.cache { seats = self.new.cache.seats } } }
        ensures seen { (k : ℕ) → seen D.contents self.new.cache k ≡ seen D.contents self.old.cache k }
        ensures moves { IsMove D.contents false false self.old self.new }
    {
        show_each_once(&self.cache);
        self.cache.release(guard);
    }

    /// Ends the log at any moment, without a write, and gives the device. The transactions and the guards that are
    /// out may then be ended.
    pub fn retire(self) -> (RetiredLog, RetiredSlots, D)
        ensures guards { (guard : GuardState BufferState) → IsHeld self.cache.seats guard → guard.number < result.1 }
        ensures device { result.2 ≡ self.cache.device }
    {
        let Log {
            cache,
            sizes: _,
            group: _,
            slots: _,
            members: _,
            phase: _,
        } = self;
        let (slots, device) = cache.retire();
        (RetiredLog::new(), slots, device)
    }
}

// Whether a block is outside the log.
fn is_outside(sizes: &Super, b: u32) -> bool
    ensures { IsTrue result ↔ IsOutsideLog sizes.now b }
{
    b < sizes.logstart || u64::from(sizes.logstart) + u64::from(sizes.nlog) <= u64::from(b)
}

// What follows a leave with `outstanding` others in a transaction.
fn what_follows(outstanding: usize, group: &[u32]) -> AfterLeave
    ensures { result ≡ left_at outstanding group.now }
{
    if outstanding == 0 && !group.is_empty() {
        AfterLeave::Commits
    } else {
        AfterLeave::Free
    }
}

// The answer of a write that led to this phase.
fn progress_to(phase: Phase) -> Progress
    ensures { result ≡ progress_at phase }
{
    match phase {
        Phase::Open => Progress::Ended,
        Phase::Staging(_) => Progress::Wrote,
        Phase::Installing(_) => Progress::Wrote,
        Phase::Halted => Progress::Wrote,
    }
}
