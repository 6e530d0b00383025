//! Rows as lists of events: how they are played, what a run makes of them, and at which step a device has failed.
use crate::images::{counts, disk_of};
use crate::memory::push;
use crate::rows::{Ask, Line, Row, Says, call, is_told};
use block_device::{Device, MemoryDisk};
use fs_machine::Kind;
use hart_core::{Came, Event, Outcome, Run, StartRefused, Stop, World, run, trace};
use plain_tree::{Call, Trace};
use std::alloc::Global;
use std::process::Abort;

// More steps than a call here takes.
const MOST_STEPS: u32 = 100_000;

/// What lines have made of a world: its events, in their order, and the outcome of each.
#[derive(Drop)]
pub struct Made {
    pub events: Vec<Event>,
    pub outcomes: Vec<Came>,
}

impl Made {
    fn is_last(&self, says: &Says) -> bool {
        match self.outcomes.last() {
            Some(came) => is_told(came, says),
            None => false,
        }
    }

    // Whether the last event gave a reply.
    fn is_replied(&self) -> bool {
        matches!(self.outcomes.last(), Some(Came::Stepped(Outcome::Done(_))))
    }

    // What ran in the last event, if its call goes on.
    fn last_kind(&self) -> Option<Kind> {
        kind_of(self.outcomes.last()?)
    }
}

fn kind_of(came: &Came) -> Option<Kind> {
    match came {
        Came::Stepped(Outcome::Ran(kind)) => Some(*kind),
        _ => None,
    }
}

// One event more.
fn make(rt: &impl Abort, world: &mut World<MemoryDisk>, made: &mut Made, event: Event) {
    let copy = event.clone().expect(rt, "error");
    push(rt, &mut made.events, copy);
    let came = world.event(event);
    push(rt, &mut made.outcomes, came);
}

// At most `most` steps of a hart. They end when `count` of a kind have run, or with one that doesn't run or ends the
// call.
fn go_on(
    rt: &impl Abort,
    world: &mut World<MemoryDisk>,
    made: &mut Made,
    hart: u8,
    kind: Kind,
    count: u32,
    most: u32,
) {
    let mut left = count;
    for _ in 0..most {
        make(rt, world, made, Event::Step { hart });
        let ran = made.last_kind();
        if ran == Some(kind) {
            left = left.saturating_sub(1);
        }
        if ran.is_none() || left == 0 {
            break;
        }
    }
}

// Steps to the call's end. No step of kind reply leaves its call under way.
fn end(rt: &impl Abort, world: &mut World<MemoryDisk>, made: &mut Made, hart: u8) {
    go_on(rt, world, made, hart, Kind::Reply, 1, MOST_STEPS);
}

// Steps of the harts from 0 on in turn: whether the call of each ends with the outcome that is wanted.
fn take_turns(
    rt: &impl Abort,
    world: &mut World<MemoryDisk>,
    made: &mut Made,
    all: &[Says],
) -> bool {
    let mut ended = 0usize;
    for turn in 0..MOST_STEPS {
        let hart = turn % 8;
        let Some(says) = all.get(hart as usize) else {
            continue;
        };
        make(rt, world, made, Event::Step { hart: hart as u8 });
        if made.is_replied() {
            ended = ended.saturating_add(1);
            let is_told = made.is_last(says);
            if !is_told || ended == all.len() {
                return is_told;
            }
        }
    }
    false
}

// Plays a line, and answers whether it had the outcome that it names.
fn tell(
    rt: &impl Abort,
    alloc: Global,
    world: &mut World<MemoryDisk>,
    made: &mut Made,
    line: &Line,
) -> bool {
    match line {
        Line::Do(hart, ask, says) => {
            if start(rt, alloc, world, made, *hart, ask) {
                end(rt, world, made, *hart);
            }
            made.is_last(says)
        }
        Line::Start(hart, ask) => start(rt, alloc, world, made, *hart, ask),
        Line::Upto(hart, kind, count) => {
            go_on(rt, world, made, *hart, *kind, *count, MOST_STEPS);
            made.last_kind() == Some(*kind)
        }
        Line::End(hart, says) => {
            end(rt, world, made, *hart);
            made.is_last(says)
        }
        Line::All(says) => take_turns(rt, world, made, *says),
        Line::Between(call, calls, count) => {
            come_between(rt, alloc, world, made, *call, *calls, *count)
        }
    }
}

fn start(
    rt: &impl Abort,
    alloc: Global,
    world: &mut World<MemoryDisk>,
    made: &mut Made,
    hart: u8,
    ask: &Ask,
) -> bool {
    let call = call(rt, alloc, ask);
    make(rt, world, made, Event::Start { hart, call });
    made.is_last(&Says::Started)
}

// Hart 1 makes a call, or goes on with the one that waits. Whether it waits then.
fn cut_in(
    rt: &impl Abort,
    alloc: Global,
    world: &mut World<MemoryDisk>,
    made: &mut Made,
    ask: &Ask,
    waits: bool,
) -> bool {
    if !waits {
        start(rt, alloc, world, made, 1, ask);
    }
    end(rt, world, made, 1);
    made.is_last(&Says::Waits)
}

// Hart 1 makes these calls.
fn make_all(
    rt: &impl Abort,
    alloc: Global,
    world: &mut World<MemoryDisk>,
    made: &mut Made,
    calls: &[Ask],
) {
    for ask in calls {
        cut_in(rt, alloc, world, made, ask, false);
    }
}

// Hart 0 goes on with its call to its end, and hart 1 makes calls, from this one on, before each step. Answers the next one.
fn meet(
    rt: &impl Abort,
    alloc: Global,
    world: &mut World<MemoryDisk>,
    made: &mut Made,
    calls: &[Ask],
    from: usize,
) -> usize {
    let mut next = from;
    let mut waits = false;
    for _ in 0..MOST_STEPS {
        let Some(ask) = calls.get(next) else {
            next = 0;
            continue;
        };
        waits = cut_in(rt, alloc, world, made, ask, waits);
        if !waits {
            next = next.saturating_add(1);
        }
        make(rt, world, made, Event::Step { hart: 0 });
        if made.is_replied() {
            break;
        }
    }
    if waits {
        end(rt, world, made, 1);
        next = next.saturating_add(1);
    }
    next
}

// A call of hart 0 with calls of hart 1, the first `count` of which come before it. Whether both harts are idle then.
fn come_between(
    rt: &impl Abort,
    alloc: Global,
    world: &mut World<MemoryDisk>,
    made: &mut Made,
    call: &Ask,
    calls: &[Ask],
    count: usize,
) -> bool {
    make_all(rt, alloc, world, made, first(calls, count));
    start(rt, alloc, world, made, 0, call);
    let next = meet(rt, alloc, world, made, calls, count);
    if let Some((_, rest)) = calls.split_at_checked(next) {
        make_all(rt, alloc, world, made, rest);
    }
    make_all(rt, alloc, world, made, calls);
    end(rt, world, made, 0);
    let is_idle = made.is_last(&Says::Idle);
    end(rt, world, made, 1);
    is_idle && made.is_last(&Says::Idle)
}

// Plays lines, up to the first one that hasn't the outcome that it names: its number.
fn tell_all(
    rt: &impl Abort,
    alloc: Global,
    world: &mut World<MemoryDisk>,
    made: &mut Made,
    lines: &[Line],
) -> Option<usize> {
    for (number, line) in lines.iter().enumerate() {
        if !tell(rt, alloc, world, made, line) {
            return Some(number);
        }
    }
    None
}

/// A world over a device that doesn't fail in the mount. If memory for it is refused, the test says so, and ends.
pub fn mounted<D: Device + Drop>(rt: &impl Abort, alloc: Global, device: D) -> World<D> {
    match World::mount(alloc, device) {
        Ok(world) => world,
        Err((_, fault)) => panic!(rt; "error: {fault:?}"),
    }
}

// Plays lines over a new world of a disk, each of which has the outcome that it names, and gives the disk back. They
// are those of this row.
fn play_row(
    rt: &impl Abort,
    alloc: Global,
    disk: MemoryDisk,
    lines: &[Line],
    row: usize,
) -> (Made, MemoryDisk) {
    let mut made = Made {
        events: Vec::new(alloc),
        outcomes: Vec::new(alloc),
    };
    let mut world = mounted(rt, alloc, disk);
    let missed = tell_all(rt, alloc, &mut world, &mut made, lines);
    let disk = world.unmount();
    assert_eq!(rt; missed, None, "this line of row {row}");
    (made, disk)
}

/// Plays lines over a new world of a disk, each of which has the outcome that it names, and gives the disk back.
pub fn play(
    rt: &impl Abort,
    alloc: Global,
    disk: MemoryDisk,
    lines: &[Line],
) -> (Made, MemoryDisk) {
    play_row(rt, alloc, disk, lines, 0)
}

/// Ends the test if something isn't so, and prints a number.
pub fn holds(rt: &impl Abort, is_so: bool, what: &str, number: usize) {
    assert!(rt; is_so, "{what} {number}");
}

/// These events over a world. If memory is short the world is handed back as it was, and ends.
pub fn ran<D: Device + Drop>(
    rt: &impl Abort,
    alloc: Global,
    world: World<D>,
    events: &[Event],
) -> Run<D> {
    match run(alloc, world, events) {
        Ok(run) => run,
        Err((world, _)) => {
            let _device = world.unmount();
            panic!(rt; "error: AllocError")
        }
    }
}

/// The outcomes of a list of events, the device then, and the run's cut and doubt.
#[derive(Drop)]
pub struct RunEnd<D: Device + Drop> {
    pub device: D,
    pub outcomes: Vec<Came>,
    pub cut: Option<u64>,
    pub doubt: Option<u64>,
}

/// These events over a new world of a device that doesn't fail in the mount. Then the world ends.
pub fn run_over<D: Device + Drop>(
    rt: &impl Abort,
    alloc: Global,
    device: D,
    events: &[Event],
) -> RunEnd<D> {
    let Run {
        world,
        outcomes,
        cut,
        doubt,
    } = ran(rt, alloc, mounted(rt, alloc, device), events);
    RunEnd {
        device: world.unmount(),
        outcomes,
        cut,
        doubt,
    }
}

/// The first `count` items, or all if there are fewer.
pub fn first<T>(items: &[T], count: usize) -> &[T] {
    match items.split_at_checked(count) {
        Some((first, _)) => first,
        None => items,
    }
}

/// A disk that was mounted again, and so recovered.
pub fn mounted_again(rt: &impl Abort, alloc: Global, disk: MemoryDisk) -> MemoryDisk {
    mounted(rt, alloc, disk).unmount()
}

pub fn traced(rt: &impl Abort, alloc: Global, made: &Made) -> Trace {
    trace(alloc, made.events.as_slice(), made.outcomes.as_slice()).expect(rt, "error")
}

fn is_same_outcome(came: &Outcome, wanted: &Outcome) -> bool {
    match (came, wanted) {
        (Outcome::Idle, Outcome::Idle) => true,
        (Outcome::Waits, Outcome::Waits) => true,
        (Outcome::Ran(a), Outcome::Ran(b)) => a == b,
        (Outcome::Done(a), Outcome::Done(b)) => a.answer == b.answer && a.call == b.call,
        (Outcome::Stopped(a), Outcome::Stopped(b)) => a == b,
        _ => false,
    }
}

fn is_same(came: &Came, wanted: &Came) -> bool {
    match (came, wanted) {
        (Came::Started, Came::Started) => true,
        (Came::Refused(a), Came::Refused(b)) => a == b,
        (Came::Stepped(a), Came::Stepped(b)) => is_same_outcome(a, b),
        _ => false,
    }
}

/// Whether events had the same outcomes as others.
pub fn are_same(outcomes: &[Came], wanted: &[Came]) -> bool {
    for (came, wanted) in outcomes.iter().zip(wanted.iter()) {
        if !is_same(came, wanted) {
            return false;
        }
    }
    outcomes.len() == wanted.len()
}

// Whether `run` makes of these events, over a new world of a disk, the same outcomes, in their order, and the same
// bytes of the disk. Its cut is the leave whose group has the last head that was written.
fn is_run(rt: &impl Abort, alloc: Global, disk: MemoryDisk, made: &Made, bytes: &[u8]) -> bool {
    let groups = groups_in(rt, alloc, made.outcomes.as_slice());
    let last = groups.as_slice().last().map(|group| group.leave);
    let ended = run_over(rt, alloc, disk, made.events.as_slice());
    let again = ended.device.into_bytes();
    are_same(ended.outcomes.as_slice(), made.outcomes.as_slice())
        && again.as_slice() == bytes
        && (ended.cut, ended.doubt) == (last, None)
}

// A row has the outcomes that it names, line by line, and leaves what it names; and `run` makes the same of its
// events.
fn row_is_run(rt: &impl Abort, alloc: Global, row: &Row, number: usize) {
    let (image, lines, left) = row;
    let (made, disk) = play_row(rt, alloc, disk_of(rt, alloc, *image), *lines, number);
    let bytes = disk.into_bytes();
    let disk = disk_of(rt, alloc, *image);
    let is_run = is_run(rt, alloc, disk, &made, bytes.as_slice());
    let counts = counts(rt, alloc, MemoryDisk::new(bytes));
    holds(rt, is_run && counts == *left, "row", number);
}

/// Each row has the outcomes that it names, line by line, and leaves what it names; and `run` makes the same of its
/// events.
pub fn are_run(rt: &impl Abort, alloc: Global, rows: &[Row]) {
    for (number, row) in rows.iter().enumerate() {
        row_is_run(rt, alloc, row, number);
    }
}

/// A group's commit: the events of the leave that began it, and of its writes. These are the copies in the log, the
/// head, the same number of blocks at home, and the head again.
#[derive(Drop)]
pub struct Group {
    pub leave: u64,
    pub writes: Vec<u64>,
}

impl Group {
    pub fn copies(&self) -> usize {
        self.writes.len().saturating_sub(2) / 2
    }

    /// The event that wrote the head which names the group's blocks.
    pub fn head(&self) -> Option<u64> {
        self.writes.get(self.copies()).copied()
    }
}

/// The commits of a run, by the outcomes of its events. Each of them has ended.
pub fn groups_in(rt: &impl Abort, alloc: Global, outcomes: &[Came]) -> Vec<Group> {
    let mut groups: Vec<Group> = Vec::new(alloc);
    let mut leave = None;
    for (event, came) in outcomes.iter().enumerate() {
        let kind = kind_of(came);
        if kind == Some(Kind::Leave) {
            leave = Some(event as u64);
        }
        if kind == Some(Kind::Commit) {
            if let Some(leave) = leave {
                let writes = Vec::new(alloc);
                push(rt, &mut groups, Group { leave, writes });
            }
            leave = None;
            if let Some(group) = groups.last_mut() {
                push(rt, &mut group.writes, event as u64);
            }
        }
    }
    groups
}

// The calls of the harts that are under way, each with its child.
#[derive(Clone, Copy)]
struct Calls {
    harts: [Option<Option<u8>>; 8],
}

impl Calls {
    fn is_there(&self, hart: u8) -> bool {
        matches!(self.harts.get(hart as usize), Some(Some(_)))
    }

    // Whether a hart is the child of a call that is there.
    fn is_child(&self, hart: u8) -> bool {
        self.harts.contains(&Some(Some(hart)))
    }

    fn note(&mut self, event: &Event, came: &Came) {
        let (hart, call) = match (event, came) {
            (Event::Start { hart, call }, Came::Started) => (*hart, Some(child_of(call))),
            (Event::Step { hart }, Came::Stepped(Outcome::Done(_))) => (*hart, None),
            _ => return,
        };
        if let Some(place) = self.harts.get_mut(hart as usize) {
            *place = call;
        }
    }

    // Whether an event of a stopped world has this outcome: starts are taken as before, and no call goes on.
    fn is_halted(&self, event: &Event, came: &Came) -> bool {
        match (event, came) {
            (Event::Start { hart, call: _ }, Came::Started) => {
                !self.is_there(*hart) && !self.is_child(*hart)
            }
            (Event::Start { hart, call: _ }, Came::Refused(StartRefused::Busy)) => {
                self.is_there(*hart) || self.is_child(*hart)
            }
            (Event::Step { hart }, Came::Stepped(Outcome::Stopped(Stop::Halted))) => {
                self.is_there(*hart)
            }
            (Event::Step { hart }, Came::Stepped(Outcome::Idle)) => !self.is_there(*hart),
            _ => false,
        }
    }
}

fn is_fault(came: &Came) -> bool {
    matches!(came, Came::Stepped(Outcome::Stopped(Stop::DeviceFault)))
}

fn child_of(call: &Call) -> Option<u8> {
    match call {
        Call::Inherit { child } => Some(*child),
        _ => None,
    }
}

/// The step of a run in which the device failed. Up to there each event had the outcome that it has without the
/// failure, and from then on no call goes on. None if the run ended.
pub fn stopped_at(rt: &impl Abort, made: &Made, outcomes: &[Came]) -> Option<u64> {
    let mut calls = Calls { harts: [None; 8] };
    let mut stopped = None;
    assert!(rt; outcomes.len() == made.events.len());
    let wanted = made.events.iter().zip(made.outcomes.iter());
    for (number, ((event, wanted), came)) in wanted.zip(outcomes.iter()).enumerate() {
        if stopped.is_none() && is_fault(came) {
            stopped = Some(number as u64);
        } else {
            let is_so = if stopped.is_some() {
                calls.is_halted(event, came)
            } else {
                is_same(came, wanted)
            };
            holds(rt, is_so, "event", number);
        }
        calls.note(event, came);
    }
    stopped
}
