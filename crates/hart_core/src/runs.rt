//! Lists of events.
ghost use Rattle.std.specs.Prelude.{◌≡◌, ◌≤◌, ℕ, IfOk, IfErr, Option, length, []};
ghost use Rattle.hart_core.specs.Vocabulary.{vec_capacity};
ghost use Rattle.hart_core.specs.Harts.{shared_of, AreHarts};
ghost use Rattle.hart_core.specs.Runs.{HasHistory, OneHistory};
ghost use Rattle.hart_core.specs.Stops.{HasCut, HasMarks, RunLeavesABeginning};
ghost use Rattle.hart_core.specs.Telling.{NotesRun, hart_of, heard_by, heard_in};
ghost use Rattle.hart_core.specs.declared.events.Came.{Came as CameState};
ghost use Rattle.path_walk.specs.declared.asks.Heard.{Heard as HeardState};

use crate::events::{Came, Event, Run};
use crate::marks::{doubt_of, last_of, no_marks, note};
use crate::outcome::Outcome;
use crate::world::World;
use block_device::Device;
use group_log::Marks;
use path_walk::Heard;
use plain_tree::NoMemory;
use std::alloc::{AllocError, Global};

/// Who notes a run's events, in their order, as they are made. Nothing of the run depends on it.
pub trait Observer {
    // What it makes of what it notes.
    ghost Took: { Self → CameState → Option HeardState → Self → Type 0 };

    /// The outcome of the next event. For a step that ran, also what its hart's call heard, if one of its operations
    /// over whole inodes ended in it.
    fn noted(&mut self, came: &Came, heard: Option<Heard>)
        ensures { Took self.old came.now heard self.new };
}

/// Nobody.
impl Observer for () {
    ghost Took = { λ _ _ _ _. Unit {0} };

    fn noted(&mut self, _came: &Came, _heard: Option<Heard>) {}
}

// A copy of each event.
fn copies(alloc: Global, events: &[Event]) -> Result<Vec<Event>, AllocError>
    ensures { IfOk result (λ v. v.items ≡ events.now) }
{
    let mut copies = Vec::new(alloc);
    copies.extend_with_clones(events)?;
    Ok(copies)
}

// A world after events, their outcomes, and the marks.
struct Ran<D: Device> {
    world: World<D>,
    outcomes: Vec<Came>,
    marks: Marks,
}

fn hart_of(event: &Event) -> u8
    ensures { result ≡ hart_of event.now }
{
    match event {
        Event::Start { hart, .. } => *hart,
        Event::Step { hart } => *hart,
    }
}

// What the hart's call heard in an event with this outcome.
fn heard_in<D: Device>(world: &World<D>, hart: u8, came: &Came) -> Option<Heard>
    ensures heard { result ≡ heard_in came.now (heard_by world.now hart) }
    ensures fits { AreHarts (shared_of D.contents D.failures world.now.harts) world.now.harts.calls }
{
    let heard = world.heard(hart);
    match came {
        Came::Stepped(Outcome::Ran(_) | Outcome::Done(_)) => heard,
        _ => None,
    }
}

// These events, one after the other. It takes no memory.
fn run_all<D: Device, O: Observer>(
    world: World<D>,
    events: Vec<Event>,
    room: Vec<Came>,
    observer: &mut O,
) -> Ran<D>
    requires empty { room.items ≡ [] }
    requires room { length events.items ≤ vec_capacity room }
    ensures history { HasMarks D.contents D.failures world.sizes world.harts events.items result.outcomes.items
        result.world.harts result.marks }
    ensures notes { NotesRun D.contents D.failures O.Took world.sizes world.harts observer.old events.items result.outcomes.items
        result.world.harts observer.new }
    ensures each { length result.outcomes.items ≡ length events.items }
    ensures sizes { result.world.sizes ≡ world.sizes }
{
    let mut world = world;
    let mut outcomes = room;
    let mut marks = no_marks();
    for event in events {
        let before = world.phase();
        let at_point = world.is_at_point();
        let hart = hart_of(&event);
        let came = world.event(event);
        observer.noted(&came, heard_in(&world, hart, &came));
        match outcomes.push(came) {
            Ok(()) => {}
            Err(_) => unreachable!(),
        }
        marks = note(
            marks,
            outcomes.len() as u64,
            before,
            at_point,
            world.phase(),
        );
    }
    Ran {
        world,
        outcomes,
        marks,
    }
}

/// These events, one after the other, and the outcome of each. It copies all calls and takes room for all outcomes
/// first; if memory is short for that, the world is handed back as it was.
///
/// Each event makes of the world what `World::event` says: so the run has a history, of what the device answered in
/// each step. If the world was mounted, one list of tree steps explains the trace of these events and outcomes, from
/// the image's tree. That holds as long as no step found no room, also of a call that hasn't replied yet. No path of
/// a call that was started may have the element "..", unless one hart alone has started calls. The tree on the disk,
/// as recovery sees it, is then what has names in the tree after a beginning of that list. That beginning is the
/// steps of the events up to the cut, or up to the doubt.
pub fn run<D: Device>(
    alloc: Global,
    world: World<D>,
    events: &[Event],
) -> Result<Run<D>, (World<D>, NoMemory)>
    ensures history { IfOk result
        (λ r. HasHistory D.contents D.failures world.sizes world.harts events.now r.outcomes.items r.world.harts) }
    ensures explained { IfOk result (λ r. OneHistory D.contents D.failures world events.now r.outcomes.items r.world.harts) }
    ensures cut { IfOk result
        (λ r. HasCut D.contents D.failures world.sizes world.harts events.now r.outcomes.items r.world.harts r.cut r.doubt) }
    ensures stops { IfOk result
        (λ r. RunLeavesABeginning D.contents D.failures world events.now r.outcomes.items r.world.harts r.cut r.doubt) }
    ensures each { IfOk result (λ r. length r.outcomes.items ≡ length events.now) }
    ensures sizes { IfOk result (λ r. r.world.sizes ≡ world.sizes) }
    ensures err { IfErr result (λ e. e.0 ≡ world) }
{
    run_noted(alloc, world, events, &mut ())
}

/// The same, and an observer notes each event as it is made.
pub fn run_noted<D: Device, O: Observer>(
    alloc: Global,
    world: World<D>,
    events: &[Event],
    observer: &mut O,
) -> Result<Run<D>, (World<D>, NoMemory)>
    ensures notes { IfOk result (λ r. NotesRun D.contents D.failures O.Took world.sizes world.harts observer.old events.now
        r.outcomes.items r.world.harts observer.new) }
    ensures history { IfOk result
        (λ r. HasHistory D.contents D.failures world.sizes world.harts events.now r.outcomes.items r.world.harts) }
    ensures explained { IfOk result (λ r. OneHistory D.contents D.failures world events.now r.outcomes.items r.world.harts) }
    ensures cut { IfOk result
        (λ r. HasCut D.contents D.failures world.sizes world.harts events.now r.outcomes.items r.world.harts r.cut r.doubt) }
    ensures stops { IfOk result
        (λ r. RunLeavesABeginning D.contents D.failures world events.now r.outcomes.items r.world.harts r.cut r.doubt) }
    ensures each { IfOk result (λ r. length r.outcomes.items ≡ length events.now) }
    ensures sizes { IfOk result (λ r. r.world.sizes ≡ world.sizes) }
    ensures err { IfErr result (λ e. e.0 ≡ world) }
{
    let Ok(copies) = copies(alloc, events) else {
        return Err((world, NoMemory));
    };
    match Vec::with_capacity(alloc, copies.len()) {
        Ok(room) => {
            let Ran {
                world,
                outcomes,
                marks,
            } = run_all(world, copies, room, observer);
            Ok(Run {
                world,
                outcomes,
                cut: last_of(marks.cut),
                doubt: doubt_of(marks.doubt),
            })
        }
        Err(AllocError) => Err((world, NoMemory)),
    }
}
