//! A plan of turns: calls of eight harts, made on a world in an order that is drawn from a seed.
use crate::asks::{DIRECTORIES, FILES, Rounds, call_of};
use crate::kernels::{copied, no_kernel, push};
use crate::runs::LeftRun;
use block_device::MemoryDisk;
use hart_core::{Came, Event, Outcome, World};
use plain_tree::HARTS;
use std::alloc::Global;
use std::process::Abort;

// The number of tables of calls that the harts go through, each of them four.
const TABLES: u32 = 32;

/// How many calls a plan has: each table has 17.
pub const CALLS: u32 = 544;

// More draws than a plan takes.
const MOST_DRAWS: u32 = 1_000_000;

// Numbers that look as if drawn.
#[derive(Drop)]
struct Draw {
    last: u64,
}

impl Draw {
    fn new(seed: u64) -> Draw {
        Draw {
            last: seed.wrapping_mul(0x9e37_79b9_7f4a_7c15) | 1,
        }
    }

    fn next(&mut self) -> u64 {
        let last = self.last ^ (self.last << 13);
        let last = last ^ (last >> 7);
        self.last = last ^ (last << 17);
        self.last >> 11
    }
}

/// Calls of eight harts, and what a world makes of them if each event is the next turn.
#[derive(Drop)]
pub struct Plan {
    pub rounds: Rounds,
    pub left: LeftRun,
}

impl Plan {
    /// The harts whose turns they are, in their order.
    pub fn turns(&self, rt: &impl Abort, alloc: Global) -> Vec<u8> {
        let mut turns = Vec::new(alloc);
        for event in &self.left.events {
            push(rt, &mut turns, hart_of(event));
        }
        turns
    }
}

fn hart_of(event: &Event) -> u8 {
    match event {
        Event::Start { hart, call: _ } => *hart,
        Event::Step { hart } => *hart,
    }
}

// How far a hart is: how many calls it has started, and whether the last one is under way.
#[derive(Clone, Copy)]
struct Stand {
    started: usize,
    is_busy: bool,
}

// The events so far, their outcomes, and how far each hart is.
#[derive(Drop)]
struct Made {
    events: Vec<Event>,
    outcomes: Vec<Came>,
    stands: [Stand; HARTS as usize],
}

impl Made {
    fn new(alloc: Global) -> Made {
        let stand = Stand {
            started: 0,
            is_busy: false,
        };
        Made {
            events: Vec::new(alloc),
            outcomes: Vec::new(alloc),
            stands: [stand; HARTS as usize],
        }
    }

    fn is_through(&self, rounds: &Rounds) -> bool {
        for hart in 0..8u8 {
            let stand = self.stands[usize::from(hart) % usize::from(HARTS)];
            if stand.is_busy || stand.started < rounds.rows(hart).len() {
                return false;
            }
        }
        true
    }

    // The next event of a hart, if it has one left.
    fn next(&self, rt: &impl Abort, alloc: Global, rounds: &Rounds, hart: u8) -> Option<Event> {
        let stand = self.stands[usize::from(hart) % usize::from(HARTS)];
        if stand.is_busy {
            return Some(Event::Step { hart });
        }
        match rounds.rows(hart).get(stand.started) {
            Some((ask, _, _)) => {
                let call = call_of(rt, alloc, hart, *ask);
                Some(Event::Start { hart, call })
            }
            None => None,
        }
    }

    fn note(&mut self, rt: &impl Abort, event: Event, came: Came) {
        let at = usize::from(hart_of(&event)) % usize::from(HARTS);
        let mut stand = self.stands[at];
        match &came {
            Came::Started => {
                stand.started = stand.started.saturating_add(1);
                stand.is_busy = true;
            }
            Came::Stepped(Outcome::Done(_)) => stand.is_busy = false,
            _ => {}
        }
        self.stands[at] = stand;
        push(rt, &mut self.events, event);
        push(rt, &mut self.outcomes, came);
    }
}

// Makes a hart's next event. A try that waits is no turn.
fn turn(
    rt: &impl Abort,
    alloc: Global,
    world: &mut World<MemoryDisk>,
    rounds: &Rounds,
    made: &mut Made,
    hart: u8,
) {
    let Some(event) = made.next(rt, alloc, rounds, hart) else {
        return;
    };
    let copy = event.clone().expect(rt, "error");
    let came = world.event(event);
    if !matches!(came, Came::Stepped(Outcome::Waits)) {
        made.note(rt, copy, came);
    }
}

// Makes all calls; each event is that of a hart which is drawn.
fn play(
    rt: &impl Abort,
    alloc: Global,
    world: &mut World<MemoryDisk>,
    rounds: &Rounds,
    draw: &mut Draw,
) -> Made {
    let mut made = Made::new(alloc);
    for _ in 0..MOST_DRAWS {
        if made.is_through(rounds) {
            break;
        }
        let hart = (draw.next() % 8) as u8;
        turn(rt, alloc, world, rounds, &mut made, hart);
    }
    made
}

// The tables of each hart, drawn.
fn draw_rounds(rt: &impl Abort, alloc: Global, draw: &mut Draw) -> Rounds {
    let mut rounds = Rounds::new(rt, alloc, &[]);
    for table in 0..TABLES {
        let hart = (table % 8) as u8;
        if draw.next() % 3 == 0 {
            rounds.add(rt, hart, &DIRECTORIES);
        } else {
            rounds.add(rt, hart, &FILES);
        }
    }
    rounds
}

fn mounted(rt: &impl Abort, alloc: Global, image: &[u8]) -> World<MemoryDisk> {
    match World::mount(alloc, MemoryDisk::new(copied(rt, alloc, image))) {
        Ok(world) => world,
        Err((_, fault)) => no_kernel(rt, fault),
    }
}

/// A plan on this image, as a seed has it.
pub fn draw_plan(rt: &impl Abort, alloc: Global, image: &[u8], seed: u64) -> Plan {
    let mut draw = Draw::new(seed);
    let rounds = draw_rounds(rt, alloc, &mut draw);
    let mut world = mounted(rt, alloc, image);
    let Made {
        events,
        outcomes,
        stands: _,
    } = play(rt, alloc, &mut world, &rounds, &mut draw);
    let left = LeftRun {
        events,
        outcomes,
        bytes: world.unmount().into_bytes(),
    };
    Plan { rounds, left }
}
