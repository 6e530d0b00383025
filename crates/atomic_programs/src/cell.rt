//! An example: eight harts that swap one number under a lock, on a device that may fail.

ghost use Rattle.std.specs.Prelude.{◌≡◌, ℕ, ◌<◌, ◌⊎◌, ◌∷◌, [], Bool, true, false, Option, Some, None, IfSome, IfNone, IfOk, IfErr, slice_get, slice_set, get_or};
ghost use Rattle.atomic_programs.specs.Prog.{plain, advance, asks, OfNext, Ran as ItRan};
ghost use Rattle.atomic_programs.specs.Calls.{State, fresh, with_answer, Start as StartOf, Step as StepOf};
ghost use Rattle.atomic_programs.specs.Plain.{plain_makes, erase, Plain, PlainHonest, PlainHonestStep, MayOf, hart_start, hart_step};
ghost use Rattle.atomic_programs.specs.Machines.{moved_to, Still, RestOrResult, program_at, or_waits, or_stops};
ghost use Rattle.atomic_programs.specs.Cell as cell;
ghost use Rattle.atomic_programs.specs.Cell.{Cell, Passes, LeavesOne, exec, may, honest, swaps, rest, Take as TakeOp, Fetch as FetchOp, Store as StoreOp, Drop as DropOp};
ghost use Rattle.atomic_programs.specs.CellCode.{kind_of, open_of, machine_of, OpenFits, MachineFits, HartFits, said_in, said_by, said, call_of, event_of, events_of, outcome_of, outcomes_of, code, plain_of};
ghost use Rattle.atomic_programs.specs.Shown.{CameTo, Shown};

use crate::device::{Device, Fault};
use crate::machines::Stepped;
use std::alloc::{AllocError, Global};
use std::marker::Model;

/// The numbers from here on are no bytes.
const LIMIT: u32 = 256;

/// The lock in a hart's hand. It must be spent.
pub struct Key {
    hart: u8,
}

impl Model for Key {
    ghost use Rattle.std.specs.Prelude.{ℕ};

    ghost Value = { ℕ };

    ghost view = { λ k. k.hart };
}

/// A register that has ended.
#[derive(Drop)]
pub struct Retired {}

impl Key {
    /// Spends the key of a register that has ended.
    pub fn end(self, _retired: &Retired) {
        let Key { hart: _ } = self;
    }
}

/// The number, on its device, and who has the lock.
#[derive(Drop)]
pub struct Register<D: Device> {
    holder: Option<u8>,
    device: D,
}

impl<D: Device> Model for Register<D> {
    ghost use Rattle.atomic_programs.specs.Cell.{Cell};

    ghost Value = { Cell };

    ghost view = { λ r. record { holder = r.holder; count = D.number r.device; faults = D.failures r.device } };
}

impl<D: Device> Register<D> {
    /// A register that nobody has.
    pub fn new(device: D) -> Self
        ensures { result ≡ record { holder = None; count = D.number device; faults = D.failures device } }
    {
        Register {
            holder: None,
            device,
        }
    }

    /// Takes the lock; None only where it is out.
    pub fn take(&mut self, hart: u8) -> Option<Key>
        ensures waits { IfNone result ((exec hart Passes TakeOp self.old ≡ or_waits None self.new) × (self.new ≡ self.old)) }
        ensures took { IfSome result (λ key. (key ≡ hart) × (exec hart Passes TakeOp self.old ≡ ItRan tt self.new)) }
    {
        if self.holder.is_some() {
            return None;
        }
        self.holder = Some(hart);
        Some(Key { hart })
    }

    /// The number, a byte; None if the device fails, which stops the world.
    pub fn fetch(&mut self, key: &Key) -> Option<u8>
        requires { may key.now FetchOp self.old }
        ensures fetches { exec key.now (said_by result self.new) FetchOp self.old ≡ or_stops result self.new }
        ensures honest { honest key.now FetchOp self.old (said_by result self.new) }
    {
        match self.device.get() {
            Ok(number) => Some(number as u8),
            Err(Fault) => None,
        }
    }

    /// Writes the number; None if the device fails, which stops the world.
    pub fn store(&mut self, key: &Key, number: u32) -> Option<()>
        requires { may key.now (StoreOp number) self.old }
        ensures stores { exec key.now (said_by result self.new) (StoreOp number) self.old ≡ or_stops result self.new }
        ensures honest { honest key.now (StoreOp number) self.old (said_by result self.new) }
    {
        match self.device.put(number) {
            Ok(()) => Some(()),
            Err(Fault) => None,
        }
    }

    /// Gives the lock back.
    pub fn release(&mut self, key: Key)
        requires { may key DropOp self.old }
        ensures { exec key Passes DropOp self.old ≡ ItRan tt self.new }
    {
        let Key { hart: _ } = key;
        self.holder = None;
    }

    /// Its device, when no more steps are made.
    pub fn end(self) -> (D, Retired)
        ensures number { D.number result.0 ≡ self.count }
        ensures faults { D.failures result.0 ≡ self.faults }
    {
        let Register { holder: _, device } = self;
        (device, Retired {})
    }
}

/// The kinds of operations with their answers.
#[derive(Clone, Copy)]
pub enum CellKind {
    Take,
    Fetch,
    /// A fetch that answers zero.
    FetchZero,
    Store,
    Drop,
}

impl CellKind {
    /// Of a fetch that answers this number.
    pub fn of_fetch(number: u8) -> CellKind
        ensures { result ≡ kind_of FetchOp number }
    {
        if number == 0 {
            CellKind::FetchZero
        } else {
            CellKind::Fetch
        }
    }
}

/// Takes the lock and fetches the number.
pub enum Open {
    Take,
    Fetch { key: Key },
}

impl Open {
    /// One operation.
    pub fn step<D: Device>(
        self,
        hart: u8,
        register: &mut Register<D>,
    ) -> Stepped<Open, (u8, Key), CellKind>
        requires may { OfNext (may hart) (asks (open_of self)) register.old }
        requires fits { OpenFits hart self }
        ensures moves { advance kind_of (exec hart (said_in result register.new)) (open_of self) register.old
            ≡ moved_to open_of (λ r. r.0) result register.new }
        ensures honest { OfNext (λ op c. honest hart op c (said_in result register.new)) (asks (open_of self)) register.old }
        ensures fits { RestOrResult (OpenFits hart) (λ r. r.1 ≡ hart) result }
        ensures still { Still open_of result self register.old register.new }
    {
        match self {
            Open::Take => match register.take(hart) {
                None => Stepped::Waits(Open::Take),
                Some(key) => Stepped::Ran(Open::Fetch { key }, CellKind::Take),
            },
            Open::Fetch { key } => match register.fetch(&key) {
                None => Stepped::Stopped(Open::Fetch { key }),
                Some(number) => Stepped::Done((number, key), CellKind::of_fetch(number)),
            },
        }
    }

    /// Ends it in mid-call.
    pub fn end(self, retired: &Retired) {
        match self {
            Open::Take => {}
            Open::Fetch { key } => key.end(retired),
        }
    }
}

/// A call of the example.
#[derive(Clone, Copy)]
pub enum Call {
    /// Puts this number in the old one's place, and answers the old one.
    Swap(u32),
    /// Answers the number.
    Look,
}

impl Call {
    /// Whether its number is a byte.
    pub fn fits(&self) -> bool
        ensures { result ≡ cell.fits (call_of self.now) }
    {
        match self {
            Call::Swap(number) => *number < LIMIT,
            Call::Look => true,
        }
    }
}

/// A call under way.
pub enum Machine {
    SwapOpen { number: u32, open: Open },
    Store { number: u32, old: u8, key: Key },
    LookOpen { open: Open },
    Drop { old: u8, key: Key },
}

impl Machine {
    /// The call from its beginning.
    pub fn new(call: Call) -> Machine
        ensures program { machine_of result ≡ plain (swaps.program (call_of call)) }
        ensures fits { (h : ℕ) → MachineFits h result }
    {
        match call {
            Call::Swap(number) => Machine::SwapOpen {
                number,
                open: Open::Take,
            },
            Call::Look => Machine::LookOpen { open: Open::Take },
        }
    }

    /// One operation.
    pub fn step<D: Device>(
        self,
        hart: u8,
        register: &mut Register<D>,
    ) -> Stepped<Machine, u8, CellKind>
        requires may { OfNext (may hart) (asks (machine_of self)) register.old }
        requires fits { MachineFits hart self }
        ensures moves { advance kind_of (exec hart (said_in result register.new)) (machine_of self) register.old
            ≡ moved_to machine_of (λ x. x) result register.new }
        ensures honest { OfNext (λ op c. honest hart op c (said_in result register.new)) (asks (machine_of self)) register.old }
        ensures fits { RestOrResult (MachineFits hart) (λ r. Unit {0}) result }
        ensures still { Still machine_of result self register.old register.new }
    {
        match self {
            Machine::SwapOpen { number, open } => match open.step(hart, register) {
                Stepped::Waits(open) => Stepped::Waits(Machine::SwapOpen { number, open }),
                Stepped::Ran(open, kind) => Stepped::Ran(Machine::SwapOpen { number, open }, kind),
                Stepped::Done(opened, kind) => {
                    let (old, key) = opened;
                    Stepped::Ran(Machine::Store { number, old, key }, kind)
                }
                Stepped::Stopped(open) => Stepped::Stopped(Machine::SwapOpen { number, open }),
            },
            Machine::Store { number, old, key } => match register.store(&key, number) {
                None => Stepped::Stopped(Machine::Store { number, old, key }),
                Some(()) => Stepped::Ran(Machine::Drop { old, key }, CellKind::Store),
            },
            Machine::LookOpen { open } => match open.step(hart, register) {
                Stepped::Waits(open) => Stepped::Waits(Machine::LookOpen { open }),
                Stepped::Ran(open, kind) => Stepped::Ran(Machine::LookOpen { open }, kind),
                Stepped::Done(opened, kind) => {
                    let (old, key) = opened;
                    Stepped::Ran(Machine::Drop { old, key }, kind)
                }
                Stepped::Stopped(open) => Stepped::Stopped(Machine::LookOpen { open }),
            },
            Machine::Drop { old, key } => {
                register.release(key);
                Stepped::Done(old, CellKind::Drop)
            }
        }
    }

    /// Ends it in mid-call.
    pub fn end(self, retired: &Retired) {
        match self {
            Machine::SwapOpen { number: _, open } => open.end(retired),
            Machine::Store {
                number: _,
                old: _,
                key,
            } => key.end(retired),
            Machine::LookOpen { open } => open.end(retired),
            Machine::Drop { old: _, key } => key.end(retired),
        }
    }
}

/// Why a start was refused.
#[derive(Clone, Copy)]
pub enum Refusal {
    /// The hart has a call under way.
    Busy,
    /// There are eight harts.
    NoSuchHart,
    /// The number is no byte.
    TooLarge,
}

/// The outcome of an event.
#[derive(Clone, Copy)]
pub enum Outcome {
    Started,
    Refused(Refusal),
    /// The hart has no call.
    Idle,
    Waits,
    Ran(CellKind),
    Done(u8),
    /// This operation stopped the world.
    Stops,
    /// The world had stopped before.
    Stopped,
}

/// A start or a step of one hart.
#[derive(Clone, Copy)]
pub enum Event {
    Start(u8, Call),
    Step(u8),
}

// Takes out what the hart does.
fn take_out(calls: &mut [Option<Machine>; 8], hart: u8) -> Option<Machine>
    requires { hart < 8 }
    ensures value { slice_get calls.old hart ≡ Some result }
    ensures after { calls.new ≡ slice_set calls.old hart None }
    ensures none { slice_get calls.new hart ≡ Some None }
{
    std::mem::replace(&mut calls[hart as usize], None)
}

// Puts back what a hart does.
fn put_back(calls: &mut [Option<Machine>; 8], hart: u8, call: Option<Machine>)
    requires { slice_get calls.old hart ≡ Some None }
    ensures { calls.new ≡ slice_set calls.old hart call }
{
    match std::mem::replace(&mut calls[hart as usize], call) {
        None => {}
        Some(_other) => unreachable!(),
    }
}

// A start of a hart that does this.
fn start(doing: Option<Machine>, hart: u8, call: Call) -> (Option<Machine>, Outcome)
    requires eight { hart < 8 }
    requires fits { HartFits hart doing }
    ensures makes { (busy : ℕ → Bool) (c : Cell) (b : Bool)
        → hart_start swaps code hart (call_of call) busy c b (program_at machine_of doing)
        ≡ record { came = outcome_of result.1; left = program_at machine_of result.0; shared = c; stopped = b } }
    ensures fits { HartFits hart result.0 }
{
    match doing {
        Some(other) => (Some(other), Outcome::Refused(Refusal::Busy)),
        None => {
            if call.fits() {
                (Some(Machine::new(call)), Outcome::Started)
            } else {
                (None, Outcome::Refused(Refusal::TooLarge))
            }
        }
    }
}

// A step of a hart that does this; and whether the world has stopped.
fn step<D: Device>(
    doing: Option<Machine>,
    hart: u8,
    register: &mut Register<D>,
    stopped: bool,
) -> (Option<Machine>, Outcome, bool)
    requires may { stopped ≡ false → MayOf swaps code hart register.old (program_at machine_of doing) }
    requires fits { HartFits hart doing }
    ensures makes { hart_step swaps code hart (said result.1 register.new) register.old stopped (program_at machine_of doing)
        ≡ record { came = outcome_of result.1; left = program_at machine_of result.0; shared = register.new; stopped = result.2 } }
    ensures honest { PlainHonestStep swaps code hart (said result.1 register.new) register.old stopped (program_at machine_of doing) }
    ensures fits { HartFits hart result.0 }
{
    match doing {
        None => (None, Outcome::Idle, stopped),
        Some(call) => {
            if stopped {
                return (Some(call), Outcome::Stopped, true);
            }
            match call.step(hart, register) {
                Stepped::Waits(call) => (Some(call), Outcome::Waits, false),
                Stepped::Ran(call, kind) => (Some(call), Outcome::Ran(kind), false),
                Stepped::Done(reply, _kind) => (None, Outcome::Done(reply), false),
                Stepped::Stopped(call) => (Some(call), Outcome::Stops, true),
            }
        }
    }
}

// Ends what a hart does.
fn end(doing: Option<Machine>, retired: &Retired) {
    match doing {
        None => {}
        Some(call) => call.end(retired),
    }
}

fn end_all(calls: [Option<Machine>; 8], retired: &Retired) {
    let [a, b, c, d, e, f, g, h] = calls;
    end(a, retired);
    end(b, retired);
    end(c, retired);
    end(d, retired);
    end(e, retired);
    end(f, retired);
    end(g, retired);
    end(h, retired);
}

/// Eight harts over one register. It must be unmounted.
pub struct World<D: Device> {
    register: Register<D>,
    stopped: bool,
    calls: [Option<Machine>; 8],
}

impl<D: Device> Model for World<D> {
    ghost use Rattle.atomic_programs.specs.CellCode.{Harts, IsWorld};

    ghost Value = { Harts };

    ghost view = { λ w. record { shared = w.register; stopped = w.stopped; calls = w.calls } };

    ghost invariant = { λ w. IsWorld (record { shared = w.register; stopped = w.stopped; calls = w.calls }) };
}

impl<D: Device> World<D> {
    /// Eight idle harts over this device; it is given back if it fails, or if its number is no byte.
    pub fn new(device: D) -> Result<World<D>, D>
        ensures byte { IfOk result (λ w. D.number device < 256) }
        ensures rests { IfOk result (λ w. plain_of w ≡ erase swaps code (fresh swaps (rest (D.number device) (D.failures device)))) }
        ensures err { IfErr result (λ d. D.number d ≡ D.number device) }
    {
        let mut device = device;
        let number = match device.get() {
            Ok(number) => number,
            Err(Fault) => return Err(device),
        };
        if number >= LIMIT {
            return Err(device);
        }
        Ok(World {
            register: Register::new(device),
            stopped: false,
            calls: [None, None, None, None, None, None, None, None],
        })
    }

    /// Begins a call.
    pub fn start(&mut self, hart: u8, call: Call) -> Outcome
        ensures makes { plain_makes swaps code (StartOf hart (call_of call)) (plain_of self.old)
            ≡ record { came = outcome_of result; after = plain_of self.new } }
    {
        let calls = &self.calls;
        if hart as usize >= calls.len() {
            return Outcome::Refused(Refusal::NoSuchHart);
        }
        let doing = take_out(&mut self.calls, hart);
        let (doing, outcome) = start(doing, hart, call);
        put_back(&mut self.calls, hart, doing);
        outcome
    }

    /// One operation of a hart's call.
    pub fn step(&mut self, hart: u8) -> Outcome
        ensures makes { plain_makes swaps code (StepOf hart (said result self.new.shared)) (plain_of self.old)
            ≡ record { came = outcome_of result; after = plain_of self.new } }
        ensures honest { PlainHonest swaps code (StepOf hart (said result self.new.shared)) (plain_of self.old) }
    {
        let calls = &self.calls;
        if hart as usize >= calls.len() {
            return Outcome::Idle;
        }
        let doing = take_out(&mut self.calls, hart);
        let (doing, outcome, stopped) = step(doing, hart, &mut self.register, self.stopped);
        put_back(&mut self.calls, hart, doing);
        self.stopped = stopped;
        outcome
    }

    /// One event.
    pub fn event(&mut self, event: Event) -> Outcome
        ensures makes { plain_makes swaps code (with_answer (event_of event) (said result self.new.shared)) (plain_of self.old)
            ≡ record { came = outcome_of result; after = plain_of self.new } }
        ensures honest { PlainHonest swaps code (with_answer (event_of event) (said result self.new.shared)) (plain_of self.old) }
    {
        match event {
            Event::Start(hart, call) => self.start(hart, call),
            Event::Step(hart) => self.step(hart),
        }
    }

    /// Ends the world, in mid-call too, and gives its device back.
    pub fn unmount(self) -> D
        ensures number { D.number result ≡ self.shared.count }
        ensures faults { D.failures result ≡ self.shared.faults }
    {
        let World {
            register,
            stopped: _,
            calls,
        } = self;
        let (device, retired) = register.end();
        end_all(calls, &retired);
        device
    }
}

/// These events, one after the other, and their outcomes. With its history, the world is what the run makes of it, if
/// the device answers as it may. From a world at rest, one list of steps explains the replies.
pub fn run<D: Device>(
    world: &mut World<D>,
    alloc: Global,
    events: &[Event],
) -> Result<Vec<Outcome>, AllocError>
    ensures came { IfOk result
        (λ v. (s : State swaps) → erase swaps code s ≡ plain_of world.old
        → CameTo swaps code s (events_of events.now) (outcomes_of v.items) (plain_of world.new)) }
    ensures shown { IfOk result
        (λ v. (w : cell.World) → cell.Inv w → ((h : ℕ) → cell.own_of h w ≡ None) → erase swaps code (fresh swaps w) ≡ plain_of world.old
        → Shown swaps code w (events_of events.now) (outcomes_of v.items) (plain_of world.new)) }
    ensures err { IfErr result (λ e. world.new ≡ world.old) }
{
    let mut came = Vec::with_capacity(alloc, events.len())?;
    for event in events {
        let outcome = world.event(*event);
        match came.push(outcome) {
            Ok(()) => {}
            Err(_) => unreachable!(),
        }
    }
    Ok(came)
}

/// A world over this device, and these events: whatever the harts do and whenever the device fails, one list of steps
/// explains the replies. The device is given back if its number is no byte, if it fails at once, or if memory is
/// refused.
pub fn show<D: Device>(
    device: D,
    alloc: Global,
    events: &[Event],
) -> Result<(World<D>, Vec<Outcome>), D>
    ensures shown { IfOk result
        (λ r. Shown swaps code (rest (D.number device) (D.failures device)) (events_of events.now) (outcomes_of r.1.items) (plain_of r.0)) }
    ensures err { IfErr result (λ d. D.number d ≡ D.number device) }
{
    let mut world = World::new(device)?;
    match run(&mut world, alloc, events) {
        Ok(came) => Ok((world, came)),
        Err(AllocError) => Err(world.unmount()),
    }
}

#[cfg(test)]
mod tests {
    use super::*;
    use crate::device::Fused;
    use std::process::Abort;

    fn world(rt: &impl Abort, number: u32, left: u32) -> World<Fused> {
        let device = Fused {
            number,
            left,
            faults: 0,
        };
        match World::new(device) {
            Ok(world) => world,
            Err(_) => panic!(rt; "the number is a byte"),
        }
    }

    // These events, once more if memory was refused.
    fn ran(
        rt: &impl Abort,
        alloc: Global,
        world: &mut World<Fused>,
        events: &[Event],
    ) -> Vec<Outcome> {
        match run(world, alloc, events) {
            Ok(came) => came,
            Err(AllocError) => run(world, alloc, events).expect(rt, "memory the second time"),
        }
    }

    /// Two harts meet: one waits, and sees what the other put in; then the device fails, and the world ends in mid-call.
    #[test]
    fn two_harts_meet(rt: HostRuntime) {
        let mut world = world(&rt, 5, 1);
        let events = [
            Event::Start(0, Call::Swap(7)),
            Event::Step(0),
            Event::Start(1, Call::Look),
            Event::Step(1),
            Event::Step(0),
            Event::Step(0),
        ];
        let came = ran(&rt, rt.alloc(), &mut world, &events);
        assert!(rt; came.len() == 6);
        assert!(rt; matches!(came[3], Outcome::Waits));
        assert!(rt; matches!(came[5], Outcome::Ran(CellKind::Store)));
        assert!(rt;
            matches!(
                world.start(8, Call::Look),
                Outcome::Refused(Refusal::NoSuchHart)
            )
        );
        assert!(rt; matches!(world.start(0, Call::Look), Outcome::Refused(Refusal::Busy)));
        assert!(rt;
            matches!(
                world.start(2, Call::Swap(256)),
                Outcome::Refused(Refusal::TooLarge)
            )
        );
        assert!(rt; matches!(world.step(1), Outcome::Waits));
        assert!(rt; matches!(world.step(0), Outcome::Done(5)));
        assert!(rt; matches!(world.step(0), Outcome::Idle));
        assert!(rt; matches!(world.step(1), Outcome::Ran(CellKind::Take)));
        assert!(rt; matches!(world.step(1), Outcome::Ran(CellKind::Fetch)));
        assert!(rt; matches!(world.step(1), Outcome::Done(7)));
        let came = ran(
            &rt,
            rt.alloc(),
            &mut world,
            &[
                Event::Start(2, Call::Swap(9)),
                Event::Step(2),
                Event::Step(2),
            ],
        );
        assert!(rt; came.len() == 3);
        assert!(rt; matches!(world.step(2), Outcome::Stops));
        assert!(rt; matches!(world.step(2), Outcome::Stopped));
        assert!(rt; matches!(world.start(3, Call::Look), Outcome::Started));
        assert!(rt; matches!(world.step(3), Outcome::Stopped));
        let device = world.unmount();
        assert!(rt; device.number == 9);
        assert!(rt; device.faults == 1);
    }

    /// A number that is no byte is given back.
    #[test]
    fn no_byte_is_refused(rt: HostRuntime) {
        let device = Fused {
            number: 256,
            left: 1,
            faults: 0,
        };
        match World::new(device) {
            Ok(world) => {
                let _device = world.unmount();
                panic!(rt; "256 is no byte");
            }
            Err(device) => {
                assert!(rt; device.number == 256);
            }
        }
    }
}
