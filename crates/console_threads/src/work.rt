//! Eight harts that make their calls at once.
ghost use Rattle.std.specs.Prelude.{◌≡◌, [], None, IfOk, IfErr, IfNone, All, map};
ghost use Rattle.console_threads.specs.Vocabulary.{IsAnswered, IsRefused, busy_of};
ghost use Rattle.console_threads.specs.Faults.{IsBroken};
ghost use Rattle.console_threads.specs.Worked.{AllAnswered, EachWorked, HasMade, HasWorked, eight_harts};

use crate::fault::ThreadsFault;
use console::ConsoleFault;
use hart_runner::{CallFault, Kernel, NoGate, Seat};
use locked_world::{Closed, Halt, Receipt};
use plain_tree::Call;
use std::sync::Wait;
use std::sync::ledger::Ledger;
use std::thread;
use std::thread::Threads;

/// A hart's seat, and the calls that it has to make.
#[derive(Drop)]
pub struct Task<L: Ledger> {
    seat: Seat<L>,
    calls: Vec<Call>,
}

/// Why a hart didn't reach the end of its calls.
#[derive(Clone, Copy, PartialEq, Eq, Debug)]
pub enum Broke {
    Memory,
    Device,
}

/// What a hart's work leaves.
#[derive(Drop)]
pub struct Worked<L: Ledger> {
    seat: Seat<L>,
    broke: Option<Broke>,
}

// Makes a call. What finds no memory is tried once more.
fn call_twice<L: Ledger, R: Wait>(
    rt: &R,
    kernel: &Kernel<L, NoGate>,
    seat: Seat<L>,
    call: Call,
) -> Result<(Seat<L>, Receipt<L>), CallFault<L>>
    ensures ok { IfOk result (λ r. IsAnswered (busy_of seat call) r.0 r.1) }
    ensures err { IfErr result (λ e. IsRefused seat call e) }
{
    match kernel.call(rt, seat, call) {
        Err(CallFault::Memory(seat, call)) => kernel.call(rt, seat, call),
        Err(CallFault::Stopped(busy, Halt::NoMemory)) => match kernel.resume(rt, busy) {
            Ok(made) => Ok(made),
            Err(fault) => Err(fault),
        },
        ended => ended,
    }
}

// Makes a call, or tries to: a refused start is the call's end too.
fn make<L: Ledger, R: Wait>(
    rt: &R,
    kernel: &Kernel<L, NoGate>,
    seat: Seat<L>,
    call: Call,
) -> Worked<L>
    ensures hart { result.seat.hart ≡ seat.hart }
    ensures made { IfNone result.broke (HasMade seat call result.seat) }
{
    match call_twice(rt, kernel, seat, call) {
        Ok((seat, _receipt)) => Worked { seat, broke: None },
        Err(CallFault::Start(seat, _call, _why)) => Worked { seat, broke: None },
        Err(CallFault::Memory(seat, _call)) => Worked {
            seat,
            broke: Some(Broke::Memory),
        },
        Err(CallFault::Stopped(busy, halt)) => Worked {
            seat: busy.give_up(),
            broke: Some(broke_by(halt)),
        },
    }
}

fn broke_by(halt: Halt) -> Broke {
    match halt {
        Halt::NoMemory => Broke::Memory,
        Halt::DeviceFault | Halt::Halted => Broke::Device,
    }
}

// Makes a hart's calls in their order.
fn work<L: Ledger, R: Wait>(rt: &R, kernel: &Kernel<L, NoGate>, task: Task<L>) -> Worked<L>
    ensures { HasWorked task result }
{
    let Task { seat, calls } = task;
    let mut seat = seat;
    for call in calls {
        let made = make(rt, kernel, seat, call);
        match made.broke {
            None => seat = made.seat,
            Some(_) => return made,
        }
    }
    Worked { seat, broke: None }
}

fn two_work<L: Ledger + Send + Sync, R: Threads + Wait + Sync>(
    rt: &R,
    kernel: &Kernel<L, NoGate>,
    a: Task<L>,
    b: Task<L>,
) -> (Worked<L>, Worked<L>)
    ensures first { HasWorked a result.0 }
    ensures second { HasWorked b result.1 }
{
    thread::join(
        rt,
        move || -> Worked<L>
            ensures { HasWorked a result }
        { work(rt, kernel, a) },
        move || -> Worked<L>
            ensures { HasWorked b result }
        { work(rt, kernel, b) },
    )
}

type Four<T> = (T, T, T, T);

fn four_work<L: Ledger + Send + Sync, R: Threads + Wait + Sync>(
    rt: &R,
    kernel: &Kernel<L, NoGate>,
    a: Task<L>,
    b: Task<L>,
    c: Task<L>,
    d: Task<L>,
) -> Four<Worked<L>>
    ensures first { HasWorked a result.0 }
    ensures second { HasWorked b result.1 }
    ensures third { HasWorked c result.2 }
    ensures fourth { HasWorked d result.3 }
{
    let ((a, b), (c, d)) = thread::join(
        rt,
        move || -> (Worked<L>, Worked<L>)
            ensures { HasWorked a result.0 × HasWorked b result.1 }
        { two_work(rt, kernel, a, b) },
        move || -> (Worked<L>, Worked<L>)
            ensures { HasWorked c result.0 × HasWorked d result.1 }
        { two_work(rt, kernel, c, d) },
    );
    (a, b, c, d)
}

// All eight at once, each in a thread of its own.
#[tactic(auto, using(crate::proofs::Working::each_of_eight))]
fn eight_work<L: Ledger + Send + Sync, R: Threads + Wait + Sync>(
    rt: &R,
    kernel: &Kernel<L, NoGate>,
    tasks: [Task<L>; 8],
) -> [Worked<L>; 8]
    ensures { EachWorked tasks result }
{
    let [a, b, c, d, e, f, g, h] = tasks;
    let ((a, b, c, d), (e, f, g, h)) = thread::join(
        rt,
        move || -> Four<Worked<L>>
            ensures { HasWorked a result.0 × HasWorked b result.1 × HasWorked c result.2 × HasWorked d result.3 }
        { four_work(rt, kernel, a, b, c, d) },
        move || -> Four<Worked<L>>
            ensures { HasWorked e result.0 × HasWorked f result.1 × HasWorked g result.2 × HasWorked h result.3 }
        { four_work(rt, kernel, e, f, g, h) },
    );
    [a, b, c, d, e, f, g, h]
}

// Each hart's seat with its calls.
#[tactic(auto, using(hart_runner::proofs::Eight::eight))]
fn tasks_of<L: Ledger>(seats: [Seat<L>; 8], calls: [Vec<Call>; 8]) -> [Task<L>; 8]
    ensures seats { map (λ t. t.seat) result ≡ seats }
    ensures calls { map (λ t. t.calls.items) result ≡ map (λ v. v.items) calls }
{
    let [a, b, c, d, e, f, g, h] = seats;
    let [i, j, k, l, m, n, o, p] = calls;
    [
        Task { seat: a, calls: i },
        Task { seat: b, calls: j },
        Task { seat: c, calls: k },
        Task { seat: d, calls: l },
        Task { seat: e, calls: m },
        Task { seat: f, calls: n },
        Task { seat: g, calls: o },
        Task { seat: h, calls: p },
    ]
}

// The seats, and why the first hart that didn't reach its end didn't.
#[tactic(auto, using(hart_runner::proofs::Eight::eight))]
fn seats_of<L: Ledger>(worked: [Worked<L>; 8]) -> ([Seat<L>; 8], Option<Broke>)
    ensures seats { map (λ w. w.seat) worked ≡ result.0 }
    ensures none { IfNone result.1 (All (λ w. w.broke ≡ None) worked) }
{
    let [a, b, c, d, e, f, g, h] = worked;
    let broke = (a.broke.or(b.broke).or(c.broke).or(d.broke)).or(
        e.broke.or(f.broke).or(g.broke).or(h.broke),
    );
    let seats = [
        a.seat, b.seat, c.seat, d.seat, e.seat, f.seat, g.seat, h.seat,
    ];
    (seats, broke)
}

/// Each hart's thread makes its calls in their order, and then the kernel ends. `Ok` only if each reached its end.
pub fn run_calls<L: Ledger + Send + Sync, R: Threads + Wait + Sync>(
    rt: &R,
    kernel: Kernel<L, NoGate>,
    seats: [Seat<L>; 8],
    calls: [Vec<Call>; 8],
) -> Result<Closed<L>, ThreadsFault>
    requires parts { L.parts ≡ 8 }
    requires harts { map (λ s. s.hart) seats ≡ eight_harts }
    requires fresh { All (λ s. (s.replies ≡ []) × (s.count ≡ 0)) seats }
    ensures ok { IfOk result (λ c. AllAnswered (map (λ v. v.items) calls) c.stored) }
    ensures err { IfErr result IsBroken }
{
    let worked = eight_work(rt, &kernel, tasks_of(seats, calls));
    let (seats, broke) = seats_of(worked);
    match (kernel.close(seats), broke) {
        (_, Some(Broke::Memory)) => Err(ThreadsFault::Console(ConsoleFault::Memory)),
        (_, Some(Broke::Device)) => Err(ThreadsFault::Device),
        (Ok(closed), None) => Ok(closed),
        (Err(_), None) => Err(ThreadsFault::Strange),
    }
}
