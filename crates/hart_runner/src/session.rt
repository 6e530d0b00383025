//! Two calls in two threads, and the end of the kernel.
ghost use Rattle.std.specs.Prelude.{◌≡◌, IfSome, slice_index_or};
ghost use Rattle.hart_runner.specs.Vocabulary.{HandsBack};
ghost use Rattle.hart_runner.specs.Session.{Has, StandsIn};

use crate::gate::Gate;
use crate::kernel::{CallFault, Kernel, Seat};
use locked_world::{Closed, Receipt};
use plain_tree::Call;
use std::sync::Wait;
use std::sync::ledger::Ledger;
use std::thread;
use std::thread::Threads;

// A call, with its receipt if there is a reply.
#[tactic(auto, using(crate::proofs::Stands::added))]
fn with_receipt<L: Ledger, G: Gate + Drop, R: Wait>(
    rt: &R,
    kernel: &Kernel<L, G>,
    seat: Seat<L>,
    call: Call,
) -> (Seat<L>, Option<Receipt<L>>)
    ensures { IfSome result.1 (λ r. Has result.0 r × HandsBack call r.reply) }
{
    match kernel.call(rt, seat, call) {
        Ok((seat, receipt)) => (seat, Some(receipt)),
        Err(CallFault::Start(seat, _, _)) => (seat, None),
        Err(CallFault::Memory(seat, _)) => (seat, None),
        Err(CallFault::Stopped(busy, _)) => (busy.give_up(), None),
    }
}

// The seats of harts 0 and 1, and the others.
fn two_of<L: Ledger>(seats: [Seat<L>; 8]) -> (Seat<L>, Seat<L>, [Seat<L>; 6]) {
    let [a, b, c, d, e, f, g, h] = seats;
    (a, b, [c, d, e, f, g, h])
}

fn all_of<L: Ledger>(a: Seat<L>, b: Seat<L>, others: [Seat<L>; 6]) -> [Seat<L>; 8]
    ensures first { slice_index_or result 0 a ≡ a }
    ensures second { slice_index_or result 1 b ≡ b }
{
    let [c, d, e, f, g, h] = others;
    [a, b, c, d, e, f, g, h]
}

/// Two calls in two threads. Both replies are in the one list, each at its place among its hart's, and each hands its
/// call back.
#[tactic(auto, using(crate::proofs::Stands::stands))]
pub fn two_calls<L: Ledger + Send + Sync, G: Gate + Drop + Sync, R: Threads + Wait + Sync>(
    rt: &R,
    kernel: Kernel<L, G>,
    seats: [Seat<L>; 8],
    x: Call,
    y: Call,
) -> Option<(Closed<L>, Receipt<L>, Receipt<L>)>
    requires { L.parts ≡ 8 }
    ensures first { IfSome result (λ r. StandsIn r.0.stored r.1) }
    ensures second { IfSome result (λ r. StandsIn r.0.stored r.2) }
    ensures hands { IfSome result (λ r. HandsBack x r.1.reply × HandsBack y r.2.reply) }
{
    let (a, b, others) = two_of(seats);
    let shared = &kernel;
    let (one, two) = thread::join(
        rt,
        move || -> (Seat<L>, Option<Receipt<L>>)
            ensures { IfSome result.1 (λ r. Has result.0 r × HandsBack x r.reply) }
        { with_receipt(rt, shared, a, x) },
        move || -> (Seat<L>, Option<Receipt<L>>)
            ensures { IfSome result.1 (λ r. Has result.0 r × HandsBack y r.reply) }
        { with_receipt(rt, shared, b, y) },
    );
    let (a, first) = one;
    let (b, second) = two;
    let Ok(closed) = kernel.close(all_of(a, b, others)) else {
        return None;
    };
    let Some(first) = first else {
        return None;
    };
    let Some(second) = second else {
        return None;
    };
    Some((closed, first, second))
}
