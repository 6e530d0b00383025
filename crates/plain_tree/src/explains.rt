//! When a list of steps explains a trace.
ghost use Rattle.std.specs.Prelude.{◌≡◌, IfOk, IsTrue, ◌↔◌};
ghost use Rattle.plain_tree.specs.Calls.{IsWhole};
ghost use Rattle.plain_tree.specs.Checked.{AllWritten};
ghost use Rattle.plain_tree.specs.Explains.{Explains, IsWritten, acts_of};

use crate::answer::Reply;
use crate::belongs::{all_belong, rises};
use crate::call::Call;
use crate::leads::leads;
use crate::refused::NoMemory;
use crate::reply::{had_room, is_reply};
use crate::trace::{Placed, Trace, TracedCall};
use crate::tree::Tree;
use crate::written::{is_beginning, is_through};
use image_versions::Version;
use std::alloc::Global;

/// The list has the call's whole written sequence, which makes this reply.
fn is_whole(id: usize, call: &Call, list: &[Placed], reply: &Reply) -> bool
    ensures { IsTrue result ↔ IsWhole call.now (acts_of id list.now) reply.now }
{
    is_beginning(id, call, list)
        && is_through(id, call, list)
        && is_reply(id, call, list, reply)
        && had_room(id, list)
}

/// The list has the steps of the call: all if it is finished, else a beginning.
fn is_written(id: usize, traced: &TracedCall, list: &[Placed]) -> bool
    ensures { IsTrue result ↔ IsWritten traced.now.call (acts_of id list.now) traced.now.finished }
{
    match &traced.finished {
        Some((_, reply)) => is_whole(id, &traced.call, list, reply),
        None => is_beginning(id, &traced.call, list),
    }
}

/// The list has the steps of each call: all if it is finished, else a beginning.
fn all_written(calls: &[TracedCall], list: &[Placed]) -> bool
    ensures { IsTrue result ↔ AllWritten calls.now list.now }
{
    for (id, traced) in calls.iter().enumerate() {
        if !is_written(id, traced, list) {
            return false;
        }
    }
    true
}

/// The list of tree steps explains the trace from this tree. The event numbers never fall, and each step leads on
/// from the one before. Each call has its steps and its reply, and no entry belongs to anything else. The steps are
/// made on a copy of the tree. The error is that memory is short for the copy or for a step.
pub fn check(
    alloc: Global,
    version: Version,
    base: &Tree,
    trace: &Trace,
    list: &[Placed],
) -> Result<bool, NoMemory>
    ensures { IfOk result (λ b. IsTrue b ↔ Explains version base.now trace.now list.now) }
{
    if rises(list) && all_belong(trace, list) && all_written(trace.calls.as_slice(), list) {
        leads(alloc, version, base, list)
    } else {
        Ok(false)
    }
}
