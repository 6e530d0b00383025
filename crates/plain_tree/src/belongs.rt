//! When the entries of a list belong to the calls of a trace.
ghost use Rattle.std.specs.Prelude.{◌≡◌, IsTrue, ◌↔◌};
ghost use Rattle.plain_tree.specs.Explains.{AllBelong, Belongs, IsInTime, Rises};

use crate::answer::Reply;
use crate::trace::{Placed, Trace};

/// The event numbers never fall.
pub(crate) fn rises(list: &[Placed]) -> bool
    ensures { IsTrue result ↔ Rises 0 list.now }
{
    let mut lowest = 0;
    for entry in list {
        if entry.event < lowest {
            return false;
        }
        lowest = entry.event;
    }
    true
}

/// Not after the return; if there is none, not after the last event.
fn is_in_time(events: u64, event: u64, finished: &Option<(u64, Reply)>) -> bool
    ensures { IsTrue result ↔ IsInTime events event finished.now }
{
    match finished {
        Some((end, _)) => event <= *end,
        None => event < events,
    }
}

/// The entry's call is in the trace, is of the entry's hart, and is under way at the entry's event.
fn belongs(trace: &Trace, entry: &Placed) -> bool
    ensures { IsTrue result ↔ Belongs trace.now entry.now }
{
    match trace.calls.as_slice().get(entry.call) {
        Some(traced) => {
            entry.step.hart == traced.hart
                && traced.start <= entry.event
                && is_in_time(trace.events, entry.event, &traced.finished)
        }
        None => false,
    }
}

/// Every entry belongs to a call of the trace.
pub(crate) fn all_belong(trace: &Trace, list: &[Placed]) -> bool
    ensures { IsTrue result ↔ AllBelong trace.now list.now }
{
    for entry in list {
        if !belongs(trace, entry) {
            return false;
        }
    }
    true
}
