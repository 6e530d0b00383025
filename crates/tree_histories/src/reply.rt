//! The reply that a call's steps make.
ghost use Rattle.std.specs.Prelude.{◌≡◌, IsTrue, ◌↔◌};
ghost use Rattle.tree_histories.specs.Stands.{answer_at, handed_at, is_told, reply_at};

use crate::next::is_through;
use crate::stand::Stand;
use plain_tree::handed::is_buffer;
use plain_tree::reply::{is_counted, is_linked, is_plain};
use plain_tree::{Answer, Call, Cause, Reply, StepAnswer};

fn has_answer(call: &Call, cause: Option<Cause>, given: &StepAnswer, answer: &Answer) -> bool
    ensures { IsTrue result ↔ (answer.now ≡ answer_at call.now cause given.now) }
{
    match call {
        Call::Write { bytes, .. } => is_counted(cause, bytes.as_slice().len(), answer),
        Call::Link { .. } => is_linked(cause, answer),
        _ => is_plain(given, answer),
    }
}

/// What was handed back is the call; a read's with what it read.
fn is_handed(call: &Call, given: &StepAnswer, handed: &Call) -> bool
    ensures { IsTrue result ↔ (handed.now ≡ handed_at call.now given.now) }
{
    match (call, handed) {
        (
            Call::Read { fd, buf },
            Call::Read {
                fd: other,
                buf: others,
            },
        ) => fd == other && is_buffer(buf.as_slice(), given, others.as_slice()),
        (Call::Read { .. }, _) => false,
        _ => handed == call,
    }
}

/// The reply is that of a call with this first cause and this first answer.
pub(crate) fn is_reply(call: &Call, cause: Option<Cause>, given: &StepAnswer, reply: &Reply) -> bool
    ensures { IsTrue result ↔ (reply.now ≡ reply_at call.now cause given.now) }
{
    has_answer(call, cause, given, &reply.answer) && is_handed(call, given, &reply.call)
}

/// With the step from `stand` to `then` the call's reply is known: of most calls with the first one.
pub(crate) fn is_told(call: &Call, stand: Stand, then: Stand) -> bool
    ensures { result ≡ is_told call.now stand then }
{
    match call {
        Call::Write { .. } => is_through(call, then),
        Call::Link { .. } => is_through(call, then),
        _ => stand.count == 0,
    }
}
