//! The reply that a call's steps make.
ghost use Rattle.std.specs.Prelude.{◌≡◌, IsTrue, ◌↔◌, MatchOption};
ghost use Rattle.plain_tree.specs.Calls.{cause_of, counted, first_answer, first_cause, had_room, in_buffer, linked, plain_answer, reply_of};
ghost use Rattle.plain_tree.specs.Checked.{is_full};
ghost use Rattle.plain_tree.specs.Explains.{acts_of};
ghost use Rattle.plain_tree.specs.declared.step.StepAnswer.TheVariants.{Done as IsDone};

use crate::answer::{Answer, Cause, Reply};
use crate::call::Call;
use crate::handed::{is_buffer, same_bytes};
use crate::step::StepAnswer;
use crate::trace::Placed;

/// The answer is that there is no room.
pub fn is_full(answer: &StepAnswer) -> bool
    ensures { result ≡ is_full answer.now }
{
    matches!(answer, StepAnswer::Full { .. })
}

/// No step of the call answered that there is no room.
pub(crate) fn had_room(id: usize, list: &[Placed]) -> bool
    ensures { result ≡ had_room (acts_of id list.now) }
{
    for entry in list {
        if entry.call == id && is_full(&entry.answer) {
            return false;
        }
    }
    true
}

/// The cause, if the step was refused.
fn cause_of(answer: &StepAnswer) -> Option<Cause>
    ensures { result ≡ cause_of answer.now }
{
    match answer {
        StepAnswer::Failed { cause } => Some(*cause),
        _ => None,
    }
}

/// The cause of the call's first refused step.
fn first_cause(id: usize, list: &[Placed]) -> Option<Cause>
    ensures { result ≡ first_cause (acts_of id list.now) }
{
    for entry in list {
        if entry.call == id {
            match cause_of(&entry.answer) {
                Some(cause) => return Some(cause),
                None => {}
            }
        }
    }
    None
}

/// The answer of the call's first step.
fn first_answer(id: usize, list: &[Placed]) -> Option<&StepAnswer>
    ensures { MatchOption result (first_answer (acts_of id list.now) ≡ IsDone) (λ a. first_answer (acts_of id list.now) ≡ a.now) }
{
    for entry in list {
        if entry.call == id {
            return Some(&entry.answer);
        }
    }
    None
}

/// The call's answer is the step's.
pub fn is_plain(given: &StepAnswer, answer: &Answer) -> bool
    ensures { IsTrue result ↔ (answer.now ≡ plain_answer given.now) }
{
    match (given, answer) {
        (StepAnswer::Opened { fd, .. }, Answer::Fd(wanted)) => fd == wanted,
        (StepAnswer::Bytes { bytes }, Answer::Count(count)) => {
            bytes.as_slice().len() as u64 == u64::from(*count)
        }
        (StepAnswer::Stat { stat }, Answer::Stat(wanted)) => stat == wanted,
        (StepAnswer::Fd { fd }, Answer::Fd(wanted)) => fd == wanted,
        (StepAnswer::Done, Answer::Done) => true,
        (StepAnswer::Failed { cause }, Answer::Failed(wanted)) => cause == wanted,
        (StepAnswer::Full { full }, Answer::Full(wanted)) => full == wanted,
        _ => false,
    }
}

/// The answer is the cause; if there is none, the count.
pub fn is_counted(cause: Option<Cause>, count: usize, answer: &Answer) -> bool
    ensures { IsTrue result ↔ (answer.now ≡ counted cause count) }
{
    match (cause, answer) {
        (Some(cause), Answer::Failed(wanted)) => cause == *wanted,
        (None, Answer::Count(wanted)) => count as u64 == u64::from(*wanted),
        _ => false,
    }
}

/// The answer is the cause; if there is none, that it is done.
pub fn is_linked(cause: Option<Cause>, answer: &Answer) -> bool
    ensures { IsTrue result ↔ (answer.now ≡ linked cause) }
{
    match (cause, answer) {
        (Some(cause), Answer::Failed(wanted)) => cause == *wanted,
        (None, Answer::Done) => true,
        _ => false,
    }
}

/// The answer is that of the call's first step.
fn has_plain_answer(id: usize, list: &[Placed], answer: &Answer) -> bool
    ensures { IsTrue result ↔ (answer.now ≡ plain_answer (first_answer (acts_of id list.now))) }
{
    match first_answer(id, list) {
        Some(given) => is_plain(given, answer),
        None => *answer == Answer::Done,
    }
}

/// The answer is the one that the call's steps make.
#[tactic(auto, unfolding(crate::specs::Calls::reply_of))]
fn has_answer(id: usize, call: &Call, list: &[Placed], answer: &Answer) -> bool
    ensures { IsTrue result ↔ (answer.now ≡ (reply_of call.now (acts_of id list.now)).answer) }
{
    match call {
        Call::Write { bytes, .. } => {
            is_counted(first_cause(id, list), bytes.as_slice().len(), answer)
        }
        Call::Link { .. } => is_linked(first_cause(id, list), answer),
        _ => has_plain_answer(id, list, answer),
    }
}

/// What was handed back is the buffer after the call's read.
fn has_buffer(id: usize, list: &[Placed], buffer: &[u8], handed: &[u8]) -> bool
    ensures { IsTrue result ↔ (handed.now ≡ in_buffer buffer.now (first_answer (acts_of id list.now))) }
{
    match first_answer(id, list) {
        Some(given) => is_buffer(buffer, given, handed),
        None => same_bytes(handed, buffer),
    }
}

/// What was handed back is the call; a read's with what it read.
#[tactic(auto, unfolding(crate::specs::Calls::reply_of))]
fn is_handed(id: usize, call: &Call, list: &[Placed], handed: &Call) -> bool
    ensures { IsTrue result ↔ (handed.now ≡ (reply_of call.now (acts_of id list.now)).call) }
{
    match (call, handed) {
        (
            Call::Read { fd, buf },
            Call::Read {
                fd: other,
                buf: others,
            },
        ) => { fd == other && has_buffer(id, list, buf.as_slice(), others.as_slice()) }
        (Call::Read { .. }, _) => false,
        _ => handed == call,
    }
}

/// The reply is the one that the call's steps make.
pub(crate) fn is_reply(id: usize, call: &Call, list: &[Placed], reply: &Reply) -> bool
    ensures { IsTrue result ↔ (reply.now ≡ reply_of call.now (acts_of id list.now)) }
{
    has_answer(id, call, list, &reply.answer) && is_handed(id, call, list, &reply.call)
}
