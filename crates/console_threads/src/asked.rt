//! The calls that a script asks of each hart.
ghost use Rattle.std.specs.Prelude.{◌≡◌, IfOk, IfErr, map};
ghost use Rattle.console_threads.specs.Vocabulary.{call_said, called};
ghost use Rattle.console_threads.specs.Asked.{IsAsked, IsUnasked};

use console::{ConsoleFault, Course, LONGEST_SCRIPT, call_of, course_in, read_script};
use plain_tree::Call;
use script::{CallLine, Schedule};
use std::alloc::{AllocError, Global};
use std::collections::VecDeque;
use std::io::Read;

/// The calls of each hart, in the order of its lines, and the same once more.
#[derive(Drop)]
pub struct Asked {
    pub calls: [Vec<Call>; 8],
    pub copies: [Vec<Call>; 8],
}

/// What a script asks of each hart, or its first bad line: a line that starts no call of one of the eight is one.
pub fn asked_in<S: Read + Drop>(alloc: Global, script: S) -> Result<Asked, ConsoleFault>
    ensures calls { IfOk result (λ a. IsAsked (S.remaining script) (map (λ v. v.items) a.calls)) }
    ensures copies { IfOk result (λ a. map (λ v. v.items) a.copies ≡ map (λ v. v.items) a.calls) }
    ensures err { IfErr result (IsUnasked (S.remaining script)) }
{
    let text = read_script(alloc, script, LONGEST_SCRIPT)?;
    let Course { queues, lines: _ } = course_in(alloc, Schedule::Round, text.as_slice())?;
    let calls = all_calls(alloc, queues.into_calls())?;
    let copies = copies_of(&calls)?;
    Ok(Asked { calls, copies })
}

// The calls of each hart.
#[tactic(auto, using(hart_runner::proofs::Eight::eight))]
fn all_calls(alloc: Global, queues: [VecDeque<CallLine>; 8]) -> Result<[Vec<Call>; 8], AllocError>
    ensures { IfOk result (λ calls. map (λ v. v.items) calls ≡ map (λ q. map (λ line. called (call_said line)) q.items) queues) }
{
    let [a, b, c, d, e, f, g, h] = queues;
    Ok([
        calls_of(alloc, a)?,
        calls_of(alloc, b)?,
        calls_of(alloc, c)?,
        calls_of(alloc, d)?,
        calls_of(alloc, e)?,
        calls_of(alloc, f)?,
        calls_of(alloc, g)?,
        calls_of(alloc, h)?,
    ])
}

// The calls that these lines say, in their order.
fn calls_of(alloc: Global, lines: VecDeque<CallLine>) -> Result<Vec<Call>, AllocError>
    ensures { IfOk result (λ calls. calls.items ≡ map (λ line. called (call_said line)) lines.items) }
{
    let mut lines = lines;
    let mut calls = Vec::new(alloc);
    while let Some(line) = lines.pop_front() {
        calls.push(call_of(alloc, line)?)?;
    }
    Ok(calls)
}

// The calls of each hart once more.
#[tactic(auto, using(hart_runner::proofs::Eight::eight))]
fn copies_of(calls: &[Vec<Call>; 8]) -> Result<[Vec<Call>; 8], AllocError>
    ensures { IfOk result (λ copies. map (λ v. v.items) copies ≡ map (λ v. v.items) calls.now) }
{
    Ok([
        copy_of(&calls[0])?,
        copy_of(&calls[1])?,
        copy_of(&calls[2])?,
        copy_of(&calls[3])?,
        copy_of(&calls[4])?,
        copy_of(&calls[5])?,
        copy_of(&calls[6])?,
        copy_of(&calls[7])?,
    ])
}

fn copy_of(calls: &Vec<Call>) -> Result<Vec<Call>, AllocError>
    ensures { IfOk result (λ copy. copy.items ≡ calls.now.items) }
{
    calls.clone()
}
