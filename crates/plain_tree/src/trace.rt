//! What a run of several harts showed, and a list of steps for it.
ghost use Rattle.std.specs.Prelude.{◌≡◌};

use crate::answer::Reply;
use crate::call::Call;
use crate::step::{StepAnswer, TreeStep};
use std::marker::Model;

/// A call that was started: the event that started it and, once it is finished, the event that gave its reply.
/// Events are counted from 0.
#[derive(Drop)]
pub struct TracedCall {
    pub hart: u8,
    pub start: u64,
    pub call: Call,
    pub finished: Option<(u64, Reply)>,
}

/// The calls of a trace.
#[derive(Drop)]
pub struct Calls {
    items: Vec<TracedCall>,
}

impl Model for Calls {
    ghost use Rattle.std.specs.Prelude.{List};
    ghost use Rattle.plain_tree.specs.declared.trace.TracedCall.{TracedCall};

    ghost Value = { List TracedCall };

    ghost view = { λ c. c.items.items };
}

impl Calls {
    /// These calls. It takes no memory.
    pub fn new(items: Vec<TracedCall>) -> Calls
        ensures { result ≡ items.items }
    {
        Calls { items }
    }

    pub fn as_slice(&self) -> &[TracedCall]
        ensures { result.now ≡ self.now }
    {
        self.items.as_slice()
    }
}

/// What a run of `events` events showed of its calls.
#[derive(Drop)]
pub struct Trace {
    pub calls: Calls,
    pub events: u64,
}

/// A tree step with its answer, placed at an event of a run. `call` is the place in the trace of the call that it
/// belongs to.
#[derive(Clone, Drop)]
pub struct Placed {
    pub event: u64,
    pub call: usize,
    pub step: TreeStep,
    pub answer: StepAnswer,
}
