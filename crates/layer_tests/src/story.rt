//! A run that is written down for a test: its calls, and a list of steps with their answers.
use image_versions::Version;
use plain_tree::{
    Action, Answer, Bytes, Call, Calls, Cause, NoMemory, Placed, Reply, StepAnswer, Trace,
    TracedCall, Tree, TreeStep, check,
};
use std::alloc::Global;
use tree_histories::find_history;

/// What is changed of the run as it was written down.
#[derive(Clone, Copy)]
pub(crate) enum Change {
    Nothing,
    /// The entry is at another place, at the event of the entry that was there.
    Moved(usize, usize),
    Dropped(usize),
    /// The entry is there once more.
    Doubled(usize),
    /// The entry has another answer.
    Answered(usize),
    /// The entry opened a file under another id.
    Under(usize, usize),
    /// The entry is at another event.
    At(usize, u64),
    /// The entry is of another call.
    Of(usize, usize),
    /// The entry is of another hart.
    By(usize, u8),
    /// The call was given another answer.
    Given(usize),
    /// The call was handed back as another one.
    Handed(usize),
    /// The call isn't finished.
    Unfinished(usize),
}

#[derive(Drop)]
pub(crate) struct Story {
    pub(crate) alloc: Global,
    pub(crate) calls: Vec<TracedCall>,
    pub(crate) list: Vec<Placed>,
    pub(crate) events: u64,
}

/// The run, if there is memory for it.
pub(crate) type StoryResult<T = ()> = Result<T, NoMemory>;

/// The answer that nothing has in these runs.
const OTHER: Cause = Cause::NotDirectory;

pub(crate) fn opened(fd: u32, id: usize) -> StepAnswer {
    let is_file = true;
    StepAnswer::Opened { fd, id, is_file }
}

pub(crate) fn bytes(alloc: Global, text: &[u8]) -> StoryResult<Bytes> {
    Ok(Bytes::new(Vec::from_slice(alloc, text)?))
}

/// The first step of the call; all bytes of a write.
fn first_step(call: &Call) -> StoryResult<Action> {
    let call = call.clone()?;
    Ok(match call {
        Call::Open { path, flags } => Action::Open { path, flags },
        Call::Read { fd, buf } => {
            let count = buf.as_slice().len();
            Action::Read { fd, count }
        }
        Call::Write { fd, bytes } => Action::WritePart { fd, bytes },
        Call::Link { old, new: _new } => Action::Find { old },
        Call::Unlink { path } => Action::Unlink { path },
        Call::Mkdir { path } => Action::Mkdir { path },
        Call::Chdir { path } => Action::Chdir { path },
        Call::Dup { fd } => Action::Dup { fd },
        Call::Fstat { fd } => Action::Fstat { fd },
        Call::Close { fd } => Action::Close { fd },
        Call::Inherit { child } => Action::Inherit { child },
    })
}

impl Story {
    pub(crate) fn begin(alloc: Global, events: u64) -> Story {
        Story {
            alloc,
            calls: Vec::new(alloc),
            list: Vec::new(alloc),
            events,
        }
    }

    /// The next call of the hart, from one event to the other, with its answer.
    pub(crate) fn call(
        &mut self,
        hart: u8,
        life: (u64, u64),
        call: Call,
        answer: Answer,
    ) -> StoryResult {
        let (start, end) = life;
        let reply = Reply {
            answer,
            call: call.clone()?,
        };
        let finished = Some((end, reply));
        self.calls.push(TracedCall {
            hart,
            start,
            call,
            finished,
        })?;
        Ok(())
    }

    /// The next call, which was done.
    pub(crate) fn done(&mut self, hart: u8, life: (u64, u64), call: Call) -> StoryResult {
        self.call(hart, life, call, Answer::Done)
    }

    /// The last call was handed back as another one than it was given.
    pub(crate) fn hands(&mut self, handed: Call) {
        if let Some(traced) = self.calls.last_mut() {
            if let Some((_, reply)) = &mut traced.finished {
                reply.call = handed;
            }
        }
    }

    /// The next entry, a step of the call's hart: at an event, of a call, with the number of a new node.
    pub(crate) fn step(
        &mut self,
        at: (u64, usize, u16),
        action: Action,
        answer: StepAnswer,
    ) -> StoryResult {
        let (event, call, new) = at;
        let hart = self.calls.get(call).map_or(0, |traced| traced.hart);
        let step = TreeStep { hart, new, action };
        self.list.push(Placed {
            event,
            call,
            step,
            answer,
        })?;
        Ok(())
    }

    /// The next entry, the call's first step.
    pub(crate) fn acts(&mut self, at: (u64, usize, u16), answer: StepAnswer) -> StoryResult {
        if let Some(traced) = self.calls.get(at.1) {
            let action = first_step(&traced.call)?;
            self.step(at, action, answer)?;
        }
        Ok(())
    }

    fn moved(&mut self, from: usize, to: usize) -> StoryResult {
        if from < self.list.len() && to < self.list.len() {
            let event = self.list[to].event;
            let mut entry = self.list.remove(from);
            entry.event = event;
            self.list.insert(to, entry)?;
        }
        Ok(())
    }

    fn change_call(&mut self, place: usize, change: Change) {
        let Some(traced) = self.calls.get_mut(place) else {
            return;
        };
        match (&mut traced.finished, change) {
            (Some((_, reply)), Change::Given(_)) => reply.answer = Answer::Failed(OTHER),
            (Some((_, reply)), Change::Handed(_)) => reply.call = Call::Dup { fd: 3 },
            _ => traced.finished = None,
        }
    }

    fn change_entry(&mut self, place: usize, change: Change) {
        let Some(entry) = self.list.get_mut(place) else {
            return;
        };
        match change {
            Change::Under(_, id) => entry.answer = opened(0, id),
            Change::At(_, event) => entry.event = event,
            Change::Of(_, call) => entry.call = call,
            Change::By(_, hart) => entry.step.hart = hart,
            _ => entry.answer = StepAnswer::Failed { cause: OTHER },
        }
    }

    pub(crate) fn change(&mut self, change: Change) -> StoryResult {
        match change {
            Change::Nothing => {}
            Change::Moved(from, to) => self.moved(from, to)?,
            Change::Dropped(place) => {
                if place < self.list.len() {
                    let _ = self.list.remove(place);
                }
            }
            Change::Doubled(place) => {
                if place < self.list.len() {
                    let again = self.list[place].clone()?;
                    self.list.insert(place, again)?;
                }
            }
            Change::Given(call) | Change::Handed(call) | Change::Unfinished(call) => {
                self.change_call(call, change);
            }
            Change::Answered(place)
            | Change::Under(place, _)
            | Change::At(place, _)
            | Change::Of(place, _)
            | Change::By(place, _) => self.change_entry(place, change),
        }
        Ok(())
    }

    /// Whether a list was found that explains the calls' replies, from a fresh tree of `ninodes` numbers. The list is
    /// checked too.
    pub(crate) fn is_explicable(self, ninodes: u16) -> StoryResult<bool> {
        let Story {
            alloc,
            calls,
            list: _list,
            events,
        } = self;
        let tree = Tree::new(alloc, Version::One, ninodes)?;
        let calls = Calls::new(calls);
        let trace = Trace { calls, events };
        match find_history(alloc, Version::One, &tree, &trace, &[])? {
            Some(list) => check(alloc, Version::One, &tree, &trace, &list),
            None => Ok(false),
        }
    }

    /// From a fresh tree of 200 numbers the list explains the calls' replies.
    pub(crate) fn is_explained(self) -> StoryResult<bool> {
        let Story {
            alloc,
            calls,
            list,
            events,
        } = self;
        let tree = Tree::new(alloc, Version::One, 200)?;
        let calls = Calls::new(calls);
        check(alloc, Version::One, &tree, &Trace { calls, events }, &list)
    }
}
