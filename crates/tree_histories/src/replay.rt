//! A list's steps made once more, one after the other.
ghost use Rattle.std.specs.Prelude.{◌≡◌, ◌++◌, ◌∷◌, [], IfOk, IsTrue, ◌↔◌};
ghost use Rattle.tree_histories.specs.Vocabulary.{Explains};
ghost use Rattle.tree_histories.specs.Searching.{IsAt};

use crate::next::Attempt;
use crate::position::{Placing, Position};
use image_versions::Version;
use plain_tree::{Action, NoMemory, Placed, Trace, Tree};
use std::alloc::Global;

fn is_same(action: &Action, other: &Action) -> bool
    ensures { IsTrue result ↔ (action.now ≡ other.now) }
{
    match (action, other) {
        (Action::Open { path, flags }, Action::Open { path: p, flags: f }) => {
            path == p && flags == f
        }
        (Action::Truncate { fd }, Action::Truncate { fd: f }) => fd == f,
        (Action::Read { fd, count }, Action::Read { fd: f, count: c }) => fd == f && count == c,
        (Action::WritePart { fd, bytes }, Action::WritePart { fd: f, bytes: b }) => {
            fd == f && bytes == b
        }
        (Action::Find { old }, Action::Find { old: o }) => old == o,
        (Action::Bump, Action::Bump) => true,
        (Action::Enter { new }, Action::Enter { new: n }) => new == n,
        (Action::Unbump, Action::Unbump) => true,
        (Action::Unlink { path }, Action::Unlink { path: p }) => path == p,
        (Action::Mkdir { path }, Action::Mkdir { path: p }) => path == p,
        (Action::Chdir { path }, Action::Chdir { path: p }) => path == p,
        (Action::Dup { fd }, Action::Dup { fd: f }) => fd == f,
        (Action::Close { fd }, Action::Close { fd: f }) => fd == f,
        (Action::Fstat { fd }, Action::Fstat { fd: f }) => fd == f,
        (Action::Inherit { child }, Action::Inherit { child: c }) => child == c,
        _ => false,
    }
}

fn is_same_entry(entry: &Placed, other: &Placed) -> bool
    ensures { IsTrue result ↔ (entry.now ≡ other.now) }
{
    entry.event == other.event
        && entry.call == other.call
        && entry.step.hart == other.step.hart
        && entry.step.new == other.step.new
        && is_same(&entry.step.action, &other.step.action)
        && entry.answer == other.answer
}

impl Position {
    /// Makes the entry's step: whether it is then an entry with this answer at this event.
    fn replay(
        &mut self,
        alloc: Global,
        version: Version,
        base: &Tree,
        trace: &Trace,
        entry: &Placed,
    ) -> Attempt<bool>
        requires { IsAt version base.now trace.now self.old }
        ensures at { IfOk result (λ _. IsAt version base.now trace.now self.new) }
        ensures more { IfOk result (λ b. IsTrue b → self.new.list.items ≡ self.old.list.items ++ entry.now ∷ []) }
    {
        let limit = match self.due() {
            Some(due) => due.limit,
            None => u64::MAX,
        };
        let Placing::Made = self.place(
            alloc,
            version,
            base,
            trace,
            entry.call,
            entry.step.new,
            entry.event,
            limit,
        )?
        else {
            return Ok(false);
        };
        match self.list.last() {
            Some(last) => Ok(is_same_entry(last, entry)),
            None => Ok(false),
        }
    }
}

/// Whether the list explains the trace, as its steps show, each of which is made once more. It takes as long as they do, where `check`
/// goes through the list for each call. It says no at the first step that is made otherwise.
pub fn replays(
    alloc: Global,
    version: Version,
    base: &Tree,
    trace: &Trace,
    list: &[Placed],
) -> Result<bool, NoMemory>
    ensures { IfOk result (λ b. IsTrue b → Explains version base.now trace.now list.now) }
{
    let mut position = Position::begin(alloc, base, trace)?;
    for entry in list {
        if !position.replay(alloc, version, base, trace, entry)? {
            return Ok(false);
        }
    }
    match position.due() {
        Some(_) => Ok(false),
        None => Ok(true),
    }
}
