//! Whether the steps that a list has of a call are a beginning of the call's written sequence, and the whole of it.
ghost use Rattle.std.specs.Prelude.{◌≡◌, ℕ, List, Some, None, IsTrue, ◌↔◌, ◌<◌};
ghost use Rattle.plain_tree.specs.Calls.{IsBeginning, next_of, piece, piece_count};
ghost use Rattle.plain_tree.specs.Explains.{acts_of};
ghost use Rattle.plain_tree.specs.Progress.{link_next, next_at, open_next, truncate_next, write_next};
ghost use Rattle.plain_tree.specs.Steps.{is_nothing};

use crate::bytes::Bytes;
use crate::call::Call;
use crate::handed::same_bytes;
use crate::paths::first;
use crate::progress::{Last, Progress, START, after, progress_in};
use crate::refusal::has_flag;
use crate::step::Action;
use crate::trace::Placed;
use crate::widths::{EMPTY_IT, PIECE_LEN};

/// The number of pieces of a write of these bytes.
fn piece_count(bytes: &[u8]) -> usize
    ensures { result ≡ piece_count bytes.now }
{
    if bytes.is_empty() {
        1
    } else {
        (bytes.len() - 1) / PIECE_LEN + 1
    }
}

fn piece(bytes: &[u8], i: usize) -> &[u8]
    requires { i < piece_count bytes.now }
    ensures { result.now ≡ piece bytes.now i }
{
    first(&bytes[PIECE_LEN * i..], PIECE_LEN)
}

fn truncates(flags: u32, last: Last, action: &Action) -> bool
    ensures { IsTrue result ↔ (truncate_next flags last ≡ Some action.now) }
{
    match (last, action) {
        (Last::File { fd }, Action::Truncate { fd: other }) => {
            has_flag(flags, EMPTY_IT) && *other == fd
        }
        _ => false,
    }
}

fn is_next_of_open(path: &Bytes, flags: u32, progress: Progress, action: &Action) -> bool
    ensures { IsTrue result ↔ (open_next path.now flags progress ≡ Some action.now) }
{
    match (progress.count, action) {
        (0, Action::Open { path: p, flags: f }) => p == path && *f == flags,
        (1, _) => truncates(flags, progress.last, action),
        _ => false,
    }
}

fn is_next_of_write(fd: u32, bytes: &[u8], progress: Progress, action: &Action) -> bool
    ensures { IsTrue result ↔ (write_next fd bytes.now progress ≡ Some action.now) }
{
    if matches!(progress.last, Last::Failed) || progress.count >= piece_count(bytes) {
        return false;
    }
    match action {
        Action::WritePart { fd: f, bytes: b } => {
            *f == fd && same_bytes(b.as_slice(), piece(bytes, progress.count))
        }
        _ => false,
    }
}

fn is_next_of_link(old: &Bytes, new: &Bytes, progress: Progress, action: &Action) -> bool
    ensures { IsTrue result ↔ (link_next old.now new.now progress ≡ Some action.now) }
{
    match (progress.count, action) {
        (0, Action::Find { old: o }) => o == old,
        (1, Action::Bump) => matches!(progress.last, Last::Done),
        (2, Action::Enter { new: n }) => matches!(progress.last, Last::Done) && n == new,
        (3, Action::Unbump) => matches!(progress.last, Last::Failed),
        _ => false,
    }
}

/// The action is the next step of a call with this progress.
fn is_next(call: &Call, progress: Progress, action: &Action) -> bool
    ensures { IsTrue result ↔ (next_at call.now progress ≡ Some action.now) }
{
    match (call, action) {
        (Call::Open { path, flags }, _) => is_next_of_open(path, *flags, progress, action),
        (Call::Write { fd, bytes }, _) => is_next_of_write(*fd, bytes.as_slice(), progress, action),
        (Call::Link { old, new }, _) => is_next_of_link(old, new, progress, action),
        (Call::Read { fd, buf }, Action::Read { fd: f, count }) => {
            progress.count == 0 && f == fd && *count == buf.as_slice().len()
        }
        (Call::Unlink { path }, Action::Unlink { path: p }) => progress.count == 0 && p == path,
        (Call::Mkdir { path }, Action::Mkdir { path: p }) => progress.count == 0 && p == path,
        (Call::Chdir { path }, Action::Chdir { path: p }) => progress.count == 0 && p == path,
        (Call::Dup { fd }, Action::Dup { fd: f }) => progress.count == 0 && f == fd,
        (Call::Fstat { fd }, Action::Fstat { fd: f }) => progress.count == 0 && f == fd,
        (Call::Close { fd }, Action::Close { fd: f }) => progress.count == 0 && f == fd,
        (Call::Inherit { child }, Action::Inherit { child: c }) => progress.count == 0
            && c == child,
        _ => false,
    }
}

fn is_open_through(flags: u32, progress: Progress) -> bool
    ensures { (path : List ℕ) → result ≡ is_nothing (open_next path flags progress) }
{
    match progress.count {
        0 => false,
        1 => !(matches!(progress.last, Last::File { .. }) && has_flag(flags, EMPTY_IT)),
        _ => true,
    }
}

fn is_write_through(bytes: &[u8], progress: Progress) -> bool
    ensures { (fd : ℕ) → result ≡ is_nothing (write_next fd bytes.now progress) }
{
    matches!(progress.last, Last::Failed) || progress.count >= piece_count(bytes)
}

fn is_link_through(progress: Progress) -> bool
    ensures { (old new : List ℕ) → result ≡ is_nothing (link_next old new progress) }
{
    match progress.count {
        0 => false,
        1 | 2 => !matches!(progress.last, Last::Done),
        3 => !matches!(progress.last, Last::Failed),
        _ => true,
    }
}

/// A call with this progress has no further step.
fn is_last(call: &Call, progress: Progress) -> bool
    ensures { result ≡ is_nothing (next_at call.now progress) }
{
    match call {
        Call::Open { flags, .. } => is_open_through(*flags, progress),
        Call::Write { bytes, .. } => is_write_through(bytes.as_slice(), progress),
        Call::Link { .. } => is_link_through(progress),
        _ => progress.count > 0,
    }
}

/// What the list has of the call at place `id` is a beginning of the call's written sequence.
pub(crate) fn is_beginning(id: usize, call: &Call, list: &[Placed]) -> bool
    ensures { IsTrue result ↔ IsBeginning call.now (acts_of id list.now) }
{
    let mut progress = START;
    for placed in list {
        if placed.call == id {
            if !is_next(call, progress, &placed.step.action) {
                return false;
            }
            progress = after(progress, &placed.answer);
        }
    }
    true
}

/// The call goes on with no step after those that the list has of it.
pub(crate) fn is_through(id: usize, call: &Call, list: &[Placed]) -> bool
    ensures { IsTrue result ↔ (next_of call.now (acts_of id list.now) ≡ None) }
{
    is_last(call, progress_in(id, list))
}
