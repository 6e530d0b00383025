//! A stop after each event of a row: the disk has the tree that a beginning of its history leads to.
use crate::histories::is_named_after;
use crate::images::{Image, SMALL, SMALL_OF_VERSION_2, disk_of};
use crate::lists::{Group, first, groups_in, holds, mounted_again, play, run_over};
use crate::rows::Line;
use crate::worked::{
    DIRECTORY_IS_MADE, DIRECTORY_OF_VERSION_2_IS_MADE, EMPTIED, LINKED_AND_UNLINKED,
    RAISED_AND_LOWERED, TWO_PIECES, WALK_IS_LOST,
};
use explain::explain;
use hart_core::Event;
use plain_tree::{Action, Placed};
use std::alloc::Global;
use std::process::Abort;

// Rows over images of both versions, and how many commits each makes.
const STOPPED: &[(Image, &[Line<'static>], usize)] = &[
    (SMALL, DIRECTORY_IS_MADE, 1),
    (SMALL, TWO_PIECES, 3),
    (SMALL, EMPTIED, 3),
    (SMALL, WALK_IS_LOST, 4),
    (SMALL, LINKED_AND_UNLINKED, 3),
    (SMALL, RAISED_AND_LOWERED, 3),
    (SMALL_OF_VERSION_2, DIRECTORY_OF_VERSION_2_IS_MADE, 1),
    (SMALL_OF_VERSION_2, TWO_PIECES, 3),
    (SMALL_OF_VERSION_2, EMPTIED, 3),
    (SMALL_OF_VERSION_2, WALK_IS_LOST, 4),
    (SMALL_OF_VERSION_2, LINKED_AND_UNLINKED, 3),
    (SMALL_OF_VERSION_2, RAISED_AND_LOWERED, 3),
];

// The list that is handed out for these events.
fn list_of(rt: &impl Abort, alloc: Global, image: Image, events: &[Event]) -> Vec<Placed> {
    let image = disk_of(rt, alloc, image).into_bytes();
    explain(alloc, image.as_slice(), events).expect(rt, "error")
}

// Its first entries, up to that event.
fn up_to(list: &[Placed], cut: Option<u64>) -> &[Placed] {
    match cut {
        Some(cut) => first(
            list,
            list.iter().take_while(|placed| placed.event <= cut).count(),
        ),
        None => &[],
    }
}

// An action as its place among the actions, its path or bytes, and its numbers.
fn words(action: &Action) -> (u8, &[u8], u64, u64) {
    match action {
        Action::Open { path, flags } => (0, path.as_slice(), u64::from(*flags), 0),
        Action::Truncate { fd } => (1, &[], u64::from(*fd), 0),
        Action::Read { fd, count } => (2, &[], u64::from(*fd), *count as u64),
        Action::WritePart { fd, bytes } => (3, bytes.as_slice(), u64::from(*fd), 0),
        Action::Find { old } => (4, old.as_slice(), 0, 0),
        Action::Bump => (5, &[], 0, 0),
        Action::Enter { new } => (6, new.as_slice(), 0, 0),
        Action::Unbump => (7, &[], 0, 0),
        Action::Unlink { path } => (8, path.as_slice(), 0, 0),
        Action::Mkdir { path } => (9, path.as_slice(), 0, 0),
        Action::Chdir { path } => (10, path.as_slice(), 0, 0),
        Action::Dup { fd } => (11, &[], u64::from(*fd), 0),
        Action::Fstat { fd } => (12, &[], u64::from(*fd), 0),
        Action::Close { fd } => (13, &[], u64::from(*fd), 0),
        Action::Inherit { child } => (14, &[], u64::from(*child), 0),
    }
}

fn is_same_action(action: &Action, wanted: &Action) -> bool {
    let (kind, bytes, number, count) = words(action);
    let (other, others, wanted, most) = words(wanted);
    (kind, number, count) == (other, wanted, most) && bytes == others
}

fn is_same_entry(entry: &Placed, wanted: &Placed) -> bool {
    (entry.event, entry.call) == (wanted.event, wanted.call)
        && (entry.step.hart, entry.step.new) == (wanted.step.hart, wanted.step.new)
        && is_same_action(&entry.step.action, &wanted.step.action)
        && entry.answer == wanted.answer
}

// For the first `count` events the list is that of all, up to there: nothing is put into the past.
fn is_beginning(list: &[Placed], whole: &[Placed], count: usize) -> bool {
    let before = whole
        .iter()
        .take_while(|placed| placed.event < count as u64)
        .count();
    list.len() == before
        && list
            .iter()
            .zip(whole.iter())
            .all(|(entry, wanted)| is_same_entry(entry, wanted))
}

// The leave of the last group whose head was written in the first `count` events.
fn cut_of(groups: &[Group], count: usize) -> Option<u64> {
    let mut cut = None;
    for group in groups {
        if let Some(head) = group.head() {
            if head < count as u64 {
                cut = Some(group.leave);
            }
        }
    }
    cut
}

// Stopped after these events, and mounted again, the disk has the named nodes of the tree that these steps lead to.
fn stops_behind(
    rt: &impl Abort,
    alloc: Global,
    image: Image,
    events: &[Event],
    wanted: Option<u64>,
    list: &[Placed],
) -> bool {
    let ended = run_over(rt, alloc, disk_of(rt, alloc, image), events);
    let is_cut = (ended.cut, ended.doubt) == (wanted, None);
    let mut disk = mounted_again(rt, alloc, ended.device);
    let mut old = disk_of(rt, alloc, image);
    is_cut && is_named_after(rt, alloc, &mut old, list, &mut disk)
}

// Stops a row after each of its events.
fn stops(rt: &impl Abort, alloc: Global, image: Image, row: &[Line], commits: usize) {
    let (made, _disk) = play(rt, alloc, disk_of(rt, alloc, image), row);
    let groups = groups_in(rt, alloc, made.outcomes.as_slice());
    assert!(rt; groups.len() == commits);
    let whole = list_of(rt, alloc, image, made.events.as_slice());
    for count in 0..=made.events.len() {
        let cut = cut_of(&groups, count);
        let events = first(made.events.as_slice(), count);
        let list = list_of(rt, alloc, image, events);
        let is_so = is_beginning(&list, &whole, count)
            && stops_behind(rt, alloc, image, events, cut, up_to(&list, cut));
        holds(rt, is_so, "behind events:", count);
    }
}

/// Stopped after any event of a row, on an image of either version, the disk has the tree of the history that is handed out, up to the run's cut.
/// The cut is the leave whose group has the last head that was written. The history of a beginning of the events is a
/// beginning of the history of all.
#[test]
fn stop_everywhere(rt: HostRuntime) {
    for (image, row, commits) in STOPPED {
        stops(&rt, rt.alloc(), *image, *row, *commits);
    }
}
