//! Worked runs, each with a list of steps that explains it, and what the check says of the list if one entry is
//! another. A call that finds no memory is tried once more.
use crate::story::{Change, Story, StoryResult, bytes, opened};
use plain_tree::{Action, Answer, Call, Cause, Full, NoMemory, NodeType, Stat, StepAnswer};
use std::alloc::Global;
use std::test::Fail;

#[derive(Clone, Copy)]
pub(crate) enum Run {
    /// Nothing happens.
    Nothing,
    /// A write of 3073 bytes, with another hart's read between its two pieces.
    Pieces,
    /// An open of a file, while another hart unlinks it and its directory and makes both names anew.
    MadeAnew,
    /// A link whose file is unlinked between its find and its enter.
    UnlinkedWhileLinked,
    /// A link whose new name is there already, with an fstat of another hart between its steps.
    RefusedLink,
    /// Two harts change to the root.
    TwoAtOnce,
    /// A seventeenth open, which finds no descriptor.
    WithoutRoom,
    /// A file is emptied as it is opened, and its descriptor doubled and inherited.
    Doubled,
}

const DONE: StepAnswer = StepAnswer::Done;

fn refused(cause: Cause) -> StepAnswer {
    StepAnswer::Failed { cause }
}

fn read(alloc: Global, text: &[u8]) -> StoryResult<StepAnswer> {
    let bytes = bytes(alloc, text)?;
    Ok(StepAnswer::Bytes { bytes })
}

/// A piece that is written through descriptor 0.
fn piece(alloc: Global, text: &[u8]) -> StoryResult<Action> {
    let bytes = bytes(alloc, text)?;
    Ok(Action::WritePart { fd: 0, bytes })
}

/// File 2, empty.
fn stat(nlink: u16) -> Stat {
    Stat {
        device: 1,
        inode: 2,
        kind: NodeType::File,
        nlink,
        size: 0,
    }
}

fn open(alloc: Global, path: &str, flags: u32) -> StoryResult<Call> {
    let path = bytes(alloc, path.as_bytes())?;
    Ok(Call::Open { path, flags })
}

fn mkdir(alloc: Global, path: &str) -> StoryResult<Call> {
    let path = bytes(alloc, path.as_bytes())?;
    Ok(Call::Mkdir { path })
}

fn unlink(alloc: Global, path: &str) -> StoryResult<Call> {
    let path = bytes(alloc, path.as_bytes())?;
    Ok(Call::Unlink { path })
}

/// A link of "/f" as "/g".
fn link(alloc: Global) -> StoryResult<Call> {
    let old = bytes(alloc, b"/f")?;
    let new = bytes(alloc, b"/g")?;
    Ok(Call::Link { old, new })
}

fn enter(alloc: Global) -> StoryResult<Action> {
    let new = bytes(alloc, b"/g")?;
    Ok(Action::Enter { new })
}

fn buffer(alloc: Global, text: &[u8]) -> StoryResult<Call> {
    let buf = bytes(alloc, text)?;
    Ok(Call::Read { fd: 0, buf })
}

fn write(alloc: Global, text: &[u8]) -> StoryResult<Call> {
    let bytes = bytes(alloc, text)?;
    Ok(Call::Write { fd: 0, bytes })
}

/// What the reader of `pieces` hands back: the first piece, in its buffer.
fn first_piece_read(alloc: Global) -> StoryResult<Call> {
    let mut filled = [0; 4000];
    for i in 0..3072 {
        filled[i] = 7;
    }
    buffer(alloc, &filled)
}

fn pieces_calls(alloc: Global, story: &mut Story) -> StoryResult {
    story.call(0, (0, 2), open(alloc, "/f", 0x201)?, Answer::Fd(0))?;
    story.call(1, (3, 5), open(alloc, "/f", 0)?, Answer::Fd(0))?;
    let text = write(alloc, &[7; 3073])?;
    story.call(0, (6, 11), text, Answer::Count(3073))?;
    let given = buffer(alloc, &[0; 4000])?;
    story.call(1, (7, 11), given, Answer::Count(3072))?;
    story.hands(first_piece_read(alloc)?);
    Ok(())
}

fn pieces_list(alloc: Global, story: &mut Story) -> StoryResult {
    story.acts((1, 0, 2), opened(0, 0))?;
    story.acts((4, 1, 0), opened(0, 1))?;
    story.step((8, 2, 0), piece(alloc, &[7; 3072])?, DONE)?;
    story.acts((9, 3, 0), read(alloc, &[7; 3072])?)?;
    story.step((10, 2, 0), piece(alloc, &[7; 1])?, DONE)
}

fn pieces(alloc: Global) -> StoryResult<Story> {
    let mut story = Story::begin(alloc, 12);
    pieces_calls(alloc, &mut story)?;
    pieces_list(alloc, &mut story)?;
    Ok(story)
}

fn made_anew_calls(alloc: Global, story: &mut Story) -> StoryResult {
    let nothing = Answer::Failed(Cause::NoEntry);
    story.done(1, (0, 2), mkdir(alloc, "/d")?)?;
    story.call(1, (3, 5), open(alloc, "/d/f", 0x200)?, Answer::Fd(0))?;
    story.done(1, (6, 8), Call::Close { fd: 0 })?;
    story.call(0, (9, 23), open(alloc, "/d/f", 0)?, nothing)?;
    story.done(1, (10, 12), unlink(alloc, "/d/f")?)?;
    story.done(1, (13, 15), unlink(alloc, "/d")?)?;
    story.done(1, (16, 18), mkdir(alloc, "/d")?)?;
    story.call(1, (19, 21), open(alloc, "/d/f", 0x200)?, Answer::Fd(0))
}

fn made_anew_list(story: &mut Story) -> StoryResult {
    story.acts((1, 0, 2), DONE)?;
    story.acts((4, 1, 3), opened(0, 0))?;
    story.acts((7, 2, 0), DONE)?;
    story.acts((11, 4, 0), DONE)?;
    story.acts((14, 5, 0), DONE)?;
    story.acts((15, 3, 0), refused(Cause::NoEntry))?;
    story.acts((17, 6, 3), DONE)?;
    story.acts((20, 7, 4), opened(0, 0))
}

fn made_anew(alloc: Global) -> StoryResult<Story> {
    let mut story = Story::begin(alloc, 24);
    made_anew_calls(alloc, &mut story)?;
    made_anew_list(&mut story)?;
    Ok(story)
}

fn unlinked_while_linked_calls(alloc: Global, story: &mut Story) -> StoryResult {
    story.call(1, (0, 2), open(alloc, "/f", 0x201)?, Answer::Fd(0))?;
    story.call(1, (3, 5), write(alloc, b"A")?, Answer::Count(1))?;
    story.done(0, (6, 14), link(alloc)?)?;
    story.done(1, (7, 12), unlink(alloc, "/f")?)?;
    story.call(0, (15, 17), open(alloc, "/g", 0)?, Answer::Fd(0))?;
    story.call(0, (18, 20), buffer(alloc, b"....")?, Answer::Count(1))?;
    story.hands(buffer(alloc, b"A...")?);
    Ok(())
}

fn unlinked_while_linked_list(alloc: Global, story: &mut Story) -> StoryResult {
    story.acts((1, 0, 2), opened(0, 0))?;
    story.acts((4, 1, 0), DONE)?;
    story.acts((8, 2, 0), DONE)?;
    story.step((9, 2, 0), Action::Bump, DONE)?;
    story.acts((10, 3, 0), DONE)?;
    story.step((11, 2, 0), enter(alloc)?, DONE)?;
    story.acts((16, 4, 0), opened(0, 1))?;
    story.acts((19, 5, 0), read(alloc, b"A")?)
}

fn unlinked_while_linked(alloc: Global) -> StoryResult<Story> {
    let mut story = Story::begin(alloc, 21);
    unlinked_while_linked_calls(alloc, &mut story)?;
    unlinked_while_linked_list(alloc, &mut story)?;
    Ok(story)
}

fn refused_link_calls(alloc: Global, story: &mut Story) -> StoryResult {
    let there = Answer::Failed(Cause::Exists);
    story.call(1, (0, 2), open(alloc, "/f", 0x200)?, Answer::Fd(0))?;
    story.call(1, (3, 5), open(alloc, "/g", 0x200)?, Answer::Fd(1))?;
    story.call(0, (6, 14), link(alloc)?, there)?;
    story.call(1, (7, 13), Call::Fstat { fd: 0 }, Answer::Stat(stat(2)))?;
    story.call(1, (15, 17), Call::Fstat { fd: 0 }, Answer::Stat(stat(1)))
}

fn refused_link_list(alloc: Global, story: &mut Story) -> StoryResult {
    story.acts((1, 0, 2), opened(0, 0))?;
    story.acts((4, 1, 3), opened(1, 1))?;
    story.acts((8, 2, 0), DONE)?;
    story.step((9, 2, 0), Action::Bump, DONE)?;
    story.acts((10, 3, 0), StepAnswer::Stat { stat: stat(2) })?;
    story.step((11, 2, 0), enter(alloc)?, refused(Cause::Exists))?;
    story.step((12, 2, 0), Action::Unbump, DONE)?;
    story.acts((16, 4, 0), StepAnswer::Stat { stat: stat(1) })
}

fn refused_link(alloc: Global) -> StoryResult<Story> {
    let mut story = Story::begin(alloc, 18);
    refused_link_calls(alloc, &mut story)?;
    refused_link_list(alloc, &mut story)?;
    Ok(story)
}

fn two_at_once(alloc: Global) -> StoryResult<Story> {
    let mut story = Story::begin(alloc, 9);
    for hart in 0..2 {
        let path = bytes(alloc, b"/")?;
        let at = u64::from(hart);
        story.done(hart, (at + 2, at + 6), Call::Chdir { path })?;
    }
    story.acts((4, 0, 0), DONE)?;
    story.acts((5, 1, 0), DONE)?;
    Ok(story)
}

fn without_room(alloc: Global) -> StoryResult<Story> {
    let full = Full::Descriptors;
    let is_file = false;
    let mut story = Story::begin(alloc, 100);
    for fd in 0..16 {
        let id = fd as usize;
        story.call(0, (0, 99), open(alloc, "", 0)?, Answer::Fd(fd))?;
        story.acts((1, id, 0), StepAnswer::Opened { fd, id, is_file })?;
    }
    story.call(0, (0, 99), open(alloc, "/f", 0x200)?, Answer::Full(full))?;
    story.acts((1, 16, 2), StepAnswer::Full { full })?;
    Ok(story)
}

fn doubled(alloc: Global) -> StoryResult<Story> {
    let mut story = Story::begin(alloc, 10);
    story.call(0, (0, 3), open(alloc, "/f", 0x602)?, Answer::Fd(0))?;
    story.call(0, (4, 6), Call::Dup { fd: 0 }, Answer::Fd(1))?;
    story.done(0, (7, 9), Call::Inherit { child: 1 })?;
    story.acts((1, 0, 2), opened(0, 0))?;
    story.step((2, 0, 0), Action::Truncate { fd: 0 }, DONE)?;
    story.acts((5, 1, 0), StepAnswer::Fd { fd: 1 })?;
    story.acts((8, 2, 0), DONE)?;
    Ok(story)
}

pub(crate) fn told(alloc: Global, run: Run) -> StoryResult<Story> {
    match run {
        Run::Nothing => Ok(Story::begin(alloc, 0)),
        Run::Pieces => pieces(alloc),
        Run::MadeAnew => made_anew(alloc),
        Run::UnlinkedWhileLinked => unlinked_while_linked(alloc),
        Run::RefusedLink => refused_link(alloc),
        Run::TwoAtOnce => two_at_once(alloc),
        Run::WithoutRoom => without_room(alloc),
        Run::Doubled => doubled(alloc),
    }
}

fn changed(alloc: Global, run: Run, one: Change, two: Change) -> StoryResult<bool> {
    let mut story = told(alloc, run)?;
    story.change(one)?;
    story.change(two)?;
    story.is_explained()
}

/// Whether the check answers `wanted`, for the list and the run with these changes.
fn says(alloc: Global, run: Run, one: Change, two: Change, wanted: bool) -> bool {
    match changed(alloc, run, one, two) {
        Ok(is) => is == wanted,
        Err(NoMemory) => changed(alloc, run, one, two).ok() == Some(wanted),
    }
}

// Each list is taken, and refused without an entry, with one twice, and with another answer of one.
#[test]
fn explains_the_worked_runs(rt: HostRuntime) -> Result<(), Fail> {
    let alloc = rt.alloc();
    for (run, entries) in [
        (Run::Nothing, 0),
        (Run::Pieces, 5),
        (Run::MadeAnew, 8),
        (Run::UnlinkedWhileLinked, 8),
        (Run::RefusedLink, 8),
        (Run::TwoAtOnce, 2),
        (Run::Doubled, 4),
    ] {
        assert!(rt; says(alloc, run, Change::Nothing, Change::Nothing, true));
        for place in 0..entries {
            for change in [
                Change::Dropped(place),
                Change::Answered(place),
                Change::Doubled(place),
            ] {
                assert!(rt; says(alloc, run, change, Change::Nothing, false));
            }
        }
    }
    Ok(())
}

#[test]
fn keeps_entries_in_their_places(rt: HostRuntime) -> Result<(), Fail> {
    let alloc = rt.alloc();
    for (run, change, wanted) in [
        // The reader sees the first piece alone.
        (Run::Pieces, Change::Moved(3, 2), false),
        (Run::Pieces, Change::Moved(3, 4), false),
        (Run::Pieces, Change::Moved(4, 2), false),
        // A new open file has the least unused id.
        (Run::Pieces, Change::Under(1, 0), false),
        (Run::Pieces, Change::Under(1, 1), true),
        (Run::Pieces, Change::Under(1, 2), false),
        // The open finds nothing between the unlink of the file and the new one.
        (Run::MadeAnew, Change::Moved(5, 3), false),
        (Run::MadeAnew, Change::Moved(5, 4), true),
        (Run::MadeAnew, Change::Moved(5, 6), true),
        (Run::MadeAnew, Change::Moved(5, 7), false),
        // The unlink comes after the find.
        (Run::UnlinkedWhileLinked, Change::Moved(4, 2), false),
        (Run::UnlinkedWhileLinked, Change::Moved(4, 3), true),
        (Run::UnlinkedWhileLinked, Change::Moved(4, 5), true),
        (Run::UnlinkedWhileLinked, Change::Moved(5, 3), false),
        // The raise is seen between bump and unbump.
        (Run::RefusedLink, Change::Moved(4, 2), false),
        (Run::RefusedLink, Change::Moved(4, 3), false),
        (Run::RefusedLink, Change::Moved(4, 5), true),
        (Run::RefusedLink, Change::Moved(4, 6), false),
        // The calls are under way from event 2 to 6 and from 3 to 7.
        (Run::TwoAtOnce, Change::At(0, 2), true),
        (Run::TwoAtOnce, Change::At(0, 1), false),
        (Run::TwoAtOnce, Change::At(0, 5), true),
        (Run::TwoAtOnce, Change::At(0, 6), false),
        (Run::TwoAtOnce, Change::At(1, 7), true),
        (Run::TwoAtOnce, Change::At(1, 8), false),
        (Run::TwoAtOnce, Change::Of(0, 1), false),
        (Run::TwoAtOnce, Change::Of(0, 2), false),
        (Run::TwoAtOnce, Change::By(0, 1), false),
        (Run::TwoAtOnce, Change::Moved(0, 1), true),
        // A call that answered that there was no room may not be finished.
        (Run::WithoutRoom, Change::Nothing, false),
        (Run::WithoutRoom, Change::Unfinished(16), true),
    ] {
        assert!(rt; says(alloc, run, change, Change::Nothing, wanted));
    }
    Ok(())
}

#[test]
fn keeps_replies(rt: HostRuntime) -> Result<(), Fail> {
    let alloc = rt.alloc();
    for call in 0..5 {
        for run in [Run::RefusedLink, Run::UnlinkedWhileLinked] {
            for change in [Change::Given(call), Change::Handed(call)] {
                assert!(rt; says(alloc, run, change, Change::Nothing, false));
            }
        }
    }
    Ok(())
}

// A call that isn't finished has a beginning of its steps, up to the last event.
#[test]
fn takes_a_beginning_of_what_is_under_way(rt: HostRuntime) -> Result<(), Fail> {
    let alloc = rt.alloc();
    let write = Change::Unfinished(2);
    let chdir = Change::Unfinished(1);
    for (run, unfinished, change, wanted) in [
        (Run::Pieces, write, Change::Nothing, true),
        (Run::Pieces, write, Change::Dropped(4), true),
        (Run::Pieces, write, Change::Dropped(2), false),
        (Run::Pieces, write, Change::Answered(2), false),
        (Run::TwoAtOnce, chdir, Change::Dropped(1), true),
        (Run::TwoAtOnce, chdir, Change::At(1, 8), true),
        (Run::TwoAtOnce, chdir, Change::At(1, 9), false),
    ] {
        assert!(rt; says(alloc, run, unfinished, change, wanted));
    }
    Ok(())
}
