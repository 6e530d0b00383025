//! The search for a list that explains a run: it finds one for each worked run, and none if a reply is impossible. A
//! call that finds no memory is tried once more.
use crate::explains::{Run, told};
use crate::story::{Change, StoryResult};
use plain_tree::NoMemory;
use std::alloc::Global;
use std::test::Fail;

fn sought(alloc: Global, run: Run, change: Change) -> StoryResult<bool> {
    let mut story = told(alloc, run)?;
    story.change(change)?;
    story.is_explicable(6)
}

/// Whether the search answers `wanted`, for the run with this change.
fn says(alloc: Global, run: Run, change: Change, wanted: bool) -> bool {
    match sought(alloc, run, change) {
        Ok(is) => is == wanted,
        Err(NoMemory) => sought(alloc, run, change).ok() == Some(wanted),
    }
}

#[test]
fn finds_the_worked_runs(rt: HostRuntime) -> Result<(), Fail> {
    let alloc = rt.alloc();
    for run in [
        Run::Nothing,
        Run::Pieces,
        Run::MadeAnew,
        Run::UnlinkedWhileLinked,
        Run::RefusedLink,
        Run::TwoAtOnce,
        Run::Doubled,
    ] {
        assert!(rt; says(alloc, run, Change::Nothing, true));
    }
    Ok(())
}

#[test]
fn finds_nothing_for_wrong_replies(rt: HostRuntime) -> Result<(), Fail> {
    let alloc = rt.alloc();
    for (run, change, wanted) in [
        (Run::Pieces, Change::Given(3), false),
        (Run::Pieces, Change::Handed(3), false),
        (Run::MadeAnew, Change::Given(3), false),
        (Run::UnlinkedWhileLinked, Change::Given(2), false),
        (Run::RefusedLink, Change::Given(3), false),
        (Run::RefusedLink, Change::Handed(4), false),
        (Run::TwoAtOnce, Change::Given(1), false),
        (Run::WithoutRoom, Change::Nothing, false),
        (Run::WithoutRoom, Change::Unfinished(16), true),
    ] {
        assert!(rt; says(alloc, run, change, wanted));
    }
    Ok(())
}
