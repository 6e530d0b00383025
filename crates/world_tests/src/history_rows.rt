//! Worked runs, each with the order in which it is explained.
use crate::play::{Play, explains, gives_answers, played, seen_in};
use explain::{ExplainRefused, explain};
use plain_tree::Placed;
use script::write_entry;
use std::alloc::{AllocError, Global};
use std::process::Abort;
use std::test::Fail;

const FIRST: &str = "do 0 open / 0\ndo 0 fstat 0\ndo 0 read 0 32";

const STATES: &str = "do 0 mkdir /a\ndo 0 open /a 0\ndo 0 fstat 0\ndo 0 open / 0\ndo 0 fstat 1";

const NO_PARENT: &str = "do 0 open \"\" 0\ndo 0 open / 0\ndo 0 unlink /\ndo 0 mkdir /";

const CUT_NAMES: &str =
    "do 0 open /abcdefghijklmn 0x200\ndo 0 open /abcdefghijklmnopqrst 0x200\ndo 0 fstat 0\ndo 0 fstat 1";

const PIECES: &str =
    "do 0 open /f 0x201\ndo 1 open /f 0\n0 fill 0 3073\nupto 0 leave 1\ndo 1 fstat 0\nend 0\ndo 1 fstat 0";

const ONE_PIECE: &str =
    "do 0 open /f 0x201\ndo 1 open /f 0\n0 fill 0 3072\nupto 0 leave 1\ndo 1 fstat 0\nend 0\ndo 1 fstat 0";

const TOO_BIG: &str = "do 0 open /f 0x201\ndo 0 fill 0 274433\ndo 0 fstat 0";

const BIGGEST: &str = "do 0 open /f 0x201\ndo 0 fill 0 274432\ndo 0 fstat 0";

const EMPTIED: &str =
    "do 0 open /f 0x202\ndo 0 fill 0 100\ndo 1 open /f 0x400\ndo 0 read 0 10\ndo 0 write 0 A\ndo 0 fill 0 0";

const UNLINKED: &str =
    "do 1 mkdir /d\ndo 1 open /d/f 0x200\ndo 1 close 0\n0 open /d/f 0\nupto 0 unlock 1\ndo 1 unlink /d/f\ndo 1 unlink /d\nend 0";

const MADE_ANEW: &str =
    "do 1 mkdir /d\ndo 1 open /d/f 0x200\ndo 1 close 0\n0 open /d/f 0\nupto 0 unlock 1\ndo 1 unlink /d/f\ndo 1 unlink /d\ndo 1 mkdir /d\ndo 1 open /d/f 0x200\nend 0";

const REMOVED: &str =
    "do 0 mkdir /d\ndo 0 chdir /d\ndo 1 unlink /d\ndo 0 open x 0x200\ndo 0 open . 0\ndo 0 open \"\" 0\ndo 0 read 0 48";

const MEETINGS: &str =
    "do 0 mkdir /p\ndo 1 mkdir /q\ndo 2 mkdir /r\ndo 3 mkdir /s\ndo 0 chdir /p\ndo 1 chdir /q\ndo 2 chdir /r\ndo 3 chdir /s\n0 mkdir d\n1 open n 0x202\n2 mkdir d\n3 open n 0x202\nall\n0 open d 0\n1 fstat 0\n2 open d 0\n3 fstat 0\nall\n0 fstat 0\n1 close 0\n2 fstat 0\n3 unlink n\nall\n0 close 0\n1 unlink n\n2 unlink d\n3 close 0\nall\n0 mkdir e\n1 open o 0x202\n2 mkdir e\n3 open o 0x202\nall\n0 open e 0\n1 fstat 0\n2 open e 0\n3 fstat 0\nall\n0 fstat 0\n1 close 0\n2 fstat 0\n3 unlink o\nall\n0 close 0\n1 unlink o\n2 unlink e\n3 close 0\nall\n0 mkdir f\n1 open n 0x202\n2 mkdir f\n3 open n 0x202\nall\n0 open f 0\n1 fstat 0\n2 open f 0\n3 fstat 0\nall\n0 fstat 0\n1 close 0\n2 fstat 0\n3 unlink n\nall\n0 close 0\n1 unlink n\n2 unlink f\n3 close 0\nall";

const LISTED: &str =
    "do 0 mkdir /a\ndo 1 mkdir /b\ndo 0 mkdir /c\ndo 0 mkdir /c/d\ndo 1 open / 0\ndo 1 read 0 80\ndo 0 open /c 0\ndo 0 read 0 48";

const LINKED: &str =
    "do 1 open /f 0x201\ndo 1 write 0 A\n0 link /f /g\nupto 0 unlock 2\ndo 1 unlink /f\nend 0\ndo 0 open /g 0\ndo 0 fstat 0\ndo 0 read 0 9";

const NAME_THERE: &str =
    "do 1 open /f 0x200\ndo 1 open /g 0x200\n0 link /f /g\nupto 0 unlock 2\ndo 1 fstat 0\nend 0\ndo 1 fstat 0";

const INHERITED: &str =
    "do 0 open / 0\ndo 0 inherit 1\n0 read 0 16\nupto 0 unlock 1\ndo 1 read 0 16\nend 0";

const STILL_OPEN: &str =
    "do 0 open /f 0x200\ndo 0 unlink /f\ndo 0 unlink /f\ndo 0 fstat 0\ndo 0 unlink /.";

const RAISE_TAKEN_BACK: &str =
    "do 0 mkdir /d\ndo 0 chdir /d\ndo 1 open /f 0x200\n0 link /f x\nupto 0 unlock 1\ndo 1 unlink /d\nend 0";

const CLIMBS: &str =
    "do 0 mkdir /a\ndo 0 mkdir /a/b\ndo 0 chdir /a/b\n0 open ../c 0\nupto 0 unlock 1\ndo 1 unlink /a/b\ndo 1 open /a/c 0x200\nend 0";

const FULL: &str =
    "do 0 open / 0\ndo 0 open / 0\ndo 0 open / 0\ndo 0 open / 0\ndo 0 open / 0\ndo 0 open / 0\ndo 0 open / 0\ndo 0 open / 0\ndo 0 open / 0\ndo 0 open / 0\ndo 0 open / 0\ndo 0 open / 0\ndo 0 open / 0\ndo 0 open / 0\ndo 0 open / 0\ndo 0 open / 0\ndo 0 open / 0";

const FULL_AND_CLIMBS: &str =
    "do 0 open /.. 0\ndo 0 open / 0\ndo 0 open / 0\ndo 0 open / 0\ndo 0 open / 0\ndo 0 open / 0\ndo 0 open / 0\ndo 0 open / 0\ndo 0 open / 0\ndo 0 open / 0\ndo 0 open / 0\ndo 0 open / 0\ndo 0 open / 0\ndo 0 open / 0\ndo 0 open / 0\ndo 0 open / 0\ndo 0 open / 0";

/// A seventeenth descriptor is asked for, and its step has answered that there is none; the call hasn't replied yet.
const FULL_UNDER_WAY: &str =
    "do 0 open / 0\ndo 0 open / 0\ndo 0 open / 0\ndo 0 open / 0\ndo 0 open / 0\ndo 0 open / 0\ndo 0 open / 0\ndo 0 open / 0\ndo 0 open / 0\ndo 0 open / 0\ndo 0 open / 0\ndo 0 open / 0\ndo 0 open / 0\ndo 0 open / 0\ndo 0 open / 0\ndo 0 open / 0\n0 open / 0\nupto 0 slot 2";

const FULL_UNDER_WAY_AND_CLIMBS: &str =
    "do 0 open /.. 0\ndo 0 open / 0\ndo 0 open / 0\ndo 0 open / 0\ndo 0 open / 0\ndo 0 open / 0\ndo 0 open / 0\ndo 0 open / 0\ndo 0 open / 0\ndo 0 open / 0\ndo 0 open / 0\ndo 0 open / 0\ndo 0 open / 0\ndo 0 open / 0\ndo 0 open / 0\ndo 0 open / 0\n0 open / 0\nupto 0 slot 2";

/// A file is claimed for which there is no place in memory, and its call hasn't got that reply yet.
const PLACE_UNDER_WAY: &str =
    "do 0 open /f0 0x200\ndo 0 open /f1 0x200\ndo 0 open /f2 0x200\ndo 0 open /f3 0x200\ndo 0 open /f4 0x200\ndo 0 open /f5 0x200\ndo 0 open /f6 0x200\ndo 0 open /f7 0x200\ndo 0 open /f8 0x200\ndo 0 open /f9 0x200\ndo 0 open /f10 0x200\ndo 0 open /f11 0x200\ndo 0 open /f12 0x200\ndo 0 open /f13 0x200\ndo 0 open /f14 0x200\ndo 0 open /f15 0x200\ndo 1 open /f16 0x200\ndo 1 open /f17 0x200\ndo 1 open /f18 0x200\ndo 1 open /f19 0x200\ndo 1 open /f20 0x200\ndo 1 open /f21 0x200\ndo 1 open /f22 0x200\ndo 1 open /f23 0x200\ndo 1 open /f24 0x200\ndo 1 open /f25 0x200\ndo 1 open /f26 0x200\ndo 1 open /f27 0x200\ndo 1 open /f28 0x200\ndo 1 open /f29 0x200\ndo 1 open /f30 0x200\ndo 1 open /f31 0x200\ndo 2 open /f32 0x200\ndo 2 open /f33 0x200\ndo 2 open /f34 0x200\ndo 2 open /f35 0x200\ndo 2 open /f36 0x200\ndo 2 open /f37 0x200\ndo 2 open /f38 0x200\ndo 2 open /f39 0x200\ndo 2 open /f40 0x200\ndo 2 open /f41 0x200\ndo 2 open /f42 0x200\ndo 2 open /f43 0x200\ndo 2 open /f44 0x200\ndo 2 open /f45 0x200\ndo 2 open /f46 0x200\ndo 2 open /f47 0x200\ndo 3 open /f48 0x200\n4 open /new 0x200\nupto 4 up 2";

/// A run, and the lines of its list after their event numbers. For moves of an entry from one place to another,
/// whether the list explains the run then.
struct Row {
    text: &'static str,
    lines: &'static [&'static str],
    moves: &'static [(usize, usize, bool)],
}

const ROWS: [Row; 3] = [
    Row {
        text: UNLINKED,
        lines: &[
            "1 mkdir /d: ok, inode 2",
            "1 open /d/f 512: fd 0, inode 3",
            "1 close 0: ok",
            "1 unlink /d/f: ok",
            "1 unlink /d: ok",
            "0 open /d/f 0: failed 1 NoEntry",
        ],
        moves: &[(5, 4, true), (5, 3, false)],
    },
    Row {
        text: MADE_ANEW,
        lines: &[
            "1 mkdir /d: ok, inode 2",
            "1 open /d/f 512: fd 0, inode 3",
            "1 close 0: ok",
            "1 unlink /d/f: ok",
            "1 unlink /d: ok",
            "0 open /d/f 0: failed 1 NoEntry",
            "1 mkdir /d: ok, inode 3",
            "1 open /d/f 512: fd 0, inode 4",
        ],
        moves: &[(5, 4, true), (5, 3, false), (5, 6, true), (5, 7, false)],
    },
    Row {
        text: RAISE_TAKEN_BACK,
        lines: &[
            "0 mkdir /d: ok, inode 2",
            "0 chdir /d: ok",
            "1 open /f 512: fd 0, inode 3",
            "0 find /f: ok",
            "1 unlink /d: ok",
            "0 bump: ok",
            "0 enter x: failed 1 NoEntry",
            "0 unbump: ok",
        ],
        moves: &[(5, 4, true), (4, 6, false)],
    },
];

// What explains a script's events, if memory isn't short.
fn explained(alloc: Global, play: &Play) -> Result<Result<Vec<Placed>, ExplainRefused>, Fail> {
    match explain(alloc, &play.image, &play.events) {
        Err(ExplainRefused::NoMemory) => Err(Fail::from(AllocError)),
        answer => Ok(answer),
    }
}

fn list_of(alloc: Global, play: &Play) -> Result<Vec<Placed>, Fail> {
    match explained(alloc, play)? {
        Ok(list) => Ok(list),
        Err(_) => Err(Fail::new("it is refused")),
    }
}

// The list with an entry moved. The entry gets the event of the one before which it is put, or after which if it
// moves on.
fn moved(
    alloc: Global,
    list: &[Placed],
    from: usize,
    to: usize,
) -> Result<Vec<Placed>, AllocError> {
    let mut moved = Vec::new(alloc);
    moved.extend_with_clones(list)?;
    if from < moved.len() {
        let mut entry = moved.remove(from);
        let beside = if to < from { to } else { to.saturating_sub(1) };
        if let Some(other) = moved.get(beside) {
            entry.event = other.event;
        }
        if to <= moved.len() {
            moved.insert(to, entry)?;
        }
    }
    Ok(moved)
}

fn line_of(alloc: Global, entry: &Placed) -> Result<Vec<u8>, Fail> {
    let mut line = Vec::new(alloc);
    write_entry(&mut line, entry)?;
    Ok(line)
}

// Whether the entry's line is this one, after its event's number.
fn has_line(alloc: Global, entry: &Placed, wanted: &str) -> Result<bool, Fail> {
    let line = line_of(alloc, entry)?;
    let event = entry.event;
    let told = format!(in alloc; "event {event}: {wanted}\n")?;
    Ok(line.as_slice() == told.as_bytes())
}

fn plays_row(rt: &impl Abort, alloc: Global, row: &Row) -> Result<(), Fail> {
    let play = played(alloc, row.text)?;
    let list = list_of(alloc, &play)?;
    assert!(rt; list.len() == row.lines.len());
    for (entry, line) in list.iter().zip(row.lines) {
        assert!(rt; has_line(alloc, entry, *line)?);
    }
    let seen = seen_in(alloc, &play)?;
    for (from, to, holds) in row.moves {
        let moved = moved(alloc, &list, *from, *to)?;
        assert!(rt; explains(alloc, &seen, &moved)? == *holds);
    }
    Ok(())
}

/// In the list a failing walk comes at the removal of its directory, and a link's raise when it is made and taken
/// back. Neither may come at a time when the tree would have given another answer.
#[test]
fn walks_fail_where_their_directory_goes(rt: HostRuntime) -> Result<(), Fail> {
    let alloc = rt.alloc();
    for row in &ROWS {
        plays_row(&rt, alloc, row)?;
    }
    Ok(())
}

fn explain_all(rt: &impl Abort, alloc: Global, texts: &[&str]) -> Result<(), Fail> {
    for text in texts {
        let play = played(alloc, *text)?;
        let list = list_of(alloc, &play)?;
        let seen = seen_in(alloc, &play)?;
        assert!(rt; !list.is_empty() && explains(alloc, &seen, &list)?);
        assert!(rt; gives_answers(alloc, seen, &list)?);
    }
    Ok(())
}

/// Each list explains its run, and its steps, made on the image's tree, give its answers.
#[test]
fn lists_explain_runs(rt: HostRuntime) -> Result<(), Fail> {
    let texts = [
        FIRST, STATES, NO_PARENT, CUT_NAMES, PIECES, ONE_PIECE, EMPTIED, REMOVED, STILL_OPEN,
    ];
    explain_all(&rt, rt.alloc(), &texts)
}

/// So do those of runs in which harts meet.
#[test]
fn lists_explain_meetings(rt: HostRuntime) -> Result<(), Fail> {
    let texts = [
        UNLINKED,
        MADE_ANEW,
        LINKED,
        NAME_THERE,
        INHERITED,
        RAISE_TAKEN_BACK,
    ];
    explain_all(&rt, rt.alloc(), &texts)
}

/// The numbers of nodes that harts make in directories of their own are those that later calls show, in whatever
/// order the nodes were entered. So are those of directories that only reads of their parents show.
#[test]
fn lists_explain_numbers(rt: HostRuntime) -> Result<(), Fail> {
    explain_all(&rt, rt.alloc(), &[MEETINGS, LISTED])
}

/// A list explains a write in ninety pieces too, the last of which is refused or is written.
#[test]
fn a_list_explains_a_long_write(rt: HostRuntime) -> Result<(), Fail> {
    explain_all(&rt, rt.alloc(), &[TOO_BIG, BIGGEST])
}

/// An empty list explains a run without events.
#[test]
fn an_empty_list_explains_nothing_made(rt: HostRuntime) -> Result<(), Fail> {
    let alloc = rt.alloc();
    let play = played(alloc, "")?;
    let list = list_of(alloc, &play)?;
    assert!(rt; play.events.is_empty() && list.is_empty());
    assert!(rt; explains(alloc, &seen_in(alloc, &play)?, &list)?);
    Ok(())
}

/// A path that climbs is refused. Want of room is refused too, if a path climbs, or in a call that hasn't replied.
#[test]
fn runs_are_refused(rt: HostRuntime) -> Result<(), Fail> {
    let alloc = rt.alloc();
    let rows = [
        (CLIMBS, ExplainRefused::Climbs),
        (FULL, ExplainRefused::FullSeen),
        (FULL_AND_CLIMBS, ExplainRefused::FullSeen),
        (FULL_UNDER_WAY, ExplainRefused::FullSeen),
        (FULL_UNDER_WAY_AND_CLIMBS, ExplainRefused::FullSeen),
        (PLACE_UNDER_WAY, ExplainRefused::FullSeen),
    ];
    for (text, wanted) in rows {
        match explained(alloc, &played(alloc, text)?)? {
            Ok(_) => assert!(rt; false),
            Err(refused) => assert!(rt; refused == wanted),
        }
    }
    Ok(())
}

/// A damaged image is refused as a mount refuses it.
#[test]
fn a_short_image_is_refused(rt: HostRuntime) -> Result<(), Fail> {
    let alloc = rt.alloc();
    let play = Play {
        image: vec![in alloc; 0u8; 1500]?,
        events: Vec::new(alloc),
    };
    match explained(alloc, &play)? {
        Ok(_) => assert!(rt; false),
        Err(refused) => {
            assert!(rt; (refused.number(), refused.name()) == (51, "TooShort"));
        }
    }
    Ok(())
}
