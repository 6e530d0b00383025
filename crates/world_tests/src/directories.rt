//! Directories of few and many names, with free slots between them.
use crate::images::{Image, counts, disk_of, name};
use crate::lists::{holds, play};
use crate::memory::push;
use crate::rows::Ask::{Close, Fstat, Link, Mkdir, Open, Read, Unlink};
use crate::rows::Line::Do;
use crate::rows::Says::{Bytes, Done, Failed, Fd, State};
use crate::rows::{Line, READ};
use block_device::MemoryDisk;
use plain_tree::{Cause, NodeType};
use std::alloc::Global;
use std::process::Abort;

// Paths that lead to nothing.
const MISSING: [&[u8]; 3] = [b"/d/missing", b"/d/aaa", b"/d/aaaaa"];

// A path in `/d`, and whether its name stays, goes again, or comes later.
#[derive(Clone, Copy)]
struct Entry {
    path: [u8; 7],
    goes: bool,
}

fn path(number: u32) -> [u8; 7] {
    let [a, b, c, d] = name(number);
    [b'/', b'd', b'/', a, b, c, d]
}

// Names of the numbers below a count. A name goes if its number leaves this rest by this divisor.
fn entries(rt: &impl Abort, alloc: Global, count: u32, divisor: u32, rest: u32) -> Vec<Entry> {
    let mut entries = Vec::new(alloc);
    for number in 0..count {
        let (path, goes) = (path(number), number.checked_rem(divisor) == Some(rest));
        push(rt, &mut entries, Entry { path, goes });
    }
    entries
}

// For each name that goes another one, and one more.
fn later(rt: &impl Abort, alloc: Global, entries: &[Entry]) -> Vec<[u8; 7]> {
    let mut paths = Vec::new(alloc);
    let mut number = 40_000u32;
    push(rt, &mut paths, path(number));
    for entry in entries {
        number = number.saturating_add(1);
        if entry.goes {
            push(rt, &mut paths, path(number));
        }
    }
    paths
}

// A slot of this number and of a path's name; all zeros for a free one.
fn push_slot(rt: &impl Abort, content: &mut Vec<u8>, number: u8, path: &[u8]) {
    push(rt, content, number);
    push(rt, content, 0);
    for i in 3..17 {
        push(rt, content, path.get(i).copied().unwrap_or(0));
    }
}

// The directory's content. The free slots have the later names in turn, and the remaining ones come after the last
// slot.
fn content(rt: &impl Abort, alloc: Global, entries: &[Entry], later: &[[u8; 7]]) -> Vec<u8> {
    let mut content = Vec::new(alloc);
    push_slot(rt, &mut content, 3, b"/d/.");
    push_slot(rt, &mut content, 1, b"/d/..");
    let mut next = 0usize;
    for entry in entries {
        match later.get(next) {
            Some(path) if entry.goes => push_slot(rt, &mut content, 2, path),
            None if entry.goes => push_slot(rt, &mut content, 0, b""),
            _ => push_slot(rt, &mut content, 2, &entry.path),
        }
        if entry.goes {
            next = next.saturating_add(1);
        }
    }
    if let Some(path) = later.get(next) {
        push_slot(rt, &mut content, 2, path);
    }
    content
}

// The names are entered, and then some go.
fn push_changes<'a>(rt: &impl Abort, lines: &mut Vec<Line<'a>>, entries: &'a [Entry]) {
    for entry in entries {
        push(rt, lines, Do(0, Link(b"/f", &entry.path), Done));
    }
    for entry in entries {
        if entry.goes {
            push(rt, lines, Do(0, Unlink(&entry.path), Done));
        }
    }
}

// Each name is found that is there, and no other one; and the directory has this content.
fn push_looks<'a>(
    rt: &impl Abort,
    lines: &mut Vec<Line<'a>>,
    entries: &'a [Entry],
    content: &'a [u8],
) {
    for entry in entries {
        let found = if entry.goes {
            Failed(Cause::NoEntry)
        } else {
            Fd(0)
        };
        push(rt, lines, Do(0, Open(&entry.path, READ), found));
        if !entry.goes {
            push(rt, lines, Do(0, Close(0), Done));
        }
    }
    for path in MISSING {
        push(rt, lines, Do(0, Open(path, READ), Failed(Cause::NoEntry)));
    }
    push(rt, lines, Do(0, Open(b"/d", READ), Fd(0)));
    let state = State(3, NodeType::Directory, 1, content.len() as u64);
    push(rt, lines, Do(0, Fstat(0), state));
    push(rt, lines, Do(0, Read(0, 20_000), Bytes(content)));
    push(rt, lines, Do(0, Close(0), Done));
}

// A directory of `count` names, of which some go, and others come: the disk then.
fn change_names(rt: &impl Abort, alloc: Global, count: u32, divisor: u32, rest: u32) -> MemoryDisk {
    let entries = entries(rt, alloc, count, divisor, rest);
    let later = later(rt, alloc, entries.as_slice());
    let old = content(rt, alloc, entries.as_slice(), &[]);
    let new = content(rt, alloc, entries.as_slice(), later.as_slice());
    let mut lines = Vec::new(alloc);
    push(rt, &mut lines, Do(0, Mkdir(b"/d"), Done));
    push_changes(rt, &mut lines, entries.as_slice());
    push_looks(rt, &mut lines, entries.as_slice(), old.as_slice());
    for path in later.as_slice() {
        push(rt, &mut lines, Do(0, Link(b"/f", path), Done));
    }
    push_looks(rt, &mut lines, entries.as_slice(), new.as_slice());
    let disk = disk_of(rt, alloc, Image::WithFile(60, b""));
    let (_made, disk) = play(rt, alloc, disk, lines.as_slice());
    disk
}

/// A lookup of each name of a directory says whether the name is there, even if names went between others. A new name
/// goes into the first free slot, or after the last one.
#[test]
fn names_take_free_slots(rt: HostRuntime) {
    // How many names, the divisor and the rest of those that go, and the blocks of the root and the directory at the
    // end.
    let rows: [(u32, u32, u32, u32); 9] = [
        (1, 5, 3, 2),
        (1, 1, 0, 2),
        (2, 2, 0, 2),
        (2, 2, 1, 2),
        (62, 61, 0, 3),
        (64, 3, 1, 3),
        (65, 63, 62, 3),
        (65, 64, 62, 3),
        (770, 97, 96, 15),
    ];
    for (count, divisor, rest, blocks) in rows {
        let disk = change_names(&rt, rt.alloc(), count, divisor, rest);
        let counts = counts(&rt, rt.alloc(), disk);
        holds(&rt, counts == (3, 0, blocks), "of", count as usize);
    }
}
