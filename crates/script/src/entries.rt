//! The lines of a history's entries, for people.
ghost use Rattle.std.specs.Prelude.{◌≡◌, ◌++◌, codes, decimal, length, OnOk};
ghost use Rattle.script.specs.Vocabulary.{Appends};
ghost use Rattle.script.specs.Text.{bytes_text, numbered_text, stat_text};
ghost use Rattle.script.specs.Entries.{action_text, all_printed, answer_text, entry_line, is_printed, made_number, made_text, may_make, path_word, step_text, told_text};

use crate::replies::{write_bytes, write_hex};
use plain_tree::{Action, Placed, Stat, StepAnswer};
use std::io;
use std::io::Write;

/// Writes the line of an entry, as `event 12: 0 open /d/f 0: failed 1 NoEntry`: its event, its hart, what the step
/// did, and what that answered. A piece of a write has its length in the line, a read the bytes that it gave. A node
/// that was made has its inode's number, as `event 30: 0 open /f 513: fd 0, inode 2`.
pub fn write_entry<W: Write>(out: &mut W, entry: &Placed) -> io::Result<()>
    ensures { OnOk result (Appends (W.contents out.old) (W.contents out.new) (entry_line entry.now)) }
{
    write_step(out, entry)?;
    write_told(out, entry)
}

// The event, the hart, and what its step did.
fn write_step<W: Write>(out: &mut W, entry: &Placed) -> io::Result<()>
    ensures { OnOk result (Appends (W.contents out.old) (W.contents out.new) (step_text entry.now)) }
{
    let (event, hart) = (entry.event, entry.step.hart);
    write!(out, "event {event}: {hart} ")?;
    write_action(out, &entry.step.action)
}

// What the step answered, what it made, and the line's end.
fn write_told<W: Write>(out: &mut W, entry: &Placed) -> io::Result<()>
    ensures { OnOk result (Appends (W.contents out.old) (W.contents out.new) (told_text entry.now)) }
{
    write!(out, ": ")?;
    write_answer(out, &entry.answer)?;
    write_made(out, made_number(entry))?;
    writeln!(out)
}

// Whether the step led to what its path names, which it may have made.
fn may_make(action: &Action, answer: &StepAnswer) -> bool
    ensures { result ≡ may_make action.now answer.now }
{
    match action {
        Action::Open { .. } => matches!(answer, StepAnswer::Opened { .. }),
        Action::Mkdir { .. } => matches!(answer, StepAnswer::Done),
        _ => false,
    }
}

// The number of the node that the step made.
fn made_number(entry: &Placed) -> Option<u16>
    ensures { result ≡ made_number entry.now }
{
    let new = entry.step.new;
    if may_make(&entry.step.action, &entry.answer) && new != 0 {
        Some(new)
    } else {
        None
    }
}

fn write_made<W: Write>(out: &mut W, made: Option<u16>) -> io::Result<()>
    ensures { OnOk result (Appends (W.contents out.old) (W.contents out.new) (made_text made)) }
{
    match made {
        Some(number) => write!(out, ", inode {number}"),
        None => Ok(()),
    }
}

// What a step does.
fn write_action<W: Write>(out: &mut W, action: &Action) -> io::Result<()>
    ensures { OnOk result (Appends (W.contents out.old) (W.contents out.new) (action_text action.now)) }
{
    match action {
        Action::Open { path, flags } => {
            write_at_path(out, "open ", path.as_slice())?;
            write!(out, " {flags}")
        }
        Action::Truncate { fd } => write!(out, "truncate {fd}"),
        Action::Read { fd, count } => write!(out, "read {fd} {count}"),
        Action::WritePart { fd, bytes } => {
            let count = bytes.as_slice().len();
            write!(out, "write {fd} {count}")
        }
        Action::Find { old } => write_at_path(out, "find ", old.as_slice()),
        Action::Bump => write!(out, "bump"),
        Action::Enter { new } => write_at_path(out, "enter ", new.as_slice()),
        Action::Unbump => write!(out, "unbump"),
        Action::Unlink { path } => write_at_path(out, "unlink ", path.as_slice()),
        Action::Mkdir { path } => write_at_path(out, "mkdir ", path.as_slice()),
        Action::Chdir { path } => write_at_path(out, "chdir ", path.as_slice()),
        Action::Dup { fd } => write!(out, "dup {fd}"),
        Action::Fstat { fd } => write!(out, "fstat {fd}"),
        Action::Close { fd } => write!(out, "close {fd}"),
        Action::Inherit { child } => write!(out, "inherit {child}"),
    }
}

// What a step answered.
fn write_answer<W: Write>(out: &mut W, answer: &StepAnswer) -> io::Result<()>
    ensures { OnOk result (Appends (W.contents out.old) (W.contents out.new) (answer_text answer.now)) }
{
    match answer {
        StepAnswer::Opened { fd, .. } => write!(out, "fd {fd}"),
        StepAnswer::Bytes { bytes } => write_given(out, bytes.as_slice()),
        StepAnswer::Stat { stat } => write_stat(out, stat),
        StepAnswer::Fd { fd } => write!(out, "fd {fd}"),
        StepAnswer::Done => write!(out, "ok"),
        StepAnswer::Failed { cause } => write_fate(out, "failed", cause.number(), cause.name()),
        StepAnswer::Full { full } => write_fate(out, "full", full.number(), full.name()),
    }
}

// Why a step did nothing, by number and name.
fn write_fate<W: Write>(out: &mut W, fate: &str, number: u8, why: &str) -> io::Result<()>
    ensures { OnOk result (Appends (W.contents out.old) (W.contents out.new) (numbered_text fate.now number why.now)) }
{
    write!(out, "{fate} {number} {why}")
}

// What an inode is.
fn write_stat<W: Write>(out: &mut W, stat: &Stat) -> io::Result<()>
    ensures { OnOk result (Appends (W.contents out.old) (W.contents out.new) (stat_text stat.now)) }
{
    write_inode(out, stat.device, stat.inode)?;
    write_state(out, stat.kind.number(), stat.nlink, stat.size)
}

fn write_inode<W: Write>(out: &mut W, device: u32, inode: u16) -> io::Result<()>
    ensures { OnOk result (Appends (W.contents out.old) (W.contents out.new) (decimal device ++ codes " " ++ decimal inode)) }
{
    write!(out, "{device} {inode}")
}

fn write_state<W: Write>(out: &mut W, kind: u8, nlink: u16, size: u64) -> io::Result<()>
    ensures { OnOk result (Appends (W.contents out.old) (W.contents out.new)
        (codes " " ++ decimal kind ++ codes " " ++ decimal nlink ++ codes " " ++ decimal size)) }
{
    write!(out, " {kind} {nlink} {size}")
}

// How many bytes a read gave, and these.
fn write_given<W: Write>(out: &mut W, bytes: &[u8]) -> io::Result<()>
    ensures { OnOk result (Appends (W.contents out.old) (W.contents out.new) (decimal (length bytes.now) ++ bytes_text bytes.now)) }
{
    let count = bytes.len();
    write!(out, "{count}")?;
    write_bytes(out, bytes)
}

// A word, and the path at which the step acts.
fn write_at_path<W: Write>(out: &mut W, word: &str, path: &[u8]) -> io::Result<()>
    ensures { OnOk result (Appends (W.contents out.old) (W.contents out.new) (word.now ++ path_word path.now)) }
{
    write!(out, "{word}")?;
    write_path(out, path)
}

// A path as it is if each of its bytes is printed, else in digits.
fn write_path<W: Write>(out: &mut W, path: &[u8]) -> io::Result<()>
    ensures { OnOk result (Appends (W.contents out.old) (W.contents out.new) (path_word path.now)) }
{
    if path.is_empty() {
        return write!(out, "\"\"");
    }
    if all_printed(path) {
        return out.write_all(path);
    }
    write!(out, "hex:")?;
    write_hex(out, path)
}

// A byte from '!' to '~'.
fn is_printed(byte: u8) -> bool
    ensures { result ≡ is_printed byte }
{
    byte > 32 && byte < 127
}

fn all_printed(bytes: &[u8]) -> bool
    ensures { result ≡ all_printed bytes.now }
{
    bytes.iter().all(|byte| is_printed(*byte))
}
