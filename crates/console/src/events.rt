//! The lines that are printed after a script: the last events, and the columns of the timeline.
ghost use Rattle.std.specs.Prelude.{◌*◌, ◌^◌, ◌-◌, ◌++◌, ◌<◌, OnOk, min, true, codes, decimal, replicate};
ghost use Rattle.console.specs.Vocabulary.{format_spec, styled_decimal, Appends, numbered_text, stat_text};
ghost use Rattle.console.specs.Events.{answer_cell, cell, hart_mark, last_line, last_of, timeline_line, timeline_of, timeline_rows, what_text};

use crate::notes::{Note, Notes, What};
use crate::numbers::{kind_word, start_name, start_number, stop_name, stop_number};
use crate::session::HARTS;
use plain_tree::{Answer, Stat};
use std::io;
use std::io::Write;

/// How wide the column of a hart is.
const COLUMN: usize = 8;

/// The spaces before the last column.
const SPACES: [u8; 56] = [b' '; 56];

/// The names of the columns.
const HEAD: &str = " event  hart 0  hart 1  hart 2  hart 3  hart 4  hart 5  hart 6  hart 7";

/// The lines of the last events.
pub fn write_last<W: Write>(out: &mut W, notes: &Notes) -> io::Result<()>
    ensures { OnOk result (Appends (W.contents out.old) (W.contents out.new) (last_of notes.now)) }
{
    for note in notes.events() {
        write_event(out, note)?;
    }
    Ok(())
}

fn write_event<W: Write>(out: &mut W, note: &Note) -> io::Result<()>
    ensures { OnOk result (Appends (W.contents out.old) (W.contents out.new) (last_line note.now)) }
{
    let (number, hart) = (note.number, note.hart);
    write!(out, "event {number}: {hart} ")?;
    write_what(out, note.what)?;
    writeln!(out)
}

fn write_what<W: Write>(out: &mut W, what: What) -> io::Result<()>
    ensures { OnOk result (Appends (W.contents out.old) (W.contents out.new) (what_text what)) }
{
    match what {
        What::Start(verb) => write!(out, "start {}", verb.word()),
        What::Refused(why) => write!(out, "refused {}", start_number(why)),
        What::Ran(kind) => write!(out, "{}", kind_word(kind)),
        What::Waits => write!(out, "waits"),
        What::Done(_) => write!(out, "reply"),
        What::Stopped(stop) => write!(out, "stopped {}", stop_number(stop)),
    }
}

/// A line for each event, with what it is in its hart's column.
pub fn write_timeline<W: Write>(out: &mut W, notes: &Notes) -> io::Result<()>
    ensures { OnOk result (Appends (W.contents out.old) (W.contents out.new) (timeline_of true notes.now)) }
{
    writeln!(out, "{HEAD}")?;
    write_rows(out, notes.timeline())
}

fn write_rows<W: Write>(out: &mut W, rows: &[Note]) -> io::Result<()>
    ensures { OnOk result (Appends (W.contents out.old) (W.contents out.new) (timeline_rows rows.now)) }
{
    for note in rows {
        write_row(out, note)?;
    }
    Ok(())
}

fn write_row<W: Write>(out: &mut W, note: &Note) -> io::Result<()>
    ensures { OnOk result (Appends (W.contents out.old) (W.contents out.new) (timeline_line note.now)) }
{
    write_number(out, note.number)?;
    write_spaces(out, note.hart)?;
    write_mark(out, note.hart)?;
    write_cell(out, note.what)?;
    writeln!(out)
}

fn write_number<W: Write>(out: &mut W, number: u64) -> io::Result<()>
    ensures { OnOk result (Appends (W.contents out.old) (W.contents out.new)
        (styled_decimal (format_spec 32 0 0 6 (2 ^ 64 - 1)) number ++ codes "  ")) }
{
    write!(out, "{number:6}  ")
}

// What comes before the column of a hart.
fn write_spaces<W: Write>(out: &mut W, hart: u8) -> io::Result<()>
    ensures { OnOk result (Appends (W.contents out.old) (W.contents out.new) (replicate (min (8 * hart) 56) 32)) }
{
    let before = (COLUMN * hart as usize).min(SPACES.len());
    out.write_all(&SPACES[..before])
}

// Names a hart that has no column.
fn write_mark<W: Write>(out: &mut W, hart: u8) -> io::Result<()>
    ensures { OnOk result (Appends (W.contents out.old) (W.contents out.new) (hart_mark hart)) }
{
    if (hart as usize) < HARTS {
        Ok(())
    } else {
        write!(out, "hart {hart}: ")
    }
}

fn write_cell<W: Write>(out: &mut W, what: What) -> io::Result<()>
    ensures { OnOk result (Appends (W.contents out.old) (W.contents out.new) (cell what)) }
{
    match what {
        What::Start(verb) => write!(out, "start {}", verb.word()),
        What::Refused(why) => { write_numbered(out, "refused", start_number(why), start_name(why)) }
        What::Ran(kind) => write!(out, "{}", kind_word(kind)),
        What::Waits => write!(out, "(waits)"),
        What::Done(answer) => {
            write!(out, "reply ")?;
            write_answer(out, answer)
        }
        What::Stopped(stop) => write_numbered(out, "stopped", stop_number(stop), stop_name(stop)),
    }
}

fn write_answer<W: Write>(out: &mut W, answer: Answer) -> io::Result<()>
    ensures { OnOk result (Appends (W.contents out.old) (W.contents out.new) (answer_cell answer)) }
{
    match answer {
        Answer::Fd(fd) => write!(out, "fd {fd}"),
        Answer::Count(count) => write!(out, "{count}"),
        Answer::Stat(stat) => write_stat(out, &stat),
        Answer::Done => write!(out, "ok"),
        Answer::Failed(cause) => write_numbered(out, "failed", cause.number(), cause.name()),
        Answer::Full(full) => write_numbered(out, "full", full.number(), full.name()),
    }
}

fn write_stat<W: Write>(out: &mut W, stat: &Stat) -> io::Result<()>
    ensures { OnOk result (Appends (W.contents out.old) (W.contents out.new) (stat_text stat.now)) }
{
    let (device, inode) = (stat.device, stat.inode);
    write!(out, "{device} {inode}")?;
    write_state(out, stat.kind.number(), stat.nlink, stat.size)
}

fn write_state<W: Write>(out: &mut W, kind: u8, nlink: u16, size: u64) -> io::Result<()>
    ensures { OnOk result (Appends (W.contents out.old) (W.contents out.new)
        (codes " " ++ decimal kind ++ codes " " ++ decimal nlink ++ codes " " ++ decimal size)) }
{
    write!(out, " {kind} {nlink} {size}")
}

fn write_numbered<W: Write>(out: &mut W, fate: &str, number: u8, why: &str) -> io::Result<()>
    ensures { OnOk result (Appends (W.contents out.old) (W.contents out.new) (numbered_text fate.now number why.now)) }
{
    write!(out, "{fate} {number} {why}")
}
