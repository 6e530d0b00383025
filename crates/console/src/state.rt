//! How far each hart's call has come, and how far the log's commit is, for whoever types lines.
ghost use Rattle.std.specs.Prelude.{◌≡◌, ◌++◌, OnOk, codes, decimal};
ghost use Rattle.console.specs.Vocabulary.{Appends};
ghost use Rattle.console.specs.Prompts.{calls_text, child_text, doing_text, joined_text, locks_text, phase_text, progress_text, state_text, step_text, waits_text};
ghost use Rattle.console.specs.Sessions.{doing_at};

use crate::doing::Doing;
use crate::numbers::kind_word;
use crate::session::Session;
use crate::verb::Verb;
use block_device::Device;
use fs_machine::Kind;
use group_log::Phase;
use std::io;
use std::io::Write;

/// A line for each of these harts that has a call, and one of the log: how far its commit is.
pub fn write_state<D: Device, W: Write>(
    session: &Session<D>,
    out: &mut W,
    harts: &[u8],
) -> io::Result<()>
    ensures { OnOk result (Appends (W.contents out.old) (W.contents out.new) (state_text harts.now session.now)) }
{
    write_calls(session, out, harts)?;
    write_phase(out, session.phase())
}

// Of each hart that has a call: which, the hart that an inherit holds, the kind of its last step, and how many
// inodes' locks it has. Also whether it is in a transaction, and whether the step that was tried after its last one
// waited.
fn write_calls<D: Device, W: Write>(
    session: &Session<D>,
    out: &mut W,
    harts: &[u8],
) -> io::Result<()>
    ensures { OnOk result (Appends (W.contents out.old) (W.contents out.new) (calls_text harts.now session.now.doing)) }
{
    for hart in harts {
        write_doing(session, out, *hart)?;
    }
    Ok(())
}

fn write_doing<D: Device, W: Write>(session: &Session<D>, out: &mut W, hart: u8) -> io::Result<()>
    ensures { OnOk result (Appends (W.contents out.old) (W.contents out.new) (doing_text hart (doing_at hart session.now.doing))) }
{
    match session.doing(hart) {
        Some(doing) => write_call(out, hart, &doing),
        None => Ok(()),
    }
}

fn write_call<W: Write>(out: &mut W, hart: u8, doing: &Doing) -> io::Result<()>
    ensures { OnOk result (Appends (W.contents out.old) (W.contents out.new) (doing_text hart (Some doing.now))) }
{
    let word = doing.verb.word();
    write!(out, "{hart} {word}")?;
    write_child(out, doing.verb)?;
    write_progress(out, doing)
}

// How far a call has come, and what it has.
fn write_progress<W: Write>(out: &mut W, doing: &Doing) -> io::Result<()>
    ensures { OnOk result (Appends (W.contents out.old) (W.contents out.new) (progress_text doing.now)) }
{
    write_step(out, doing.last)?;
    write_locks(out, doing.locks())?;
    write_joined(out, doing.is_joined())?;
    write_wait(out, doing.waits)
}

// The hart that an inherit holds, which gets its descriptors.
fn write_child<W: Write>(out: &mut W, verb: Verb) -> io::Result<()>
    ensures { OnOk result (Appends (W.contents out.old) (W.contents out.new) (child_text verb)) }
{
    match verb {
        Verb::Inherit(child) => write!(out, " {child}"),
        _ => Ok(()),
    }
}

// How far a call has come.
fn write_step<W: Write>(out: &mut W, last: Option<Kind>) -> io::Result<()>
    ensures { OnOk result (Appends (W.contents out.old) (W.contents out.new) (step_text last)) }
{
    match last {
        Some(kind) => write_kind(out, kind_word(kind)),
        None => write!(out, " started"),
    }
}

fn write_kind<W: Write>(out: &mut W, word: &str) -> io::Result<()>
    ensures { OnOk result (Appends (W.contents out.old) (W.contents out.new) (codes " after " ++ word.now)) }
{
    write!(out, " after {word}")
}

fn write_locks<W: Write>(out: &mut W, count: u32) -> io::Result<()>
    ensures { OnOk result (Appends (W.contents out.old) (W.contents out.new) (locks_text count)) }
{
    if count == 0 {
        Ok(())
    } else if count == 1 {
        write!(out, ", 1 lock")
    } else {
        write!(out, ", {count} locks")
    }
}

fn write_joined<W: Write>(out: &mut W, joined: bool) -> io::Result<()>
    ensures { OnOk result (Appends (W.contents out.old) (W.contents out.new) (joined_text joined)) }
{
    if joined {
        write!(out, ", in a transaction")
    } else {
        Ok(())
    }
}

fn write_wait<W: Write>(out: &mut W, waits: bool) -> io::Result<()>
    ensures { OnOk result (Appends (W.contents out.old) (W.contents out.new) (waits_text waits)) }
{
    if waits {
        writeln!(out, ", waits")
    } else {
        writeln!(out)
    }
}

fn write_phase<W: Write>(out: &mut W, phase: Phase) -> io::Result<()>
    ensures { OnOk result (Appends (W.contents out.old) (W.contents out.new) (phase_text phase)) }
{
    match phase {
        Phase::Open => writeln!(out, "log open"),
        Phase::Staging(copied) => writeln!(out, "log commits, {copied} copied into it"),
        Phase::Installing(copied) => writeln!(out, "log commits, {copied} copied home"),
        Phase::Halted => writeln!(out, "log halted"),
    }
}
