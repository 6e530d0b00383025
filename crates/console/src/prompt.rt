//! Lines that are typed at a prompt: each is answered before the next is read.
ghost use Rattle.std.specs.Prelude.{◌≡◌, IfOk, IfErr, OnOk};
ghost use Rattle.console.specs.Vocabulary.{Appends, IsWellFormed, asked_by, line_said};
ghost use Rattle.console.specs.Behaviours.{IsWritten, Runs};
ghost use Rattle.console.specs.Commands.{all_harts, state};
ghost use Rattle.console.specs.Histories.{history_at};
ghost use Rattle.console.specs.Images.{disk_for};
ghost use Rattle.console.specs.Prompts.{PromptsAll, PromptsImage, PromptsLine, PromptsReader, ReadsLine, TellsBad, answers, bad_text, does, does_line, hint_of, mark, started_on, state_text, stepless, steps_text};
ghost use Rattle.console.specs.Runs.{FailsUnread};

use crate::commands::{ALL_HARTS, ScriptState, run_line};
use crate::fault::ConsoleFault;
use crate::mount::{Mounted, mount_disk};
use crate::queues::Queues;
use crate::run::{finish, image_disk, read_fault, script_state};
use crate::session::Session;
use crate::state::write_state;
use block_device::{Device, MemoryDisk};
use plain_tree::Tree;
use script::{Asked, Command, Mode, Reason, ScriptFault, asked_in};
use std::alloc::Global;
use std::io;
use std::io::{BufRead, Write};

/// What comes before each line.
const MARK: &str = "> ";

/// The help: the lines that can be typed.
pub const HELP: &str = "\
H open PATH FLAGS  starts on hart H, 0 to 7: opens PATH; 0 reads, 1 writes, 2 both, 0x200 makes, 0x400 empties
H read FD N        reads up to N bytes
H write FD BYTES   writes BYTES; hex:2f61 is /a, and \"\" is none
H fill FD N        writes N bytes x
H link OLD NEW     gives the file OLD the name NEW too
H unlink PATH      removes the name PATH
H mkdir PATH       makes a directory
H chdir PATH       goes to a directory
H dup FD           makes a second descriptor of FD
H fstat FD         tells what FD is: device, inode, type, links, size
H close FD         closes FD
H inherit CHILD    gives hart CHILD this one's descriptors and directory, as fork does
step H N           makes N steps of hart H
upto H KIND N      makes steps up to H's Nth lock, unlock, get, read, put, join, leave, commit, up, down, slot or reply
end H              makes steps of H until its call ends, or waits
do H CALL ..       starts a call, and makes steps of H until it ends, or waits
all                makes steps of all harts in turn, until each is idle, or waits
state              says of each call: inherit's child, last step, locks, transaction, wait; and of the log its commit
help               tells which lines there are
quit               ends the input, as exit does
# ..               is a comment
";

const LINE_END: u8 = b'\n';

// Prints the mark, and hands on all that was written.
fn ask<W: Write>(out: &mut W) -> Result<(), ConsoleFault>
    ensures written { IsWritten result }
    ensures prints { OnOk result (Appends (W.contents out.old) (W.contents out.new) mark) }
{
    tell(out, MARK)?;
    out.flush().map_err(ConsoleFault::Write)
}

fn tell<W: Write>(out: &mut W, text: &str) -> Result<(), ConsoleFault>
    ensures written { IsWritten result }
    ensures prints { OnOk result (Appends (W.contents out.old) (W.contents out.new) text.now) }
{
    out.write_all(text.as_bytes()).map_err(ConsoleFault::Write)
}

fn tell_state<D: Device, W: Write>(session: &Session<D>, out: &mut W) -> Result<(), ConsoleFault>
    ensures written { IsWritten result }
    ensures prints { OnOk result (Appends (W.contents out.old) (W.contents out.new) (state_text all_harts session.now)) }
{
    write_state(session, out, &ALL_HARTS).map_err(ConsoleFault::Write)
}

// Reads a line, without its end. At the input's end there is none.
fn read_line<R: BufRead>(typed: &mut R, line: &mut Vec<u8>) -> Result<bool, ConsoleFault>
    ensures line { IfOk result (λ more. ReadsLine (R.remaining typed.old) more line.new.items (R.remaining typed.new)) }
    ensures unread { IfErr result FailsUnread }
{
    line.clear();
    match typed.read_until(LINE_END, line) {
        Ok(0) => Ok(false),
        Ok(_) if line.ends_with(&[LINE_END]) => {
            line.pop();
            Ok(true)
        }
        Ok(_) => Ok(true),
        Err(fault) => Err(read_fault(fault)),
    }
}

// Prints that a line is bad, and why.
fn tell_bad<W: Write>(
    alloc: Global,
    out: &mut W,
    number: u64,
    why: &Reason,
) -> Result<(), ConsoleFault>
    ensures { TellsBad number result (W.contents out.old) (W.contents out.new) }
{
    let why = format!(in alloc; "{why}")?;
    write_bad(out, number, &why)
}

fn write_bad<W: Write>(out: &mut W, number: u64, why: &str) -> Result<(), ConsoleFault>
    ensures written { IsWritten result }
    ensures prints { OnOk result (Appends (W.contents out.old) (W.contents out.new) (bad_text number why.now)) }
{
    writeln!(out, "line {number}: bad command\n{why}").map_err(ConsoleFault::Write)
}

// The hart on which a line only starts a call.
fn started_on(command: &Command) -> Option<u8>
    ensures { result ≡ started_on (line_said command.now) }
{
    match command {
        Command::Start { hart, .. } => Some(*hart),
        _ => None,
    }
}

// The hart on which a line only starts a call though it has one that was started and has made no step.
fn stepless<D: Device>(session: &Session<D>, command: &Command) -> Option<u8>
    ensures { result ≡ stepless (started_on (line_said command.now)) session.now.doing }
{
    let hart = started_on(command)?;
    let doing = session.doing(hart)?;
    match doing.last {
        None => Some(hart),
        Some(_) => None,
    }
}

fn tell_hint<W: Write>(out: &mut W, hart: Option<u8>) -> Result<(), ConsoleFault>
    ensures written { IsWritten result }
    ensures prints { OnOk result (Appends (W.contents out.old) (W.contents out.new) (hint_of hart)) }
{
    match hart {
        None => Ok(()),
        Some(hart) => write_hint(out, hart).map_err(ConsoleFault::Write),
    }
}

fn write_hint<W: Write>(out: &mut W, hart: u8) -> io::Result<()>
    ensures { OnOk result (Appends (W.contents out.old) (W.contents out.new) (steps_text hart)) }
{
    writeln!(
        out,
        "hart {hart} has a call without a step: end {hart} makes its steps"
    )
}

// Runs a line of a script. If the line just starts a call, on a hart whose call was started and has made no step, it
// also prints what makes those steps.
fn run_typed<D: Device, W: Write>(
    alloc: Global,
    session: &mut Session<D>,
    running: &mut ScriptState,
    out: &mut W,
    command: Command,
) -> Result<(), ConsoleFault>
    ensures { Runs (does_line D.contents D.failures (line_said command)) (state session.old running.old.queues)
        (W.contents out.old) running.old.notes result (state session.new running.new.queues) (W.contents out.new) running.new.notes }
{
    let hart = stepless(session, &command);
    run_line(alloc, session, running, out, command)?;
    tell_hint(out, hart)
}

// Does what is asked. Says whether more lines are read.
fn do_asked<D: Device, W: Write>(
    alloc: Global,
    session: &mut Session<D>,
    running: &mut ScriptState,
    out: &mut W,
    help: &str,
    asked: Asked,
) -> Result<bool, ConsoleFault>
    ensures { Runs (does D.contents D.failures help.now (asked_by asked)) (state session.old running.old.queues)
        (W.contents out.old) running.old.notes result (state session.new running.new.queues) (W.contents out.new) running.new.notes }
{
    match asked {
        Asked::Nothing => Ok(true),
        Asked::Help => {
            tell(out, help)?;
            Ok(true)
        }
        Asked::State => {
            tell_state(session, out)?;
            Ok(true)
        }
        Asked::Quit => Ok(false),
        Asked::Run(command) => {
            run_typed(alloc, session, running, out, command)?;
            Ok(true)
        }
    }
}

// Answers the line of this number. Says whether more are read.
fn answer<D: Device, W: Write>(
    alloc: Global,
    session: &mut Session<D>,
    running: &mut ScriptState,
    out: &mut W,
    help: &str,
    number: u64,
    line: &[u8],
) -> Result<bool, ConsoleFault>
    ensures { Runs (answers D.contents D.failures help.now number line.now) (state session.old running.old.queues)
        (W.contents out.old) running.old.notes result (state session.new running.new.queues) (W.contents out.new) running.new.notes }
{
    match asked_in(alloc, number, line) {
        Ok(asked) => do_asked(alloc, session, running, out, help, asked),
        Err(ScriptFault::Line(number, why)) => {
            tell_bad(alloc, out, number, &why)?;
            Ok(true)
        }
        Err(ScriptFault::Memory) => Err(ConsoleFault::Memory),
    }
}

// Asks for the line of this number, reads and answers it. Says whether more are read.
fn prompt_line<D: Device, R: BufRead, W: Write>(
    alloc: Global,
    session: &mut Session<D>,
    running: &mut ScriptState,
    typed: &mut R,
    line: &mut Vec<u8>,
    out: &mut W,
    help: &str,
    number: u64,
) -> Result<bool, ConsoleFault>
    ensures { PromptsLine D.contents D.failures help.now number (R.remaining typed.old) (R.remaining typed.new)
        (state session.old running.old.queues) (W.contents out.old) running.old.notes result (state session.new running.new.queues)
        (W.contents out.new) running.new.notes }
{
    ask(out)?;
    if read_line(typed, line)? {
        return answer(alloc, session, running, out, help, number, line.as_slice());
    }
    tell(out, "\n")?;
    Ok(false)
}

// Answers line after line. There is no room for more than a u64 can count.
fn prompt_all<D: Device, R: BufRead, W: Write>(
    alloc: Global,
    session: &mut Session<D>,
    running: &mut ScriptState,
    typed: &mut R,
    out: &mut W,
    help: &str,
) -> Result<(), ConsoleFault>
    ensures { PromptsAll D.contents D.failures help.now 1 (R.remaining typed.old) (state session.old running.old.queues)
        (W.contents out.old) running.old.notes result (state session.new running.new.queues) (W.contents out.new) running.new.notes }
{
    let mut line = Vec::new(alloc);
    for number in 1..u64::MAX {
        if !prompt_line(alloc, session, running, typed, &mut line, out, help, number)? {
            return Ok(());
        }
    }
    Err(ConsoleFault::Memory)
}

/// Answers the lines that are typed, on a file system that is mounted. Each does what it does in a script alone, from
/// what the lines before it left, and is answered before the next is read. A bad line is reported with its number,
/// and changes nothing. It ends at the input's end, at the line quit, and with a call that is stopped. After all
/// answers it prints what comes after a script's.
pub fn prompt_on<D: Device, R: BufRead, W: Write>(
    alloc: Global,
    session: &mut Session<D>,
    mode: Mode,
    base: &Tree,
    typed: &mut R,
    out: &mut W,
) -> Result<(), ConsoleFault>
    ensures { PromptsReader D.contents D.failures HELP.now mode (history_at D.contents D.failures session.old base.now) session.old (R.remaining typed.old) result
        session.new (W.contents out.old) (W.contents out.new) }
{
    let mut running = script_state(alloc, session, mode, base, Queues::new(alloc))?;
    let ended = prompt_all(alloc, session, &mut running, typed, out, HELP);
    let keeper = session.hand_back();
    finish(out, mode, running, keeper, ended)
}

/// Mounts the image, or a fresh one, answers the lines that are typed, and hands out the disk. The lines are never queued, and the
/// image isn't only examined, whatever the mode says.
pub fn run_prompt<R: BufRead, W: Write>(
    alloc: Global,
    image: Option<Vec<u8>>,
    mode: Mode,
    typed: &mut R,
    out: &mut W,
) -> Result<MemoryDisk, ConsoleFault>
    ensures prompts { PromptsImage HELP.now mode image (R.remaining typed.old) result (W.contents out.old) (W.contents out.new) }
    ensures mounted { IfOk result (λ disk. IsWellFormed (disk_for image)) }
{
    let disk = image_disk(alloc, image)?;
    let Mounted { base, session } = mount_disk(alloc, mode.explain, disk)?;
    let mut session = session;
    let ended = prompt_on(alloc, &mut session, mode, &base, typed, out);
    let disk = session.unmount();
    ended?;
    Ok(disk)
}
