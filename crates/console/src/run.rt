//! Running a script.
ghost use Rattle.std.specs.Prelude.{◌≡◌, ◌<◌, ◌^◌, IfOk, IfErr, IfSome, OnOk, Some};
ghost use Rattle.console.specs.Vocabulary.{Appends, IsWellFormed, blocks_of, nothing_kept};
ghost use Rattle.console.specs.declared.fault.ConsoleFault.TheVariants.{Memory};
ghost use Rattle.console.specs.Histories.{TellsHistory, history_at, history_from, history_kept, history_on};
ghost use Rattle.console.specs.Images.{bytes_for, disk_for, fresh_bytes, JudgesImage};
ghost use Rattle.console.specs.Lines.{course, script_course};
ghost use Rattle.console.specs.Notes.{no_notes, run_in};
ghost use Rattle.console.specs.Runs.{EndsSo, FailsUnread, PrintsAll, RunsCourse, RunsReader, RunsScript, TellsWanted, end_text};
ghost use Rattle.console.specs.Scripts.{RunsImage, Tells};
ghost use Rattle.console.specs.Sessions.{beside_in, with_beside};

use crate::commands::{ScriptState, run_lines};
use crate::events::{write_last, write_timeline};
use crate::fault::{ConsoleFault, Unread};
use crate::history::{write_history, write_history_on};
use crate::lines::{Course, course_in};
use crate::mount::{Mounted, mount_disk};
use crate::notes::Notes;
use crate::queues::Queues;
use crate::session::Session;
use block_device::{Device, MemoryDisk};
use explain::Keeper;
use image_tree::{examine, find_version};
use mkfs::{MakeRefused, make};
use plain_tree::Tree;
use script::{Mode, write_shape};
use std::alloc::Global;
use std::io;
use std::io::{Read, Write};

/// The longest script, in bytes.
pub const LONGEST_SCRIPT: u64 = 16_777_216;

/// How many blocks and inodes the image has that is made if none is given.
const FRESH_SIZE: u32 = 2000;

const FRESH_INODES: u32 = 200;

fn fresh_image(alloc: Global) -> Result<MemoryDisk, ConsoleFault>
    ensures fresh { IfOk result (λ disk. disk ≡ fresh_bytes) }
    ensures memory { IfErr result (λ fault. fault ≡ Memory) }
{
    match make(alloc, FRESH_SIZE, FRESH_INODES, &[]) {
        Ok(disk) => Ok(disk),
        Err(MakeRefused::NoMemory) => Err(ConsoleFault::Memory),
        Err(_) => unreachable!(),
    }
}

/// A disk of the image, or of a fresh one.
pub fn image_disk(alloc: Global, image: Option<Vec<u8>>) -> Result<MemoryDisk, ConsoleFault>
    ensures disk { IfOk result (λ disk. disk ≡ bytes_for image) }
    ensures memory { IfErr result (λ fault. fault ≡ Memory) }
{
    match image {
        Some(bytes) => Ok(MemoryDisk::new(bytes)),
        None => fresh_image(alloc),
    }
}

/// Mounts the image, or a fresh one, runs the script on it, and hands out the disk; or only examines it, and prints what is
/// found. Answers are written as they come. Faults are found in the order image, script.
pub fn run_script<R: Read + Drop, W: Write>(
    alloc: Global,
    image: Option<Vec<u8>>,
    mode: Mode,
    script: R,
    out: &mut W,
) -> Result<MemoryDisk, ConsoleFault>
    ensures runs { RunsImage mode image (R.remaining script) result (W.contents out.old) (W.contents out.new) }
    // A refused image is refused for its first damage alone; all else is reported of a mounted one.
    ensures mounted { IfOk result (λ disk. IsWellFormed (disk_for image)) }
    ensures refused { IfErr result (JudgesImage (disk_for image)) }
{
    let disk = image_disk(alloc, image)?;
    if mode.check {
        return check(alloc, disk, out);
    }
    let Mounted { base, session } = mount_disk(alloc, mode.explain, disk)?;
    let mut session = session;
    let ended = run_on(alloc, &mut session, mode, &base, script, out);
    let disk = session.unmount();
    ended?;
    Ok(disk)
}

// Examines a disk as an image of the version that it says, and prints what it finds.
fn check<W: Write>(alloc: Global, disk: MemoryDisk, out: &mut W) -> Result<MemoryDisk, ConsoleFault>
    ensures tells { Tells disk result (W.contents out.old) (W.contents out.new) }
    ensures mounted { IfOk result (λ d. IsWellFormed (blocks_of disk)) }
    ensures refused { IfErr result (JudgesImage (blocks_of disk)) }
{
    let mut disk = disk;
    let Ok(version) = find_version(&mut disk) else {
        unreachable!();
    };
    let shape = examine(alloc, &mut disk, version)?;
    write_shape(out, &shape).map_err(ConsoleFault::Write)?;
    Ok(disk)
}

/// Runs a script on a file system that is mounted: what its lines say (`RunsReader`), in their order, each once, up
/// to the first in which a call is stopped. Answers are written as they come, and none if a line is bad. If a history
/// is wanted, it is what was kept of the script's events from `base` on. That explains their outcomes if the file
/// system is as a mount left it, and `base` is its image's tree (`history_at`). Else `base` isn't looked at.
pub fn run_on<D: Device, R: Read + Drop, W: Write>(
    alloc: Global,
    session: &mut Session<D>,
    mode: Mode,
    base: &Tree,
    script: R,
    out: &mut W,
) -> Result<(), ConsoleFault>
    ensures { RunsReader D.contents D.failures mode (history_at D.contents D.failures session.old base.now) session.old (R.remaining script) result session.new
        (W.contents out.old) (W.contents out.new) }
{
    let text = read_script(alloc, script, LONGEST_SCRIPT)?;
    run_text(alloc, session, mode, base, text.as_slice(), out)
}

/// The text of a script that isn't longer than the longest.
pub fn read_script<R: Read + Drop>(
    alloc: Global,
    script: R,
    longest: u64,
) -> Result<Vec<u8>, ConsoleFault>
    requires { longest < 2 ^ 32 }
    ensures text { IfOk result (λ text. IfSome (R.remaining script) (λ bytes. text.items ≡ bytes)) }
    ensures unread { IfErr result FailsUnread }
{
    let mut text = Vec::new(alloc);
    let mut limited = script.take(longest + 1);
    match limited.read_to_end(&mut text) {
        Ok(_) => {}
        Err(fault) => return Err(read_fault(fault)),
    }
    if text.len() as u64 > longest {
        return Err(ConsoleFault::Read(Unread::TooLong(longest)));
    }
    Ok(text)
}

/// Why nothing was read.
pub fn read_fault(fault: io::Error) -> ConsoleFault
    ensures { FailsUnread result }
{
    if fault.kind() == io::ErrorKind::OutOfMemory {
        ConsoleFault::Memory
    } else {
        ConsoleFault::Read(Unread::Input(fault))
    }
}

// Runs a script's text.
fn run_text<D: Device, W: Write>(
    alloc: Global,
    session: &mut Session<D>,
    mode: Mode,
    base: &Tree,
    text: &[u8],
    out: &mut W,
) -> Result<(), ConsoleFault>
    ensures { RunsScript D.contents D.failures mode (history_from session.old.world.sizes.version base.now) session.old (script_course mode.schedule text.now) result
        session.new (W.contents out.old) (W.contents out.new) }
{
    let planned = course_in(alloc, mode.schedule, text)?;
    run_course(alloc, session, mode, base, planned, out)
}

// Runs a course, and prints its last events and its history.
fn run_course<D: Device, W: Write>(
    alloc: Global,
    session: &mut Session<D>,
    mode: Mode,
    base: &Tree,
    run: Course,
    out: &mut W,
) -> Result<(), ConsoleFault>
    ensures { RunsCourse D.contents D.failures mode (history_from session.old.world.sizes.version base.now) session.old (course run) result session.new
        (W.contents out.old) (W.contents out.new) }
{
    let Course { queues, lines } = run;
    let mut running = script_state(alloc, session, mode, base, queues)?;
    let ended = run_lines(alloc, session, &mut running, out, lines);
    let keeper = session.hand_back();
    finish(out, mode, running, keeper, ended)
}

/// The state of a script that has to start these calls, with nothing noted. Beside the file system this tree is kept
/// from then on.
pub fn script_state<D: Device>(
    alloc: Global,
    session: &mut Session<D>,
    mode: Mode,
    base: &Tree,
    queues: Queues,
) -> Result<ScriptState, ConsoleFault>
    ensures state { IfOk result (λ running. (running.queues ≡ queues) × (running.notes ≡ no_notes mode)) }
    ensures keeps { IfOk result (λ _. session.new ≡ with_beside (Some (nothing_kept session.old.world.sizes.version base.now)) session.old) }
    ensures memory { IfErr result (λ fault. (fault ≡ Memory) × (session.new ≡ session.old)) }
{
    let notes = Notes::new(alloc, mode)?;
    let Ok(keeper) = Keeper::new(alloc, session.version(), base) else {
        return Err(ConsoleFault::Memory);
    };
    session.keep(keeper);
    Ok(ScriptState { queues, notes })
}

/// Prints what comes after all answers, if the lines reached their end or a call was stopped.
pub fn finish<W: Write>(
    out: &mut W,
    mode: Mode,
    running: ScriptState,
    keeper: Option<Keeper>,
    ended: Result<(), ConsoleFault>,
) -> Result<(), ConsoleFault>
    ensures { EndsSo mode (history_kept (beside_in keeper)) running.notes ended (W.contents out.old) result
        (W.contents out.new) }
{
    match ended {
        Ok(()) => write_rest(out, mode, running, keeper),
        Err(ConsoleFault::Stopped(stop)) => {
            write_rest(out, mode, running, keeper)?;
            Err(ConsoleFault::Stopped(stop))
        }
        Err(fault) => Err(fault),
    }
}

fn write_rest<W: Write>(
    out: &mut W,
    mode: Mode,
    running: ScriptState,
    keeper: Option<Keeper>,
) -> Result<(), ConsoleFault>
    ensures { PrintsAll mode (history_kept (beside_in keeper)) running.notes (W.contents out.old) result (W.contents out.new) }
{
    let ScriptState {
        queues: _queues,
        notes,
    } = running;
    write_end(out, mode, &notes).map_err(ConsoleFault::Write)?;
    write_wanted(out, mode, &notes, keeper)
}

// The history of the run, if it is wanted.
fn write_wanted<W: Write>(
    out: &mut W,
    mode: Mode,
    notes: &Notes,
    keeper: Option<Keeper>,
) -> Result<(), ConsoleFault>
    ensures { TellsWanted mode (history_kept (beside_in keeper)) notes.now (W.contents out.old) result (W.contents out.new) }
{
    if mode.explain {
        write_kept(out, notes, keeper)
    } else {
        Ok(())
    }
}

// The history of the run. Without a keeper there is none.
fn write_kept<W: Write>(
    out: &mut W,
    notes: &Notes,
    keeper: Option<Keeper>,
) -> Result<(), ConsoleFault>
    ensures { TellsHistory (history_kept (beside_in keeper)) (run_in notes.now.kept) result (W.contents out.old)
        (W.contents out.new) }
{
    match keeper {
        Some(keeper) => write_history(out, notes, keeper),
        None => Err(ConsoleFault::Memory),
    }
}

/// Prints what comes after all answers of events on this image that reached their end, and that no keeper noted. If a
/// history is wanted, they are run once more.
pub fn finish_on<W: Write>(
    alloc: Global,
    out: &mut W,
    mode: Mode,
    image: &[u8],
    notes: &Notes,
) -> Result<(), ConsoleFault>
    ensures { PrintsAll mode (history_on image.now) notes.now (W.contents out.old) result (W.contents out.new) }
{
    write_end(out, mode, notes).map_err(ConsoleFault::Write)?;
    write_wanted_on(alloc, out, mode, image, notes)
}

// The history of the events on this image, if it is wanted.
fn write_wanted_on<W: Write>(
    alloc: Global,
    out: &mut W,
    mode: Mode,
    image: &[u8],
    notes: &Notes,
) -> Result<(), ConsoleFault>
    ensures { TellsWanted mode (history_on image.now) notes.now (W.contents out.old) result (W.contents out.new) }
{
    if mode.explain {
        write_history_on(alloc, out, image, notes)
    } else {
        Ok(())
    }
}

// What comes after all answers. Before a history, for which events may be run once more, all that was written is
// handed on.
fn write_end<W: Write>(out: &mut W, mode: Mode, notes: &Notes) -> io::Result<()>
    ensures { OnOk result (Appends (W.contents out.old) (W.contents out.new) (end_text mode notes.now)) }
{
    write_last(out, notes)?;
    if mode.timeline {
        write_timeline(out, notes)?;
    }
    if mode.explain {
        out.flush()?;
    }
    Ok(())
}
