//! What the lines of a script do.
ghost use Rattle.std.specs.Prelude.{◌≡◌, OnOk, map};
ghost use Rattle.console.specs.Vocabulary.{Appends, call_said, line_said};
ghost use Rattle.console.specs.Behaviours.{IsWritten, Runs};
ghost use Rattle.console.specs.Commands.{acts, happens, line, lines, settles, starts, state, tells_waits, turn, turns, wait_text};
ghost use Rattle.console.specs.Notes.{NotesOf, copy_for};
ghost use Rattle.console.specs.Queues.{QueuedCalls};
ghost use Rattle.console.specs.Sessions.{doing_at};

use crate::fault::ConsoleFault;
use crate::flow::Flow;
use crate::lines::call_of;
use crate::notes::Notes;
use crate::plan::{Plan, Until};
use crate::queues::Queues;
use crate::session::{Session, hart_in};
use crate::tell::tell;
use crate::verb::Verb;
use block_device::Device;
use hart_core::Event;
use script::{CallLine, Command, ScriptLine, write_waits};
use std::alloc::Global;
use std::io::Write;

/// The harts, in the order of a turn.
pub const ALL_HARTS: [u8; 8] = [0, 1, 2, 3, 4, 5, 6, 7];

/// What a script's run keeps beside a file system: the calls that harts still have to start, and what is noted.
#[derive(Drop)]
pub struct ScriptState {
    pub queues: Queues,
    pub notes: Notes,
}

// Makes an event, prints and notes it. The copy is the event again, if events are kept.
fn happen<D: Device, W: Write>(
    session: &mut Session<D>,
    running: &mut ScriptState,
    out: &mut W,
    verb: Verb,
    event: Event,
    copy: Option<Event>,
) -> Result<Flow, ConsoleFault>
    requires { copy ≡ copy_for running.old.notes.kept event }
    ensures { Runs (happens D.contents D.failures event verb) (state session.old running.old.queues)
        (W.contents out.old) running.old.notes result (state session.new running.new.queues) (W.contents out.new) running.new.notes }
{
    let hart = hart_in(&event);
    let came = session.event(verb, event, &copy);
    tell(hart, verb, came, copy, &mut running.notes, out)
}

// Starts the call that a line says.
fn start<D: Device, W: Write>(
    alloc: Global,
    session: &mut Session<D>,
    running: &mut ScriptState,
    out: &mut W,
    hart: u8,
    call: CallLine,
) -> Result<Flow, ConsoleFault>
    ensures { Runs (starts D.contents D.failures hart (call_said call)) (state session.old running.old.queues)
        (W.contents out.old) running.old.notes result (state session.new running.new.queues) (W.contents out.new) running.new.notes }
{
    let call = call_of(alloc, call)?;
    let verb = Verb::of(&call);
    let event = Event::Start { hart, call };
    let copy = running.notes.copy_of(&event)?;
    happen(session, running, out, verb, event, copy)
}

// A step of a hart that has a call, unless enough have run; of one that has none the start of its next call.
fn act<D: Device, W: Write>(
    alloc: Global,
    session: &mut Session<D>,
    running: &mut ScriptState,
    out: &mut W,
    until: Option<Until>,
    hart: u8,
) -> Result<Flow, ConsoleFault>
    ensures { Runs (acts D.contents D.failures until hart) (state session.old running.old.queues)
        (W.contents out.old) running.old.notes result (state session.new running.new.queues) (W.contents out.new) running.new.notes }
{
    match session.doing(hart) {
        Some(doing) => {
            if Until::is_enough(until, &doing) {
                Ok(Flow::Rests)
            } else {
                let copy = running.notes.step_of(hart);
                happen(
                    session,
                    running,
                    out,
                    doing.verb,
                    Event::Step { hart },
                    copy,
                )
            }
        }
        None => match running.queues.take_next(hart) {
            Some(call) => start(alloc, session, running, out, hart, call),
            None => Ok(Flow::Rests),
        },
    }
}

// One act of each hart.
fn turn<D: Device, W: Write>(
    alloc: Global,
    session: &mut Session<D>,
    running: &mut ScriptState,
    out: &mut W,
    until: Option<Until>,
    harts: &[u8],
) -> Result<Flow, ConsoleFault>
    ensures { Runs (turn D.contents D.failures until harts.now Flow.Rests) (state session.old running.old.queues)
        (W.contents out.old) running.old.notes result (state session.new running.new.queues) (W.contents out.new) running.new.notes }
{
    let mut flow = Flow::Rests;
    for hart in harts {
        flow = flow.joined(act(alloc, session, running, out, until, *hart)?);
    }
    Ok(flow)
}

// Turn after turn, as the plan says. Gives the flow of the last one.
fn turns<D: Device, W: Write>(
    alloc: Global,
    session: &mut Session<D>,
    running: &mut ScriptState,
    out: &mut W,
    plan: &Plan,
    harts: &[u8],
) -> Result<Flow, ConsoleFault>
    ensures { Runs (turns D.contents D.failures plan.now harts.now plan.now.most Flow.Moves) (state session.old running.old.queues)
        (W.contents out.old) running.old.notes result (state session.new running.new.queues) (W.contents out.new) running.new.notes }
{
    let mut last = Flow::Moves;
    for _turn in 0..plan.most {
        if !last.goes_on() {
            return Ok(last);
        }
        last = turn(alloc, session, running, out, plan.until, harts)?;
    }
    Ok(last)
}

// For each hart that has a call, prints that it waits.
fn tell_waits<D: Device, W: Write>(
    session: &Session<D>,
    out: &mut W,
    harts: &[u8],
) -> Result<(), ConsoleFault>
    ensures { (left : QueuedCalls) (notes : NotesOf)
        → Runs (tells_waits D.contents D.failures harts.now) (state session.now left) (W.contents out.old) notes result
        (state session.now left) (W.contents out.new) notes }
{
    for hart in harts {
        tell_wait(session, out, *hart)?;
    }
    Ok(())
}

// Prints that a hart waits, if it has a call.
fn tell_wait<D: Device, W: Write>(
    session: &Session<D>,
    out: &mut W,
    hart: u8,
) -> Result<(), ConsoleFault>
    ensures written { IsWritten result }
    ensures prints { OnOk result (Appends (W.contents out.old) (W.contents out.new) (wait_text hart (doing_at hart session.now.doing))) }
{
    match session.doing(hart) {
        Some(_) => write_waits(out, hart).map_err(ConsoleFault::Write),
        None => Ok(()),
    }
}

// Turns until one in which nothing moved; then prints who waits.
fn settle<D: Device, W: Write>(
    alloc: Global,
    session: &mut Session<D>,
    running: &mut ScriptState,
    out: &mut W,
    plan: &Plan,
    harts: &[u8],
) -> Result<(), ConsoleFault>
    ensures { Runs (settles D.contents D.failures plan.now harts.now) (state session.old running.old.queues)
        (W.contents out.old) running.old.notes result (state session.new running.new.queues) (W.contents out.new) running.new.notes }
{
    let last = turns(alloc, session, running, out, plan, harts)?;
    match last {
        Flow::Waits => tell_waits(session, out, harts),
        Flow::Moves => Ok(()),
        Flow::Rests => Ok(()),
    }
}

/// Runs a line.
pub fn run_line<D: Device, W: Write>(
    alloc: Global,
    session: &mut Session<D>,
    running: &mut ScriptState,
    out: &mut W,
    command: Command,
) -> Result<(), ConsoleFault>
    ensures { Runs (line D.contents D.failures (line_said command)) (state session.old running.old.queues)
        (W.contents out.old) running.old.notes result (state session.new running.new.queues) (W.contents out.new) running.new.notes }
{
    match command {
        Command::Start { hart, call } => {
            let _flow = start(alloc, session, running, out, hart, call)?;
            Ok(())
        }
        Command::Do { hart, call } => {
            let _flow = start(alloc, session, running, out, hart, call)?;
            settle(alloc, session, running, out, &Plan::to_end(), &[hart])
        }
        Command::Step { hart, steps } => {
            let _last = turns(
                alloc,
                session,
                running,
                out,
                &Plan::in_steps(steps),
                &[hart],
            )?;
            Ok(())
        }
        Command::Upto { hart, kind, steps } => {
            settle(
                alloc,
                session,
                running,
                out,
                &Plan::up_to(kind, steps),
                &[hart],
            )
        }
        Command::End { hart } => settle(alloc, session, running, out, &Plan::to_end(), &[hart]),
        Command::All => settle(alloc, session, running, out, &Plan::to_end(), &ALL_HARTS),
    }
}

/// Runs the lines in their order, each once, up to a fault.
pub fn run_lines<D: Device, W: Write>(
    alloc: Global,
    session: &mut Session<D>,
    running: &mut ScriptState,
    out: &mut W,
    commands: Vec<ScriptLine>,
) -> Result<(), ConsoleFault>
    ensures { Runs (lines D.contents D.failures (map (λ l. line_said l.command) commands.items)) (state session.old running.old.queues)
        (W.contents out.old) running.old.notes result (state session.new running.new.queues) (W.contents out.new) running.new.notes }
{
    for line in commands {
        run_line(alloc, session, running, out, line.command)?;
    }
    Ok(())
}
