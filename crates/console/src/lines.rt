//! The lines of a script as what is run.
ghost use Rattle.std.specs.Prelude.{◌≡◌, ◌<◌, IfOk, IfSome, map, option_map};
ghost use Rattle.console.specs.Vocabulary.{call_said, line_said, numbered};
ghost use Rattle.console.specs.Lines.{GivesCourse, GivesQueues, called, course_of, part_of, script_course};
ghost use Rattle.console.specs.Queues.{none_left, queued, started_in};

use crate::fault::ConsoleFault;
use crate::queues::Queues;
use crate::session::HARTS;
use plain_tree::{Bytes, Call};
use script::{BadLine, CallLine, Command, Front, Reason, Schedule, ScriptLine, parse_front};
use std::alloc::{AllocError, Global};

/// The most bytes that one call reads or writes.
const LONGEST_PART: usize = 524_288;

/// The lines that the schedule round has, and a script for threads.
const START: &str = "H CALL .. with H from 0 to 7, in the schedule round or by threads";

/// What a fill writes.
const FILLER: u8 = b'x';

/// What is run: the lines, after these calls were queued.
#[derive(Drop)]
pub struct Course {
    pub queues: Queues,
    pub lines: Vec<ScriptLine>,
}

/// What is run of these lines, or the first line that this schedule doesn't allow.
pub fn course_of(
    alloc: Global,
    schedule: Schedule,
    lines: Vec<ScriptLine>,
) -> Result<Course, ConsoleFault>
    ensures { GivesCourse result (course_of schedule (map numbered lines.items)) }
{
    match schedule {
        Schedule::Listed => Ok(Course {
            queues: Queues::new(alloc),
            lines,
        }),
        Schedule::Round => {
            let queues = queues_of(alloc, lines)?;
            let mut lines = Vec::new(alloc);
            lines
                .push(ScriptLine {
                    number: 0,
                    command: Command::All,
                })
                .map_err(AllocError::from)?;
            Ok(Course { queues, lines })
        }
    }
}

/// What is run of this text, or its first bad line: one that says nothing, or one that this schedule doesn't allow.
pub fn course_in(alloc: Global, schedule: Schedule, text: &[u8]) -> Result<Course, ConsoleFault>
    ensures { GivesCourse result (script_course schedule text.now) }
{
    let Front { lines, bad } = parse_front(alloc, text)?;
    let course = course_of(alloc, schedule, lines)?;
    match bad {
        None => Ok(course),
        Some(BadLine { number, why }) => Err(ConsoleFault::Line(number, why)),
    }
}

// The calls of these lines, each queued for its hart; or the first line that only starts none.
fn queues_of(alloc: Global, lines: Vec<ScriptLine>) -> Result<Queues, ConsoleFault>
    ensures { GivesQueues result (queued none_left (map numbered lines.items)) }
{
    let mut queues = Queues::new(alloc);
    for line in lines {
        match started_in(line.command) {
            Some((hart, call)) => queues.put(hart, call)?,
            None => return Err(ConsoleFault::Line(line.number, Reason::Wanted(START))),
        }
    }
    Ok(queues)
}

// The call of one of the eight harts that a line only starts, and the hart.
fn started_in(command: Command) -> Option<(u8, CallLine)>
    ensures says { option_map (λ x. (x.0, call_said x.1)) result ≡ started_in (line_said command) }
    ensures within { IfSome result (λ x. x.0 < HARTS) }
{
    match command {
        Command::Start { hart, call } if (hart as usize) < HARTS => Some((hart, call)),
        _ => None,
    }
}

// The count of these bytes that is asked for; of too many, one more than a call may have, so that the call is
// refused.
fn part_of(alloc: Global, count: u32, byte: u8) -> Result<Bytes, AllocError>
    ensures { IfOk result (λ bytes. bytes ≡ part_of count byte) }
{
    let count = (count as usize).min(LONGEST_PART + 1);
    Ok(Bytes::new(vec![in alloc; byte; count]?))
}

/// The call that a line says. A read is handed zeros to fill.
pub fn call_of(alloc: Global, line: CallLine) -> Result<Call, AllocError>
    ensures { IfOk result (λ call. call ≡ called (call_said line)) }
{
    Ok(match line {
        CallLine::Open { path, flags } => Call::Open {
            path: Bytes::new(path),
            flags,
        },
        CallLine::Read { fd, count } => Call::Read {
            fd,
            buf: part_of(alloc, count, 0)?,
        },
        CallLine::Write { fd, bytes } => Call::Write {
            fd,
            bytes: Bytes::new(bytes),
        },
        CallLine::Fill { fd, count } => Call::Write {
            fd,
            bytes: part_of(alloc, count, FILLER)?,
        },
        CallLine::Link { old, new } => Call::Link {
            old: Bytes::new(old),
            new: Bytes::new(new),
        },
        CallLine::Unlink { path } => Call::Unlink {
            path: Bytes::new(path),
        },
        CallLine::Mkdir { path } => Call::Mkdir {
            path: Bytes::new(path),
        },
        CallLine::Chdir { path } => Call::Chdir {
            path: Bytes::new(path),
        },
        CallLine::Dup { fd } => Call::Dup { fd },
        CallLine::Fstat { fd } => Call::Fstat { fd },
        CallLine::Close { fd } => Call::Close { fd },
        CallLine::Inherit { child } => Call::Inherit { child },
    })
}
