//! A script's text.
ghost use Rattle.std.specs.Prelude.{◌≡◌, IfOk};
ghost use Rattle.script.specs.Reading.{is_passed_over, script_in};
ghost use Rattle.script.specs.Gives.{GivesFront, GivesScript};

use crate::command::{BadLine, Front, ScriptFault, ScriptLine};
use crate::fault::LineFault;
use crate::line::command;
use crate::reason::Reason;
use std::alloc::{AllocError, Global};

/// The commands of a script, in order, each with the number of its line. The error is the first line that says
/// nothing, with why, or want of memory.
pub fn parse(alloc: Global, text: &[u8]) -> Result<Vec<ScriptLine>, ScriptFault>
    ensures { GivesScript result (script_in text.now) }
{
    let Ok(Front { lines, bad }) = parse_front(alloc, text) else {
        return Err(ScriptFault::Memory);
    };
    match bad {
        None => Ok(lines),
        Some(BadLine { number, why }) => Err(ScriptFault::Line(number, why)),
    }
}

/// The commands of a script up to its first line that says nothing, and that line. A line before it may be bad when
/// it is run. Only want of memory is an error.
pub fn parse_front(alloc: Global, text: &[u8]) -> Result<Front, AllocError>
    ensures { IfOk result (λ front. GivesFront front text.now) }
{
    let mut lines = Vec::new(alloc);
    let mut number = 0u64;
    for line in text.split(|b| *b == b'\n') {
        number += 1;
        if is_passed_over(line) {
            continue;
        }
        match command(alloc, line) {
            Ok(command) => lines.push(ScriptLine { number, command })?,
            Err(LineFault::Bad(reason)) => {
                let bad = BadLine {
                    number,
                    why: plainest(line, reason),
                };
                return Ok(Front {
                    lines,
                    bad: Some(bad),
                });
            }
            Err(LineFault::Memory) => return Err(AllocError),
        }
    }
    Ok(Front { lines, bad: None })
}

/// What is wrong with a bad line, as its writer sees it first. It is how the line ends, its spaces, its quotation
/// marks, or else the reason that was found.
pub fn plainest(line: &[u8], reason: Reason) -> Reason {
    match reason {
        Reason::CarriageReturn => reason,
        _ if line.starts_with(b" ") => Reason::SpaceBefore,
        _ if line.ends_with(b" ") => Reason::SpaceBehind,
        _ if has_empty_word(line) => Reason::DoubledSpace,
        Reason::TooManyWords | Reason::Wanted(_) if has_quoted_word(line) => Reason::Quoted,
        reason => reason,
    }
}

fn has_empty_word(line: &[u8]) -> bool {
    line.split(|b| *b == b' ').any(|word| word.is_empty())
}

// Whether a word begins with a quotation mark, and isn't the one for no bytes.
fn has_quoted_word(line: &[u8]) -> bool {
    line.split(|b| *b == b' ').any(|word| word.starts_with(b"\"") && word != b"\"\"".as_slice())
}

/// An empty line, or a comment.
pub fn is_passed_over(line: &[u8]) -> bool
    ensures { result ≡ is_passed_over line.now }
{
    line.is_empty() || line.starts_with(b"#")
}
