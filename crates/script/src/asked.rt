//! The lines that are typed at a prompt.
ghost use Rattle.std.specs.Prelude.{◌≡◌, [], IfOk, OnOk};
ghost use Rattle.script.specs.Asking.{Run, asked_as_typed, asked_in, ends_input, single_spaced, with_word, GivesAsked};
ghost use Rattle.script.specs.Reading.{said_in, with_one, words_of};

use crate::command::{Command, ScriptFault};
use crate::fault::LineFault;
use crate::line::{command, is_word};
use crate::text::{is_passed_over, plainest};
use std::alloc::{AllocError, Global};

/// What a line asks that is typed at a prompt.
#[derive(Debug, PartialEq, Drop)]
pub enum Asked {
    /// Nothing: it is empty, or a comment.
    Nothing,
    /// Which lines there are.
    Help,
    /// How far each hart's call is, and how far the log's commit is.
    State,
    /// That no more lines are read.
    Quit,
    /// What a line of a script says.
    Run(Command),
}

/// What a line asks that is typed as the one of this number, counted from 1. If it says nothing as it is, spaces at
/// its ends and beside others are passed over. The error is that the line asks nothing, with why, or want of memory.
pub fn asked_in(alloc: Global, number: u64, line: &[u8]) -> Result<Asked, ScriptFault>
    ensures { GivesAsked number result (asked_in line.now) }
{
    match asked_as_typed(alloc, number, line) {
        Err(ScriptFault::Line(..)) => {
            let Ok(single) = single_spaced(alloc, line) else {
                return Err(ScriptFault::Memory);
            };
            asked_as_typed(alloc, number, single.as_slice())
        }
        asked => asked,
    }
}

// The line with one space between its words, and none at an end.
fn single_spaced(alloc: Global, line: &[u8]) -> Result<Vec<u8>, AllocError>
    ensures { IfOk result (λ single. single.items ≡ single_spaced [] (words_of line.now)) }
{
    let mut single = Vec::new(alloc);
    for word in line.split(|b| *b == b' ') {
        put_word(&mut single, word)?;
    }
    Ok(single)
}

// Appends a word, unless it is empty, after a space if there is one before it.
fn put_word(line: &mut Vec<u8>, word: &[u8]) -> Result<(), AllocError>
    ensures { OnOk result (line.new.items ≡ with_word line.old.items word.now) }
{
    if word.is_empty() {
        return Ok(());
    }
    if !line.is_empty() {
        line.push(b' ')?;
    }
    line.extend_from_slice(word)
}

// What the line asks as it is.
fn asked_as_typed(alloc: Global, number: u64, line: &[u8]) -> Result<Asked, ScriptFault>
    ensures { GivesAsked number result (asked_as_typed line.now) }
{
    if is_passed_over(line) {
        Ok(Asked::Nothing)
    } else if is_word(line, b"help") {
        Ok(Asked::Help)
    } else if is_word(line, b"state") {
        Ok(Asked::State)
    } else if ends_input(line) {
        Ok(Asked::Quit)
    } else {
        run_in(alloc, number, line)
    }
}

fn ends_input(line: &[u8]) -> bool
    ensures { result ≡ ends_input line.now }
{
    is_word(line, b"quit") || is_word(line, b"exit")
}

// What a line says in a script.
fn run_in(alloc: Global, number: u64, line: &[u8]) -> Result<Asked, ScriptFault>
    ensures { GivesAsked number result (with_one Run (said_in line.now)) }
{
    match command(alloc, line) {
        Ok(command) => Ok(Asked::Run(command)),
        Err(LineFault::Bad(reason)) => Err(ScriptFault::Line(number, plainest(line, reason))),
        Err(LineFault::Memory) => Err(ScriptFault::Memory),
    }
}
