//! The lines of a script.
ghost use Rattle.std.specs.Prelude.{◌≡◌};
ghost use Rattle.script.specs.Vocabulary.{bytes_eq};
ghost use Rattle.script.specs.Said.{call_said, line_said};
ghost use Rattle.script.specs.Reading.{all_in, do_in, end_in, kind_in, line_in, said_in, start_in, step_in, upto_in, words_of};
ghost use Rattle.script.specs.Gives.{Gives, words_now};

use crate::calls::call_of;
use crate::command::Command;
use crate::digits::{hart, hart_of, number_of};
use crate::fault::LineFault;
use crate::reason::{Reason, Shown};
use arrayvec::ArrayVec;
use fs_machine::Kind;
use std::alloc::Global;

/// The most words that a line has.
const MOST_WORDS: usize = 5;

/// The words of calls.
const CALLS: [&[u8]; 12] = [
    b"open", b"read", b"write", b"fill", b"link", b"unlink", b"mkdir", b"chdir", b"dup", b"fstat",
    b"close", b"inherit",
];

/// The words that are lines of their own at a prompt alone.
const TYPED: [&[u8]; 4] = [b"state", b"help", b"quit", b"exit"];

/// What a line says. One that ends in a carriage return says nothing: its last word would end in a byte that nobody sees.
pub fn command(alloc: Global, line: &[u8]) -> Result<Command, LineFault>
    ensures { Gives line_said result (said_in line.now) }
{
    if line.ends_with(b"\r") {
        Err(LineFault::Bad(Reason::CarriageReturn))
    } else {
        command_in(alloc, line)
    }
}

// What the words of a line say.
fn command_in(alloc: Global, line: &[u8]) -> Result<Command, LineFault>
    ensures { Gives line_said result (line_in (words_of line.now)) }
{
    let mut words = ArrayVec::<&[u8], MOST_WORDS>::new();
    for word in line.split(|b| *b == b' ') {
        if words.len() == MOST_WORDS {
            return Err(LineFault::Bad(Reason::TooManyWords));
        }
        words.push(word);
    }
    command_of(alloc, words.as_slice())
}

#[tactic(auto, unfolding(crate::specs::Reading::line_in))]
fn command_of(alloc: Global, words: &[&[u8]]) -> Result<Command, LineFault>
    ensures { Gives line_said result (line_in (words_now words.now)) }
{
    match words {
        [verb, rest @ ..] if is_word(verb, b"do") => do_of(alloc, rest),
        [verb, rest @ ..] if is_word(verb, b"step") => step_of(rest),
        [verb, rest @ ..] if is_word(verb, b"upto") => upto_of(rest),
        [verb, rest @ ..] if is_word(verb, b"end") => end_of(rest),
        [verb, rest @ ..] if is_word(verb, b"all") => all_of(rest),
        words => start_of(alloc, words),
    }
}

fn do_of(alloc: Global, words: &[&[u8]]) -> Result<Command, LineFault>
    ensures { Gives line_said result (do_in (words_now words.now)) }
{
    match words {
        [hart, call @ ..] => Ok(Command::Do {
            hart: hart_of(hart, "H")?,
            call: call_of(alloc, call)?,
        }),
        [] => Err(LineFault::Bad(Reason::Wanted("do H CALL .."))),
    }
}

fn start_of(alloc: Global, words: &[&[u8]]) -> Result<Command, LineFault>
    ensures { Gives line_said result (start_in (words_now words.now)) }
{
    let [first, call @ ..] = words else {
        return Err(LineFault::Bad(Reason::EmptyWord));
    };
    let Some(hart) = hart(first) else {
        return Err(LineFault::Bad(no_command(first, call)));
    };
    Ok(Command::Start {
        hart,
        call: call_of(alloc, call)?,
    })
}

// Why no line begins with this word, and goes on with these.
fn no_command(first: &[u8], more: &[&[u8]]) -> Reason {
    match first {
        [b'0'..=b'9', ..] => Reason::HartWanted("H"),
        _ if is_call(first) => Reason::HartMissing(Shown::new(first)),
        _ if is_typed(first) && !more.is_empty() => Reason::StandsAlone(Shown::new(first)),
        _ => Reason::NoSuchCommand(Shown::new(first)),
    }
}

// Whether the word is a call's.
fn is_call(word: &[u8]) -> bool {
    CALLS.iter().any(|call| *call == word)
}

// Whether the word is a line of its own at a prompt.
fn is_typed(word: &[u8]) -> bool {
    TYPED.iter().any(|typed| *typed == word)
}

fn step_of(words: &[&[u8]]) -> Result<Command, LineFault>
    ensures { Gives line_said result (step_in (words_now words.now)) }
{
    match words {
        [hart, steps] => Ok(Command::Step {
            hart: hart_of(hart, "H")?,
            steps: number_of(steps, "N")?,
        }),
        _ => Err(LineFault::Bad(Reason::Wanted("step H N"))),
    }
}

fn upto_of(words: &[&[u8]]) -> Result<Command, LineFault>
    ensures { Gives line_said result (upto_in (words_now words.now)) }
{
    match words {
        [hart, kind, steps] => Ok(Command::Upto {
            hart: hart_of(hart, "H")?,
            kind: kind_of(kind)?,
            steps: number_of(steps, "N")?,
        }),
        _ => Err(LineFault::Bad(Reason::Wanted("upto H KIND N"))),
    }
}

fn end_of(words: &[&[u8]]) -> Result<Command, LineFault>
    ensures { Gives line_said result (end_in (words_now words.now)) }
{
    match words {
        [hart] => Ok(Command::End {
            hart: hart_of(hart, "H")?,
        }),
        _ => Err(LineFault::Bad(Reason::Wanted("end H"))),
    }
}

fn all_of(words: &[&[u8]]) -> Result<Command, LineFault>
    ensures { Gives line_said result (all_in (words_now words.now)) }
{
    match words {
        [] => Ok(Command::All),
        _ => Err(LineFault::Bad(Reason::Wanted("all"))),
    }
}

// The kind of step that a word names.
fn kind_of(word: &[u8]) -> Result<Kind, LineFault>
    ensures { Gives (λ kind. kind) result (kind_in word.now) }
{
    match kind_named(word) {
        Some(kind) => Ok(kind),
        None => Err(LineFault::Bad(Reason::UnknownKind(Shown::new(word)))),
    }
}

#[tactic(auto, unfolding(crate::specs::Reading::kind_in))]
fn kind_named(word: &[u8]) -> Option<Kind>
    ensures { result ≡ kind_in word.now }
{
    if is_word(word, b"lock") {
        Some(Kind::Lock)
    } else if is_word(word, b"unlock") {
        Some(Kind::Unlock)
    } else if is_word(word, b"get") {
        Some(Kind::Get)
    } else if is_word(word, b"read") {
        Some(Kind::Read)
    } else if is_word(word, b"put") {
        Some(Kind::Put)
    } else if is_word(word, b"join") {
        Some(Kind::Join)
    } else if is_word(word, b"leave") {
        Some(Kind::Leave)
    } else if is_word(word, b"commit") {
        Some(Kind::Commit)
    } else if is_word(word, b"up") {
        Some(Kind::Up)
    } else if is_word(word, b"down") {
        Some(Kind::Down)
    } else if is_word(word, b"slot") {
        Some(Kind::Slot)
    } else if is_word(word, b"reply") {
        Some(Kind::Reply)
    } else {
        None
    }
}

/// The word is this text.
pub fn is_word(word: &[u8], text: &[u8]) -> bool
    ensures { result ≡ bytes_eq word.now text.now }
{
    word == text
}
