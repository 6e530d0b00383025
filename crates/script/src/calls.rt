//! The calls of a script's lines: a verb with its operands.
ghost use Rattle.std.specs.Prelude.{◌≡◌};
ghost use Rattle.script.specs.Said.{call_said};
ghost use Rattle.script.specs.Reading.{call_in, one_operand, two_operands};
ghost use Rattle.script.specs.Gives.{Gives, words_now};

use crate::call::CallLine;
use crate::digits::{hart_of, number_of};
use crate::fault::LineFault;
use crate::line::is_word;
use crate::reason::{Reason, Shown};
use crate::words::bytes;
use std::alloc::Global;

/// Each call's word, and how a line says it.
const CALLS: [(&str, &str); 12] = [
    ("open", "H open PATH FLAGS"),
    ("read", "H read FD N"),
    ("write", "H write FD BYTES"),
    ("fill", "H fill FD N"),
    ("link", "H link OLD NEW"),
    ("unlink", "H unlink PATH"),
    ("mkdir", "H mkdir PATH"),
    ("chdir", "H chdir PATH"),
    ("dup", "H dup FD"),
    ("fstat", "H fstat FD"),
    ("close", "H close FD"),
    ("inherit", "H inherit CHILD"),
];

// Why this verb with its operands is no call.
fn no_call(verb: &[u8]) -> Reason {
    for (name, line) in CALLS {
        if verb == name.as_bytes() {
            return Reason::Wanted(line);
        }
    }
    Reason::UnknownCall(Shown::new(verb))
}

// Why these words are no call.
fn no_words(words: &[&[u8]]) -> Reason {
    match words {
        [verb, ..] => no_call(verb),
        [] => Reason::Wanted("H CALL .."),
    }
}

/// A verb with its operands.
#[tactic(auto, unfolding(crate::specs::Reading::call_in))]
pub fn call_of(alloc: Global, words: &[&[u8]]) -> Result<CallLine, LineFault>
    ensures { Gives call_said result (call_in (words_now words.now)) }
{
    match words {
        [verb, operand] => one_operand_call(alloc, verb, operand),
        [verb, first, second] => two_operand_call(alloc, verb, first, second),
        _ => Err(LineFault::Bad(no_words(words))),
    }
}

#[tactic(auto, unfolding(crate::specs::Reading::one_operand))]
fn one_operand_call(alloc: Global, verb: &[u8], a: &[u8]) -> Result<CallLine, LineFault>
    ensures { Gives call_said result (one_operand verb.now a.now) }
{
    if is_word(verb, b"unlink") {
        Ok(CallLine::Unlink {
            path: bytes(alloc, a, "PATH")?,
        })
    } else if is_word(verb, b"mkdir") {
        Ok(CallLine::Mkdir {
            path: bytes(alloc, a, "PATH")?,
        })
    } else if is_word(verb, b"chdir") {
        Ok(CallLine::Chdir {
            path: bytes(alloc, a, "PATH")?,
        })
    } else if is_word(verb, b"dup") {
        Ok(CallLine::Dup {
            fd: number_of(a, "FD")?,
        })
    } else if is_word(verb, b"fstat") {
        Ok(CallLine::Fstat {
            fd: number_of(a, "FD")?,
        })
    } else if is_word(verb, b"close") {
        Ok(CallLine::Close {
            fd: number_of(a, "FD")?,
        })
    } else if is_word(verb, b"inherit") {
        Ok(CallLine::Inherit {
            child: hart_of(a, "CHILD")?,
        })
    } else {
        Err(LineFault::Bad(no_call(verb)))
    }
}

#[tactic(auto, unfolding(crate::specs::Reading::two_operands))]
fn two_operand_call(alloc: Global, verb: &[u8], a: &[u8], b: &[u8]) -> Result<CallLine, LineFault>
    ensures { Gives call_said result (two_operands verb.now a.now b.now) }
{
    if is_word(verb, b"open") {
        Ok(CallLine::Open {
            flags: number_of(b, "FLAGS")?,
            path: bytes(alloc, a, "PATH")?,
        })
    } else if is_word(verb, b"read") {
        Ok(CallLine::Read {
            fd: number_of(a, "FD")?,
            count: number_of(b, "N")?,
        })
    } else if is_word(verb, b"write") {
        Ok(CallLine::Write {
            fd: number_of(a, "FD")?,
            bytes: bytes(alloc, b, "BYTES")?,
        })
    } else if is_word(verb, b"fill") {
        Ok(CallLine::Fill {
            fd: number_of(a, "FD")?,
            count: number_of(b, "N")?,
        })
    } else if is_word(verb, b"link") {
        Ok(CallLine::Link {
            old: bytes(alloc, a, "OLD")?,
            new: bytes(alloc, b, "NEW")?,
        })
    } else {
        Err(LineFault::Bad(no_call(verb)))
    }
}
