//! Lines that are typed at a prompt: what is printed, and when.
use crate::scripts::{is_refused_memory, run_in};
use console::{ConsoleFault, HELP, run_prompt};
use script::Mode;
use std::alloc::{AllocError, Global};
use std::test::Fail;

// Answers these lines once. Gives what was printed, and the fault that it ended with.
fn answer_once(
    alloc: Global,
    mode: Mode,
    lines: &[u8],
) -> Result<(Vec<u8>, Option<ConsoleFault>), AllocError> {
    let mut out = Vec::new(alloc);
    let mut typed = lines;
    let fault = run_prompt(alloc, None, mode, &mut typed, &mut out).err();
    Ok((out, fault))
}

// Answers these lines, once more if memory was refused.
fn answer(
    alloc: Global,
    mode: Mode,
    lines: &[u8],
) -> Result<(Vec<u8>, Option<ConsoleFault>), AllocError> {
    let (out, fault) = answer_once(alloc, mode, lines)?;
    let is_short = match &fault {
        Some(fault) => is_refused_memory(fault),
        None => false,
    };
    if is_short {
        return answer_once(alloc, mode, lines);
    }
    Ok((out, fault))
}

#[test]
fn help_has_each_line(rt: HostRuntime) -> Result<(), Fail> {
    let (out, fault) = answer(rt.alloc(), Mode::default(), b"help\n")?;
    assert!(rt; fault.is_none());
    assert!(rt; out.len() == HELP.len() + "> > \n".len());
    assert!(rt; out.starts_with(b"> H open PATH FLAGS"));
    for line in HELP.lines() {
        assert!(rt; line.len() <= 120, "{line}");
    }
    Ok(())
}

#[test]
fn what_stands_behind_a_script_stands_here(rt: HostRuntime) -> Result<(), Fail> {
    let mode = Mode {
        last: 2,
        timeline: true,
        ..Mode::default()
    };
    let lines = b"do 0 dup 0\n";
    let (out, fault) = answer(rt.alloc(), mode, lines)?;
    let (of_script, none) = run_in(rt.alloc(), None, mode, lines)?;
    assert!(rt; fault.is_none() && none.is_none());
    let answers = "0 dup failed 6 BadDescriptor\n";
    assert!(rt;
        out.starts_with(b"> 0 dup failed 6 BadDescriptor\n> \n")
            && of_script.starts_with(answers.as_bytes())
    );
    let marks = "> > \n".len();
    assert!(rt; out[marks + answers.len()..] == of_script[answers.len()..]);
    Ok(())
}
