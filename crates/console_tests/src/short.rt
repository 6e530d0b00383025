//! What a script does if memory is short. `bin/short-memory` refuses, in turn, each request for memory that a run
//! makes between the lines "call" and "done". Then the run answers want of memory, and what it printed is a beginning
//! of what the script usually prints. Run once more, the script prints all of it.
use crate::scripts::disk;
use console::{ConsoleFault, run_script, status};
use script::{Mode, Schedule};
use std::alloc::Global;
use std::test::Fail;

// The answer of a script that was refused memory, and that of one that wasn't.
const NO_MEMORY: u8 = 33;

const ANSWERED: u8 = 0;

const SCRIPT: &[u8] =
    b"do 0 mkdir /d\n0 open /d/f 0x202\nupto 0 slot 1\n1 open /d/f 0\nall\ndo 0 write 0 hello\ndo 1 read 0 9\n";

const LINES: &[u8] = b"0 mkdir ok\n0 open fd 0\n1 open fd 0\n0 write 5\n1 read 5 68656c6c6f\n";

// Room for what is printed, so that no line asks for more.
const ROOM: usize = 65_536;

const MODE: Mode = Mode {
    schedule: Schedule::Listed,
    last: 3,
    timeline: true,
    explain: true,
    check: false,
};

fn answer_of(alloc: Global, image: Vec<u8>, out: &mut Vec<u8>) -> u8 {
    match run_script(alloc, Some(image), MODE, SCRIPT, out).err() {
        None => ANSWERED,
        Some(fault) => number_of(&fault),
    }
}

fn number_of(fault: &ConsoleFault) -> u8 {
    match fault {
        ConsoleFault::Memory => NO_MEMORY,
        fault => status(fault),
    }
}

#[test]
fn of_run_script(rt: HostRuntime) -> Result<(), Fail> {
    let alloc = rt.alloc();
    let image = disk(alloc, 60, 16)?.into_bytes();
    let mut wanted = Vec::new(alloc);
    let copy = image.clone()?;
    assert!(rt; answer_of(alloc, copy, &mut wanted) == ANSWERED);
    assert!(rt; wanted.starts_with(LINES));
    let mut out = Vec::with_capacity(alloc, ROOM)?;
    let copy = image.clone()?;
    let _ = println!(rt; "call");
    let answer = answer_of(alloc, copy, &mut out);
    let _ = println!(rt; "done");
    println!(rt; "answer {answer}")?;
    assert!(rt; answer == ANSWERED && out.len() == wanted.len() || answer == NO_MEMORY);
    assert!(rt; wanted.starts_with(out.as_slice()));
    out.clear();
    assert!(rt; answer_of(alloc, image, &mut out) == ANSWERED);
    assert!(rt; out.as_slice() == wanted.as_slice());
    Ok(())
}
