//! A device that fails, a script that can't be read or is too long, and answers that can't be written.
use crate::scripts::{disk, is_refused_memory, run};
use block_device::{Fused, MemoryDisk};
use console::{ConsoleFault, Session, run_on, run_script, status};
use hart_core::Stop;
use image_tree::{MountFault, tree_of};
use image_versions::Version;
use plain_tree::Tree;
use script::{Mode, Reason, Schedule};
use std::alloc::{AllocError, Global};
use std::io;
use std::test::Fail;

// The longest script, in bytes.
const LONGEST_SCRIPT: usize = 16_777_216;

// A file system on a device that passes no further call.
fn mounted_at_last(alloc: Global) -> Result<Session<Fused>, Fail> {
    for calls in 0..10_000 {
        match Session::mount(alloc, Fused::new(disk(alloc, 60, 16)?, calls)) {
            Ok(session) => return Ok(session),
            Err((_, MountFault::DeviceFault)) => {}
            Err((_, MountFault::NoMemory)) => return Err(Fail::from(AllocError)),
            Err(_) => return Err(Fail::new("it is damaged")),
        }
    }
    Err(Fail::new("it isn't mounted"))
}

#[test]
fn prints_why_a_call_is_stopped(rt: HostRuntime) -> Result<(), Fail> {
    let mut session = mounted_at_last(rt.alloc())?;
    let base = Tree::of_nodes(rt.alloc(), Vec::new(rt.alloc()));
    for (script, lines) in [
        (
            "do 0 open / 0\ndo 0 close 0\n",
            "0 open stopped 31 DeviceFault\n",
        ),
        (
            "do 0 close 0\n",
            "0 close refused 41 Busy\n0 open stopped 32 Halted\n",
        ),
    ] {
        let mut out = Vec::new(rt.alloc());
        let ran = run_on(
            rt.alloc(),
            &mut session,
            Mode::default(),
            &base,
            script.as_bytes(),
            &mut out,
        );
        match ran {
            Err(ConsoleFault::Stopped(_)) => {}
            Err(ConsoleFault::Memory) => {
                let _disk = session.unmount();
                return Err(Fail::from(AllocError));
            }
            _ => {
                let _disk = session.unmount();
                return Err(Fail::new("it isn't stopped"));
            }
        }
        assert!(rt; out.as_slice() == lines.as_bytes(), "{script}");
    }
    let _disk = session.unmount();
    Ok(())
}

// The tree of the image of `mounted_at_last`.
fn tree_at_first(alloc: Global) -> Result<Tree, Fail> {
    match tree_of(alloc, &mut disk(alloc, 60, 16)?, Version::One) {
        Ok(tree) => Ok(tree),
        Err(MountFault::NoMemory) => Err(Fail::from(AllocError)),
        Err(_) => Err(Fail::new("it has no tree")),
    }
}

/// If a call is stopped, the history up to there is printed after the answers.
#[test]
fn tells_the_history_before_a_stop(rt: HostRuntime) -> Result<(), Fail> {
    let base = tree_at_first(rt.alloc())?;
    let mut session = mounted_at_last(rt.alloc())?;
    let mut out = Vec::new(rt.alloc());
    let ran = run_on(
        rt.alloc(),
        &mut session,
        EXPLAIN,
        &base,
        STOPPED.as_bytes(),
        &mut out,
    );
    let _disk = session.unmount();
    match ran {
        Err(ConsoleFault::Stopped(Stop::DeviceFault)) => {}
        Err(ConsoleFault::Memory) => return Err(Fail::from(AllocError)),
        _ => return Err(Fail::new("it isn't stopped")),
    }
    assert!(rt; out.as_slice() == STOPPED_ANSWERS.as_bytes());
    Ok(())
}

/// What a fault is called, and the status that it gives.
#[test]
fn faults_have_lines_and_statuses(rt: HostRuntime) -> Result<(), Fail> {
    for (fault, text, number) in [
        (ConsoleFault::Memory, "no memory", 3),
        (
            ConsoleFault::Stopped(Stop::DeviceFault),
            "stopped 31 DeviceFault",
            3,
        ),
        (
            ConsoleFault::Line(7, Reason::DoubledSpace),
            "line 7: bad command\ntwo spaces beside one another: a single one between words, and none at an end",
            2,
        ),
    ] {
        assert_eq!(rt; status(&fault), number);
        assert!(rt; format!(in rt.alloc(); "{fault}")?.as_str() == text);
    }
    Ok(())
}

const TWO_LINES: &[u8] = b"do 0 open / 0\ndo 0 fstat 0\n";

// A script that is read once, and then no more.
#[derive(Drop)]
struct Torn(bool);

impl io::Read for Torn {
    fn read(&mut self, buf: &mut [u8]) -> io::Result<usize> {
        if self.0 {
            return Err(io::Error::from(io::ErrorKind::TimedOut));
        }
        self.0 = true;
        let count = TWO_LINES.len().min(buf.len());
        buf[..count].copy_from_slice(&TWO_LINES[..count]);
        Ok(count)
    }
}

// Takes this number of bytes, and then none.
#[derive(Drop)]
struct Narrow(Vec<u8>, usize);

impl io::Write for Narrow {
    fn write(&mut self, buf: &[u8]) -> io::Result<usize> {
        let room = self.1.saturating_sub(self.0.len());
        if room < buf.len() {
            return Err(io::Error::from(io::ErrorKind::StorageFull));
        }
        self.0.extend_from_slice(buf)?;
        Ok(buf.len())
    }

    fn flush(&mut self) -> io::Result<()> {
        Ok(())
    }
}

// The fault of a run that must fail.
fn fault_of(ran: Result<MemoryDisk, ConsoleFault>) -> Result<ConsoleFault, Fail> {
    match ran {
        Ok(_disk) => Err(Fail::new("it comes to its end")),
        Err(fault) => {
            if is_refused_memory(&fault) {
                return Err(Fail::from(AllocError));
            }
            Ok(fault)
        }
    }
}

#[test]
fn a_script_can_fail_in_the_middle(rt: HostRuntime) -> Result<(), Fail> {
    let mut out = Vec::new(rt.alloc());
    let ran = run_script(rt.alloc(), None, Mode::default(), Torn(false), &mut out);
    let fault = fault_of(ran)?;
    assert_eq!(rt; status(&fault), 1);
    let text = format!(in rt.alloc(); "{fault}")?;
    assert!(rt;
        text.as_str().starts_with("the script can't be read: "),
        "{text}"
    );
    assert!(rt; out.is_empty());
    Ok(())
}

#[test]
fn answers_can_fail_in_the_middle(rt: HostRuntime) -> Result<(), Fail> {
    let first = b"0 open fd 0\n".as_slice();
    let mut out = Narrow(Vec::new(rt.alloc()), first.len());
    let ran = run_script(rt.alloc(), None, Mode::default(), TWO_LINES, &mut out);
    let fault = fault_of(ran)?;
    assert_eq!(rt; status(&fault), 1);
    let text = format!(in rt.alloc(); "{fault}")?;
    assert!(rt;
        text.as_str().starts_with("an answer can't be written: "),
        "{text}"
    );
    assert!(rt; out.0.as_slice() == first);
    Ok(())
}

#[test]
fn takes_scripts_up_to_their_longest(rt: HostRuntime) -> Result<(), Fail> {
    let mut script = vec![in rt.alloc(); b'#'; LONGEST_SCRIPT]?;
    let (out, fault) = run(rt.alloc(), None, script.as_slice())?;
    assert!(rt; fault.is_none() && out.is_empty());
    script.push(b'\n').map_err(AllocError::from)?;
    let (_, fault) = run(rt.alloc(), None, script.as_slice())?;
    let Some(fault) = fault else {
        return Err(Fail::new("it is run"));
    };
    assert_eq!(rt; status(&fault), 1);
    let text = format!(in rt.alloc(); "{fault}")?;
    assert!(rt;
        text.as_str() == "the script can't be read: it is longer than 16777216 bytes",
        "{text}"
    );
    Ok(())
}

const EXPLAIN: Mode = Mode {
    schedule: Schedule::Listed,
    last: 0,
    timeline: false,
    explain: true,
    check: false,
};

// The first two calls ask nothing of the device, the third is stopped at its first block.
const STOPPED: &str = "do 0 fstat 0\ndo 1 dup 3\ndo 0 open / 0\ndo 1 fstat 0\n";

// The third call has acted at the start of its walk, as a call does whose path has no element. It acts at its second
// step, after start and join.
const STOPPED_ANSWERS: &str =
    "0 fstat failed 6 BadDescriptor\n1 dup failed 6 BadDescriptor\n0 open stopped 31 DeviceFault\n\
     event 1: 0 fstat 0: failed 6 BadDescriptor\nevent 3: 1 dup 3: failed 6 BadDescriptor\nevent 6: 0 open / 0: fd 0\n";

// Calls without a path, each answered by its second event.
const SHORT: &str = "0 fstat 0\n1 dup 0\n0 dup 1\nall\n9 dup 0\n";

const SHORT_ANSWERS: &str =
    "0 dup refused 41 Busy\n0 fstat failed 6 BadDescriptor\n1 dup failed 6 BadDescriptor\n9 dup refused 45 NoSuchHart\n";

// Each step has the number of the event at which it was made: here its call's second.
const SHORT_HISTORY: &str =
    "event 3: 0 fstat 0: failed 6 BadDescriptor\nevent 4: 1 dup 0: failed 6 BadDescriptor\n";

// What is written, and how many of its bytes were written at the last flush.
#[derive(Drop)]
struct Handed {
    bytes: Vec<u8>,
    count: usize,
}

impl io::Write for Handed {
    fn write(&mut self, buf: &[u8]) -> io::Result<usize> {
        self.bytes.extend_from_slice(buf)?;
        Ok(buf.len())
    }

    fn flush(&mut self) -> io::Result<()> {
        self.count = self.bytes.len();
        Ok(())
    }
}

#[test]
fn answers_are_handed_on_before_a_history_is_sought(rt: HostRuntime) -> Result<(), Fail> {
    let mut out = Handed {
        bytes: Vec::new(rt.alloc()),
        count: 0,
    };
    match run_script(rt.alloc(), None, EXPLAIN, SHORT.as_bytes(), &mut out) {
        Ok(_disk) => {}
        Err(fault) => {
            if is_refused_memory(&fault) {
                return Err(Fail::from(AllocError));
            }
            return Err(Fail::new("it doesn't come to its end"));
        }
    }
    assert!(rt; out.bytes.ends_with(SHORT_HISTORY.as_bytes()));
    assert_eq!(rt; out.count, SHORT_ANSWERS.len());
    Ok(())
}
