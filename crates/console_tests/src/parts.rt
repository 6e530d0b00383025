//! What scripts are read into, and what holds the last events.
use fs_machine::Kind;
use script::{CallLine, Command, ScriptFault, Tail, parse};
use std::alloc::AllocError;
use std::test::Fail;

#[test]
fn reads_each_kind_of_line(rt: HostRuntime) -> Result<(), Fail> {
    let script = b"# steps\n\nstep 2 0x3\nupto 3 commit 1\nend 4\nall\n7 fill 0 9\n";
    let lines = match parse(rt.alloc(), script.as_slice()) {
        Ok(lines) => lines,
        Err(ScriptFault::Memory) => return Err(Fail::from(AllocError)),
        Err(_) => return Err(Fail::new("it isn't read")),
    };
    assert_eq!(rt; lines.len(), 5);
    for (k, line) in lines.iter().enumerate() {
        assert_eq!(rt; line.number, k as u64 + 3);
    }
    assert!(rt; lines[0].command == Command::Step { hart: 2, steps: 3 });
    assert!(rt;
        lines[1].command
            == Command::Upto {
                hart: 3,
                kind: Kind::Commit,
                steps: 1
            }
    );
    assert!(rt; lines[2].command == Command::End { hart: 4 });
    assert!(rt; lines[3].command == Command::All);
    assert!(rt;
        lines[4].command
            == Command::Start {
                hart: 7,
                call: CallLine::Fill { fd: 0, count: 9 }
            }
    );
    Ok(())
}

#[test]
fn tails_hold_the_last_events(rt: HostRuntime) -> Result<(), Fail> {
    for (most, first) in [(0u32, 40u32), (3, 37), (20, 20), (100, 0)] {
        let mut tail = Tail::new(rt.alloc(), most)?;
        for event in 0..40u32 {
            tail.note(event)?;
        }
        let mut want = first;
        for event in tail.events() {
            assert_eq!(rt; *event, want, "of {most}");
            want = want.saturating_add(1);
        }
        assert_eq!(rt; want, 40, "of {most}");
    }
    Ok(())
}
