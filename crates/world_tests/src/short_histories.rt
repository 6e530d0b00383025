//! What calls do if memory is short. `bin/short-memory` refuses, in turn, each request for memory that a call makes
//! between the lines "call" and "done". Then the call answers 33. Made once more, it has its usual result.
use crate::play::{explains, played, seen_in};
use explain::explain;
use plain_tree::Placed;
use std::test::Fail;

// The answer of a call that was refused memory, and that of one that wasn't.
const NO_MEMORY: u8 = 33;

const ANSWERED: u8 = 0;

const SCRIPT: &str =
    "do 1 mkdir /d\ndo 1 open /d/f 0x200\ndo 1 close 0\n0 open /d/f 0\nupto 0 unlock 1\ndo 1 unlink /d/f\ndo 1 unlink /d\nend 0";

fn are_same(list: &[Placed], wanted: &[Placed]) -> bool {
    list.len() == wanted.len()
        && list.iter().zip(wanted.iter()).all(|(one, other)| one.event == other.event
            && one.answer == other.answer)
}

/// A list that wasn't handed out for want of memory is handed out the next time.
#[test]
fn of_explain(rt: HostRuntime) -> Result<(), Fail> {
    let alloc = rt.alloc();
    let play = played(alloc, SCRIPT)?;
    let Ok(wanted) = explain(alloc, &play.image, &play.events) else {
        return Err(Fail::new("it is refused"));
    };
    let _ = println!(rt; "call");
    let came = explain(alloc, &play.image, &play.events);
    let _ = println!(rt; "done");
    let (list, answer) = match came {
        Ok(list) => (Ok(list), ANSWERED),
        Err(refused) => (explain(alloc, &play.image, &play.events), refused.number()),
    };
    println!(rt; "answer {answer}")?;
    assert!(rt; answer == ANSWERED || answer == NO_MEMORY);
    let Ok(list) = list else {
        return Err(Fail::new("it is refused"));
    };
    assert!(rt; are_same(list.as_slice(), wanted.as_slice()));
    assert!(rt; explains(alloc, &seen_in(alloc, &play)?, &list)?);
    Ok(())
}
