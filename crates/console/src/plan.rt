//! How far a line goes.
ghost use Rattle.std.specs.Prelude.{◌≡◌};
ghost use Rattle.console.specs.Commands.{in_steps, is_enough, to_end, up_to};

use crate::doing::Doing;
use fs_machine::Kind;

/// More turns than any call takes.
const MOST_TURNS: u64 = u64::MAX;

/// The steps end when this many steps of this kind have run, counted from the call's start.
#[derive(Clone, Copy, PartialEq, Eq, Debug)]
pub struct Until {
    pub kind: Kind,
    pub steps: u32,
}

impl Until {
    /// Whether these steps have run.
    pub fn is_enough(until: Option<Until>, doing: &Doing) -> bool
        ensures { result ≡ is_enough until doing.now }
    {
        match until {
            None => false,
            Some(until) => doing.count(until.kind) >= until.steps,
        }
    }
}

/// Turns that are made one after the other: at most `most`, and as long as anything moves.
#[derive(Clone, Copy, PartialEq, Eq, Debug)]
pub struct Plan {
    pub until: Option<Until>,
    pub most: u64,
}

impl Plan {
    /// To the call's end, or a wait.
    pub fn to_end() -> Plan
        ensures { result ≡ to_end }
    {
        Plan {
            until: None,
            most: MOST_TURNS,
        }
    }

    /// Up to this count of steps of a kind.
    pub fn up_to(kind: Kind, steps: u32) -> Plan
        ensures { result ≡ up_to kind steps }
    {
        Plan {
            until: Some(Until { kind, steps }),
            most: MOST_TURNS,
        }
    }

    /// This count of steps, up to a wait.
    pub fn in_steps(steps: u32) -> Plan
        ensures { result ≡ in_steps steps }
    {
        Plan {
            until: None,
            most: u64::from(steps),
        }
    }
}
