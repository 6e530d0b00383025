//! The calls that each hart is still to start by itself.
ghost use Rattle.std.specs.Prelude.{◌≡◌, ◌<◌, OnOk, map, option_map};
ghost use Rattle.script.specs.Said.{call_said};
ghost use Rattle.console.specs.Queues.{TakesNext, none_left, with_last};

use crate::session::HARTS;
use script::CallLine;
use std::alloc::{AllocError, Global};
use std::collections::VecDeque;
use std::marker::Model;

/// A queue of calls for each hart. A contract sees a list of calls for each.
#[derive(Drop)]
pub struct Queues {
    calls: [VecDeque<CallLine>; HARTS],
}

impl Model for Queues {
    ghost use Rattle.std.specs.Prelude.{◌≡◌, length, map};
    ghost use Rattle.script.specs.Said.{call_said};
    ghost use Rattle.console.specs.Queues.{QueuedCalls};

    ghost Value = { QueuedCalls };

    ghost view = { λ q. map (λ calls. map call_said calls.items) q.calls };

    ghost invariant = { λ q. length q.calls ≡ 8 };
}

impl Queues {
    /// Of no calls.
    pub fn new(alloc: Global) -> Queues
        ensures { result ≡ none_left }
    {
        Queues {
            calls: [
                VecDeque::new(alloc),
                VecDeque::new(alloc),
                VecDeque::new(alloc),
                VecDeque::new(alloc),
                VecDeque::new(alloc),
                VecDeque::new(alloc),
                VecDeque::new(alloc),
                VecDeque::new(alloc),
            ],
        }
    }

    /// Puts a call after those of its hart.
    pub fn put(&mut self, hart: u8, call: CallLine) -> Result<(), AllocError>
        requires { hart < HARTS }
        ensures { OnOk result (self.new ≡ with_last hart (call_said call) self.old) }
    {
        self.calls[hart as usize].push_back(call)?;
        Ok(())
    }

    /// Takes the first of a hart's calls.
    pub fn take_next(&mut self, hart: u8) -> Option<CallLine>
        ensures { TakesNext hart self.old (option_map call_said result) self.new }
    {
        let place = hart as usize;
        if place < self.calls.len() {
            self.calls[place].pop_front()
        } else {
            None
        }
    }

    /// The queues themselves, hart by hart.
    pub fn into_calls(self) -> [VecDeque<CallLine>; HARTS]
        ensures { map (λ calls. map call_said calls.items) result ≡ self }
    {
        let Queues { calls } = self;
        calls
    }
}
