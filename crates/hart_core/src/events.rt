//! Events, and their outcomes.
ghost use Rattle.std.specs.Prelude.{◌≡◌};
ghost use Rattle.hart_core.specs.Vocabulary.{with_answer, CallsOnce};
ghost use Rattle.hart_core.specs.Events.{event_of, came_of, said_of};
ghost use Rattle.hart_core.specs.Harts.{shared_of};
ghost use Rattle.hart_core.specs.Telling.{TellsEvent, hart_of, heard_by};
ghost use Rattle.hart_core.specs.Worlds.{Answers, Makes};

use crate::outcome::Outcome;
use crate::starts::StartRefused;
use crate::world::World;
use block_device::Device;
use plain_tree::Call;

/// A start or a step of one hart.
#[derive(Clone, Drop)]
pub enum Event {
    /// The hart is asked to start this call.
    Start { hart: u8, call: Call },
    /// The hart's call is asked to make one step.
    Step { hart: u8 },
}

/// The outcome of an event.
#[derive(Drop)]
pub enum Came {
    /// The call was started.
    Started,
    /// The call wasn't started, and nothing has changed.
    Refused(StartRefused),
    /// The outcome of the step.
    Stepped(Outcome),
}

/// A world after a list of events, the outcome of each, in their order, and how many of them a stop leaves.
pub struct Run<D: Device> {
    pub world: World<D>,
    pub outcomes: Vec<Came>,
    /// The number of the event, from 0 on, of the leave that began the commit of the last group whose head was written.
    pub cut: Option<u64>,
    /// The number of the leave that began the commit in which the device failed to write the group's head: the disk
    /// may have it or not.
    pub doubt: Option<u64>,
}

impl<D: Device> World<D> {
    /// One event. It takes no memory, and makes at most one call of the device.
    pub fn event(&mut self, event: Event) -> Came
        ensures makes { Makes D.contents D.failures self.old.sizes
            (with_answer (event_of event) (said_of result (shared_of D.contents D.failures self.new.harts))) self.old.harts
            (came_of result) self.new.harts }
        ensures honest { Answers D.contents D.failures self.old.sizes
            (with_answer (event_of event) (said_of result (shared_of D.contents D.failures self.new.harts))) self.old.harts }
        ensures sizes { self.new.sizes ≡ self.old.sizes }
        ensures called { CallsOnce D.Called self.old.harts.core.log.cache.device self.new.harts.core.log.cache.device }
        ensures tells { TellsEvent D.contents D.failures self.old.sizes event self.old.harts result (heard_by self.new (hart_of event))
            self.new.harts }
    {
        match event {
            Event::Start { hart, call } => match self.start(hart, call) {
                Ok(()) => Came::Started,
                Err(refused) => Came::Refused(refused.1),
            },
            Event::Step { hart } => Came::Stepped(self.step(hart)),
        }
    }
}
