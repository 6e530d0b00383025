//! A toy: a call over operations above, run below.
ghost use Rattle.std.specs.Prelude.{◌≡◌, ◌+◌, ◌<◌, ◌^◌, ℕ, Some};
ghost use Rattle.atomic_programs.specs.Machines.{moved_to};
ghost use Rattle.atomic_programs.specs.Prog.{advance, asks, plain};
ghost use Rattle.atomic_programs.specs.Below as layers;
ghost use Rattle.atomic_programs.specs.Toy.{Twice, Tick, Below, answer_to, control_of, counting, exec, handed_as, handler, itself, kind, lower, part_of, turned, under_of, upper};

use crate::machines::Stepped;

/// The control: so many times more.
#[derive(Clone, Copy)]
pub struct Count {
    pub left: u32,
}

pub enum Turn {
    Asks(Count),
    Ends(u32),
}

impl Count {
    pub fn next(self, heard: u32) -> Turn
        ensures { layers.hears upper lower handler answer_to (control_of self) heard ≡ turned result }
    {
        if self.left == 0 {
            Turn::Ends(heard)
        } else {
            Turn::Asks(Count {
                left: self.left - 1,
            })
        }
    }
}

/// The part: the operation above, as two steps below.
#[derive(Clone, Copy)]
pub enum Part {
    First,
    Second,
}

impl Part {
    pub fn begin() -> Part
        ensures { layers.IsPart upper lower handler answer_to tt Twice (part_of result) }
    {
        Part::First
    }

    pub fn step(self, cell: &mut u32) -> Stepped<Part, u32, ()>
        requires { cell.old < 2 ^ 31 }
        ensures asks { asks (part_of self) ≡ Some Tick }
        ensures moves { advance kind exec (part_of self) cell.old ≡ moved_to part_of handed_as result cell.new }
    {
        *cell += 1;
        match self {
            Part::First => Stepped::Ran(Part::Second, ()),
            Part::Second => Stepped::Done(*cell, ()),
        }
    }
}

/// A call under way.
#[derive(Clone, Copy)]
pub struct Under {
    pub control: Count,
    pub part: Part,
}

impl Under {
    pub fn new(count: Count) -> Under
        ensures { under_of result ≡ layers.below upper lower handler answer_to tt (counting count.left) }
    {
        Under {
            control: count,
            part: Part::begin(),
        }
    }

    /// One operation of it.
    pub fn step(self, cell: &mut u32) -> Stepped<Under, u32, ()>
        requires { cell.old < 2 ^ 31 }
        ensures { advance kind exec (under_of self) cell.old ≡ moved_to under_of itself result cell.new }
    {
        let Under { control, part } = self;
        match part.step(cell) {
            Stepped::Waits(part) => Stepped::Waits(Under { control, part }),
            Stepped::Ran(part, kind) => Stepped::Ran(Under { control, part }, kind),
            Stepped::Stopped(part) => Stepped::Stopped(Under { control, part }),
            Stepped::Done(heard, kind) => match control.next(heard) {
                Turn::Asks(control) => {
                    let part = Part::begin();
                    Stepped::Ran(Under { control, part }, kind)
                }
                Turn::Ends(reply) => Stepped::Done(reply, kind),
            },
        }
    }
}
