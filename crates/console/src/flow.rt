//! Whether anything moved.
ghost use Rattle.std.specs.Prelude.{◌≡◌};
ghost use Rattle.console.specs.Commands.{goes_on, joined};

/// What came of an event, or of a turn of harts.
#[derive(Clone, Copy, PartialEq, Eq, Debug)]
pub enum Flow {
    /// There was nothing to do.
    Rests,
    /// Whoever had something to do waited.
    Waits,
    /// A call was started or refused, or a step ran.
    Moves,
}

impl Flow {
    /// Whether a turn may do anything after one with this flow: if all that had something to do waited, the next is
    /// the same.
    pub fn goes_on(self) -> bool
        ensures { result ≡ goes_on self }
    {
        match self {
            Flow::Moves => true,
            Flow::Waits | Flow::Rests => false,
        }
    }

    /// That of both.
    pub fn joined(self, other: Flow) -> Flow
        ensures { result ≡ joined self other }
    {
        match (self, other) {
            (Flow::Moves, _) => Flow::Moves,
            (Flow::Rests, other) => other,
            (Flow::Waits, Flow::Moves) => Flow::Moves,
            (Flow::Waits, _) => Flow::Waits,
        }
    }
}
