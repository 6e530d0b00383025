//! Why no history is handed out.
ghost use Rattle.std.specs.Prelude.{◌≡◌};
ghost use Rattle.explain.specs.Numbers.{name_of, number_of};

use image_tree::Damage;

/// Why no history is handed out.
#[derive(Clone, Copy, PartialEq, Eq, Debug)]
pub enum ExplainRefused {
    /// Memory was refused.
    NoMemory,
    /// The image is damaged; this is its first damage.
    Damaged(Damage),
    /// A step found no room.
    FullSeen,
    /// The path of a call has the element "..".
    Climbs,
}

impl ExplainRefused {
    /// The refusal's number, as programs print it: 33, that of the damage, 71, 72.
    pub fn number(self) -> u8
        ensures { result ≡ number_of self }
    {
        match self {
            ExplainRefused::NoMemory => 33,
            ExplainRefused::Damaged(damage) => damage as u8,
            ExplainRefused::FullSeen => 71,
            ExplainRefused::Climbs => 72,
        }
    }

    /// The refusal's name, as programs print it.
    pub fn name(self) -> &'static str
        ensures { result.now ≡ name_of self }
    {
        match self {
            ExplainRefused::NoMemory => "NoMemory",
            ExplainRefused::Damaged(damage) => damage.name(),
            ExplainRefused::FullSeen => "FullSeen",
            ExplainRefused::Climbs => "Climbs",
        }
    }
}
