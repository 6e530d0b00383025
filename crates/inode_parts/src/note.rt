//! What a call has learned of the inodes whose locks it has.
ghost use Rattle.std.specs.Prelude.{◌≡◌};
ghost use Rattle.inode_parts.specs.Carries.{note_at, with_note};

use fs_machine::InodePlace;
use path_walk::Element;

/// What was learned of the inode at a seat after its lock was taken.
#[derive(Clone, Copy, Drop)]
pub enum Note {
    Nothing,
    /// Under this name a directory has this slot.
    Finds(Element, u32),
    /// By this descriptor it was locked, whose open file has this offset.
    Opened(u32, u32),
    /// It was freed.
    Freed,
}

/// That of both seats. It counts while a lock is there. It is beside the hand and not in it, because the core knows
/// nothing of it. Parts that search nothing leave it as it is.
#[derive(Clone, Copy, Drop)]
pub struct Notes {
    pub one: Note,
    pub two: Note,
}

impl Notes {
    pub fn new() -> Notes {
        Notes {
            one: Note::Nothing,
            two: Note::Nothing,
        }
    }

    pub fn at(&self, seat: InodePlace) -> Note
        ensures { result ≡ note_at seat self.now }
    {
        match seat {
            InodePlace::One => self.one,
            InodePlace::Two => self.two,
        }
    }

    pub fn set(&mut self, seat: InodePlace, note: Note)
        ensures { self.new ≡ with_note seat note self.old }
    {
        match seat {
            InodePlace::One => self.one = note,
            InodePlace::Two => self.two = note,
        }
    }
}
