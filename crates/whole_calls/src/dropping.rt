//! A reference dropped.
ghost use Rattle.std.specs.Prelude.{◌≡◌, ℕ, List, Option, Some};
ghost use Rattle.image_versions.specs.declared.version.Version.{Version};
ghost use Rattle.whole_calls.specs.Vocabulary.{Reply, Action, asks, hears, mark_at, marked_as, op_in, IsNamed, P};
ghost use Rattle.whole_calls.specs.Ends.{after_drop, dropping_of};

use path_walk::{Ask, Heard, Mark};

/// An inode is given up, and the reference to it dropped. The last one to an inode without links frees it
/// (xv6: `iunlockput`).
#[derive(Clone, Copy)]
pub enum Dropping {
    UnlockInode(u32),
    Down(u32),
    Free(u32),
    GiveFreed(u32),
    Forget(u32),
}

impl Dropping {
    pub fn ask(&self) -> Ask
        ensures asks { (path : List ℕ) (k : P Reply) → asks (dropping_of k self.now) ≡ Some (op_in path result) }
        ensures named { (v : Version) (path : List ℕ) → IsNamed v path result }
    {
        match self {
            Dropping::UnlockInode(n) | Dropping::GiveFreed(n) => Ask::UnlockInode(*n),
            Dropping::Down(n) => Ask::Down(*n),
            Dropping::Free(n) => Ask::Free(*n),
            Dropping::Forget(n) => Ask::Forget(*n),
        }
    }

    /// Goes on in its place: true if the reference is gone.
    #[inline(always)]
    pub fn step(&mut self, heard: &Heard) -> bool
        ensures { (text : List ℕ) (k : P Reply) → hears text (dropping_of k self.old) heard.now ≡ after_drop k self.new result }
    {
        match self {
            Dropping::UnlockInode(n) => *self = Dropping::Down(*n),
            Dropping::Down(n) => {
                if !heard.is() {
                    return true;
                }
                *self = Dropping::Free(*n);
            }
            Dropping::Free(n) => *self = Dropping::GiveFreed(*n),
            Dropping::GiveFreed(n) => *self = Dropping::Forget(*n),
            Dropping::Forget(_) => return true,
        }
        false
    }

    pub fn mark(&self) -> Option<Mark>
        ensures { (s : Action) (k : P Reply) (heard : Heard) → mark_at (dropping_of k self.now) heard ≡ marked_as s result }
    {
        match self {
            Dropping::Free(n) => Some(Mark::Frees(*n)),
            _ => None,
        }
    }
}
