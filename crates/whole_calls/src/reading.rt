//! read: the inode is locked, then a part read, and the offset moves; or the descriptor isn't for that.
ghost use Rattle.std.specs.Prelude.{◌≡◌, ◌<◌, ◌^◌, ℕ, List, Option, Some, length, false};
ghost use Rattle.image_versions.specs.declared.version.Version.{Version};
ghost use Rattle.plain_tree.specs.declared.call.Call.TheVariants as calls;
ghost use Rattle.plain_tree.specs.declared.step.Action.TheVariants as steps;
ghost use Rattle.whole_calls.specs.Vocabulary.{asks, hears, mark_at, marked_as, op_in, stepped};
ghost use Rattle.whole_calls.specs.Reads.{FilledFrom, HasRoomIn, ReadAsks, ReadFits, read_of};

use path_walk::{Ask, Heard, Locked, Mark};
use plain_tree::Answer;

/// A read (xv6: `fileread`).
#[derive(Clone, Copy)]
pub enum Read {
    Lock,
    Part(u32, u64),
    /// The number of bytes at the front of the buffer.
    Says(usize),
}

impl Read {
    pub fn ask(&self, fd: u32, buffer: &[u8]) -> Ask
        ensures asks { (text : List ℕ) → asks (read_of fd buffer.now self.now) ≡ Some (op_in text result) }
        ensures named { (v : Version) → ReadAsks v buffer.now self.now result }
    {
        match self {
            Read::Lock => Ask::LockFile(fd),
            Read::Part(number, offset) => Ask::ReadFile(fd, *number, *offset, buffer.len()),
            Read::Says(_) => Ask::Say,
        }
    }

    /// Goes on in its place with what it hears: true if it has ended, with its answer left in `says`. The buffer has
    /// what was read.
    #[inline(always)]
    pub fn step(&mut self, heard: &Heard, buffer: &[u8], says: &mut Answer) -> bool
        requires short { length buffer.now < 2 ^ 31 }
        requires fits { ReadFits buffer.now self.old }
        requires count { HasRoomIn buffer.now self.old heard.now }
        ensures goes { (fd : ℕ) (old : List ℕ) → FilledFrom old buffer.now self.old heard.now
            → hears buffer.now (read_of fd old self.old) heard.now
            ≡ stepped (read_of fd buffer.now self.new) (calls.Read fd buffer.now) says.new result }
        ensures fits { result ≡ false → ReadFits buffer.now self.new }
    {
        match self {
            Read::Lock => match heard.locked() {
                Locked::Refused(cause) => {
                    *says = Answer::Failed(cause);
                    return true;
                }
                Locked::Locks(number, offset) => *self = Read::Part(number, offset),
            },
            Read::Part(_, _) => *self = Read::Says(heard.count()),
            Read::Says(count) => {
                *says = Answer::Count(*count as u32);
                return true;
            }
        }
        false
    }

    pub fn mark(&self, heard: &Heard) -> Option<Mark>
        ensures { (fd : ℕ) (buffer : List ℕ)
            → mark_at (read_of fd buffer self.now) heard.now ≡ marked_as (steps.Read fd (length buffer)) result }
    {
        match self {
            Read::Lock => match heard.locked() {
                Locked::Refused(_) => Some(Mark::Own),
                Locked::Locks(_, _) => None,
            },
            Read::Part(_, _) => Some(Mark::Own),
            Read::Says(_) => None,
        }
    }
}
