//! dup and fstat.
ghost use Rattle.std.specs.Prelude.{◌≡◌, ℕ, [], List, Option, Some};
ghost use Rattle.image_versions.specs.declared.version.Version.{Version};
ghost use Rattle.plain_tree.specs.declared.call.Call.TheVariants as calls;
ghost use Rattle.plain_tree.specs.declared.step.Action.TheVariants as steps;
ghost use Rattle.whole_calls.specs.Vocabulary.{asks, hears, mark_at, marked_as, op_in, stepped, face_of, IsNamed, stat_of_face};
ghost use Rattle.whole_calls.specs.Calls.{dup_of, stat_of};
ghost use Rattle.plain_tree.specs.declared.answer.Answer.TheVariants as answers;

use path_walk::{Ask, Face, Heard, InodeType, Mark};
use plain_tree::{Answer, Cause, Full, NodeType, Stat};

/// dup: one step for descriptor and count; without an open file the reply alone (xv6: `sys_dup`).
#[derive(Clone, Copy)]
pub enum Dup {
    Double,
    Says(Answer),
}

impl Dup {
    pub fn ask(&self, fd: u32) -> Ask
        ensures asks { asks (dup_of fd self.now) ≡ Some (op_in [] result) }
        ensures named { (v : Version) (path : List ℕ) → IsNamed v path result }
    {
        match self {
            Dup::Double => Ask::Double(fd),
            Dup::Says(_) => Ask::Say,
        }
    }

    /// Goes on in its place with what it hears: true if it has ended, with its answer left in `says`.
    #[inline(always)]
    pub fn step(&mut self, heard: &Heard, says: &mut Answer) -> bool
        ensures { (text : List ℕ) (fd : ℕ)
            → hears text (dup_of fd self.old) heard.now ≡ stepped (dup_of fd self.new) (calls.Dup fd) says.new result }
    {
        match self {
            Dup::Double => match heard.doubled() {
                None => {
                    *says = Answer::Failed(Cause::BadDescriptor);
                    return true;
                }
                Some(None) => *self = Dup::Says(Answer::Full(Full::Descriptors)),
                Some(Some(fd)) => *self = Dup::Says(Answer::Fd(fd)),
            },
            Dup::Says(answer) => {
                *says = *answer;
                return true;
            }
        }
        false
    }

    pub fn mark(&self, heard: &Heard) -> Option<Mark>
        ensures { (fd : ℕ) → mark_at (dup_of fd self.now) heard.now ≡ marked_as (steps.Dup fd) result }
    {
        match self {
            Dup::Double => match heard.doubled() {
                Some(None) => Some(Mark::Fills),
                _ => Some(Mark::Own),
            },
            Dup::Says(_) => None,
        }
    }
}

/// fstat (xv6: `sys_fstat`, `filestat`).
#[derive(Clone, Copy)]
pub enum Fstat {
    Look,
    UnlockInode(u32, Answer),
    Says(Answer),
}

fn stat_answer(number: u16, face: &Face) -> Answer
    ensures { result ≡ answers.Stat (stat_of_face number (face_of face.now)) }
{
    Answer::Stat(Stat {
        device: 1,
        inode: number,
        kind: match face.inode_type {
            InodeType::Directory => NodeType::Directory,
            InodeType::File => NodeType::File,
            InodeType::Device(_) => NodeType::Device,
        },
        nlink: face.count,
        size: face.size,
    })
}

impl Fstat {
    pub fn ask(&self, fd: u32) -> Ask
        ensures asks { asks (stat_of fd self.now) ≡ Some (op_in [] result) }
        ensures named { (v : Version) (path : List ℕ) → IsNamed v path result }
    {
        match self {
            Fstat::Look => Ask::StatFile(fd),
            Fstat::UnlockInode(number, _) => Ask::UnlockInode(*number),
            Fstat::Says(_) => Ask::Say,
        }
    }

    /// Goes on in its place with what it hears: true if it has ended, with its answer left in `says`.
    #[inline(always)]
    pub fn step(&mut self, heard: &Heard, says: &mut Answer) -> bool
        ensures { (text : List ℕ) (fd : ℕ)
            → hears text (stat_of fd self.old) heard.now ≡ stepped (stat_of fd self.new) (calls.Fstat fd) says.new result }
    {
        match self {
            Fstat::Look => match heard.stat() {
                None => {
                    *says = Answer::Failed(Cause::BadDescriptor);
                    return true;
                }
                Some((number, face)) => {
                    *self = Fstat::UnlockInode(u32::from(number), stat_answer(number, &face));
                }
            },
            Fstat::UnlockInode(_, answer) => *self = Fstat::Says(*answer),
            Fstat::Says(answer) => {
                *says = *answer;
                return true;
            }
        }
        false
    }

    pub fn mark(&self) -> Option<Mark>
        ensures { (fd : ℕ) (heard : Heard) → mark_at (stat_of fd self.now) heard ≡ marked_as (steps.Fstat fd) result }
    {
        match self {
            Fstat::Look => Some(Mark::Own),
            _ => None,
        }
    }
}
