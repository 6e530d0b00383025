//! A descriptor's inode locked and loaded, if it may be had.
ghost use Rattle.std.specs.Prelude.{◌≡◌, None, IfSome, IfNone};
ghost use Rattle.file_table.specs.Vocabulary.{LockedState, inode_at, IsAfter, answer_in, Goes, left_after, bare, HandState, InodePlace, beside_lock};
ghost use Rattle.file_table.specs.LockingFiles.{lock_file_loaded, file_left, file_value, file_asked, file_seat, FileEnds, FileReady, HasInodeBlocks};

use fs_machine::{Answer, Hand, InodePlace, Op, OpenFile, Part, Refused, Routine, Want};
use inode_table::{LoadInode, load_held};

/// An open file, and the place of its inode's lock.
#[derive(Clone, Copy, Drop)]
pub struct HeldFile {
    pub seat: InodePlace,
    pub file: OpenFile,
}

/// The result of locking a descriptor's inode.
#[derive(Clone, Copy, Drop)]
pub enum FileLocked {
    Refused(Refused),
    Locked(HeldFile),
}

/// Takes the lock of the inode that a descriptor names, if this use may have it, and loads the inode if it isn't
/// loaded.
#[derive(Clone, Copy, Drop)]
pub enum LockFile {
    /// The lock is taken, on a disk whose inode blocks begin there.
    Lock(InodePlace, u32, Want, u32),
    /// The inode is loaded.
    Loading(HeldFile, LoadInode),
}

impl LockFile {
    /// What descriptor `fd` names, on a disk whose inode blocks begin at block `inodestart`.
    pub fn new(inodestart: u32, seat: InodePlace, want: Want, fd: u32) -> LockFile
        requires { HasInodeBlocks inodestart }
        ensures program { (h : HandState) → file_left result h ≡ lock_file_loaded inodestart want fd }
        ensures ready { (h : HandState) → inode_at seat h ≡ None → h.first ≡ None → FileReady result h }
        ensures seat { file_seat result ≡ seat }
    {
        LockFile::Lock(seat, inodestart, want, fd)
    }
}

impl Routine for LockFile {
    type Out = FileLocked;

    ghost Value = { LockedState };

    ghost value = { file_value };

    ghost left = { file_left };

    ghost asked = { file_asked };

    ghost Ready = { FileReady };

    ghost About = { InodePlace };

    ghost about = { file_seat };

    ghost beside = { beside_lock };

    ghost Ends = { FileEnds };

    fn op(&self, hand: &mut Hand) -> Op {
        match self {
            LockFile::Lock(seat, _, want, fd) => Op::LockFile(*seat, *want, *fd),
            LockFile::Loading(_, load) => load.op(hand),
        }
    }

    #[inline(always)]
    #[tactic(auto, using(fs_machine::proofs::Going::goes_bind))]
    fn next(&mut self, answer: &Answer, hand: &mut Hand) -> Option<FileLocked> {
        match self {
            LockFile::Lock(seat, inodestart, _, _) => {
                let seat = *seat;
                match *answer {
                    Answer::File(file) => match load_held(*inodestart, hand, seat) {
                        None => Some(FileLocked::Locked(HeldFile { seat, file })),
                        Some(load) => {
                            *self = LockFile::Loading(HeldFile { seat, file }, load);
                            None
                        }
                    },
                    Answer::Refused(why) => Some(FileLocked::Refused(why)),
                    _ => unreachable!(),
                }
            }
            LockFile::Loading(file, load) => {
                let file = *file;
                let inode = load.next(answer, hand)?;
                hand.set_record(file.seat, inode);
                Some(FileLocked::Locked(file))
            }
        }
    }
}
