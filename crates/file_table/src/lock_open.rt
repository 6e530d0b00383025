//! The inode of an open file locked, and loaded.
ghost use Rattle.std.specs.Prelude.{◌≡◌, None, Option, IfSome, IfNone};
ghost use Rattle.file_table.specs.Vocabulary.{Loaded, OpenFile as OpenFileState, inode_at, IsAfter, answer_in, Goes, left_after, bare, HandState, InodePlace, beside_lock};
ghost use Rattle.file_table.specs.LockingFiles.{lock_open_loaded, open_left, open_value, open_asked, open_seat, HasFile, HasInodeBlocks, OpenReady};

use crate::lock_file::HeldFile;
use fs_machine::{Answer, Hand, InodePlace, Op, Part, Routine};
use inode_table::{LoadInode, load_held};

/// Takes the lock of the inode of a descriptor that is known to be open, and loads the inode if it isn't loaded.
#[derive(Clone, Copy, Drop)]
pub enum LockOpen {
    /// The lock is taken, on a disk whose inode blocks begin there.
    Lock(InodePlace, u32, u32),
    /// The inode is loaded.
    Loading(HeldFile, LoadInode),
}

impl LockOpen {
    /// What descriptor `fd` names, on a disk whose inode blocks begin at block `inodestart`.
    pub fn new(inodestart: u32, seat: InodePlace, fd: u32) -> LockOpen
        requires { HasInodeBlocks inodestart }
        ensures program { (h : HandState) → open_left result h ≡ lock_open_loaded inodestart fd }
        ensures ready { (h : HandState) → inode_at seat h ≡ None → h.first ≡ None → OpenReady result h }
        ensures seat { open_seat result ≡ seat }
    {
        LockOpen::Lock(seat, inodestart, fd)
    }
}

impl Routine for LockOpen {
    type Out = HeldFile;

    ghost Value = { OpenFileState × Loaded };

    ghost value = { open_value };

    ghost left = { open_left };

    ghost asked = { open_asked };

    ghost Ready = { OpenReady };

    ghost About = { InodePlace };

    ghost about = { open_seat };

    ghost beside = { beside_lock };

    ghost Ends = { λ m f h. (f.seat ≡ open_seat m) × HasFile f h };

    fn op(&self, hand: &mut Hand) -> Op {
        match self {
            LockOpen::Lock(seat, _, fd) => Op::LockOpen(*seat, *fd),
            LockOpen::Loading(_, load) => load.op(hand),
        }
    }

    #[tactic(auto, using(fs_machine::proofs::Going::goes_bind))]
    fn next(&mut self, answer: &Answer, hand: &mut Hand) -> Option<HeldFile> {
        match self {
            LockOpen::Lock(seat, inodestart, _) => {
                let seat = *seat;
                match *answer {
                    Answer::File(file) => match load_held(*inodestart, hand, seat) {
                        None => Some(HeldFile { seat, file }),
                        Some(load) => {
                            *self = LockOpen::Loading(HeldFile { seat, file }, load);
                            None
                        }
                    },
                    _ => unreachable!(),
                }
            }
            LockOpen::Loading(file, load) => {
                let file = *file;
                let inode = load.next(answer, hand)?;
                hand.set_record(file.seat, inode);
                Some(file)
            }
        }
    }
}
