//! The first listed inode locked, to be freed.
ghost use Rattle.std.specs.Prelude.{◌≡◌, ℕ, List};
ghost use Rattle.inode_parts.specs.Vocabulary.{Ret, number_at, loaded_in, AtNothing, Take, Version};
ghost use Rattle.inode_parts.specs.Carries.{carry_in, handed};
ghost use Rattle.inode_parts.specs.Parts.{IsPart};
ghost use Rattle.inode_parts.specs.Relocks.{relock_left, relock_asked, RelockAmid, RelockBegins, RelockReady};
ghost use Rattle.inode_parts.specs.Sides.{beside_in};
ghost use Rattle.inode_parts.specs.Takes.{only_seen, IsTaken, Sees};
ghost use Rattle.inode_parts.specs.declared.note.Notes.{Notes as NotesState};

use crate::faces::face_unless_free;
use crate::note::{Note, Notes};
use crate::operation::Operation;
use crate::places::free_seat;
use fs_layout::Super;
use fs_machine::{Answer, Hand, InodePlace, Op, Routine};
use inode_table::{LockInode, record_at};
use path_walk::{Heard, Sight};

/// The lock of the first listed inode is taken, and the reference to it moves to a seat.
#[derive(Clone, Copy, Drop)]
pub enum RelockPart {
    /// They go to this seat, on a disk whose inode blocks begin there.
    Locking(InodePlace, u32),
    /// The inode is loaded.
    Loading(LockInode),
}

impl RelockPart {
    /// On a disk of these sizes.
    pub fn begin(sizes: &Super, hand: &Hand) -> RelockPart
        requires begins { (number : ℕ) × RelockBegins sizes.now number hand.now }
        ensures part { (path : List ℕ) (notes : NotesState) (number : ℕ) → RelockBegins sizes.now number hand.now
            → IsPart sizes.now (carry_in path notes hand.now) (Take number AtNothing) (relock_left path notes result hand.now) }
        ensures ready { RelockReady result hand.now }
        ensures amid { (number : ℕ) → RelockBegins sizes.now number hand.now → RelockAmid number hand.now result hand.now }
    {
        let seat = free_seat(hand);
        RelockPart::Locking(seat, sizes.inodestart)
    }
}

impl Operation for RelockPart {
    ghost left = { relock_left };

    ghost asked = { relock_asked };

    ghost Ready = { RelockReady };

    // The inode.
    ghost About = { ℕ };

    ghost above = { λ n. Take n AtNothing };

    ghost Amid = { RelockAmid };

    fn op(&self, hand: &mut Hand) -> Op {
        match self {
            RelockPart::Locking(seat, _) => Op::LockListed(*seat),
            RelockPart::Loading(lock) => lock.op(hand),
        }
    }

    fn next(
        &mut self,
        notes: &mut Notes,
        answer: &Answer,
        hand: &mut Hand,
        heard: &mut Heard,
    ) -> bool {
        match self {
            RelockPart::Locking(seat, inodestart) => {
                let seat = *seat;
                match LockInode::held(*inodestart, hand, seat) {
                    None => {
                        *heard = seen(seat, notes, hand);
                        true
                    }
                    Some(lock) => {
                        *self = RelockPart::Loading(lock);
                        false
                    }
                }
            }
            RelockPart::Loading(lock) => match lock.next(answer, hand) {
                None => false,
                Some(seat) => {
                    *heard = seen(seat, notes, hand);
                    true
                }
            },
        }
    }
}

// What is seen of the inode at a seat.
fn seen(seat: InodePlace, notes: &mut Notes, hand: &Hand) -> Heard
    requires { IsTaken seat hand.now }
    ensures program { (path : List ℕ) → Ret (handed path notes.new result hand.now)
        ≡ only_seen path (beside_in path notes.old seat hand.now) (number_at seat hand.now) (loaded_in seat hand.now) }
    ensures sees { (version : Version) (path : List ℕ) → Sees version path AtNothing seat result notes.old notes.new }
{
    let inode = record_at(hand, seat);
    notes.set(seat, Note::Nothing);
    Heard::Saw(Sight {
        face: face_unless_free(inode),
        found: None,
        empty: true,
    })
}
