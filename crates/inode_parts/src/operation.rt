//! An operation on whole inodes as a part over blocks, of several steps.
ghost use Rattle.std.specs.Prelude.{◌≡◌, ℕ, List, Some, IfNone};
ghost use Rattle.inode_parts.specs.Vocabulary.{asks, op_in, answer_in, CanDo, Prepared, IsAfter, Goes, bare, left_after, Hand as HandState, Op as OpState, OpAbove, Version};
ghost use Rattle.inode_parts.specs.Carries.{handed};
ghost use Rattle.inode_parts.specs.Leaving.{heard_if, having, StaysOrLeaves};
ghost use Rattle.inode_parts.specs.Parts.{Part};
ghost use Rattle.inode_parts.specs.declared.note.Notes.{Notes as NotesState};

use crate::note::Notes;
use fs_machine::{Answer, Hand, Op};
use path_walk::Heard;

/// An operation on whole inodes, run below step by step, that needs nothing more of its call's text once it has
/// begun. It does what `iupdate`, `itrunc`, `dirlink`, `ialloc`, `ilock` or `stati` does in xv6. Or it does what
/// `iput` does with an inode without links, `unlink` with a name, `fileread` or `filewrite` with the lock that it
/// takes.
pub trait Operation: Drop {
    // The program that is left, in a call with this text, by these notes and with this in hand.
    ghost left: { List ℕ → NotesState → Self → HandState → Part };

    // The operation below that it asks for.
    ghost asked: { Self → OpState };

    // What it has in hand.
    ghost Ready: { Self → HandState → Type 0 };

    // What it was begun for, and the operation on whole inodes that this is.
    ghost About: { Type 0 };

    ghost above: { About → OpAbove };

    // It began so with that in hand, and is so with this in hand.
    ghost Amid: { About → HandState → Self → HandState → Type 0 };

    /// The next operation. Bytes to be recorded are written in their buffer.
    fn op(&self, hand: &mut Hand) -> Op
        requires ready { Ready self.now hand.old }
        ensures op { result ≡ asked self.now }
        ensures asks { (text : List ℕ) (notes : NotesState) → asks (left text notes self.now hand.old) ≡ Some (op_in hand.new result) }
        ensures can { CanDo result hand.new }
        ensures prepared { Prepared result hand.old hand.new };

    /// How it goes on: true if it is over, with what is heard left in `heard`. The record of a locked inode may
    /// change in hand.
    fn next(
        &mut self,
        notes: &mut Notes,
        answer: &Answer,
        hand: &mut Hand,
        heard: &mut Heard,
    ) -> bool
        requires came { (before : HandState) × Ready self.old before × IsAfter (asked self.old) before answer.now hand.old }
        ensures goes { (text : List ℕ) (before : HandState) → Ready self.old before → IsAfter (asked self.old) before answer.now hand.old
            → Goes (left text notes.old self.old before) (answer_in (asked self.old) answer.now hand.old)
            (left_after (left text notes.new) (handed text notes.new) (heard_if result heard.new) self.new hand.new) }
        ensures ready { IfNone (heard_if result heard.new) (Ready self.new hand.new) }
        ensures leaves { (version : Version) (text : List ℕ) (a : About) (start before : HandState) → Amid a start self.old before
            → Ready self.old before → IsAfter (asked self.old) before answer.now hand.old
            → StaysOrLeaves version (Amid a start self.new) text (above a) (heard_if result heard.new) (having start notes.old)
            (having hand.new notes.new) }
        ensures hand { bare hand.new ≡ bare hand.old };
}
