//! Inodes changed whose locks are in hand.
ghost use Rattle.std.specs.Prelude.{◌≡◌, IsSome};
ghost use Rattle.inode_parts.specs.Vocabulary.{bare, inode_at, no_index, with_index, with_record, IsLoadedAt};
ghost use Rattle.inode_parts.specs.Carries.{with_note};
ghost use Rattle.inode_parts.specs.declared.note.Note.TheVariants as note;

use crate::note::{Note, Notes};
use fs_layout::Dinode;
use fs_machine::{Hand, InodePlace};

// The inode at a seat has this record from here on, and nothing more is known of it.
#[tactic(auto, using(crate::proofs::Changing::bare_record))]
pub(crate) fn change(seat: InodePlace, inode: Dinode, notes: &mut Notes, hand: &mut Hand)
    requires { IsSome (inode_at seat hand.old) }
    ensures notes { notes.new ≡ with_note seat note.Nothing notes.old }
    ensures record { hand.new ≡ with_record seat inode hand.old }
    ensures hand { bare hand.new ≡ bare hand.old }
{
    hand.set_record(seat, inode);
    notes.set(seat, Note::Nothing);
}

// None of the names of the directory at a seat is indexed from here on.
#[tactic(auto, using(crate::proofs::Changing::bare_index))]
pub(crate) fn clear_index_at(seat: InodePlace, hand: &mut Hand)
    requires { IsLoadedAt seat hand.old }
    ensures index { hand.new ≡ with_index seat no_index hand.old }
    ensures hand { bare hand.new ≡ bare hand.old }
{
    hand.index_mut(seat).clear();
}
