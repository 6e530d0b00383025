//! Operations on whole inodes, each as a part over blocks.
ghost use Rattle.std.specs.Prelude.{◌≡◌, ◌++◌, ℕ, List, Some, None, IfSome, IfNone};
ghost use Rattle.inode_parts.specs.Vocabulary.{Ret, asks, op_in, answer_in, CanDo, Prepared, IsAfter, Goes, bare, Hand as HandState, OpAbove, Take, Version, above_op, query_in, first_in, second_in, text_in};
ghost use Rattle.inode_parts.specs.Expecting.{BeginsWith};
ghost use Rattle.inode_parts.specs.Beginnings.{PartHasBegun, PartMayBegin};
ghost use Rattle.inode_parts.specs.Carries.{carry_in};
ghost use Rattle.inode_parts.specs.Holding.{Having};
ghost use Rattle.inode_parts.specs.Leaving.{having, heard_if};
ghost use Rattle.inode_parts.specs.Parts.{IsPart};
ghost use Rattle.inode_parts.specs.Sizes.{IsSized};
ghost use Rattle.inode_parts.specs.Takes.{IsTold};
ghost use Rattle.inode_parts.specs.InodeParts.{is_short, part_for, part_left, part_left_after, part_asked, ChangesNone, MayGoOn, PartReady, PartTold, ReadsInto};
ghost use Rattle.inode_parts.specs.UnderWay.{GoesOrLeaves, UnderWay};
ghost use Rattle.inode_parts.specs.declared.note.Notes.{Notes as NotesState};

use crate::call_text::name;
use crate::changing_directories::{ClearPart, EnterPart, FillPart};
use crate::changing_inodes::{ClaimPart, EmptyPart, FreePart, StorePart};
use crate::file_bytes::{ReadFilePart, WriteFilePart};
use crate::locking_files::{LockFilePart, LockOpenPart, StatFilePart};
use crate::note::Notes;
use crate::one_step::OneStep;
use crate::operation::Operation;
use crate::places::{reference_seat, refers_at};
use crate::relock_part::RelockPart;
use crate::take_part::TakePart;
use fs_layout::Super;
use fs_machine::{Answer, Control, Finish, Hand, Op};
use path_walk::{Ask, Heard, Query};
use whole_calls::Whole;

/// The operation of a call under way, whichever it is.
#[derive(Drop)]
pub enum InodePart {
    One(OneStep),
    /// A transaction is left, with the commit if one begins.
    Leave(Finish),
    /// An inode's count is put.
    Store(StorePart),
    /// A content is emptied.
    Empty(EmptyPart),
    /// A name is entered.
    Enter(EnterPart),
    /// A name is cleared.
    Clear(ClearPart),
    /// A new directory has its two names.
    Fill(FillPart),
    /// An inode is freed.
    Free(FreePart),
    /// A new inode is sought.
    Claim(ClaimPart),
    /// What a descriptor names is locked, to write it.
    LockOpen(LockOpenPart),
    /// The same, to read it.
    LockFile(LockFilePart),
    /// The state of what a descriptor names is answered.
    StatFile(StatFilePart),
    /// An inode is locked, and looked at.
    Take(TakePart),
    /// The first listed one is.
    Relock(RelockPart),
    /// A part of an open file is read.
    ReadFile(ReadFilePart),
    /// A piece is written to one.
    WriteFile(WriteFilePart),
}

impl InodePart {
    /// One of no call.
    pub fn idle() -> InodePart {
        InodePart::One(OneStep::Say)
    }

    /// The part of this ask of a call begins in this place, on a disk with this superblock. What was learned of
    /// locked inodes is noted. The record of one of them may change in hand.
    #[inline(always)]
    pub fn begin(&mut self, ask: Ask, sizes: &Super, call: &Whole, notes: &Notes, hand: &mut Hand)
        requires { PartMayBegin sizes.now (first_in call.now) (second_in call.now) ask notes.now hand.old }
        ensures { PartHasBegun sizes.now (first_in call.now) (second_in call.now) ask notes.now hand.old self.new hand.new }
    {
        if is_short(&ask) {
            self.begin_short(ask, hand);
        } else {
            match ask {
                Ask::Take(number, query) => self.begin_take(number, query, sizes, hand),
                _ => self.begin_long(ask, sizes, call, notes, hand),
            }
        }
    }

    // The same, in a function of its own. What its arms begin is cleared first, so each is a function that is put
    // into it: no other's room is cleared.
    #[tactic(auto, using(crate::proofs::Begins::is_part, crate::proofs::Begins::is_ready))]
    fn begin_long(&mut self, ask: Ask, sizes: &Super, call: &Whole, notes: &Notes, hand: &mut Hand)
        requires { PartMayBegin sizes.now (first_in call.now) (second_in call.now) ask notes.now hand.old }
        ensures { PartHasBegun sizes.now (first_in call.now) (second_in call.now) ask notes.now hand.old self.new hand.new }
    {
        match ask {
            Ask::Store(number, count) => self.begin_store(number, count, sizes, hand),
            Ask::Empty(number) => self.begin_empty(number, sizes, hand),
            Ask::Enter(number, element, child) => {
                let name = name(call.text(), call.second(), &element);
                self.begin_enter(number, child, name, sizes, hand);
            }
            Ask::Clear(number, _) => self.begin_clear(number, sizes, notes, hand),
            Ask::Fill(number, parent) => self.begin_fill(number, parent, sizes, hand),
            Ask::Free(number) => self.begin_free(number, sizes, hand),
            Ask::Claim(inode_type) => self.begin_claim(inode_type, sizes, hand),
            Ask::LockOpen(fd, _) => self.begin_lock_open(fd, sizes, hand),
            Ask::LockFile(fd) => self.begin_lock_file(fd, sizes, hand),
            Ask::StatFile(fd) => self.begin_stat_file(fd, sizes, hand),
            Ask::Take(number, query) => self.begin_take(number, query, sizes, hand),
            Ask::ReadFile(fd, number, _, count) => {
                self.begin_read_file(fd, number, count, notes, hand);
            }
            Ask::WriteFile(fd, number, _, index) => {
                self.begin_write_file(fd, number, index, call.text(), sizes, notes, hand);
            }
            _ => self.begin_short(ask, hand),
        }
    }

    // That of an operation which is one below, or leaves a transaction. If one below was here before, it alone is
    // written.
    #[inline(always)]
    fn begin_short(&mut self, ask: Ask, hand: &Hand)
        ensures is { (path : List ℕ) → self.new ≡ part_for (above_op path ask) hand.now }
    {
        match OneStep::begin(ask, hand) {
            Some(next) => match self {
                InodePart::One(step) => *step = next,
                _ => *self = InodePart::One(next),
            },
            None => *self = InodePart::Leave(Finish::Leave),
        }
    }

    // An inode is locked by the reference at a seat, or if none is there by the first listed one.
    #[inline(always)]
    fn begin_take(&mut self, number: u32, query: Query, sizes: &Super, hand: &Hand)
        requires sizes { IsSized sizes.now }
        requires begins { (path : List ℕ) × (notes : NotesState)
            × BeginsWith sizes.now.version path (Take number (query_in path query)) (having hand.now notes) }
        ensures part { (path : List ℕ) (notes : NotesState)
            → BeginsWith sizes.now.version path (Take number (query_in path query)) (having hand.now notes)
            → IsPart sizes.now (carry_in path notes hand.now) (Take number (query_in path query)) (part_left path notes self.new hand.now) }
        ensures ready { PartReady self.new hand.now }
        ensures told { (path second : List ℕ) → IsTold sizes.now.version path second query → PartTold path second self.new }
        ensures under { (path : List ℕ) (notes : NotesState)
            → BeginsWith sizes.now.version path (Take number (query_in path query)) (having hand.now notes)
            → UnderWay sizes.now.version path (Take number (query_in path query)) (having hand.now notes) self.new (having hand.now notes) }
    {
        let seat = reference_seat(hand, number);
        let there = refers_at(hand, seat, number);
        if there {
            *self = InodePart::Take(TakePart::begin(number, query, sizes, hand));
        } else {
            *self = InodePart::Relock(RelockPart::begin(sizes, hand));
        }
    }

    /// The next operation of a call, whose bytes are read where they are written. Bytes to be recorded are written in
    /// their buffer.
    #[inline(always)]
    pub fn op(&self, call: &Whole, hand: &mut Hand) -> Op
        requires ready { PartReady self.now hand.old }
        requires told { (more : List ℕ) × PartTold (first_in call.now) more self.now }
        ensures op { result ≡ part_asked self.now }
        ensures asks { (more : List ℕ) (notes : NotesState) → PartTold (first_in call.now) more self.now
            → asks (part_left (first_in call.now ++ more) notes self.now hand.old) ≡ Some (op_in hand.new result) }
        ensures can { CanDo result hand.new }
        ensures prepared { Prepared result hand.old hand.new }
    {
        match self {
            InodePart::One(step) => step.op(),
            InodePart::Leave(finish) => finish.op(hand),
            InodePart::Store(part) => part.op(hand),
            InodePart::Empty(part) => part.op(hand),
            InodePart::Enter(part) => part.op(hand),
            InodePart::Clear(part) => part.op(hand),
            InodePart::Fill(part) => part.op(hand),
            InodePart::Free(part) => part.op(hand),
            InodePart::Claim(part) => part.op(hand),
            InodePart::LockOpen(part) => part.op(hand),
            InodePart::LockFile(part) => part.op(hand),
            InodePart::StatFile(part) => part.op(hand),
            InodePart::Take(part) => part.op(hand),
            InodePart::Relock(part) => part.op(hand),
            InodePart::ReadFile(part) => part.op(hand),
            InodePart::WriteFile(part) => part.op(call.text(), hand),
        }
    }

    /// How it goes on in a call, if it reads nothing into that: true if it is over, with what is heard left in
    /// `heard`. The record of a locked inode may change in hand.
    #[inline(always)]
    #[tactic(auto, using(crate::proofs::Goings::leave_on))]
    pub fn next(
        &mut self,
        call: &Whole,
        notes: &mut Notes,
        answer: &Answer,
        hand: &mut Hand,
        heard: &mut Heard,
    ) -> bool
        requires stays { ReadsInto self.old → ⊥ }
        requires told { PartTold (first_in call.now) (second_in call.now) self.old }
        requires came { (before : HandState) × PartReady self.old before × IsAfter (part_asked self.old) before answer.now hand.old }
        ensures goes { let text = text_in call.now in (before : HandState) → PartReady self.old before
            → IsAfter (part_asked self.old) before answer.now hand.old
            → Goes (part_left text notes.old self.old before) (answer_in (part_asked self.old) answer.now hand.old)
            (part_left_after text notes.new (heard_if result heard.new) self.new hand.new) }
        ensures under { let text = text_in call.now in (version : Version) (op : OpAbove) (start : Having) (before : HandState)
            → UnderWay version text op start self.old (having before notes.old)
            → PartReady self.old before → IsAfter (part_asked self.old) before answer.now hand.old
            → GoesOrLeaves version text op start (heard_if result heard.new) self.new (having hand.new notes.new) }
        ensures ready { IfNone (heard_if result heard.new) (PartReady self.new hand.new) }
        ensures told { IfNone (heard_if result heard.new) (PartTold (first_in call.now) (second_in call.now) self.new) }
        ensures stays { IfNone (heard_if result heard.new) (ReadsInto self.new → ⊥) }
        ensures on { IfNone (heard_if result heard.new) (MayGoOn self.old) }
        ensures same { ChangesNone self.old → hand.new ≡ hand.old }
        ensures hand { bare hand.new ≡ bare hand.old }
    {
        match self {
            InodePart::One(step) => {
                step.next(notes, answer, hand, heard);
                true
            }
            InodePart::Leave(finish) => match finish.next(answer, hand) {
                None => false,
                Some(()) => {
                    *heard = Heard::WasDone;
                    true
                }
            }
            InodePart::Store(part) => part.next(notes, answer, hand, heard),
            InodePart::Empty(part) => part.next(notes, answer, hand, heard),
            InodePart::Enter(part) => part.next(notes, answer, hand, heard),
            InodePart::Clear(part) => part.next(notes, answer, hand, heard),
            InodePart::Fill(part) => part.next(notes, answer, hand, heard),
            InodePart::Free(part) => part.next(notes, answer, hand, heard),
            InodePart::Claim(part) => part.next(notes, answer, hand, heard),
            InodePart::LockOpen(part) => part.next(notes, answer, hand, heard),
            InodePart::LockFile(part) => part.next(notes, answer, hand, heard),
            InodePart::StatFile(part) => part.next(notes, answer, hand, heard),
            InodePart::Take(part) => {
                let (path, second) = (call.text(), call.second());
                part.next(path, second, notes, answer, hand, heard)
            }
            InodePart::Relock(part) => part.next(notes, answer, hand, heard),
            InodePart::ReadFile(_) => unreachable!(),
            InodePart::WriteFile(part) => part.next(call.text(), answer, hand, heard),
        }
    }
}

// Whether an ask is one operation below, or leaves a transaction.
fn is_short(ask: &Ask) -> bool
    ensures { result ≡ is_short ask.now }
{
    match ask {
        Ask::Store(_, _) => false,
        Ask::Empty(_) => false,
        Ask::Enter(_, _, _) => false,
        Ask::Clear(_, _) => false,
        Ask::Fill(_, _) => false,
        Ask::Free(_) => false,
        Ask::Claim(_) => false,
        Ask::LockOpen(_, _) => false,
        Ask::LockFile(_) => false,
        Ask::StatFile(_) => false,
        Ask::Take(_, _) => false,
        Ask::ReadFile(_, _, _, _) => false,
        Ask::WriteFile(_, _, _, _) => false,
        _ => true,
    }
}
