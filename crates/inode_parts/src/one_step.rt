//! Operations on whole inodes that are one operation below.
ghost use Rattle.std.specs.Prelude.{◌≡◌, ℕ, List, Some, if◌then◌else◌};
ghost use Rattle.inode_parts.specs.Vocabulary.{Ret, asks, op_in, answer_in, CanDo, Prepared, IsAfter, yes_in, Goes, Hand as HandState, above_op};
ghost use Rattle.inode_parts.specs.Carries.{handed, with_note};
ghost use Rattle.inode_parts.specs.OneSteps.{step_for, step_left, step_asked, step_notes, up_for, StepReady};
ghost use Rattle.inode_parts.specs.declared.note.Notes.{Notes as NotesState};
ghost use Rattle.inode_parts.specs.declared.note.Note.TheVariants as note;

use crate::answers::{checked_in, doubled_in, joined_in, loan_in, number_in, old_in, shut_in};
use crate::note::{Note, Notes};
use crate::opening::new_file;
use crate::places::{free_seat, known_number, lock_seat, number_to, reference_seat};
use fs_machine::{Answer, DESCRIPTORS, Hand, InodePlace, NewFile, Op, ROOT, Want};
use path_walk::{Ask, Heard};

/// Such an operation, with the place of what it is about.
#[derive(Clone, Copy, Drop)]
pub enum OneStep {
    /// An inode's lock is given up; so too if it is the hart's current directory from then on.
    UnlockInode(InodePlace),
    SetDirectory(InodePlace),
    /// A reference more: to the root, to the current directory, to this inode; and to this one if no seat is free.
    UpRoot(InodePlace),
    UpDirectory(InodePlace),
    Up(InodePlace, u32),
    UpAside(u32),
    /// A reference less: in a walk, in which one that is aside moves to its seat; elsewhere; and to an inode that was
    /// freed.
    WalkDown(InodePlace),
    Down(InodePlace),
    Forget(InodePlace),
    /// A place for an open file, and the lowest descriptor for it.
    Slot,
    Install(InodePlace, NewFile),
    /// A descriptor to write to; one more, and one less.
    CheckFile(u32),
    JoinFile(u32),
    Double(u32),
    Shut(InodePlace, u32),
    /// A descriptor from this one on, or the directory, goes to this child.
    Lend(InodePlace, u8, u32),
    LendDirectory(InodePlace, u8),
    Release,
    Join,
    Say,
}

impl OneStep {
    /// The one that this ask is.
    #[inline(always)]
    pub fn begin(ask: Ask, hand: &Hand) -> Option<OneStep>
        ensures is { (path : List ℕ) → result ≡ step_for (above_op path ask) hand.now }
    {
        let step = match ask {
            Ask::UnlockInode(number) => OneStep::UnlockInode(lock_seat(hand, number)),
            Ask::SetDirectory(number) => OneStep::SetDirectory(lock_seat(hand, number)),
            Ask::UpStart(true) => OneStep::UpRoot(free_seat(hand)),
            Ask::UpStart(false) => OneStep::UpDirectory(free_seat(hand)),
            Ask::Up(number) => up(number, hand),
            Ask::WalkDown(number) => OneStep::WalkDown(reference_seat(hand, number)),
            Ask::Down(number) => OneStep::Down(reference_seat(hand, number)),
            Ask::Forget(number) => OneStep::Forget(reference_seat(hand, number)),
            Ask::Slot => OneStep::Slot,
            Ask::Install(number, flags, inode_type) => {
                OneStep::Install(reference_seat(hand, number), new_file(flags, inode_type))
            }
            Ask::CheckFile(fd) => OneStep::CheckFile(fd),
            Ask::JoinFile(fd) => OneStep::JoinFile(fd),
            Ask::Double(fd) => OneStep::Double(fd),
            Ask::Shut(fd) => OneStep::Shut(free_seat(hand), fd),
            Ask::Lend(child, from) => OneStep::Lend(free_seat(hand), child, from),
            Ask::LendDirectory(child) => OneStep::LendDirectory(free_seat(hand), child),
            Ask::Release(_) => OneStep::Release,
            Ask::Join => OneStep::Join,
            Ask::Say => OneStep::Say,
            _ => return None,
        };
        Some(step)
    }

    /// The operation.
    #[inline(always)]
    pub fn op(&self) -> Op
        ensures op { result ≡ step_asked self.now }
        ensures asks { (path : List ℕ) (notes : NotesState) (h : HandState)
            → asks (step_left path notes self.now h) ≡ Some (op_in h result) }
        ensures can { (h : HandState) → StepReady self.now h → CanDo result h }
        ensures prepared { (h : HandState) → Prepared result h h }
    {
        match *self {
            OneStep::UnlockInode(seat) => Op::Unlock(seat),
            OneStep::SetDirectory(seat) => Op::SetDirectory(seat),
            OneStep::UpRoot(seat) => Op::Up(seat, ROOT),
            OneStep::UpDirectory(seat) => Op::UpDirectory(seat),
            OneStep::Up(seat, number) => Op::Up(seat, number),
            OneStep::UpAside(number) => Op::UpAside(number),
            OneStep::WalkDown(seat) => Op::DownWalked(seat),
            OneStep::Down(seat) => Op::Down(seat),
            OneStep::Forget(seat) => Op::DownFreed(seat),
            OneStep::Slot => Op::TakePlace,
            OneStep::Install(seat, file) => Op::TakeDescriptor(seat, file),
            OneStep::CheckFile(fd) => Op::CheckFile(Want::Write, fd),
            OneStep::JoinFile(fd) => Op::JoinToWrite(fd),
            OneStep::Double(fd) => Op::Double(fd),
            OneStep::Shut(seat, fd) => Op::Close(seat, fd),
            OneStep::Lend(seat, child, from) => Op::GiveTo(seat, child, from),
            OneStep::LendDirectory(seat, child) => Op::GiveTo(seat, child, DESCRIPTORS as u32),
            OneStep::Release => Op::Reply,
            OneStep::Join => Op::Join,
            OneStep::Say => Op::Reply,
        }
    }

    /// What is heard after it is left in `heard`. Of an inode whose lock came into hand nothing is learned yet.
    #[inline(always)]
    pub fn next(&self, notes: &mut Notes, answer: &Answer, hand: &Hand, heard: &mut Heard)
        requires came { (before : HandState) × StepReady self.now before × IsAfter (step_asked self.now) before answer.now hand.now }
        ensures goes { (path : List ℕ) (before : HandState) → StepReady self.now before
            → IsAfter (step_asked self.now) before answer.now hand.now
            → Goes (step_left path notes.old self.now before) (answer_in (step_asked self.now) answer.now hand.now)
            (Ret (handed path notes.new heard.new hand.now)) }
        ensures notes { notes.new ≡ step_notes self.now (yes_in answer.now) notes.old }
    {
        match *self {
            OneStep::UnlockInode(_) => *heard = Heard::WasDone,
            OneStep::SetDirectory(seat) => *heard = Heard::Old(known_number(hand, seat)),
            OneStep::UpRoot(seat) => *heard = Heard::Start(number_to(hand, seat)),
            OneStep::UpDirectory(seat) => *heard = Heard::Start(number_to(hand, seat)),
            OneStep::Up(seat, _) => *heard = Heard::Is(number_to(hand, seat).is_some()),
            OneStep::UpAside(_) => *heard = Heard::Is(hand.aside.is_some()),
            OneStep::WalkDown(_) => *heard = Heard::Is(answer.yes()),
            OneStep::Down(seat) => *heard = Heard::Is(dies(notes, seat, answer)),
            OneStep::Forget(_) => *heard = Heard::WasDone,
            OneStep::Slot => *heard = Heard::Is(answer.yes()),
            OneStep::Install(_, _) => *heard = Heard::Start(number_in(answer)),
            OneStep::CheckFile(_) => *heard = Heard::Checked(checked_in(answer)),
            OneStep::JoinFile(_) => *heard = Heard::Joined(joined_in(answer)),
            OneStep::Double(_) => *heard = Heard::Doubled(doubled_in(answer)),
            OneStep::Shut(seat, _) => *heard = Heard::Shut(shut_in(
                answer,
                known_number(hand, seat),
            )),
            OneStep::Lend(seat, _, _) => *heard = Heard::Loan(loan_in(
                answer,
                known_number(hand, seat),
            )),
            OneStep::LendDirectory(seat, _) => *heard = Heard::Old(old_in(
                answer,
                known_number(hand, seat),
            )),
            OneStep::Release => *heard = Heard::WasDone,
            OneStep::Join => *heard = Heard::WasDone,
            OneStep::Say => *heard = Heard::WasDone,
        }
    }
}

// A reference to the inode of this number.
fn up(number: u32, hand: &Hand) -> OneStep
    ensures { result ≡ up_for number hand.now }
{
    let seat = free_seat(hand);
    match number_to(hand, seat) {
        Some(_) => OneStep::UpAside(number),
        None => OneStep::Up(seat, number),
    }
}

// Whether the inode that lost a reference must be freed: then its lock came into hand.
fn dies(notes: &mut Notes, seat: InodePlace, answer: &Answer) -> bool
    ensures is { result ≡ yes_in answer.now }
    ensures notes { notes.new ≡ (if yes_in answer.now then with_note seat note.Nothing notes.old else notes.old) }
{
    if answer.yes() {
        notes.set(seat, Note::Nothing);
        true
    } else {
        false
    }
}
