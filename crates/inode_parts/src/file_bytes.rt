//! A part of an open file read, and a piece of bytes written to one.
ghost use Rattle.std.specs.Prelude.{◌≡◌, ℕ, [], ◌<◌, ◌≤◌, ◌^◌, List, length, Some, IfNone, IfSome, ◌*◌, ◌+◌, None, IsSome};
ghost use Rattle.inode_parts.specs.Carries.{note_at, handed};
ghost use Rattle.inode_parts.specs.OneSteps.{seat_of_lock};
ghost use Rattle.inode_parts.specs.declared.note.Note.TheVariants as note;
ghost use Rattle.inode_parts.specs.Vocabulary.{Super as SuperState, Version, asks, op_in, answer_in, CanDo, Prepared, IsAfter, Goes, left_after, Hand as HandState, Reads, count_in, piece, piece_len, most_bytes, bare, inode_at, with_record, IsWithin, Writes, refused_in};
ghost use Rattle.inode_parts.specs.Starts.{carry_in, having, part_left, IsPart, Notes as NotesState, PartReady, PartTold, UnderWay};
ghost use Rattle.inode_parts.specs.Expecting.{HasOpened};
ghost use Rattle.inode_parts.specs.FileReads.{read_file_left, read_file_asked, FillsFrom, ReadFileAmid, ReadFileReady, ReadFileTold};
ghost use Rattle.inode_parts.specs.Leaving.{heard_if, StaysOrLeaves};
ghost use Rattle.inode_parts.specs.FileWrites.{ended_as, write_file_left, write_file_asked, WriteBegins, WriteFileAmid, WriteFileReady, WriteFileTold};

use crate::call_text::piece;
use crate::note::{Note, Notes};
use crate::part::InodePart;
use crate::places::lock_seat;
use fs_layout::widths::BLOCK_LEN;
use fs_layout::{Dinode, Super};
use fs_machine::{Answer, Hand, InodePlace, Op};
use inode_data::{Begun, MOST_BLOCKS, ReadPart, WritePart, Written};
use inode_table::record_at;
use path_walk::{Heard, Wrote};
use plain_tree::Cause;

/// The seat of the lock, the descriptor by which it was taken, and the open file's offset.
#[derive(Clone, Copy, Drop)]
pub struct LockedFile {
    pub seat: InodePlace,
    pub fd: u32,
    pub offset: u32,
}

/// That of inode `number`, by what was learned as its lock was taken.
pub(crate) fn locked_file(number: u32, fd: u32, notes: &Notes, hand: &Hand) -> LockedFile
    requires { (offset : ℕ) × (note_at (seat_of_lock number hand.now) notes.now ≡ note.Opened fd offset) }
    ensures seat { result.seat ≡ seat_of_lock number hand.now }
    ensures fd { result.fd ≡ fd }
    ensures offset { (offset : ℕ) → note_at (seat_of_lock number hand.now) notes.now ≡ note.Opened fd offset → result.offset ≡ offset }
{
    let seat = lock_seat(hand, number);
    match notes.at(seat) {
        Note::Opened(_, offset) => LockedFile { seat, fd, offset },
        _ => unreachable!(),
    }
}

/// A file's bytes are read to the front of the call's own; then its lock is given up.
#[derive(Clone, Copy, Drop)]
pub enum ReadFilePart {
    Reading(LockedFile, ReadPart),
    /// This number of bytes was read.
    Ending(LockedFile, usize),
}

impl InodePart {
    /// Begins to read at most `count` bytes of the file that this descriptor names, whose inode has this number.
    #[inline(always)]
    pub(crate) fn begin_read_file(
        &mut self,
        fd: u32,
        number: u32,
        count: usize,
        notes: &Notes,
        hand: &Hand,
    )
        requires count { count < 2 ^ 32 }
        requires begins { (offset : ℕ) × HasOpened fd number offset (having hand.now notes.now) }
        ensures part { (sizes : SuperState) (path : List ℕ) (offset : ℕ) → HasOpened fd number offset (having hand.now notes.now)
            → IsPart sizes (carry_in path notes.now hand.now) (Reads fd number offset count) (part_left path notes.now self.new hand.now) }
        ensures fills { (path : List ℕ) → FillsFrom path (part_left path notes.now self.new hand.now) }
        ensures ready { PartReady self.new hand.now }
        ensures told { (path : List ℕ) → count ≤ length path → PartTold path [] self.new }
        ensures under { (version : Version) (path : List ℕ) (offset : ℕ)
            → UnderWay version path (Reads fd number offset count) (having hand.now notes.now) self.new (having hand.now notes.now) }
    {
        let file = locked_file(number, fd, notes, hand);
        let inode = record_at(hand, file.seat);
        match ReadPart::begin(inode, file.offset, count as u32) {
            Begun::Runs(part) => *self = InodePart::ReadFile(ReadFilePart::Reading(file, part)),
            Begun::Is(count) => *self = InodePart::ReadFile(ReadFilePart::Ending(file, count)),
        }
    }
}

impl ReadFilePart {
    /// The next operation. The file moves in the same step in which its lock is given up.
    pub fn op(&self, hand: &mut Hand) -> Op
        requires ready { ReadFileReady self.now hand.old }
        ensures op { result ≡ read_file_asked self.now }
        ensures asks { (path : List ℕ) → asks (read_file_left path self.now hand.old) ≡ Some (op_in hand.new result) }
        ensures can { CanDo result hand.new }
        ensures prepared { Prepared result hand.old hand.new }
    {
        match self {
            ReadFilePart::Reading(_, part) => part.op(hand),
            ReadFilePart::Ending(file, count) => {
                Op::UnlockMoving(file.seat, file.fd, file.offset + *count as u32)
            }
        }
    }

    /// How it goes on, with the call's bytes lent: true if it is over, with what is heard left in `heard`.
    #[inline(always)]
    pub fn next(&mut self, text: &mut [u8], answer: &Answer, hand: &Hand, heard: &mut Heard) -> bool
        requires told { ReadFileTold text.old self.old }
        requires came { (before : HandState) × ReadFileReady self.old before
            × IsAfter (read_file_asked self.old) before answer.now hand.now }
        ensures goes { (notes : NotesState) (before : HandState) → ReadFileReady self.old before
            → IsAfter (read_file_asked self.old) before answer.now hand.now
            → Goes (read_file_left text.old self.old before) (answer_in (read_file_asked self.old) answer.now hand.now)
            (left_after (read_file_left text.new) (handed text.new notes) (heard_if result heard.new) self.new hand.now) }
        ensures ready { IfNone (heard_if result heard.new) (ReadFileReady self.new hand.now) }
        ensures told { IfNone (heard_if result heard.new) (ReadFileTold text.new self.new) }
        ensures count { IfSome (heard_if result heard.new) (λ x. count_in x ≤ length text.new) }
        ensures leaves { (version : Version) (path : List ℕ) (notes : NotesState) (fd n offset count : ℕ) (start before : HandState)
            → ReadFileAmid n start self.old before → ReadFileReady self.old before
            → IsAfter (read_file_asked self.old) before answer.now hand.now
            → StaysOrLeaves version (ReadFileAmid n start self.new) path (Reads fd n offset count) (heard_if result heard.new)
            (having start notes) (having hand.now notes) }
    {
        match self {
            ReadFilePart::Reading(file, part) => {
                let inode = record_at(hand, file.seat);
                match part.next(inode, text, answer, hand) {
                    None => false,
                    Some(count) => {
                        *self = ReadFilePart::Ending(*file, count);
                        false
                    }
                }
            }
            ReadFilePart::Ending(_, count) => {
                *heard = Heard::Read(*count);
                true
            }
        }
    }
}

/// A piece of the call's bytes is written to a file; then its lock is given up.
#[derive(Drop)]
pub enum WriteFilePart {
    /// It may not be written there.
    Denied(InodePlace, Cause),
    /// The piece at this place among the call's.
    Writing(LockedFile, usize, WritePart),
    /// It was written up to this offset.
    Ending(LockedFile, u32, Wrote),
}

impl InodePart {
    /// Begins to write the piece at this place of a call with these bytes to the file that this descriptor names. The
    /// file's inode has this number, and the disk this superblock.
    #[inline(always)]
    pub(crate) fn begin_write_file(
        &mut self,
        fd: u32,
        number: u32,
        index: usize,
        text: &[u8],
        sizes: &Super,
        notes: &Notes,
        hand: &Hand,
    )
        requires stands { piece_len * index ≤ length text.now }
        requires begins { (offset : ℕ) × WriteBegins sizes.now fd number offset (having hand.now notes.now) }
        ensures part { (offset : ℕ) → WriteBegins sizes.now fd number offset (having hand.now notes.now)
            → IsPart sizes.now (carry_in text.now notes.now hand.now) (Writes fd number offset (piece text.now index))
            (part_left text.now notes.now self.new hand.now) }
        ensures ready { PartReady self.new hand.now }
        ensures told { PartTold text.now [] self.new }
        ensures under { (version : Version) (path bytes : List ℕ) (offset : ℕ)
            → UnderWay version path (Writes fd number offset bytes) (having hand.now notes.now) self.new (having hand.now notes.now) }
    {
        let file = locked_file(number, fd, notes, hand);
        let inode = record_at(hand, file.seat);
        let len = piece(text, index).len();
        match refused(inode, file.offset, len) {
            Some(why) => *self = InodePart::WriteFile(WriteFilePart::Denied(file.seat, why)),
            None => {
                let part = WritePart::begin(number, inode, sizes, file.offset, len);
                *self = InodePart::WriteFile(WriteFilePart::Writing(file, index, part));
            }
        }
    }
}

impl WriteFilePart {
    /// The next operation. The next block's part of the bytes is written in its buffer. The file moves in the same
    /// step in which its lock is given up.
    pub fn op(&self, text: &[u8], hand: &mut Hand) -> Op
        requires ready { WriteFileReady self.now hand.old }
        requires told { WriteFileTold text.now self.now }
        ensures op { result ≡ write_file_asked self.now }
        ensures asks { asks (write_file_left text.now self.now hand.old) ≡ Some (op_in hand.new result) }
        ensures can { CanDo result hand.new }
        ensures prepared { Prepared result hand.old hand.new }
    {
        match self {
            WriteFilePart::Denied(seat, _) => Op::Unlock(*seat),
            WriteFilePart::Writing(_, index, part) => part.op(piece(text, *index), hand),
            WriteFilePart::Ending(file, upto, _) => Op::UnlockMoving(file.seat, file.fd, *upto),
        }
    }

    /// How it goes on, with the call's bytes lent: true if it is over, with what is heard left in `heard`. Once the
    /// piece is written the inode has its new record in hand.
    pub fn next(&mut self, text: &[u8], answer: &Answer, hand: &mut Hand, heard: &mut Heard) -> bool
        requires told { WriteFileTold text.now self.old }
        requires came { (before : HandState) × WriteFileReady self.old before
            × IsAfter (write_file_asked self.old) before answer.now hand.old }
        ensures goes { (notes : NotesState) (before : HandState) → WriteFileReady self.old before
            → IsAfter (write_file_asked self.old) before answer.now hand.old
            → Goes (write_file_left text.now self.old before) (answer_in (write_file_asked self.old) answer.now hand.old)
            (left_after (write_file_left text.now) (handed text.now notes) (heard_if result heard.new) self.new hand.new) }
        ensures ready { IfNone (heard_if result heard.new) (WriteFileReady self.new hand.new) }
        ensures told { IfNone (heard_if result heard.new) (WriteFileTold text.now self.new) }
        ensures leaves { (version : Version) (path : List ℕ) (notes : NotesState) (fd n offset : ℕ) (bytes : List ℕ)
            (start before : HandState) → WriteFileAmid n start self.old before → WriteFileReady self.old before
            → IsAfter (write_file_asked self.old) before answer.now hand.old
            → StaysOrLeaves version (WriteFileAmid n start self.new) path (Writes fd n offset bytes) (heard_if result heard.new)
            (having start notes) (having hand.new notes) }
        ensures hand { bare hand.new ≡ bare hand.old }
    {
        match self {
            WriteFilePart::Denied(_, why) => {
                *heard = Heard::Wrote(Wrote::Refused(*why));
                true
            }
            WriteFilePart::Writing(file, index, part) => {
                let bytes = piece(text, *index);
                match part.next(bytes, answer, hand) {
                    None => false,
                    Some(written) => {
                        *self = ended(file, bytes.len(), &written, hand);
                        false
                    }
                }
            }
            WriteFilePart::Ending(_, _, wrote) => {
                *heard = Heard::Wrote(*wrote);
                true
            }
        }
    }
}

// Why `len` bytes may not be written from an offset on.
fn refused(inode: &Dinode, offset: u32, len: usize) -> Option<Cause>
    requires { len ≤ piece_len }
    ensures is { (bytes : List ℕ) → length bytes ≡ len → result ≡ refused_in inode.now offset bytes }
    ensures within { result ≡ None → offset + len ≤ most_bytes }
{
    if inode.size < offset {
        Some(Cause::BadOffset)
    } else if BLOCK_LEN * MOST_BLOCKS < offset as usize + len {
        Some(Cause::TooBig)
    } else {
        None
    }
}

// Of `len` bytes these were written. The inode has its new record from this step on.
#[tactic(auto, using(crate::proofs::Changing::bare_record))]
fn ended(file: &LockedFile, len: usize, written: &Written, hand: &mut Hand) -> WriteFilePart
    requires few { len ≤ piece_len }
    requires within { IsWithin written.now }
    requires there { IsSome (inode_at file.now.seat hand.old) }
    ensures is { (bytes : List ℕ) → length bytes ≡ len → result ≡ ended_as file.now bytes written.now }
    ensures record { hand.new ≡ with_record file.now.seat written.now.inode hand.old }
    ensures hand { bare hand.new ≡ bare hand.old }
{
    hand.set_record(file.seat, written.inode);
    let from = file.offset as usize;
    let wrote = if written.upto == from + len {
        Wrote::Whole
    } else {
        Wrote::Short(written.upto.saturating_sub(from))
    };
    WriteFilePart::Ending(*file, written.upto as u32, wrote)
}
