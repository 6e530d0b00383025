//! write: each piece in a transaction of its own; the first that is refused, or finds no block, ends the call.
ghost use Rattle.std.specs.Prelude.{◌≡◌, ◌+◌, ◌<◌, ◌^◌, ℕ, [], List, Option, Some, length, false};
ghost use Rattle.image_versions.specs.declared.version.Version.{Version};
ghost use Rattle.whole_calls.specs.Vocabulary.{piece_count, asks, checked_in, hears, mark_at, marked_as, op_in, reply_to, stepped, wrote_of, checked_reply, write_program, wrote_on};
ghost use Rattle.plain_tree.specs.declared.call.Call.TheVariants as calls;
ghost use Rattle.plain_tree.specs.declared.step.Action.TheVariants as steps;
ghost use Rattle.whole_calls.specs.Writes.{IsPieceOf, WriteAsks, WriteFits, more_after, write_of};

use path_walk::{Ask, Heard, Joined, Mark, Wrote};
use plain_tree::{Answer, Full};

const PIECE_LEN: usize = 3072;

/// A piece: its inode, its place among the pieces, and how many more come after it.
#[derive(Clone, Copy)]
pub struct Piece {
    pub number: u32,
    pub index: usize,
    pub more: usize,
}

/// A write (xv6: `filewrite`).
#[derive(Clone, Copy)]
pub enum Write {
    /// Of no bytes the descriptor alone is looked up.
    Check,
    Join,
    Lock(Piece),
    Part(Piece, u32, u64),
    Leave(Piece, Wrote),
    JoinNext(Piece),
    Says(Answer),
}

// How many pieces bytes have.
fn pieces(bytes: &[u8]) -> usize
    requires { length bytes.now < 2 ^ 31 }
    ensures { result ≡ piece_count bytes.now }
{
    if bytes.is_empty() {
        1
    } else {
        (bytes.len() + 3071) / PIECE_LEN
    }
}

// A piece's transaction was left.
fn left(piece: Piece, wrote: Wrote, bytes: &[u8]) -> Write
    requires short { length bytes.now < 2 ^ 31 }
    requires piece { IsPieceOf bytes.now piece }
    ensures program { (fd : ℕ) → write_of fd bytes.now result ≡ wrote_on fd bytes.now (more_after fd bytes.now piece) (wrote_of wrote) }
    ensures fits { WriteFits bytes.now result }
{
    match wrote {
        Wrote::Refused(cause) => Write::Says(Answer::Failed(cause)),
        Wrote::Short(_) => Write::Says(Answer::Full(Full::Blocks)),
        Wrote::Whole => {
            if piece.more == 0 {
                Write::Says(Answer::Count(bytes.len() as u32))
            } else {
                Write::JoinNext(Piece {
                    number: piece.number,
                    index: piece.index + 1,
                    more: piece.more - 1,
                })
            }
        }
    }
}

// Of no bytes the descriptor was looked up.
fn checked(heard: &Heard) -> Answer
    ensures { (fd : ℕ) → reply_to (calls.Write fd []) result ≡ checked_reply fd (checked_in heard.now) }
{
    match heard.checked() {
        None => Answer::Count(0),
        Some(cause) => Answer::Failed(cause),
    }
}

impl Write {
    pub fn new(bytes: &[u8]) -> Write
        ensures program { (fd : ℕ) → write_of fd bytes.now result ≡ write_program fd bytes.now }
        ensures fits { WriteFits bytes.now result }
    {
        if bytes.is_empty() {
            Write::Check
        } else {
            Write::Join
        }
    }

    pub fn ask(&self, fd: u32, bytes: &[u8]) -> Ask
        ensures asks { asks (write_of fd bytes.now self.now) ≡ Some (op_in bytes.now result) }
        ensures named { (v : Version) → WriteFits bytes.now self.now → WriteAsks v bytes.now result }
    {
        match self {
            Write::Check => Ask::CheckFile(fd),
            Write::Join => Ask::JoinFile(fd),
            Write::Lock(piece) => Ask::LockOpen(fd, piece.number),
            Write::Part(piece, number, offset) => {
                Ask::WriteFile(fd, *number, *offset, piece.index)
            }
            Write::Leave(_, _) => Ask::Leave,
            Write::JoinNext(_) => Ask::Join,
            Write::Says(_) => Ask::Say,
        }
    }

    /// Goes on in its place with what it hears: true if it has ended, with its answer left in `says`.
    #[inline(always)]
    pub fn step(&mut self, heard: &Heard, bytes: &[u8], says: &mut Answer) -> bool
        requires short { length bytes.now < 2 ^ 31 }
        requires fits { WriteFits bytes.now self.old }
        ensures goes { (text : List ℕ) (fd : ℕ)
            → hears text (write_of fd bytes.now self.old) heard.now
            ≡ stepped (write_of fd bytes.now self.new) (calls.Write fd bytes.now) says.new result }
        ensures fits { result ≡ false → WriteFits bytes.now self.new }
    {
        match self {
            Write::Check => {
                *says = checked(heard);
                return true;
            }
            Write::Join => match heard.joined() {
                Joined::Refused(cause) => {
                    *says = Answer::Failed(cause);
                    return true;
                }
                Joined::For(number) => {
                    let more = pieces(bytes) - 1;
                    *self = Write::Lock(Piece {
                        number,
                        index: 0,
                        more,
                    });
                }
            },
            Write::Lock(piece) => {
                let (number, offset) = heard.at();
                *self = Write::Part(*piece, number, offset);
            }
            Write::Part(piece, _, _) => *self = Write::Leave(*piece, heard.wrote()),
            Write::Leave(piece, wrote) => *self = left(*piece, *wrote, bytes),
            Write::JoinNext(piece) => *self = Write::Lock(*piece),
            Write::Says(answer) => {
                *says = *answer;
                return true;
            }
        }
        false
    }

    pub fn mark(&self, heard: &Heard, bytes: &[u8]) -> Option<Mark>
        requires { WriteFits bytes.now self.now }
        ensures { (fd : ℕ) → mark_at (write_of fd bytes.now self.now) heard.now ≡ marked_as (steps.WritePart fd bytes.now) result }
    {
        match self {
            Write::Check => Some(Mark::Piece(0)),
            Write::Join => match heard.joined() {
                Joined::Refused(_) => Some(Mark::Piece(0)),
                Joined::For(_) => None,
            },
            Write::Part(piece, _, _) => match heard.wrote() {
                Wrote::Short(len) => Some(Mark::PartOfPiece(piece.index, len)),
                _ => Some(Mark::Piece(piece.index)),
            },
            _ => None,
        }
    }
}
