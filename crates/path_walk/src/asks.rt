//! What a call asks of whole inodes, and what it hears.
ghost use Rattle.std.specs.Prelude.{◌≡◌, ◌<◌, ◌+◌, ◌^◌, ◌++◌, ℕ, List, length, false};
ghost use Rattle.image_versions.specs.declared.version.Version.{Version};
ghost use Rattle.path_walk.specs.Asks.{at_in, bool_in, checked_in, claimed_in, claimed_of, count_in, doubled_in, entered_in, entered_of, face_in_stat, joined_in, joined_of, loan_in, loan_of, locked_in, locked_of, number_in, op_in, shut_in, sight_in, sight_of, start_in, with_face, wrote_in, wrote_of, IsNamed, IsNamedInTwo, OnlySeeks};

use crate::elements::Element;
use plain_tree::Cause;

/// What is looked for in an inode whose lock is taken. A name is in the call's path.
#[derive(Clone, Copy)]
pub enum Query {
    Nothing,
    Name(Element),
    Entries,
}

/// The next operation of a call on whole inodes. None needs memory, and none has a lock in hand.
#[derive(Clone, Copy)]
pub enum Ask {
    /// An inode's lock is taken, and the inode looked at ..
    Take(u32, Query),
    /// .. and given up.
    UnlockInode(u32),
    /// A reference more: to the start of a path (true: to the root), or to what was found.
    UpStart(bool),
    Up(u32),
    /// A reference less, in a walk or at the end.
    WalkDown(u32),
    Down(u32),
    /// A dead inode is freed; then its reference goes.
    Free(u32),
    Forget(u32),
    /// An inode's count.
    Store(u32, u32),
    /// An inode of this type, that nobody refers to.
    Claim(InodeType),
    /// The two entries of a new directory.
    Fill(u32, u32),
    /// A directory's name with its number; a name's slot is cleared; a file has no bytes.
    Enter(u32, Element, u32),
    Clear(u32, Element),
    Empty(u32),
    /// A place for an open file; the lowest descriptor for a file that is opened with these flags.
    Slot,
    Install(u32, u32, InodeType),
    /// The lock of a descriptor's inode is taken, to read of it ..
    LockFile(u32),
    /// .. from this offset on, at most so many bytes; and given up.
    ReadFile(u32, u32, u64, usize),
    /// A descriptor to write to is looked up: for no bytes; to join a transaction.
    CheckFile(u32),
    JoinFile(u32),
    /// Its inode is locked; this piece of the call's bytes is written, from this offset on.
    LockOpen(u32, u32),
    WriteFile(u32, u32, u64, usize),
    /// A descriptor is closed.
    Shut(u32),
    /// The caller's first descriptor from here on goes to the child; the directory does; the child may start again.
    Lend(u8, u32),
    LendDirectory(u8),
    Release(u8),
    /// The lock of a descriptor's inode is taken, to tell its state.
    StatFile(u32),
    /// One more descriptor for a descriptor's open file.
    Double(u32),
    /// An inode's lock is given up, and it is the hart's current directory.
    SetDirectory(u32),
    /// A transaction is joined, and left; the reply is given.
    Join,
    Leave,
    Say,
}

impl Ask {
    /// The same with this number of bytes before the path in which a name is sought.
    pub fn shifted(self, by: usize) -> Ask
        ensures op { (v : Version) (front path : List ℕ) → length front ≡ by → length front + length path < 2 ^ 64 → OnlySeeks self
            → IsNamed v path self → op_in (front ++ path) result ≡ op_in path self }
        ensures named { (v : Version) (front path : List ℕ) → length front ≡ by → length front + length path < 2 ^ 64 → OnlySeeks self
            → IsNamed v path self → IsNamedInTwo v front path result }
    {
        match self {
            Ask::Take(number, Query::Name(element)) => {
                Ask::Take(number, Query::Name(element.shifted(by)))
            }
            _ => self,
        }
    }
}

/// The type of an inode; a device with its major.
#[derive(Clone, Copy)]
pub enum InodeType {
    Directory,
    File,
    Device(i16),
}

/// What an inode's record tells without its content.
#[derive(Clone, Copy)]
pub struct Face {
    pub inode_type: InodeType,
    pub count: u16,
    pub size: u64,
}

/// What is seen in an inode that is taken.
#[derive(Clone, Copy)]
pub struct Sight {
    pub face: Option<Face>,
    pub found: Option<u32>,
    pub empty: bool,
}

/// A new inode, or none is free, or no place in memory is.
#[derive(Clone, Copy)]
pub enum Claimed {
    New(u32),
    NoInode,
    NoPlace,
}

/// A name is entered, or no block is left, or the directory has all its slots.
#[derive(Clone, Copy)]
pub enum Entered {
    InPlace,
    NoBlock,
    NoSlot,
}

/// The inode that is locked, and the file's offset; or the descriptor isn't for that.
#[derive(Clone, Copy)]
pub enum Locked {
    Refused(Cause),
    Locks(u32, u64),
}

/// The inode for which a transaction is joined; or the descriptor isn't for that.
#[derive(Clone, Copy)]
pub enum Joined {
    Refused(Cause),
    For(u32),
}

/// A piece was written, refused, or so many bytes of it were.
#[derive(Clone, Copy)]
pub enum Wrote {
    Whole,
    Refused(Cause),
    Short(usize),
}

/// A descriptor was handed on, and whether more are to come; or the directory was, of this number before.
#[derive(Clone, Copy)]
pub enum Loan {
    Lent(u8, bool),
    Moved(u32),
}

/// The answer of an operation. The bytes that are read go into the call's buffer.
#[derive(Clone, Copy)]
pub enum Heard {
    Claimed(Claimed),
    Entered(Entered),
    Locked(Locked),
    /// So many bytes, at the front of the call's buffer.
    Read(usize),
    Checked(Option<Cause>),
    Joined(Joined),
    At(u32, u64),
    Wrote(Wrote),
    Shut(Option<Option<u32>>),
    Loan(Loan),
    /// It was done.
    WasDone,
    /// What an inode is that was taken.
    Saw(Sight),
    /// The number of a path's start, if there is a place for it.
    Start(Option<u32>),
    /// There was room for it; or a dropped reference was the last one.
    Is(bool),
    /// A descriptor's inode.
    Stat(Option<(u16, Face)>),
    /// A new descriptor (None: there is no such open file; Some(None): no descriptor is left).
    Doubled(Option<Option<u32>>),
    /// The directory that was current.
    Old(u32),
}

/// What an answer says, asked for as one kind. One of another kind says nothing: nothing was seen, there is no number, or zero, and a piece
/// was written whole.
impl Heard {
    pub fn sight(&self) -> Sight
        ensures { sight_of result ≡ sight_in self.now }
    {
        match self {
            Heard::Saw(sight) => *sight,
            _ => Sight {
                face: None,
                found: None,
                empty: true,
            },
        }
    }

    pub fn start(&self) -> Option<u32>
        ensures { result ≡ start_in self.now }
    {
        match self {
            Heard::Start(start) => *start,
            _ => None,
        }
    }

    pub fn claimed(&self) -> Claimed
        ensures { claimed_of result ≡ claimed_in self.now }
    {
        match self {
            Heard::Claimed(claimed) => *claimed,
            _ => Claimed::NoInode,
        }
    }

    pub fn entered(&self) -> Entered
        ensures { entered_of result ≡ entered_in self.now }
    {
        match self {
            Heard::Entered(entered) => *entered,
            _ => Entered::NoBlock,
        }
    }

    pub fn locked(&self) -> Locked
        ensures { locked_of result ≡ locked_in self.now }
    {
        match self {
            Heard::Locked(locked) => *locked,
            _ => Locked::Locks(0, 0),
        }
    }

    pub fn count(&self) -> usize
        ensures { result ≡ count_in self.now }
    {
        match self {
            Heard::Read(count) => *count,
            _ => 0,
        }
    }

    pub fn checked(&self) -> Option<Cause>
        ensures { result ≡ checked_in self.now }
    {
        match self {
            Heard::Checked(checked) => *checked,
            _ => None,
        }
    }

    pub fn joined(&self) -> Joined
        ensures { joined_of result ≡ joined_in self.now }
    {
        match self {
            Heard::Joined(joined) => *joined,
            _ => Joined::Refused(Cause::BadDescriptor),
        }
    }

    pub fn at(&self) -> (u32, u64)
        ensures { result ≡ at_in self.now }
    {
        match self {
            Heard::At(number, offset) => (*number, *offset),
            _ => (0, 0),
        }
    }

    pub fn wrote(&self) -> Wrote
        ensures { wrote_of result ≡ wrote_in self.now }
    {
        match self {
            Heard::Wrote(wrote) => *wrote,
            _ => Wrote::Whole,
        }
    }

    pub fn shut(&self) -> Option<Option<u32>>
        ensures { result ≡ shut_in self.now }
    {
        match self {
            Heard::Shut(shut) => *shut,
            _ => None,
        }
    }

    pub fn loan(&self) -> Loan
        ensures { loan_of result ≡ loan_in self.now }
    {
        match self {
            Heard::Loan(loan) => *loan,
            _ => Loan::Moved(0),
        }
    }

    pub fn is(&self) -> bool
        ensures { result ≡ bool_in self.now }
    {
        match self {
            Heard::Is(is) => *is,
            _ => false,
        }
    }

    pub fn stat(&self) -> Option<(u16, Face)>
        ensures { with_face result ≡ face_in_stat self.now }
    {
        match self {
            Heard::Stat(stat) => *stat,
            _ => None,
        }
    }

    pub fn doubled(&self) -> Option<Option<u32>>
        ensures { result ≡ doubled_in self.now }
    {
        match self {
            Heard::Doubled(doubled) => *doubled,
            _ => None,
        }
    }

    pub fn old(&self) -> u32
        ensures { result ≡ number_in self.now }
    {
        match self {
            Heard::Old(old) => *old,
            _ => 0,
        }
    }
}

/// What an operation is marked with: the tree's move that is made there, or a note of what has no move. Which tree step a move is for, the
/// call says.
#[derive(Clone, Copy)]
pub enum Mark {
    /// A path's walk is at its start.
    Begin,
    /// The next element is looked up; a node that is made there has this number.
    Look(u32),
    /// The walk, which is lost, is given up.
    GiveUpWalk,
    /// A step without a path.
    Own,
    Truncate(u32),
    Bump,
    Unbump,
    /// This piece of the call's bytes is written; or so much of it.
    Piece(usize),
    PartOfPiece(usize, usize),
    /// An inode's node is freed; a new inode stays without a name.
    Frees(u32),
    Orphans(u32),
    /// There is no room: what the tree has and the tables have not is taken back; or nothing was taken.
    Mends,
    Fills,
}
