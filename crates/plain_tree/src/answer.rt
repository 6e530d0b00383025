//! The answers of calls.
ghost use Rattle.std.specs.Prelude.{◌≡◌};
ghost use Rattle.plain_tree.specs.Numbers.{cause_name, cause_number, full_name, full_number, type_number};

use crate::call::Call;

/// Why a call is refused. A refused call changes nothing, except for the pieces of a write before the refused one.
#[derive(Clone, Copy, PartialEq, Eq, Debug)]
pub enum Cause {
    NoEntry = 1,
    Exists,
    IsDirectory,
    NotEmpty,
    DotName,
    BadDescriptor,
    BadMode,
    TooBig,
    NoDriver,
    TooManyLinks,
    BadOffset,
    NotDirectory,
}

/// Which table, disk or directory has no room.
#[derive(Clone, Copy, PartialEq, Eq, Debug)]
pub enum Full {
    MemInodes = 21,
    OpenFiles,
    Descriptors,
    Blocks,
    DiskInodes,
    Directory,
}

/// The type of a node, as `fstat` answers it.
#[derive(Clone, Copy, PartialEq, Eq, Debug)]
pub enum NodeType {
    Directory = 1,
    File,
    Device,
}

/// What `fstat` answers. The device is always 1. The size is in bytes: a directory's is 16 for each slot in version
/// 1, 32 in version 2.
#[derive(Clone, Copy, PartialEq, Eq, Debug)]
pub struct Stat {
    pub device: u32,
    pub inode: u16,
    pub kind: NodeType,
    pub nlink: u16,
    pub size: u64,
}

/// What a call answers.
#[derive(Clone, Copy, PartialEq, Eq, Debug)]
pub enum Answer {
    Fd(u32),
    /// The number of bytes read or written.
    Count(u32),
    Stat(Stat),
    Done,
    Failed(Cause),
    Full(Full),
}

/// An answer, with the call handed back. After a read the first bytes of its buffer are those read.
#[derive(Drop)]
pub struct Reply {
    pub answer: Answer,
    pub call: Call,
}

impl Cause {
    /// The number under which the cause is printed, 1 to 12.
    pub fn number(&self) -> u8
        ensures { result ≡ cause_number self.now }
    {
        *self as u8
    }

    /// The name under which it is printed.
    pub fn name(&self) -> &'static str
        ensures { result.now ≡ cause_name self.now }
    {
        match self {
            Cause::NoEntry => "NoEntry",
            Cause::Exists => "Exists",
            Cause::IsDirectory => "IsDirectory",
            Cause::NotEmpty => "NotEmpty",
            Cause::DotName => "DotName",
            Cause::BadDescriptor => "BadDescriptor",
            Cause::BadMode => "BadMode",
            Cause::TooBig => "TooBig",
            Cause::NoDriver => "NoDriver",
            Cause::TooManyLinks => "TooManyLinks",
            Cause::BadOffset => "BadOffset",
            Cause::NotDirectory => "NotDirectory",
        }
    }
}

impl Full {
    /// The number under which it is printed, 21 to 26.
    pub fn number(&self) -> u8
        ensures { result ≡ full_number self.now }
    {
        *self as u8
    }

    /// The name under which it is printed.
    pub fn name(&self) -> &'static str
        ensures { result.now ≡ full_name self.now }
    {
        match self {
            Full::MemInodes => "MemInodes",
            Full::OpenFiles => "OpenFiles",
            Full::Descriptors => "Descriptors",
            Full::Blocks => "Blocks",
            Full::DiskInodes => "DiskInodes",
            Full::Directory => "Directory",
        }
    }
}

impl NodeType {
    /// The number of the type on the disk, 1 to 3.
    pub fn number(&self) -> u8
        ensures { result ≡ type_number self.now }
    {
        *self as u8
    }
}
