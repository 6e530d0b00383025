//! Open files.
ghost use Rattle.std.specs.Prelude.{◌≡◌};
ghost use Rattle.fs_machine.specs.Files.{is_free};

/// An open file.
#[derive(Clone, Copy)]
pub struct OpenFile {
    /// The inode's number.
    pub number: u32,
    /// The inode's type, which never changes.
    pub kind: i16,
    pub readable: bool,
    pub writable: bool,
    /// In bytes from the file's beginning.
    pub offset: u32,
}

/// What the opener says of a file.
#[derive(Clone, Copy)]
pub struct NewFile {
    pub kind: i16,
    pub readable: bool,
    pub writable: bool,
}

/// A place for an open file.
#[derive(Clone, Copy)]
pub enum FilePlace {
    Free,
    /// A hart is about to open a file there.
    Taken,
    Open(OpenFile),
}

impl FilePlace {
    pub(crate) fn is_free(&self) -> bool
        ensures { result ≡ is_free self.now }
    {
        match self {
            FilePlace::Free => true,
            FilePlace::Taken => false,
            FilePlace::Open(_) => false,
        }
    }
}

/// What a descriptor is wanted for.
#[derive(Clone, Copy)]
pub enum Want {
    /// For its state, or its file's.
    Stat,
    Read,
    Write,
}

/// Why a descriptor is refused.
#[derive(Clone, Copy, PartialEq, Eq, Debug)]
pub enum Refused {
    /// It isn't open.
    BadDescriptor,
    /// It wasn't opened for that.
    BadMode,
    /// A device is neither read nor written.
    NoDriver,
}
