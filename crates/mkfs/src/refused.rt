//! Why an image was not made.
ghost use Rattle.std.specs.Prelude.{◌≡◌};
ghost use Rattle.mkfs.specs.Refusals.{name_of, number_of};

/// Why an image was not made. If several reasons hold, the answer is the first in the order below; memory may be
/// refused at any time.
#[derive(Debug, Clone, Copy, PartialEq, Eq)]
pub enum MakeRefused {
    /// Memory was refused.
    NoMemory,
    /// The image has too many blocks or too many or few inodes, or the root doesn't fit.
    BadSizes,
    /// A file's name is none, is "." or "..", or comes twice.
    BadName,
    /// A file is too large, or there are more files than a directory may name.
    FileTooBig,
    /// There are more files than inodes.
    NoInodes,
    /// The files' blocks don't fit.
    NoBlocks,
}

impl MakeRefused {
    /// The refusal's number, as programs print it.
    pub fn number(self) -> u32
        ensures { result ≡ number_of self }
    {
        match self {
            MakeRefused::NoMemory => 33,
            MakeRefused::BadSizes => 81,
            MakeRefused::BadName => 82,
            MakeRefused::FileTooBig => 83,
            MakeRefused::NoBlocks => 84,
            MakeRefused::NoInodes => 85,
        }
    }

    /// The refusal's name, as programs print it.
    pub fn name(self) -> &'static str
        ensures { result.now ≡ name_of self }
    {
        match self {
            MakeRefused::NoMemory => "NoMemory",
            MakeRefused::BadSizes => "BadSizes",
            MakeRefused::BadName => "BadName",
            MakeRefused::FileTooBig => "FileTooBig",
            MakeRefused::NoBlocks => "NoBlocks",
            MakeRefused::NoInodes => "NoInodes",
        }
    }
}
