//! The words of calls.
ghost use Rattle.std.specs.Prelude.{◌≡◌};
ghost use Rattle.console.specs.Verbs.{verb_of, word_of};

use plain_tree::Call;

/// Which call it is.
#[derive(Clone, Copy, PartialEq, Eq, Debug)]
pub enum Verb {
    Open,
    Read,
    Write,
    Link,
    Unlink,
    Mkdir,
    Chdir,
    Dup,
    Fstat,
    Close,
    /// The hart whose parent it becomes.
    Inherit(u8),
}

impl Verb {
    /// That of a call.
    pub fn of(call: &Call) -> Verb
        ensures { result ≡ verb_of call.now }
    {
        match call {
            Call::Open { .. } => Verb::Open,
            Call::Read { .. } => Verb::Read,
            Call::Write { .. } => Verb::Write,
            Call::Link { .. } => Verb::Link,
            Call::Unlink { .. } => Verb::Unlink,
            Call::Mkdir { .. } => Verb::Mkdir,
            Call::Chdir { .. } => Verb::Chdir,
            Call::Dup { .. } => Verb::Dup,
            Call::Fstat { .. } => Verb::Fstat,
            Call::Close { .. } => Verb::Close,
            Call::Inherit { child } => Verb::Inherit(*child),
        }
    }

    /// The word by which answers name the call.
    pub fn word(&self) -> &'static str
        ensures { result.now ≡ word_of self.now }
    {
        match self {
            Verb::Open => "open",
            Verb::Read => "read",
            Verb::Write => "write",
            Verb::Link => "link",
            Verb::Unlink => "unlink",
            Verb::Mkdir => "mkdir",
            Verb::Chdir => "chdir",
            Verb::Dup => "dup",
            Verb::Fstat => "fstat",
            Verb::Close => "close",
            Verb::Inherit(_) => "inherit",
        }
    }
}
