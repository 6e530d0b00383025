//! What is tested before a call is started.
ghost use Rattle.std.specs.Prelude.{◌≡◌, true, None};
ghost use Rattle.hart_core.specs.Vocabulary.{child_of, are_bytes};
ghost use Rattle.hart_core.specs.Starts.{fault_of, path_fault, part_fault, IsOfBytes};

use plain_tree::Call;

/// The longest path, in bytes.
const LONGEST_PATH: usize = 127;

/// The most bytes that one call reads or writes.
const LONGEST_PART: usize = 524_288;

/// Why a call isn't started. Nothing has changed.
#[derive(Clone, Copy, PartialEq, Eq, Debug)]
pub enum StartRefused {
    /// The hart, or the child of its inherit, has a call or takes part in another's inherit; or the child is the hart itself.
    Busy = 41,
    /// A path has more than 127 bytes.
    PathTooLong = 42,
    /// A path has a zero byte.
    ZeroInPath = 43,
    /// More than 524,288 bytes are asked for.
    TooLong = 44,
    /// The number of the hart, or of the child of its inherit, is past 7: there are eight harts.
    NoSuchHart = 45,
    /// The child of an inherit has descriptors.
    NotEmptyHart = 46,
}

/// The first fault of a call itself: of each path in turn its length, then its zero bytes; or the count of bytes to
/// read or write. It takes no memory.
#[inline(always)]
pub fn find_fault(call: &Call) -> Option<StartRefused>
    ensures fault { result ≡ fault_of call.now }
    ensures bytes { result ≡ None → IsOfBytes call.now }
{
    match call {
        Call::Open { path, flags: _ } => find_path_fault(path.as_slice()),
        Call::Read { fd: _, buf } => find_part_fault(buf.as_slice()),
        Call::Write { fd: _, bytes } => find_part_fault(bytes.as_slice()),
        Call::Link { old, new } => match find_path_fault(old.as_slice()) {
            Some(why) => Some(why),
            None => find_path_fault(new.as_slice()),
        },
        Call::Unlink { path } => find_path_fault(path.as_slice()),
        Call::Mkdir { path } => find_path_fault(path.as_slice()),
        Call::Chdir { path } => find_path_fault(path.as_slice()),
        Call::Dup { fd: _ } => None,
        Call::Fstat { fd: _ } => None,
        Call::Close { fd: _ } => None,
        Call::Inherit { child: _ } => None,
    }
}

/// Whom a call reserves.
pub(crate) fn find_child(call: &Call) -> Option<u8>
    ensures { result ≡ child_of call.now }
{
    match call {
        Call::Inherit { child } => Some(*child),
        _ => None,
    }
}

fn find_path_fault(path: &[u8]) -> Option<StartRefused>
    ensures fault { result ≡ path_fault path.now }
    ensures bytes { are_bytes path.now ≡ true }
{
    if path.len() > LONGEST_PATH {
        return Some(StartRefused::PathTooLong);
    }
    if path.contains(&0) {
        return Some(StartRefused::ZeroInPath);
    }
    None
}

fn find_part_fault(part: &[u8]) -> Option<StartRefused>
    ensures fault { result ≡ part_fault part.now }
    ensures bytes { are_bytes part.now ≡ true }
{
    if part.len() > LONGEST_PART {
        Some(StartRefused::TooLong)
    } else {
        None
    }
}
