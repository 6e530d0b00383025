//! The step that comes next of a call.
ghost use Rattle.std.specs.Prelude.{◌≡◌, ◌<◌, IfOk, IfSome, None, Some, take, ℕ, List};
ghost use Rattle.tree_histories.specs.Vocabulary.{piece, piece_count, has, is_nothing};
ghost use Rattle.tree_histories.specs.Stands.{link_from, next_from, only_step, open_from, truncate_from, write_from};

use crate::stand::Stand;
use plain_tree::{Action, Bytes, Call, NoMemory};
use std::alloc::{AllocError, Global};

pub(crate) type Attempt<T> = Result<T, NoMemory>;

/// The flag of an open that empties the file.
const EMPTY_IT: u32 = 0x400;
/// Bytes of a write's piece.
const PIECE_LEN: usize = 3072;

fn empties(flags: u32) -> bool
    ensures { result ≡ has flags 1024 }
{
    flags & EMPTY_IT != 0
}

/// The number of pieces of a write of these bytes.
fn piece_count(bytes: &[u8]) -> usize
    ensures { result ≡ piece_count bytes.now }
{
    if bytes.is_empty() {
        1
    } else {
        (bytes.len() - 1) / PIECE_LEN + 1
    }
}

/// At most the first `count` bytes.
fn first(bytes: &[u8], count: usize) -> &[u8]
    ensures { result.now ≡ take count bytes.now }
{
    if bytes.len() > count {
        &bytes[..count]
    } else {
        bytes
    }
}

fn piece(bytes: &[u8], i: usize) -> &[u8]
    requires { i < piece_count bytes.now }
    ensures { result.now ≡ piece bytes.now i }
{
    first(&bytes[PIECE_LEN * i..], PIECE_LEN)
}

fn truncate_next(flags: u32, file: Option<u32>) -> Option<Action>
    ensures { result ≡ truncate_from flags file }
{
    match file {
        Some(fd) if empties(flags) => Some(Action::Truncate { fd }),
        _ => None,
    }
}

fn open_next(path: &Bytes, flags: u32, stand: Stand) -> Result<Option<Action>, AllocError>
    ensures next { IfOk result (λ o. o ≡ open_from path.now flags stand) }
    ensures room { IfOk result (λ o. IfSome o (λ _. stand.count < usize.MAX)) }
{
    match stand.count {
        0 => Ok(Some(Action::Open {
            path: path.clone()?,
            flags,
        })),
        1 => Ok(truncate_next(flags, stand.file)),
        _ => Ok(None),
    }
}

fn write_next(
    alloc: Global,
    fd: u32,
    bytes: &[u8],
    stand: Stand,
) -> Result<Option<Action>, AllocError>
    ensures next { IfOk result (λ o. o ≡ write_from fd bytes.now stand) }
    ensures room { IfOk result (λ o. IfSome o (λ _. stand.count < usize.MAX)) }
{
    if stand.failed || stand.count >= piece_count(bytes) {
        return Ok(None);
    }
    let bytes = Bytes::new(Vec::from_slice(alloc, piece(bytes, stand.count))?);
    Ok(Some(Action::WritePart { fd, bytes }))
}

fn link_next(old: &Bytes, new: &Bytes, stand: Stand) -> Result<Option<Action>, AllocError>
    ensures next { IfOk result (λ o. o ≡ link_from old.now new.now stand) }
    ensures room { IfOk result (λ o. IfSome o (λ _. stand.count < usize.MAX)) }
{
    match stand.count {
        0 => Ok(Some(Action::Find { old: old.clone()? })),
        1 if stand.done => Ok(Some(Action::Bump)),
        2 if stand.done => Ok(Some(Action::Enter { new: new.clone()? })),
        3 if stand.failed => Ok(Some(Action::Unbump)),
        _ => Ok(None),
    }
}

/// The one step of a call that is one step.
fn only_action(call: &Call) -> Result<Option<Action>, AllocError>
    ensures { IfOk result (λ o. o ≡ only_step call.now) }
{
    Ok(match call {
        Call::Read { fd, buf } => Some(Action::Read {
            fd: *fd,
            count: buf.as_slice().len(),
        }),
        Call::Unlink { path } => Some(Action::Unlink {
            path: path.clone()?,
        }),
        Call::Mkdir { path } => Some(Action::Mkdir {
            path: path.clone()?,
        }),
        Call::Chdir { path } => Some(Action::Chdir {
            path: path.clone()?,
        }),
        Call::Dup { fd } => Some(Action::Dup { fd: *fd }),
        Call::Fstat { fd } => Some(Action::Fstat { fd: *fd }),
        Call::Close { fd } => Some(Action::Close { fd: *fd }),
        Call::Inherit { child } => Some(Action::Inherit { child: *child }),
        _ => None,
    })
}

/// The step that comes next of the call after it has come so far.
pub(crate) fn next_action(
    alloc: Global,
    call: &Call,
    stand: Stand,
) -> Result<Option<Action>, AllocError>
    ensures next { IfOk result (λ o. o ≡ next_from call.now stand) }
    ensures room { IfOk result (λ o. IfSome o (λ _. stand.count < usize.MAX)) }
{
    match call {
        Call::Open { path, flags } => open_next(path, *flags, stand),
        Call::Write { fd, bytes } => write_next(alloc, *fd, bytes.as_slice(), stand),
        Call::Link { old, new } => link_next(old, new, stand),
        _ if stand.count == 0 => only_action(call),
        _ => Ok(None),
    }
}

fn is_open_through(flags: u32, stand: Stand) -> bool
    ensures { (path : List ℕ) → result ≡ is_nothing (open_from path flags stand) }
{
    match stand.count {
        0 => false,
        1 => !(stand.file.is_some() && empties(flags)),
        _ => true,
    }
}

fn is_write_through(bytes: &[u8], stand: Stand) -> bool
    ensures { (fd : ℕ) → result ≡ is_nothing (write_from fd bytes.now stand) }
{
    stand.failed || stand.count >= piece_count(bytes)
}

fn is_link_through(stand: Stand) -> bool
    ensures { (old new : List ℕ) → result ≡ is_nothing (link_from old new stand) }
{
    match stand.count {
        0 => false,
        1 | 2 => !stand.done,
        3 => !stand.failed,
        _ => true,
    }
}

/// Nothing comes next of the call after it has come so far.
pub(crate) fn is_through(call: &Call, stand: Stand) -> bool
    ensures { result ≡ is_nothing (next_from call.now stand) }
{
    match call {
        Call::Open { flags, .. } => is_open_through(*flags, stand),
        Call::Write { bytes, .. } => is_write_through(bytes.as_slice(), stand),
        Call::Link { .. } => is_link_through(stand),
        _ => stand.count > 0,
    }
}
