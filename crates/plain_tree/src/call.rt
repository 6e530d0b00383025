//! The calls.
use crate::bytes::Bytes;

/// A call of a hart. `inherit` is what fork does to files.
#[derive(Clone, PartialEq, Drop)]
pub enum Call {
    Open { path: Bytes, flags: u32 },
    /// Reads at most as many bytes as the buffer has. The reply has the buffer with the bytes read at its front.
    Read { fd: u32, buf: Bytes },
    Write { fd: u32, bytes: Bytes },
    Link { old: Bytes, new: Bytes },
    Unlink { path: Bytes },
    Mkdir { path: Bytes },
    Chdir { path: Bytes },
    Dup { fd: u32 },
    Fstat { fd: u32 },
    Close { fd: u32 },
    Inherit { child: u8 },
}
