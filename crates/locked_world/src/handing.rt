//! What a call hands back when it ends.
ghost use Rattle.std.specs.Prelude.{◌≡◌, ◌↔◌, IfOk, IsTrue, drop, length};
ghost use Rattle.locked_world.specs.HandedBack.{HandsBack, KeepsAfter, read_count};

use plain_tree::{Answer, Bytes, Call, Reply};
use std::alloc::AllocError;

// The bytes of the second, in the memory of the first.
fn overwritten(bytes: Bytes, from: &Bytes) -> Bytes
    requires { length bytes ≡ length from.now }
    ensures { result ≡ from.now }
{
    let mut bytes = bytes.into_vec();
    bytes.as_mut_slice().copy_from_slice(from.as_slice());
    Bytes::new(bytes)
}

/// The call that the reply hands back, in the memory of the one that was given. It takes no memory.
pub fn filled(given: Call, reply: &Reply) -> Call
    requires { HandsBack given reply.now }
    ensures { result ≡ reply.now.call }
{
    match given {
        Call::Read { fd, buf } => match &reply.call {
            Call::Read { fd: _, buf: bytes } => Call::Read {
                fd,
                buf: overwritten(buf, bytes),
            },
            _ => unreachable!(),
        },
        Call::Open { path, flags } => Call::Open { path, flags },
        Call::Write { fd, bytes } => Call::Write { fd, bytes },
        Call::Link { old, new } => Call::Link { old, new },
        Call::Unlink { path } => Call::Unlink { path },
        Call::Mkdir { path } => Call::Mkdir { path },
        Call::Chdir { path } => Call::Chdir { path },
        Call::Dup { fd } => Call::Dup { fd },
        Call::Fstat { fd } => Call::Fstat { fd },
        Call::Close { fd } => Call::Close { fd },
        Call::Inherit { child } => Call::Inherit { child },
    }
}

// How many bytes a read has put at the beginning of its buffer.
fn read_count(answer: &Answer) -> u32
    ensures { result ≡ read_count answer.now }
{
    match answer {
        Answer::Count(count) => *count,
        _ => 0,
    }
}

// The bytes after the first `count`; none past the end.
fn after(bytes: &[u8], count: u32) -> &[u8]
    ensures { result.now ≡ drop count bytes.now }
{
    let count = count as usize;
    if count < bytes.len() {
        &bytes[count..]
    } else {
        &[]
    }
}

// Whether the buffer has its length, and its bytes after the first `count`.
fn keeps_after(count: u32, given: &[u8], back: &[u8]) -> bool
    ensures { IsTrue result ↔ KeepsAfter count given.now back.now }
{
    back.len() == given.len() && after(back, count) == after(given, count)
}

/// Whether the reply's call is the one given, but for the bytes that a read has read. These are at the beginning of
/// its buffer, and their number is the answer.
pub fn is_handed_back(given: &Call, reply: &Reply) -> bool
    ensures { IsTrue result ↔ HandsBack given.now reply.now }
{
    match given {
        Call::Read { fd, buf } => match &reply.call {
            Call::Read {
                fd: other,
                buf: bytes,
            } => {
                fd == other
                    && keeps_after(read_count(&reply.answer), buf.as_slice(), bytes.as_slice())
            }
            _ => false,
        },
        _ => *given == reply.call,
    }
}

pub(crate) fn copied(call: &Call) -> Result<Call, AllocError>
    ensures { IfOk result (λ c. c ≡ call.now) }
{
    call.clone()
}

fn is_same_call(one: &Call, other: &Call) -> bool
    ensures { IsTrue result ↔ (one.now ≡ other.now) }
{
    one == other
}

fn is_same_answer(one: &Answer, other: &Answer) -> bool
    ensures { IsTrue result ↔ (one.now ≡ other.now) }
{
    one == other
}

/// Whether the replies are the same.
pub fn is_same(one: &Reply, other: &Reply) -> bool
    ensures { IsTrue result ↔ (one.now ≡ other.now) }
{
    is_same_answer(&one.answer, &other.answer) && is_same_call(&one.call, &other.call)
}
