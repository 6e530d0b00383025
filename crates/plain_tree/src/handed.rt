//! The call that a reply hands back.
ghost use Rattle.std.specs.Prelude.{◌≡◌, ◌++◌, IsTrue, ◌↔◌, drop, length};
ghost use Rattle.plain_tree.specs.Calls.{in_buffer};

use crate::step::StepAnswer;

/// The same bytes.
pub fn same_bytes(a: &[u8], b: &[u8]) -> bool
    ensures { IsTrue result ↔ (a.now ≡ b.now) }
{
    a == b
}

/// The bytes from this place on; none past the end.
fn from(bytes: &[u8], place: usize) -> &[u8]
    ensures { result.now ≡ drop place bytes.now }
{
    if place < bytes.len() {
        &bytes[place..]
    } else {
        &[]
    }
}

/// What was handed back is the buffer with the bytes at its front.
fn is_filled(buffer: &[u8], bytes: &[u8], handed: &[u8]) -> bool
    ensures { IsTrue result ↔ (handed.now ≡ bytes.now ++ drop (length bytes.now) buffer.now) }
{
    let count = bytes.len();
    count <= handed.len()
        && same_bytes(&handed[..count], bytes)
        && same_bytes(&handed[count..], from(buffer, count))
}

/// What was handed back is the buffer after a read with this answer.
pub fn is_buffer(buffer: &[u8], given: &StepAnswer, handed: &[u8]) -> bool
    ensures { IsTrue result ↔ (handed.now ≡ in_buffer buffer.now given.now) }
{
    match given {
        StepAnswer::Bytes { bytes } => is_filled(buffer, bytes.as_slice(), handed),
        _ => same_bytes(handed, buffer),
    }
}
