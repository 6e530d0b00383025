//! The answer of a get.
use crate::buffer::Buffer;
use sleep_lock::Guard;

/// What a get answers.
pub enum Got {
    /// The block's buffer. It may not be valid yet.
    Held(Guard<Buffer>),
    /// The block's buffer is out.
    Waits,
}
