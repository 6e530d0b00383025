//! A cache of forty-six buffers over a device (the xv6 book, chapter "File system", "Buffer cache layer").
//!
//! A hart gets a block's buffer, fills it if it isn't valid, and gives it back. While the buffer is out, no other
//! hart gets it. A buffer that is neither out nor pinned may be taken for another block, the least recently given
//! back first.
//!
//! The cache keeps the bytes of a buffer as they were last filled or recorded, beside the buffer itself, which its
//! holder may change. So what a block is *seen* as doesn't depend on bytes that a holder has written and not
//! recorded.
#![tactic(auto)]

mod buffer;
mod buffers;
mod cache;
mod chains;
mod got;
mod limits;
mod links;
mod order;
mod seat;

pub use buffer::Buffer;
pub use buffers::Buffers;
pub use cache::Cache;
pub use got::Got;
pub use limits::{BUFFERS, BUFFERS_OF_A_HART, HARTS, MOST_PINNED};
