//! The cache's numbers.

/// How many buffers there are.
pub const BUFFERS: usize = 46;

/// How many of them may be pinned at a time.
pub const MOST_PINNED: usize = 30;

/// How many harts there are.
pub const HARTS: u8 = 8;

/// How many buffers a hart may have in its hand.
pub const BUFFERS_OF_A_HART: usize = 2;
