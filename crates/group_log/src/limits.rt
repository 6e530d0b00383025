//! The log's numbers.

/// How many blocks a group may have, if the log has room for them.
pub const MOST_LOGGED: usize = 30;

/// How many blocks a transaction may add to the group.
pub const BLOCKS_OF_A_TRANSACTION: u8 = 10;

/// One place for each hart.
pub(crate) const PLACES: usize = 8;
