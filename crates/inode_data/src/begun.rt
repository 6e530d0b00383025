//! How a machine begins.

/// A program in code, before its first operation.
pub enum Begun<M, R> {
    /// It has operations to make, by this machine.
    Runs(M),
    /// It has none, and this is its result.
    Is(R),
}
