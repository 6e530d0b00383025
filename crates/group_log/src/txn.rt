//! Transactions.
ghost use Rattle.std.specs.Prelude.{◌≡◌};

use std::marker::Model;

/// A hart's transaction. A contract sees the hart.
///
/// A transaction leaves a log, or is ended after a log has ended: code that lets one go doesn't compile. Nothing says
/// that the log is the one that it joined.
pub struct Txn {
    hart: u8,
}

impl Model for Txn {
    ghost use Rattle.std.specs.Prelude.{ℕ};

    ghost Value = { ℕ };

    ghost view = { λ t. t.hart };
}

/// The sign that a log has ended.
#[derive(Drop)]
pub struct RetiredLog {
    ended: (),
}

impl Txn {
    pub(crate) fn new(hart: u8) -> Txn
        ensures { result ≡ hart }
    {
        Txn { hart }
    }

    /// The hart.
    pub fn hart(&self) -> u8
        ensures { result ≡ self.now }
    {
        self.hart
    }

    pub(crate) fn end(self) -> u8
        ensures { result ≡ self }
    {
        let Txn { hart } = self;
        hart
    }

    /// Ends a transaction after a log has ended.
    pub fn retire(self, _log: &RetiredLog) {
        let Txn { hart: _ } = self;
    }
}

impl RetiredLog {
    pub(crate) fn new() -> RetiredLog {
        RetiredLog { ended: () }
    }
}
