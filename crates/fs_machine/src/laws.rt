//! What holds of the operations.
ghost use Rattle.fs_machine.specs.Whole.{KeepsWhole};
ghost use Rattle.fs_machine.specs.Own.{LeavesOwn};
ghost use Rattle.fs_machine.specs.Shown.{ShowsItsPuts};
ghost use Rattle.fs_machine.specs.Waiting.{WaitsWhereItMay};

/// Every operation that may be made keeps the log and its cache whole, also one at which the device fails.
pub fn keeps_whole()
    ensures { KeepsWhole }
{}

/// No operation of a hart changes what is another's of the log: its transaction, the buffers in its hand and what is kept of
/// them, and the sizes.
pub fn leaves_own()
    ensures { LeavesOwn }
{}

/// Outside the log blocks are seen as before each operation, but for one that is put with its bytes, also if the
/// device fails.
pub fn shows_its_puts()
    ensures { ShowsItsPuts }
{}

/// An operation that may be made waits only for what another hart has in its hand, or for the log.
pub fn waits_where_it_may()
    ensures { WaitsWhereItMay }
{}
