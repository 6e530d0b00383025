//! What the programs below of operations record: no more than their call's transactions may.

ghost use Rattle.inodes_on_blocks.specs.Vocabulary.{Super};
ghost use Rattle.inodes_on_blocks.specs.Spending.{ProgramsSpend, ProgramsStayWithin, RecordingsStayWithin};

/// By their text the programs record what their operations spend.
pub fn programs_spend()
    ensures { (sizes : Super) → ProgramsSpend sizes }
{}

/// A program that records what its operation spends leaves no more spent, if it does its operation.
pub fn programs_stay_within()
    ensures { ProgramsStayWithin }
{}

/// So those that record: a count stored, a name cleared, a file emptied, an inode freed.
pub fn recordings_stay_within()
    ensures { (sizes : Super) → RecordingsStayWithin sizes }
{}
