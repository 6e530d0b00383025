//! What holds of the programs, whatever their operations answer. The functions do nothing: they carry the laws.
ghost use Rattle.directory.specs.Laws.{FindsTheFirst, FindsNothingInTheDead, PutsOneEntry};

/// A search finds the first slot that is sought, leaves the index right, and records nothing. For that the operations
/// must show a directory's blocks as they are, and its index must be right.
pub fn finds_the_first()
    ensures { FindsTheFirst }
{}

/// In a directory without links, and in what is no directory, a lookup finds nothing, without an operation.
pub fn finds_nothing_in_the_dead()
    ensures { FindsNothingInTheDead }
{}

/// A block into which an entry was written has it, and its other slots are as they were.
pub fn puts_one_entry()
    ensures { PutsOneEntry }
{}
