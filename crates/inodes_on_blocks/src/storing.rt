//! Operations on whole inodes that put records, as programs below. Each acts at one moment, whatever the other harts
//! do, if the hart's transaction has room for what they record.

ghost use Rattle.std.specs.Prelude.{ℕ};
ghost use Rattle.inodes_on_blocks.specs.Vocabulary.{Super, Name, Clear, Store, Empty, Free};
ghost use Rattle.inodes_on_blocks.specs.Emptying.{empty, free};
ghost use Rattle.inodes_on_blocks.specs.Naming.{clear};
ghost use Rattle.inodes_on_blocks.specs.Storing.{store};
ghost use Rattle.inodes_on_blocks.specs.Room.{DoesItSpending};

/// A count that is stored acts when the inode's block is put back, with the record in it and the neighbours as they
/// were.
pub fn stores_act_once()
    ensures { (sizes : Super) (n count : ℕ) → DoesItSpending sizes (Store n count) (store sizes n count) }
{}

/// A file's content given back acts when its record is put without it, after all its blocks were.
pub fn empties_act_once()
    ensures { (sizes : Super) (n : ℕ) → DoesItSpending sizes (Empty n) (empty sizes n) }
{}

/// An inode freed acts when its record is put without a type, after it was put without content. Only one without
/// links may be freed, by the hart that has the one reference to it.
pub fn frees_act_once()
    ensures { (sizes : Super) (n : ℕ) → DoesItSpending sizes (Free n) (free sizes n) }
{}

/// A name cleared acts when the directory's record is put, after the first slot of that name was put free. That slot
/// is the one that the hart has found; else it is looked for.
pub fn clears_act_once()
    ensures { (sizes : Super) (n : ℕ) (name : Name) → DoesItSpending sizes (Clear n name) (clear sizes n name) }
{}
