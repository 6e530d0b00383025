//! Operations on whole inodes that take new ones and enter names, as programs below. Each acts at one moment,
//! whatever the other harts do, if the hart's transaction has room for what they record. After it the transaction has
//! recorded no more than that.

ghost use Rattle.std.specs.Prelude.{ℕ};
ghost use Rattle.inodes_on_blocks.specs.Vocabulary.{Super, Name, InodeType, Claim, Enter, Fill};
ghost use Rattle.inodes_on_blocks.specs.Entering.{enter, fill};
ghost use Rattle.inodes_on_blocks.specs.Making.{claim, HasInodes, IsMade};
ghost use Rattle.inodes_on_blocks.specs.Spending.{DoesItWithin};

/// A new inode is taken when a block of the table is looked through. There the first free one without a reference is
/// the hart's. Then its record is put with its type, of which nothing is seen above. Or there is no place for it in
/// memory; or, in the last block, there is none.
pub fn claims_act_once()
    ensures { (sizes : Super) (inode_type : InodeType) → IsMade inode_type → HasInodes sizes
        → DoesItWithin sizes (Claim inode_type) (claim sizes inode_type) }
{}

/// A new directory's two names act when its record is put, after they were written into a block that was taken. If no
/// block is free, they act as the record is put as it was.
pub fn first_names_act_once()
    ensures { (sizes : Super) (n d : ℕ) → DoesItWithin sizes (Fill n d) (fill sizes n d) }
{}

/// A name entered acts when the directory's record is put, after its entry was written into the first free slot, or a
/// new last one. If no block is free for it, it acts as the record is put. If the directory has no slot left, it acts
/// as the last block is given back. A name may be entered only into a directory with links.
pub fn names_act_once()
    ensures { (sizes : Super) (d : ℕ) (e : Name) (n : ℕ) → DoesItWithin sizes (Enter d e n) (enter sizes d e n) }
{}
