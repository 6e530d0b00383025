//! What holds of the blocks that the programs record. The function does nothing: it carries the law.
ghost use Rattle.inode_table.specs.Laws.{StoresOneInode};

/// An inode block into which an inode was stored has that inode, and the others as they were.
pub fn stores_one_inode()
    ensures { StoresOneInode }
{}
