//! What holds of the programs. The function does nothing: it carries the law.
ghost use Rattle.inode_data.specs.Laws.{ReadsTheContent};

/// If each block is answered as it is seen, a read fills the call's memory with the content's bytes from the offset
/// on. It reads as many as are asked for, at most to the size. Nothing of the memory after them changes.
pub fn reads_the_content()
    ensures { ReadsTheContent }
{}
