//! Which calls over whole inodes run below.
ghost use Rattle.std.specs.Prelude.{ℕ, []};
ghost use Rattle.plain_tree.specs.declared.call.Call.TheVariants as calls;
ghost use Rattle.inode_parts.specs.Calls.{RunsByParts};
ghost use Rattle.inode_parts.specs.Vocabulary.{Version};

/// A descriptor is doubled by one operation, and the reply given by another.
pub fn dup_runs_by_parts()
    ensures { (version : Version) (fd : ℕ) → RunsByParts version [] (calls.Dup fd) }
{}
