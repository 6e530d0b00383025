//! What an inode is.
ghost use Rattle.std.specs.Prelude.{◌≡◌, ◌<◌, ◌&&◌};
ghost use Rattle.image_tree.specs.Inodes.{is_directory, is_free, is_live};

use crate::limits::{KIND_DIRECTORY, KIND_FREE};
use fs_layout::Dinode;

pub fn is_free(inode: &Dinode) -> bool
    ensures { result ≡ is_free inode.now }
{
    inode.kind == KIND_FREE
}

pub fn is_directory(inode: &Dinode) -> bool
    ensures { result ≡ is_directory inode.now }
{
    inode.kind == KIND_DIRECTORY
}

/// Whether it has a name.
pub fn is_live(inode: &Dinode) -> bool
    ensures { result ≡ is_live inode.now }
{
    0 < inode.nlink
}

pub fn is_live_directory(inode: &Dinode) -> bool
    ensures { result ≡ (is_directory inode.now && is_live inode.now) }
{
    is_directory(inode) && is_live(inode)
}
