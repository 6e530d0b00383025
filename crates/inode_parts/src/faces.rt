//! What an inode's record says.
ghost use Rattle.std.specs.Prelude.{◌≡◌, ◌<◌, ◌^◌, IfSome};
ghost use Rattle.inode_parts.specs.Vocabulary.{natural};
ghost use Rattle.inode_parts.specs.Faces.{face_by, face_unless_free, type_by_number};

use crate::opening::{DIRECTORY, FILE};
use fs_layout::Dinode;
use path_walk::{Face, InodeType};

const FREE: i16 = 0;

fn inode_type(inode: &Dinode) -> InodeType
    ensures { result ≡ type_by_number inode.now.kind inode.now.major }
{
    match inode.kind {
        DIRECTORY => InodeType::Directory,
        FILE => InodeType::File,
        _ => InodeType::Device(inode.major),
    }
}

// How many names an inode has, if that isn't below 0.
fn count(nlink: i16) -> u16
    ensures is { result ≡ natural nlink }
    ensures few { result < 2 ^ 15 }
{
    if nlink < 0 { 0 } else { nlink as u16 }
}

/// Its type, count and size.
pub(crate) fn face(inode: &Dinode) -> Face
    ensures is { result ≡ face_by inode.now }
    ensures few { result.count < 2 ^ 15 }
{
    Face {
        inode_type: inode_type(inode),
        count: count(inode.nlink),
        size: u64::from(inode.size),
    }
}

/// Its type, count and size; a free one says nothing.
pub(crate) fn face_unless_free(inode: &Dinode) -> Option<Face>
    ensures is { result ≡ face_unless_free inode.now }
    ensures few { IfSome result (λ f. f.count < 2 ^ 15) }
{
    if inode.kind == FREE {
        None
    } else {
        Some(face(inode))
    }
}
