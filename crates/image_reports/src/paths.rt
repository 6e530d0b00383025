//! Paths of an image.
ghost use Rattle.std.specs.Prelude.{◌≡◌, ◌++◌, ◌∷◌, IfOk};
ghost use Rattle.image_reports.specs.Vocabulary.{elements, follow, root, tree_of};
ghost use Rattle.image_reports.specs.Paths.{path_of};

use image_versions::Version;
use plain_tree::paths::next_element;
use plain_tree::{Bytes, Tree};
use std::alloc::{AllocError, Global};

/// The inode of the root.
const ROOT: u16 = 1;

/// The number that the path leads to from the root.
#[tactic(auto, unfolding(plain_tree::specs::Tree::follow))]
pub fn resolve(tree: &Tree, version: Version, path: &[u8]) -> Option<u16>
    ensures { result ≡ follow (tree_of tree.now).nodes root (elements version path.now) }
{
    let mut at = ROOT;
    let mut rest = path;
    while let Some((name, after)) = next_element(version, rest) {
        at = tree.look(at, name)?;
        rest = after;
    }
    Some(at)
}

/// A path, and an element of it after a '/'.
pub fn joined(alloc: Global, path: &[u8], name: &[u8]) -> Result<Bytes, AllocError>
    ensures { IfOk result (λ bytes. bytes ≡ path.now ++ 47 ∷ name.now) }
{
    let mut bytes = Vec::from_slice(alloc, path)?;
    bytes.extend_from_slice(b"/")?;
    bytes.extend_from_slice(name)?;
    Ok(Bytes::new(bytes))
}

/// The elements of a path, each after a '/'.
pub fn path_of(alloc: Global, version: Version, path: &[u8]) -> Result<Bytes, AllocError>
    ensures { IfOk result (λ bytes. bytes ≡ path_of (elements version path.now)) }
{
    let mut bytes = Vec::new(alloc);
    let mut rest = path;
    while let Some((name, after)) = next_element(version, rest) {
        bytes.extend_from_slice(b"/")?;
        bytes.extend_from_slice(name)?;
        rest = after;
    }
    Ok(Bytes::new(bytes))
}
