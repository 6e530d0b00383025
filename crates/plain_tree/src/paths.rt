//! The elements of a path.
ghost use Rattle.std.specs.Prelude.{◌≡◌, ◌+◌, ◌<◌, ◌≤◌, [], ◌∷◌, length, take, drop, MatchOption};
ghost use Rattle.plain_tree.specs.Code.{IsEnd, with_element};
ghost use Rattle.plain_tree.specs.Tree.{elements, is_absolute, same_name};
ghost use Rattle.image_versions.specs.declared.version.Version.{Version};

use crate::widths::SLASH;
use image_versions::Version;

/// The same bytes.
pub fn same(a: &[u8], b: &[u8]) -> bool
    ensures { result ≡ same_name a.now b.now }
{
    a == b
}

pub(crate) fn begins_at_root(path: &[u8]) -> bool
    ensures { result ≡ is_absolute path.now }
{
    match path.first() {
        Some(byte) => *byte == SLASH,
        None => false,
    }
}

/// The index of the path's first '/', or its length.
fn name_end(path: &[u8]) -> usize
    ensures bound { result ≤ length path.now }
    ensures cut { (v : Version) → elements v path.now ≡ with_element v (take result path.now) (elements v (drop (result + 1) path.now)) }
{
    for (i, byte) in path.iter().enumerate() {
        if *byte == SLASH {
            return i;
        }
    }
    path.len()
}

/// At most the first `count` bytes.
pub fn first(bytes: &[u8], count: usize) -> &[u8]
    ensures { result.now ≡ take count bytes.now }
{
    if bytes.len() > count {
        &bytes[..count]
    } else {
        bytes
    }
}

/// The first element of a path, cut to the longest name of the version, and the path after it, which is its end.
pub fn next_element(version: Version, path: &[u8]) -> Option<(&[u8], &[u8])>
    ensures { MatchOption result (elements version path.now ≡ [])
        (λ r. (elements version path.now ≡ r.0.now ∷ elements version r.1.now) × (length r.1.now < length path.now)
        × IsEnd path.now r.1.now) }
{
    let mut rest = path;
    while !rest.is_empty() {
        let end = name_end(rest);
        let after = if end < rest.len() {
            &rest[end + 1..]
        } else {
            &rest[end..]
        };
        if end > 0 {
            return Some((first(&rest[..end], version.name_len()), after));
        }
        rest = after;
    }
    None
}
