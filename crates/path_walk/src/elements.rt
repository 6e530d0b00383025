//! The elements of a path, which stay where they are in it.
ghost use Rattle.std.specs.Prelude.{◌≡◌, ◌≢◌, ◌+◌, ◌<◌, ◌≤◌, ◌^◌, ℕ, [], ◌∷◌, length, take, drop, slice_index, All, IfSome, MatchOption};
ghost use Rattle.image_versions.specs.declared.version.Version.{Version};
ghost use Rattle.plain_tree.specs.Code.{with_element};
ghost use Rattle.plain_tree.specs.Tree.{elements};
ghost use Rattle.path_walk.specs.Vocabulary.{is_absolute};
ghost use Rattle.path_walk.specs.Elements.{name_in, shifted, IsElement};

use image_versions::Version;

const SLASH: u8 = b'/';

/// An element of a path: the place of its name, cut to the longest name of the version, and the place at which the
/// path goes on.
#[derive(Clone, Copy)]
pub struct Element {
    pub start: usize,
    pub end: usize,
    pub rest: usize,
}

impl Element {
    /// The same element with this number of bytes before its path.
    pub fn shifted(self, by: usize) -> Element
        ensures { by + self.start < 2 ^ 64 → by + self.end < 2 ^ 64 → by + self.rest < 2 ^ 64 → result ≡ shifted by self }
    {
        Element {
            start: by.saturating_add(self.start),
            end: by.saturating_add(self.end),
            rest: by.saturating_add(self.rest),
        }
    }
}

/// Whether a path starts at the root.
pub fn is_absolute(path: &[u8]) -> bool
    ensures { result ≡ is_absolute path.now }
{
    match path.first() {
        Some(byte) => *byte == SLASH,
        None => false,
    }
}

// How many bytes a path has before its first '/'.
fn name_len(path: &[u8]) -> usize
    ensures bound { result ≤ length path.now }
    ensures name { (k : ℕ) → k < result → slice_index path.now k ≢ SLASH }
    ensures cut { (v : Version) → elements v path.now ≡ with_element v (take result path.now) (elements v (drop (result + 1) path.now)) }
{
    for (i, byte) in path.iter().enumerate() {
        if *byte == SLASH {
            return i;
        }
    }
    path.len()
}

/// The first element from a place of a path on, cut to the longest name of the version (xv6: `skipelem`).
#[inline(always)]
pub fn next_element(version: Version, path: &[u8], from: usize) -> Option<Element>
    requires from { from ≤ length path.now }
    requires nonzero { All (λ b. b ≢ 0) path.now }
    ensures element { MatchOption result (elements version (drop from path.now) ≡ [])
        (λ e. elements version (drop from path.now) ≡ name_in path.now e ∷ elements version (drop e.rest path.now)) }
    ensures within { IfSome result (IsElement version path.now) }
{
    let mut at = from;
    while at < path.len() {
        let len = name_len(&path[at..]);
        if len > 0 {
            return Some(Element {
                start: at,
                end: at + len.min(version.name_len()),
                rest: (at + len + 1).min(path.len()),
            });
        }
        at += 1;
    }
    None
}
