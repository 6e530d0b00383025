//! What is in a call's text: names in its path or its two, and the pieces of its bytes.
ghost use Rattle.std.specs.Prelude.{◌≡◌, ◌++◌, ◌≤◌, ◌*◌, length};
ghost use Rattle.inode_parts.specs.Vocabulary.{name_in, piece, piece_len, Version};
ghost use Rattle.inode_parts.specs.Texts.{StandsIn};

use path_walk::Element;

const PIECE_LEN: usize = 3072;

/// The name of an element of a path, or of the second one after it.
pub(crate) fn name<'a>(path: &'a [u8], second: &'a [u8], element: &Element) -> &'a [u8]
    requires { (version : Version) × StandsIn version path.now second.now element.now }
    ensures { result.now ≡ name_in (path.now ++ second.now) element.now }
{
    let len = path.len();
    if element.end <= len {
        &path[element.start..element.end]
    } else {
        &second[element.start - len..element.end - len]
    }
}

/// The piece at this place among those in which a call's bytes are written.
pub(crate) fn piece(text: &[u8], index: usize) -> &[u8]
    requires { piece_len * index ≤ length text.now }
    ensures is { result.now ≡ piece text.now index }
    ensures few { length result.now ≤ piece_len }
{
    let rest = &text[PIECE_LEN * index..];
    &rest[..PIECE_LEN.min(rest.len())]
}
