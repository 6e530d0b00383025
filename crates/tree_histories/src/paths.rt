//! Paths with the element "..", and replies that there is no room.
ghost use Rattle.std.specs.Prelude.{◌≡◌, ◌+◌, ◌-◌, ◌<◌, ◌++◌, drop, slice_range};
ghost use Rattle.tree_histories.specs.Vocabulary.{Version, call_climbs, climbs, dotdot, same_name, name_in, IsElement, IsInOne};
ghost use Rattle.tree_histories.specs.Told.{any_climbs, any_full, is_full_reply};

use image_versions::Version;
use path_walk::Element;
use plain_tree::paths::{first, next_element};
use plain_tree::{Answer, Call, TracedCall};

// The path from this place on; nothing past its end.
pub(crate) fn rest_of(path: &[u8], from: usize) -> &[u8]
    ensures { result.now ≡ drop from path.now }
{
    &path[from.min(path.len())..]
}

// The bytes from one place to another, as far as they are there.
fn between(bytes: &[u8], from: usize, to: usize) -> &[u8]
    ensures { result.now ≡ slice_range bytes.now from to }
{
    first(rest_of(bytes, from), to.saturating_sub(from))
}

/// The name of an element, which is in a path or in the second one after it.
pub(crate) fn name_in<'a>(path: &'a [u8], second: &'a [u8], element: &Element) -> &'a [u8]
    ensures { (v : Version) → IsElement v (path.now ++ second.now) element.now → IsInOne path.now element.now
        → result.now ≡ name_in (path.now ++ second.now) element.now }
{
    let len = path.len();
    if element.end <= len {
        return between(path, element.start, element.end);
    }
    between(second, element.start.saturating_sub(len), element.end - len)
}

// The name is "..".
fn is_dotdot(name: &[u8]) -> bool
    ensures { result ≡ same_name name.now dotdot }
{
    name == [b'.', b'.'].as_slice()
}

fn climbs(path: &[u8]) -> bool
    ensures { result ≡ climbs path.now }
{
    let mut rest = path;
    while let Some((element, after)) = next_element(Version::One, rest) {
        if is_dotdot(element) {
            return true;
        }
        rest = after;
    }
    false
}

fn call_climbs(call: &Call) -> bool
    ensures { result ≡ call_climbs call.now }
{
    match call {
        Call::Open { path, .. } => climbs(path.as_slice()),
        Call::Link { old, new } => climbs(old.as_slice()) || climbs(new.as_slice()),
        Call::Unlink { path } => climbs(path.as_slice()),
        Call::Mkdir { path } => climbs(path.as_slice()),
        Call::Chdir { path } => climbs(path.as_slice()),
        _ => false,
    }
}

/// Whether a path of these calls has the element "..".
pub fn any_climbs(calls: &[TracedCall]) -> bool
    ensures { result ≡ any_climbs calls.now }
{
    calls.iter().any(|traced| call_climbs(&traced.call))
}

fn is_full_reply(traced: &TracedCall) -> bool
    ensures { result ≡ is_full_reply traced.now }
{
    match &traced.finished {
        Some((_, reply)) => matches!(reply.answer, Answer::Full(_)),
        None => false,
    }
}

/// Whether one of these calls was answered that there is no room.
pub fn any_full(calls: &[TracedCall]) -> bool
    ensures { result ≡ any_full calls.now }
{
    calls.iter().any(|traced| is_full_reply(traced))
}
