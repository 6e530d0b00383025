//! Paths with the element "..".
ghost use Rattle.std.specs.Prelude.{◌≡◌};
ghost use Rattle.explain.specs.Climbs.{start_climbs};
ghost use Rattle.explain.specs.Vocabulary.{any_climbs, call_climbs, climbs, dotdot, same_name, trace_in};

use hart_core::{Came, Event};
use image_versions::Version;
use plain_tree::Call;
use plain_tree::paths::next_element;

// The name is "..".
fn is_dotdot(name: &[u8]) -> bool
    ensures { result ≡ same_name name.now dotdot }
{
    name == [b'.', b'.'].as_slice()
}

fn climbs(path: &[u8]) -> bool
    ensures { result ≡ climbs path.now }
{
    let mut rest = path;
    while let Some((element, after)) = next_element(Version::One, rest) {
        if is_dotdot(element) {
            return true;
        }
        rest = after;
    }
    false
}

fn call_climbs(call: &Call) -> bool
    ensures { result ≡ call_climbs call.now }
{
    match call {
        Call::Open { path, .. } => climbs(path.as_slice()),
        Call::Link { old, new } => climbs(old.as_slice()) || climbs(new.as_slice()),
        Call::Unlink { path } => climbs(path.as_slice()),
        Call::Mkdir { path } => climbs(path.as_slice()),
        Call::Chdir { path } => climbs(path.as_slice()),
        _ => false,
    }
}

// The event started a call with such a path.
fn start_climbs(event: &Event, came: &Came) -> bool
    ensures { result ≡ start_climbs event.now came.now }
{
    match (event, came) {
        (Event::Start { hart: _, call }, Came::Started) => call_climbs(call),
        _ => false,
    }
}

/// Whether a path of a call that these events started has the element "..".
pub(crate) fn any_climbs(events: &[Event], outcomes: &[Came]) -> bool
    ensures { result ≡ any_climbs (trace_in events.now outcomes.now).calls }
{
    for place in 0..events.len().min(outcomes.len()) {
        if start_climbs(&events[place], &outcomes[place]) {
            return true;
        }
    }
    false
}
