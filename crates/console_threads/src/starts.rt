//! Whether the harts of a run started the calls that were asked of them.
ghost use Rattle.std.specs.Prelude.{◌≡◌, ◌↔◌, ◌∷◌, [], IsTrue, MatchOption, map};
ghost use Rattle.console_threads.specs.Started.{EachStarted, started_by, starts_in};
ghost use Rattle.console_threads.specs.Worked.{eight_harts};

use hart_core::Event;
use plain_tree::Call;

/// Whether each hart was asked to start only its own calls, each once and in their order.
#[tactic(auto, using(hart_runner::proofs::Eight::eight))]
pub fn are_started(events: &[Event], asked: [Vec<Call>; 8]) -> bool
    ensures { IsTrue result → EachStarted events.now eight_harts (map (λ v. v.items) asked) }
{
    let [a, b, c, d, e, f, g, h] = asked;
    is_started(0, events, a.as_slice())
        && is_started(1, events, b.as_slice())
        && is_started(2, events, c.as_slice())
        && is_started(3, events, d.as_slice())
        && is_started(4, events, e.as_slice())
        && is_started(5, events, f.as_slice())
        && is_started(6, events, g.as_slice())
        && is_started(7, events, h.as_slice())
}

// Whether this hart was asked to start these calls.
fn is_started(hart: u8, events: &[Event], asked: &[Call]) -> bool
    ensures { IsTrue result ↔ (starts_in hart events.now ≡ asked.now) }
{
    let mut seen = 0;
    for event in events {
        if let Some(call) = started_by(hart, event) {
            if seen >= asked.len() || !is_same(call, &asked[seen]) {
                return false;
            }
            seen += 1;
        }
    }
    seen == asked.len()
}

// The call that a hart was asked to start at this event.
fn started_by<'a>(hart: u8, event: &'a Event) -> Option<&'a Call>
    ensures { MatchOption result (started_by hart event.now ≡ []) (λ call. started_by hart event.now ≡ call.now ∷ []) }
{
    match event {
        Event::Start { hart: at, call } if *at == hart => Some(call),
        _ => None,
    }
}

fn is_same(one: &Call, other: &Call) -> bool
    ensures { IsTrue result ↔ (one.now ≡ other.now) }
{
    one == other
}
