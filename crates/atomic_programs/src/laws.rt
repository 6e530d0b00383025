//! The theorems, at the examples: a contract can't speak of every theory. So the general lemmas are in `proofs`, for a
//! project to use at its own theory. Each function here carries one of them at an example of this crate.

ghost use Rattle.std.specs.Prelude.{◌≡◌, ℕ, ◌∷◌, [], List, Option, None, true, false};
ghost use Rattle.atomic_programs.specs.Calls.{Event, Start, Step, FinishedCall, PlacedStep, Outcome, Started, Refused, WasIdle, DidWait, DidRun, DidEnd, DidStop, WasStopped, State, next, run, outcomes, fresh, hart_of, IsHonest, AllHonest, Sound};
ghost use Rattle.atomic_programs.specs.Explained.{IsExplained, Leads, Steady, In, history};
ghost use Rattle.atomic_programs.specs.Trace.{IsTraced, happened};
ghost use Rattle.atomic_programs.specs.Cell as cell;

/// Over every list of events, from any world that holds and has every hart idle, one list of steps explains the cell's
/// replies.
pub fn cell_explained()
    ensures { (w : cell.World) (events : List (Event cell.Call cell.Outside)) → cell.Inv w → ((h : ℕ) → cell.own_of h w ≡ None)
        → AllHonest cell.swaps events (fresh cell.swaps w) → IsExplained cell.swaps w.value (run cell.swaps events (fresh cell.swaps w)) }
{}

/// A step that waits, a refused start and a step in a stopped world change nothing; a stopped world stays stopped, and
/// takes starts as before.
pub fn cell_steady()
    ensures { Steady cell.swaps }
{}

/// The calls that have finished or are under way are just those that the events with their outcomes show. Each reply
/// that was given is a finished call's, and each of these was started and gave its reply.
pub fn cell_traced()
    ensures { (w : cell.World) (events : List (Event cell.Call cell.Outside))
        → IsTraced cell.swaps (λ x. In x (happened cell.swaps events (fresh cell.swaps w))) (run cell.swaps events (fresh cell.swaps w)) }
{}

/// What each event places leads from the number before it to the one after it, and at most one step of it is the event's own
/// hart's.
pub fn cell_leads()
    ensures { (s : State cell.swaps) (e : Event cell.Call cell.Outside) → Sound cell.swaps s → IsHonest cell.swaps e s
        → Leads cell.swaps (hart_of e) s (next cell.swaps e s) }
{}

/// There are worlds that hold and have every hart idle: any byte, on a device that has failed so often.
pub fn cell_rests(count: u8, faults: u32)
    ensures holds { cell.Inv (cell.rest count faults) }
    ensures idle { (h : ℕ) → cell.own_of h (cell.rest count faults) ≡ None }
{}

/// Two calls overlap: one waits for the other, both finish, and the list has their steps in the order of the number.
pub fn cell_finishes()
    ensures outcomes { outcomes cell.swaps
        (Start 0 (cell.Swap 7) ∷ Step 0 cell.Passes ∷ Start 1 cell.Look ∷ Step 1 cell.Passes ∷ Step 0 cell.Passes ∷ Step 0 cell.Passes
        ∷ Step 0 cell.Passes ∷ Step 1 cell.Passes ∷ Step 1 cell.Passes ∷ Step 1 cell.Passes ∷ Step 1 cell.Passes ∷ [])
        (fresh cell.swaps (cell.rest 5 0))
        ≡ Started ∷ DidRun (cell.Take, tt) ∷ Started ∷ DidWait ∷ DidRun (cell.Fetch, 5) ∷ DidRun (cell.Store 7, tt) ∷ DidEnd 5
        ∷ DidRun (cell.Take, tt) ∷ DidRun (cell.Fetch, 7) ∷ DidEnd 7 ∷ WasIdle ∷ [] }
    ensures history { history cell.swaps
        (run cell.swaps (Start 0 (cell.Swap 7) ∷ Step 0 cell.Passes ∷ Start 1 cell.Look ∷ Step 1 cell.Passes ∷ Step 0 cell.Passes
        ∷ Step 0 cell.Passes ∷ Step 0 cell.Passes ∷ Step 1 cell.Passes ∷ Step 1 cell.Passes ∷ Step 1 cell.Passes ∷ [])
        (fresh cell.swaps (cell.rest 5 0)))
        ≡ record { number = 5; hart = 0; call = 0; step = cell.Swapped 7 5 } ∷ record { number = 8; hart = 1; call = 2; step = cell.Saw 7 }
        ∷ [] }
{}

/// The device fails in a store, which stops the world: each later step says so, and starts are taken or refused as before.
pub fn cell_stops()
    ensures outcomes { outcomes cell.swaps
        (Start 0 (cell.Swap 7) ∷ Step 0 cell.Passes ∷ Step 0 cell.Passes ∷ Step 0 (cell.Fails 7) ∷ Step 0 cell.Passes ∷ Start 0 cell.Look
        ∷ Start 1 cell.Look ∷ Start 8 cell.Look ∷ Step 1 cell.Passes ∷ Step 2 cell.Passes ∷ []) (fresh cell.swaps (cell.rest 5 0))
        ≡ Started ∷ DidRun (cell.Take, tt) ∷ DidRun (cell.Fetch, 5) ∷ DidStop ∷ WasStopped ∷ Refused cell.Busy ∷ Started
        ∷ Refused cell.NoSuchHart ∷ WasStopped ∷ WasIdle ∷ [] }
    ensures honest { AllHonest cell.swaps
        (Start 0 (cell.Swap 7) ∷ Step 0 cell.Passes ∷ Step 0 cell.Passes ∷ Step 0 (cell.Fails 7) ∷ Step 0 cell.Passes ∷ Start 0 cell.Look
        ∷ Start 1 cell.Look ∷ Start 8 cell.Look ∷ Step 1 cell.Passes ∷ Step 2 cell.Passes ∷ []) (fresh cell.swaps (cell.rest 5 0)) }
{}
