//! The tree kept beside a run.
ghost use Rattle.std.specs.Option.{option_map};
ghost use Rattle.std.specs.Prelude.{◌≡◌, false, IfOk, IsTrue, MatchResult, None, Some};
ghost use Rattle.explain.specs.Keeps.{HasNoted, IsListOf, SawNoRoom, SawRoom};
ghost use Rattle.kept_histories.specs.Keeps.{KeepsEvent, KeepsOutcome, Starts};
ghost use Rattle.explain.specs.Telling.{TellsKeeper};
ghost use Rattle.explain.specs.Vocabulary.{ended, fault_of, nothing_kept};

use hart_core::{Came, Event, Observer, Outcome, find_fault};
use image_versions::Version;
use path_walk::Heard;
use plain_tree::{Call, NoMemory, Placed, Tree};
use std::alloc::{AllocError, Global};
use std::marker::Model;
use tree_histories::Kept;

/// Notes a run's events as they are made, and keeps a tree beside it, with the list of the tree steps that the run
/// makes. A contract sees what is kept, or nothing if memory was refused once.
#[derive(Drop)]
pub struct Keeper {
    alloc: Global,
    kept: Kept,
    // Memory was refused: nothing was kept from then on.
    is_short: bool,
}

impl Model for Keeper {
    ghost use Rattle.std.specs.Prelude.{Option};
    ghost use Rattle.explain.specs.Keeps.{kept_unless};
    ghost use Rattle.tree_histories.specs.Keeping.{KeptTree};

    ghost Value = { Option KeptTree };

    ghost view = { λ k. kept_unless k.is_short k.kept };
}

impl Keeper {
    /// Beside a run that begins with this tree, on an image of this version.
    pub fn new(alloc: Global, version: Version, base: &Tree) -> Result<Keeper, NoMemory>
        ensures { IfOk result (λ k. k ≡ Some (nothing_kept version base.now)) }
    {
        Ok(Keeper {
            alloc,
            kept: Kept::new(alloc, version, base.try_clone(alloc)?),
            is_short: false,
        })
    }

    /// The run's next event had this outcome. `heard` is what its hart's call has heard then (`World::heard`).
    pub fn note(&mut self, event: &Event, came: &Came, heard: Option<Heard>)
        ensures { HasNoted self.old event.now came.now heard self.new }
    {
        if self.is_short {
            return;
        }
        if keep_event(&mut self.kept, self.alloc, event, came, heard).is_err() {
            self.is_short = true;
        }
    }

    /// The run has ended. `lacks_place` is what its world says then (`World::lacks_place`).
    pub fn ends(&mut self, lacks_place: bool)
        ensures { self.new ≡ option_map (ended lacks_place) self.old }
    {
        if !self.is_short {
            self.kept.ends(lacks_place);
        }
    }

    /// Whether some step found no room, also of a call that hasn't replied: the keeper notes each event and the run's
    /// end.
    pub(crate) fn is_full(&self) -> bool
        ensures full { IsTrue result → SawNoRoom self.now }
        ensures room { result ≡ false → SawRoom self.now }
    {
        !self.is_short && self.kept.is_full()
    }

    // The steps so far. An error is that memory was refused once.
    pub(crate) fn into_list(self) -> Result<Vec<Placed>, NoMemory>
        ensures { MatchResult result (λ v. IsListOf self v.items) (λ _. self ≡ None) }
    {
        if self.is_short {
            return Err(NoMemory);
        }
        Ok(self.kept.into_list())
    }
}

// The event started this call.
fn keep_start(kept: &mut Kept, alloc: Global, hart: u8, call: &Call) -> Result<(), NoMemory>
    ensures { IfOk result (λ _. fault_of call.now ≡ None → Starts kept.old hart call.now kept.new) }
{
    match find_fault(call) {
        None => kept.starts(alloc, hart, copied(call)?),
        Some(_) => {
            kept.passes();
            Ok(())
        }
    }
}

// The hart's step had this outcome.
fn keep_step(
    kept: &mut Kept,
    alloc: Global,
    hart: u8,
    outcome: &Outcome,
    heard: Option<Heard>,
) -> Result<(), NoMemory>
    ensures { IfOk result (λ _. KeepsOutcome kept.old hart outcome.now heard kept.new) }
{
    match outcome {
        Outcome::Ran(_) => {
            kept.runs(alloc, hart, heard)?;
            kept.passes();
        }
        Outcome::Done(_) => {
            kept.runs(alloc, hart, heard)?;
            kept.replies(hart);
        }
        _ => kept.passes(),
    }
    Ok(())
}

// The event had this outcome.
fn keep_event(
    kept: &mut Kept,
    alloc: Global,
    event: &Event,
    came: &Came,
    heard: Option<Heard>,
) -> Result<(), NoMemory>
    ensures { IfOk result (λ _. KeepsEvent kept.old event.now came.now heard kept.new) }
{
    match (event, came) {
        (Event::Start { hart, call }, Came::Started) => keep_start(kept, alloc, *hart, call),
        (Event::Step { hart }, Came::Stepped(outcome)) => {
            keep_step(kept, alloc, *hart, outcome, heard)
        }
        _ => {
            kept.passes();
            Ok(())
        }
    }
}

fn copied(call: &Call) -> Result<Call, AllocError>
    ensures { IfOk result (λ c. c ≡ call.now) }
{
    call.clone()
}

/// Reports a run of these events to a keeper.
#[derive(Drop)]
pub(crate) struct Telling<'a> {
    pub(crate) keeper: Keeper,
    pub(crate) events: &'a [Event],
    // The place of the next event.
    pub(crate) place: usize,
}

impl Observer for Telling<'_> {
    ghost Took = { TellsKeeper };

    fn noted(&mut self, came: &Came, heard: Option<Heard>) {
        let events = self.events;
        if let Some(event) = events.get(self.place) {
            self.keeper.note(event, came, heard);
        }
        self.place = self.place.saturating_add(1);
    }
}
