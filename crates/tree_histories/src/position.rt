//! A list that begins to explain a trace, with the tree to which it leads and how far it has each call.
ghost use Rattle.std.specs.Prelude.{◌≡◌, ◌<◌, ◌≤◌, ◌++◌, ◌∷◌, [], ℕ, IfOk, IfSome, IsTrue, ◌↔◌, MatchOption, None, Some, false, length, slice_get, slice_index_or, slice_set};
ghost use Rattle.tree_histories.specs.Vocabulary.{Version, Leads, Chain, acts_of, tree_of, is_nothing};
ghost use Rattle.tree_histories.specs.Ordered.{IsDue};
ghost use Rattle.tree_histories.specs.Searching.{Fits, IsAt, IsKept, IsLimit, IsMore, IsPlaced, IsThrough, IsTimely, IsUndone, end_of, last_event};
ghost use Rattle.tree_histories.specs.Stands.{next_from, stand_of};

use crate::ends::{Due, Ends};
use crate::next::{Attempt, is_through, next_action};
use crate::place::is_in_place;
use crate::reply::{is_reply, is_told};
use crate::stand::{START, Stand, after};
use image_versions::Version;
use plain_tree::reply::is_full;
use plain_tree::{ApplyRefused, NoMemory, Placed, StepAnswer, Trace, TracedCall, Tree, TreeStep};
use std::alloc::Global;

#[derive(Drop)]
pub(crate) struct Position {
    pub(crate) tree: Tree,
    pub(crate) list: Vec<Placed>,
    /// By call, how far the list has it.
    stands: Vec<Stand>,
    ends: Ends,
}

/// What came of a try to place a step.
#[derive(Clone, Copy)]
pub(crate) enum Placing {
    Made,
    Refused,
    /// It makes a node, and can't take this number for it.
    BadChoice,
}

/// The event of the call's reply, if it isn't through.
fn end_of(traced: &TracedCall, stand: Stand) -> Option<u64>
    ensures { result ≡ end_of traced.now (is_nothing (next_from traced.now.call stand)) }
{
    if is_through(&traced.call, stand) {
        return None;
    }
    match &traced.finished {
        Some((end, _)) => Some(*end),
        None => None,
    }
}

/// The call, which wasn't through, has come so far.
fn note_end(ends: &mut Ends, id: usize, traced: &TracedCall, stand: Stand)
    requires within { id < length ends.old }
    requires end { slice_index_or ends.old id None ≡ end_of traced.now false }
    ensures { ends.new ≡ slice_set ends.old id (end_of traced.now (is_nothing (next_from traced.now.call stand))) }
{
    if is_through(&traced.call, stand) {
        ends.pass(id);
    }
}

/// How far the list has the call at place `id`.
pub(crate) fn stand_in(id: usize, list: &[Placed]) -> Stand
    ensures { result ≡ stand_of (acts_of id list.now) }
{
    let mut stand = START;
    for placed in list {
        if placed.call == id {
            stand = after(stand, &placed.answer);
        }
    }
    stand
}

/// A step of the call may have this number, if no call has to return before `limit`.
fn is_timely(traced: &TracedCall, event: u64, limit: u64, events: u64) -> bool
    ensures { IsTrue result ↔ IsTimely traced.now.finished event limit events }
{
    event <= limit && (traced.finished.is_some() || event < events)
}

/// The number that the step gets: the one that is wished for, where it is above the least and the step may have it.
fn event_for(traced: &TracedCall, least: u64, wish: u64, limit: u64, events: u64) -> u64
    requires { IsTimely traced.now.finished least limit events }
    ensures timely { IsTimely traced.now.finished result limit events }
    ensures least { least ≤ result }
    ensures unwished { wish ≡ 0 → result ≡ least }
{
    if wish > least && is_timely(traced, wish, limit, events) {
        wish
    } else {
        least
    }
}

/// A finished call may have this answer.
fn fits(traced: &TracedCall, stand: Stand, then: Stand, answer: &StepAnswer) -> bool
    ensures { IsTrue result ↔ Fits traced.now.finished traced.now.call stand then answer.now }
{
    match &traced.finished {
        Some((_, reply)) => {
            !is_full(answer)
                && (!is_told(&traced.call, stand, then)
                    || is_reply(&traced.call, then.cause, answer, reply))
        }
        None => true,
    }
}

/// The tree to which the list leads.
fn tree_after(alloc: Global, version: Version, base: &Tree, list: &[Placed]) -> Attempt<Tree>
    requires { Leads version (tree_of base.now) list.now }
    ensures { IfOk result (λ t. Chain version (tree_of base.now) list.now (tree_of t)) }
{
    let mut tree = base.try_clone(alloc)?;
    for entry in list {
        match tree.apply(alloc, version, &entry.step) {
            Ok(_) => {}
            Err(_) => return Err(NoMemory),
        }
    }
    Ok(tree)
}

/// The number of the last entry's event.
fn last_event(list: &[Placed]) -> u64
    ensures { result ≡ last_event list.now }
{
    match list.last() {
        Some(entry) => entry.event,
        None => 0,
    }
}

impl Position {
    /// Nothing is placed yet.
    pub(crate) fn begin(alloc: Global, base: &Tree, trace: &Trace) -> Attempt<Position>
        ensures at { IfOk result (λ p. (version : Version) → IsAt version base.now trace.now p) }
        ensures none { IfOk result (λ p. p.list.items ≡ []) }
    {
        let tree = base.try_clone(alloc)?;
        let mut stands = Vec::new(alloc);
        let mut ends = Vec::new(alloc);
        for traced in trace.calls.as_slice() {
            stands.push(START)?;
            ends.push(end_of(traced, START))?;
        }
        Ok(Position {
            tree,
            list: Vec::new(alloc),
            stands,
            ends: Ends::new(alloc, ends)?,
        })
    }

    /// The call that has to return first.
    pub(crate) fn due(&self) -> Option<Due>
        ensures { MatchOption result (IsThrough self.now) (λ d. IsDue self.now.ends d) }
    {
        self.ends.due()
    }

    /// The list has no more than so many steps of the call, which goes on.
    pub(crate) fn awaits(&self, trace: &Trace, id: usize, step: usize) -> bool {
        match (trace.calls.as_slice().get(id), self.stands.get(id)) {
            (Some(traced), Some(stand)) => {
                stand.count <= step && !is_through(&traced.call, *stand)
            }
            _ => false,
        }
    }

    /// Places the next step of the call, with this number for a node that it makes. Its event is the one that is
    /// wished for, if it may be there, else as early as it may be. No call has to return before the limit.
    pub(crate) fn place(
        &mut self,
        alloc: Global,
        version: Version,
        base: &Tree,
        trace: &Trace,
        id: usize,
        new: u16,
        wish: u64,
        limit: u64,
    ) -> Attempt<Placing>
        requires at { IsAt version base.now trace.now self.old }
        requires limit { IsLimit self.old.ends limit }
        ensures { IfOk result (λ r. IsPlaced version base.now trace.now self.old id new wish limit r self.new) }
    {
        let Some(traced) = trace.calls.as_slice().get(id) else {
            return Ok(Placing::Refused);
        };
        let least = last_event(&self.list).max(traced.start);
        if !is_timely(traced, least, limit, trace.events) {
            return Ok(Placing::Refused);
        }
        let stand = self.stands[id];
        let Some(action) = next_action(alloc, &traced.call, stand)? else {
            return Ok(Placing::Refused);
        };
        let step = TreeStep {
            hart: traced.hart,
            new,
            action,
        };
        if !is_in_place(&self.tree, &step) {
            return Ok(Placing::Refused);
        }
        let answer = match self.tree.apply(alloc, version, &step) {
            Ok(answer) => answer,
            Err(ApplyRefused::BadChoice) => return Ok(Placing::BadChoice),
            Err(ApplyRefused::NoMemory) => return Err(NoMemory),
        };
        let then = after(stand, &answer);
        if !fits(traced, stand, then, &answer) {
            self.tree = tree_after(alloc, version, base, &self.list)?;
            return Ok(Placing::Refused);
        }
        let event = event_for(traced, least, wish, limit, trace.events);
        self.list.push(Placed {
            event,
            call: id,
            step,
            answer,
        })?;
        self.stands[id] = then;
        note_end(&mut self.ends, id, traced, then);
        Ok(Placing::Made)
    }

    /// Takes the last entry back. There is one, and its call is in the trace.
    pub(crate) fn undo(
        &mut self,
        alloc: Global,
        version: Version,
        base: &Tree,
        trace: &Trace,
    ) -> Attempt<()>
        requires { IsAt version base.now trace.now self.old }
        ensures { IfOk result (λ _. IsUndone version base.now trace.now self.old self.new) }
    {
        let Some(entry) = self.list.pop() else {
            return Err(NoMemory);
        };
        let id = entry.call;
        let Some(traced) = trace.calls.as_slice().get(id) else {
            return Err(NoMemory);
        };
        let stand = stand_in(id, &self.list);
        self.stands[id] = stand;
        self.ends.restore(alloc, id, end_of(traced, stand))?;
        self.tree = tree_after(alloc, version, base, &self.list)?;
        Ok(())
    }
}
