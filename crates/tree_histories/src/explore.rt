//! The search: from the list so far every next step is tried in turn.
ghost use Rattle.std.specs.Prelude.{◌≡◌, ◌<◌, ◌++◌, ◌∷◌, [], List, IfOk, MatchOption};
ghost use Rattle.tree_histories.specs.Vocabulary.{Explains, Placed};
ghost use Rattle.tree_histories.specs.Hints.{hints_of};
ghost use Rattle.tree_histories.specs.Ordered.{IsDue};
ghost use Rattle.tree_histories.specs.Searching.{CallIsExplored, IsAt, IsExplored, IsTried, NeedsNumber};

use crate::ends::Due;
use crate::next::Attempt;
use crate::position::{Placing, Position, stand_in};
use image_versions::Version;
use plain_tree::{NoMemory, Placed, Trace, Tree};
use std::alloc::Global;

/// A step to be tried before others, with this number for a node that it makes. It is the step of the call at place
/// `call` of the trace that comes after `step` of them. It is placed at this event, if it may be there.
#[derive(Clone, Copy)]
pub struct Hint {
    pub call: usize,
    pub step: usize,
    pub new: u16,
    pub event: u64,
}

/// The steps of this list, as what a search is to try.
pub fn hints_of(alloc: Global, list: &[Placed]) -> Result<Vec<Hint>, NoMemory>
    ensures { IfOk result (λ v. v.items ≡ hints_of list.now) }
{
    let mut hints = Vec::new(alloc);
    for (place, placed) in list.iter().enumerate() {
        hints.push(Hint {
            call: placed.call,
            step: stand_in(placed.call, &list[..place]).count,
            new: placed.step.new,
            event: placed.event,
        })?;
    }
    Ok(hints)
}

/// What came of a step that was tried.
#[derive(Clone, Copy)]
pub(crate) enum Tried {
    Found,
    Dead,
    /// It makes a node, and can't take this number for it.
    BadChoice,
}

/// The first hint from this place on whose step isn't placed yet and may still come, and its place.
pub(crate) fn next_hint(
    position: &Position,
    trace: &Trace,
    hints: &[Hint],
    from: usize,
) -> (usize, Option<Hint>) {
    for place in from..hints.len() {
        let hint = hints[place];
        if position.awaits(trace, hint.call, hint.step) {
            return (place, Some(hint));
        }
    }
    (hints.len(), None)
}

impl Position {
    /// Goes on with this step of the call.
    #[cycle(exploring)]
    fn explore_step(
        &mut self,
        alloc: Global,
        version: Version,
        base: &Tree,
        trace: &Trace,
        hints: &[Hint],
        from: usize,
        id: usize,
        new: u16,
        due: Due,
    ) -> Attempt<Tried>
        requires at { IsAt version base.now trace.now self.old }
        requires due { IsDue self.old.ends due }
        ensures { IfOk result (λ r. IsTried version base.now trace.now self.old id new r self.new) }
    {
        match self.place(alloc, version, base, trace, id, new, 0, due.limit)? {
            Placing::Made => {
                if self.explore(alloc, version, base, trace, hints, from)? {
                    return Ok(Tried::Found);
                }
                self.undo(alloc, version, base, trace)?;
                Ok(Tried::Dead)
            }
            Placing::Refused => Ok(Tried::Dead),
            Placing::BadChoice => Ok(Tried::BadChoice),
        }
    }

    /// Goes on with the next step of the call, which makes a node, with each number in turn.
    #[cycle(exploring)]
    fn explore_numbers(
        &mut self,
        alloc: Global,
        version: Version,
        base: &Tree,
        trace: &Trace,
        hints: &[Hint],
        from: usize,
        id: usize,
        preferred: u16,
        due: Due,
    ) -> Attempt<bool>
        requires at { IsAt version base.now trace.now self.old }
        requires due { IsDue self.old.ends due }
        requires numbered { NeedsNumber version trace.now self.old id }
        ensures { IfOk result (λ b. CallIsExplored version base.now trace.now self.old id b self.new) }
    {
        let ninodes = self.tree.ninodes();
        if ninodes > 65536 {
            return Err(NoMemory);
        }
        match self.explore_step(alloc, version, base, trace, hints, from, id, preferred, due)? {
            Tried::Found => return Ok(true),
            _ => {}
        }
        for number in 1..ninodes {
            let new = number as u16;
            if new != preferred {
                match self.explore_step(alloc, version, base, trace, hints, from, id, new, due)? {
                    Tried::Found => return Ok(true),
                    _ => {}
                }
            }
        }
        Ok(false)
    }

    /// Goes on with the next step of the call.
    #[cycle(exploring)]
    fn explore_call(
        &mut self,
        alloc: Global,
        version: Version,
        base: &Tree,
        trace: &Trace,
        hints: &[Hint],
        from: usize,
        id: usize,
        preferred: u16,
        due: Due,
    ) -> Attempt<bool>
        requires at { IsAt version base.now trace.now self.old }
        requires due { IsDue self.old.ends due }
        ensures { IfOk result (λ b. CallIsExplored version base.now trace.now self.old id b self.new) }
    {
        match self.explore_step(alloc, version, base, trace, hints, from, id, 0, due)? {
            Tried::Found => Ok(true),
            Tried::Dead => Ok(false),
            Tried::BadChoice => {
                self.explore_numbers(alloc, version, base, trace, hints, from, id, preferred, due)
            }
        }
    }

    /// Goes on with each call in turn: the one that is hinted at, the one that has to return first, the others.
    #[cycle(exploring)]
    fn explore(
        &mut self,
        alloc: Global,
        version: Version,
        base: &Tree,
        trace: &Trace,
        hints: &[Hint],
        from: usize,
    ) -> Attempt<bool>
        requires { IsAt version base.now trace.now self.old }
        ensures { IfOk result (λ b. IsExplored version base.now trace.now self.old b self.new) }
    {
        let Some(due) = self.due() else {
            return Ok(true);
        };
        let (from, hint) = next_hint(self, trace, hints, from);
        let (first, preferred) = match hint {
            Some(hint) => (hint.call, hint.new),
            None => (due.id, 0),
        };
        if self.explore_call(
            alloc, version, base, trace, hints, from, first, preferred, due,
        )? {
            return Ok(true);
        }
        if due.id != first
            && self.explore_call(alloc, version, base, trace, hints, from, due.id, 0, due)?
        {
            return Ok(true);
        }
        for id in 0..trace.calls.as_slice().len() {
            if id != first && id != due.id {
                if self.explore_call(alloc, version, base, trace, hints, from, id, 0, due)? {
                    return Ok(true);
                }
            }
        }
        Ok(false)
    }
}

// From nothing on, every step is tried in turn.
fn search(
    alloc: Global,
    version: Version,
    base: &Tree,
    trace: &Trace,
    hints: &[Hint],
) -> Attempt<Option<Vec<Placed>>>
    ensures { IfOk result (λ o. MatchOption o ((list : List Placed) → Explains version base.now trace.now list → ⊥)
        (λ v. Explains version base.now trace.now v.items)) }
{
    let mut position = Position::begin(alloc, base, trace)?;
    if position.explore(alloc, version, base, trace, hints, 0)? {
        Ok(Some(position.list))
    } else {
        Ok(None)
    }
}

/// A list of tree steps that explains the trace from this tree; none only where no list does. It is sought first by going
/// on from step to step: the one that is hinted at, one of the call that has to return first, or another that fits.
/// Where that leads nowhere, the steps of calls are tried from there, and then from the beginning, in every order that the
/// trace allows, and for a new node every number. With the right hints, and mostly without any, a list is found at once;
/// where no list explains, the time may grow with the power of the number of calls. The error is that memory is short,
/// or that a step which is tried must make a node in a table of more than 65,536 numbers.
pub fn find_history(
    alloc: Global,
    version: Version,
    base: &Tree,
    trace: &Trace,
    hints: &[Hint],
) -> Result<Option<Vec<Placed>>, NoMemory>
    ensures { IfOk result (λ o. MatchOption o ((list : List Placed) → Explains version base.now trace.now list → ⊥)
        (λ v. Explains version base.now trace.now v.items)) }
{
    let mut position = Position::begin(alloc, base, trace)?;
    position.follow(alloc, version, base, trace, hints)?;
    if position.explore(alloc, version, base, trace, hints, 0)? {
        return Ok(Some(position.list));
    }
    search(alloc, version, base, trace, hints)
}
