//! A first way: on from step to step, and never back.
ghost use Rattle.tree_histories.specs.Ordered.{IsDue};
ghost use Rattle.tree_histories.specs.Searching.{IsAt, IsSteppedOn};
ghost use Rattle.std.specs.Prelude.{IfOk};

use crate::ends::Due;
use crate::explore::{Hint, next_hint};
use crate::next::Attempt;
use crate::position::{Placing, Position};
use image_versions::Version;
use plain_tree::{Trace, Tree};
use std::alloc::Global;

impl Position {
    /// Places the next step of the call, which makes a node, with the first number that it can take.
    fn step_on_numbers(
        &mut self,
        alloc: Global,
        version: Version,
        base: &Tree,
        trace: &Trace,
        id: usize,
        wish: u64,
        due: Due,
    ) -> Attempt<bool>
        requires at { IsAt version base.now trace.now self.old }
        requires due { IsDue self.old.ends due }
        ensures { IfOk result (λ b. IsSteppedOn version base.now trace.now self.old b self.new) }
    {
        let ninodes = self.tree.ninodes().min(65536);
        for number in 1..ninodes {
            match self.place(
                alloc,
                version,
                base,
                trace,
                id,
                number as u16,
                wish,
                due.limit,
            )? {
                Placing::Made => return Ok(true),
                Placing::Refused => return Ok(false),
                Placing::BadChoice => {}
            }
        }
        Ok(false)
    }

    /// Places the next step of the call, if it fits.
    fn step_on_call(
        &mut self,
        alloc: Global,
        version: Version,
        base: &Tree,
        trace: &Trace,
        id: usize,
        preferred: u16,
        wish: u64,
        due: Due,
    ) -> Attempt<bool>
        requires at { IsAt version base.now trace.now self.old }
        requires due { IsDue self.old.ends due }
        ensures { IfOk result (λ b. IsSteppedOn version base.now trace.now self.old b self.new) }
    {
        match self.place(alloc, version, base, trace, id, preferred, wish, due.limit)? {
            Placing::Made => Ok(true),
            Placing::Refused => Ok(false),
            Placing::BadChoice => self.step_on_numbers(alloc, version, base, trace, id, wish, due),
        }
    }

    /// Places a step: one that is hinted at, one of the call that has to return first, or another that fits.
    fn step_on(
        &mut self,
        alloc: Global,
        version: Version,
        base: &Tree,
        trace: &Trace,
        hint: Option<Hint>,
        due: Due,
    ) -> Attempt<bool>
        requires at { IsAt version base.now trace.now self.old }
        requires due { IsDue self.old.ends due }
        ensures { IfOk result (λ b. IsSteppedOn version base.now trace.now self.old b self.new) }
    {
        let (first, preferred, wish) = match hint {
            Some(hint) => (hint.call, hint.new, hint.event),
            None => (due.id, 0, 0),
        };
        if self.step_on_call(alloc, version, base, trace, first, preferred, wish, due)? {
            return Ok(true);
        }
        if self.step_on_call(alloc, version, base, trace, due.id, 0, 0, due)? {
            return Ok(true);
        }
        for id in 0..trace.calls.as_slice().len() {
            if self.step_on_call(alloc, version, base, trace, id, 0, 0, due)? {
                return Ok(true);
            }
        }
        Ok(false)
    }

    /// Places the steps of calls that haven't replied, to which hints lead, if no call has to go on.
    fn append(
        &mut self,
        alloc: Global,
        version: Version,
        base: &Tree,
        trace: &Trace,
        hints: &[Hint],
    ) -> Attempt<()>
        requires { IsAt version base.now trace.now self.old }
        ensures { IfOk result (λ _. IsAt version base.now trace.now self.new) }
    {
        for hint in hints {
            if let Some(_) = self.due() {
                return Ok(());
            }
            if self.awaits(trace, hint.call, hint.step) {
                self.place(
                    alloc,
                    version,
                    base,
                    trace,
                    hint.call,
                    hint.new,
                    hint.event,
                    u64::MAX,
                )?;
            }
        }
        Ok(())
    }

    /// Places steps as long as one fits; and, when no call has to go on any more, those that hints tell of others.
    pub(crate) fn follow(
        &mut self,
        alloc: Global,
        version: Version,
        base: &Tree,
        trace: &Trace,
        hints: &[Hint],
    ) -> Attempt<()>
        requires { IsAt version base.now trace.now self.old }
        ensures { IfOk result (λ _. IsAt version base.now trace.now self.new) }
    {
        let mut from = 0;
        while let Some(due) = self.due() {
            let (place, hint) = next_hint(self, trace, hints, from);
            from = place;
            if !self.step_on(alloc, version, base, trace, hint, due)? {
                return Ok(());
            }
        }
        self.append(
            alloc,
            version,
            base,
            trace,
            hints.get(from..).unwrap_or(&[]),
        )
    }
}
