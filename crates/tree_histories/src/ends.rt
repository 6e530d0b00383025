//! The calls that have to go on, and which of them has to return first.
ghost use Rattle.std.specs.Prelude.{◌≡◌, ◌<◌, ◌↔◌, ℕ, IfOk, IsTrue, MatchOption, None, Some, length, slice_index_or, slice_set};
ghost use Rattle.tree_histories.specs.Ordered.{IsDue, IsOrdered};

use crate::next::Attempt;
use std::alloc::Global;
use std::marker::Model;

/// The call that has to return first, and the event at which it does.
#[derive(Clone, Copy, PartialEq, Eq)]
pub(crate) struct Due {
    pub(crate) id: usize,
    pub(crate) limit: u64,
}

/// By call, the event of its reply, while it isn't through.
#[derive(Drop)]
pub(crate) struct Ends {
    ends: Vec<Option<u64>>,
    /// Those of all calls that weren't through at first, the least first.
    order: Vec<Due>,
    /// Before this place in the order no call has to go on.
    from: usize,
}

impl Model for Ends {
    ghost use Rattle.std.specs.Prelude.{ℕ, List, Option};
    ghost use Rattle.tree_histories.specs.Ordered.{IsOrdered};

    ghost Value = { List (Option ℕ) };

    ghost view = { λ e. e.ends.items };

    ghost invariant = { λ e. IsOrdered e.ends.items e.order.items e.from };
}

/// The ends that there are, the least first.
fn in_order(alloc: Global, ends: &[Option<u64>]) -> Attempt<Vec<Due>>
    ensures { IfOk result (λ o. IsOrdered ends.now o.items 0) }
{
    let mut order = Vec::new(alloc);
    for (id, end) in ends.iter().enumerate() {
        if let Some(limit) = end {
            order.push(Due { id, limit: *limit })?;
        }
    }
    order.sort_by_key(|due: &Due| due.limit)?;
    Ok(order)
}

/// The call has this end still.
fn has_end(ends: &[Option<u64>], due: Due) -> bool
    ensures { IsTrue result ↔ (slice_index_or ends.now due.id None ≡ Some due.limit) }
{
    match ends.get(due.id) {
        Some(end) => *end == Some(due.limit),
        None => false,
    }
}

impl Ends {
    /// Each call has this end.
    pub(crate) fn new(alloc: Global, ends: Vec<Option<u64>>) -> Attempt<Ends>
        ensures { IfOk result (λ e. e ≡ ends.items) }
    {
        let order = in_order(alloc, &ends)?;
        Ok(Ends {
            ends,
            order,
            from: 0,
        })
    }

    /// The first of them.
    pub(crate) fn due(&self) -> Option<Due>
        ensures { MatchOption result ((id : ℕ) → slice_index_or self.now id None ≡ None) (λ d. IsDue self.now d) }
    {
        for place in self.from..self.order.len() {
            let due = self.order[place];
            if has_end(&self.ends, due) {
                return Some(due);
            }
        }
        None
    }

    /// The call is through.
    pub(crate) fn pass(&mut self, id: usize)
        requires { id < length self.old }
        ensures { self.new ≡ slice_set self.old id None }
    {
        self.ends[id] = None;
        while self.from < self.order.len() && !has_end(&self.ends, self.order[self.from]) {
            self.from += 1;
        }
    }

    /// The call has this end again.
    pub(crate) fn restore(&mut self, alloc: Global, id: usize, end: Option<u64>) -> Attempt<()>
        requires { id < length self.old }
        ensures { IfOk result (λ _. self.new ≡ slice_set self.old id end) }
    {
        let mut ends = Vec::from_slice(alloc, &self.ends)?;
        ends[id] = end;
        *self = Ends::new(alloc, ends)?;
        Ok(())
    }
}
