//! When a list of steps leads on from a tree.
ghost use Rattle.std.specs.Prelude.{◌≡◌, IfOk, IsTrue, ◌↔◌};
ghost use Rattle.plain_tree.specs.Checked.{Leads, LeadsOn};
ghost use Rattle.plain_tree.specs.Steps.{IsInPlace};
ghost use Rattle.plain_tree.specs.Tree.{tree_of};

use crate::refused::{ApplyRefused, Attempt, NoMemory};
use crate::step::{StepAnswer, TreeStep};
use crate::trace::Placed;
use crate::tree::Tree;
use crate::widths::HARTS;
use image_versions::Version;
use std::alloc::Global;

fn same_answer(a: &StepAnswer, b: &StepAnswer) -> bool
    ensures { IsTrue result ↔ (a.now ≡ b.now) }
{
    a == b
}

impl Tree {
    /// The step is in its place.
    fn is_in_place(&self, step: &TreeStep) -> bool
        ensures { IsTrue result ↔ IsInPlace (tree_of self.now) step.now.hart step.now.action }
    {
        step.hart < HARTS && self.has_place(step.hart, &step.action)
    }

    /// Makes the step, and says whether it leads on with that answer. If it doesn't, the tree is of no use after it.
    fn lead_on(&mut self, alloc: Global, version: Version, entry: &Placed) -> Attempt<bool>
        ensures { IfOk result (λ b. LeadsOn version b (tree_of self.old) entry.now.step entry.now.answer (tree_of self.new)) }
    {
        if !self.is_in_place(&entry.step) {
            return Ok(false);
        }
        match self.apply(alloc, version, &entry.step) {
            Ok(answer) => Ok(same_answer(&answer, &entry.answer)),
            Err(ApplyRefused::BadChoice) => Ok(false),
            Err(ApplyRefused::NoMemory) => Err(NoMemory),
        }
    }
}

/// Each step leads on from the tree that the one before it left. The error is that memory is short for the copy or
/// for a step.
pub(crate) fn leads(alloc: Global, version: Version, base: &Tree, list: &[Placed]) -> Attempt<bool>
    ensures { IfOk result (λ b. IsTrue b ↔ Leads version (tree_of base.now) list.now) }
{
    let mut tree = base.try_clone(alloc)?;
    for entry in list {
        if !tree.lead_on(alloc, version, entry)? {
            return Ok(false);
        }
    }
    Ok(true)
}
