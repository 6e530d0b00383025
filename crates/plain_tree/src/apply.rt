//! One step of the tree.
ghost use Rattle.std.specs.Prelude.{◌≡◌, ◌<◌, IfSome, MatchResult, true};
ghost use Rattle.plain_tree.specs.Applied.{IsApplied, IsAppliedAtWith, IsAppliedWith, IsRefused, IsRefusedWith, out_of_place};
ghost use Rattle.plain_tree.specs.Code.{is_open, with_name};
ghost use Rattle.plain_tree.specs.Steps.{refused};
ghost use Rattle.plain_tree.specs.Tree.{live_directory, tree_of};

use crate::answer::{Cause, Full};
use crate::look::Found;
use crate::refused::{ApplyRefused, NoMemory};
use crate::step::{Action, StepAnswer, TreeStep};
use crate::tree::Tree;
use crate::widths::HARTS;
use image_versions::Version;
use std::alloc::Global;

fn is_open(action: &Action) -> bool
    ensures { result ≡ is_open action.now }
{
    matches!(action, Action::Open { .. })
}

fn out_of_place(action: &Action) -> StepAnswer
    ensures { result ≡ out_of_place action.now }
{
    match action {
        Action::Dup { .. } => StepAnswer::Full {
            full: Full::Descriptors,
        },
        _ => StepAnswer::Failed {
            cause: Cause::BadDescriptor,
        },
    }
}

impl Tree {
    /// What a refused action changes: a raise drops its hold.
    fn refuse(&mut self, hart: u8, action: &Action)
        requires { hart < HARTS }
        ensures { tree_of self.new ≡ refused (tree_of self.old) hart action.now }
    {
        match action {
            Action::Bump => {
                self.set_hold(hart, None);
                self.settle();
            }
            _ => {}
        }
    }

    /// Makes the step and gives its answer. A new open file takes the least unused id. A step out of its place
    /// answers cause 6, `dup` with all descriptors taken 23, and changes nothing.
    pub fn apply(
        &mut self,
        alloc: Global,
        version: Version,
        step: &TreeStep,
    ) -> Result<StepAnswer, ApplyRefused>
        ensures { MatchResult result (λ a. IsApplied version (tree_of self.old) step.now a (tree_of self.new))
            (λ e. IsRefused version self.old step.now e self.new) }
    {
        let found = self.found(version, step.hart, step.action.path());
        self.apply_found(alloc, version, step, &found)
    }

    /// The same after a walk has found what the step's path leads to, element by element as calls do (xv6: `namex`),
    /// whatever was removed or made meanwhile. `found` is taken as it is; its parent, if it has one, is a live
    /// directory.
    pub fn apply_found(
        &mut self,
        alloc: Global,
        version: Version,
        step: &TreeStep,
        found: &Found,
    ) -> Result<StepAnswer, ApplyRefused>
        requires { IfSome found.now.parent (λ d. live_directory ((tree_of self.old).nodes d) ≡ true) }
        ensures { let parent = with_name found.now.parent found.now.name.now in
            MatchResult result (λ a. IsAppliedWith version (tree_of self.old) step.now found.now.node parent a (tree_of self.new))
            (λ e. IsRefusedWith version self.old step.now found.now.node parent e self.new) }
    {
        let mut id = 0;
        if is_open(&step.action) {
            id = self.least_unused();
        }
        self.apply_at(alloc, version, step, found, id)
    }

    /// The same with the unused id that a new open file takes.
    fn apply_at(
        &mut self,
        alloc: Global,
        version: Version,
        step: &TreeStep,
        found: &Found,
        id: usize,
    ) -> Result<StepAnswer, ApplyRefused>
        requires live { IfSome found.now.parent (λ d. live_directory ((tree_of self.old).nodes d) ≡ true) }
        requires unused { is_open step.now.action ≡ true → (tree_of self.old).files id ≡ None }
        ensures { let parent = with_name found.now.parent found.now.name.now in
            MatchResult result (λ a. IsAppliedAtWith version (tree_of self.old) step.now found.now.node parent id a (tree_of self.new))
            (λ e. IsRefusedWith version self.old step.now found.now.node parent e self.new) }
    {
        let hart = step.hart;
        let action = &step.action;
        if hart >= HARTS {
            return Ok(StepAnswer::Failed {
                cause: Cause::BadDescriptor,
            });
        }
        if !self.has_place(hart, action) {
            return Ok(out_of_place(action));
        }
        if let Some(cause) = self.refusal(version, hart, action, found) {
            self.refuse(hart, action);
            return Ok(StepAnswer::Failed { cause });
        }
        if self.makes_node(action, found) && !self.is_new(step.new) {
            return Err(ApplyRefused::BadChoice);
        }
        let answer = self.answer(alloc, version, hart, action, found, id)?;
        self.act(alloc, version, hart, action, found, step.new, id, &answer)?;
        self.settle();
        Ok(answer)
    }
}
