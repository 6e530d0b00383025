//! The place of a step.
ghost use Rattle.std.specs.Prelude.{IsTrue, ◌↔◌};
ghost use Rattle.tree_histories.specs.Vocabulary.{IsInPlace, tree_of};

use plain_tree::{HARTS, Tree, TreeStep};

/// The step is in its place.
pub(crate) fn is_in_place(tree: &Tree, step: &TreeStep) -> bool
    ensures { IsTrue result ↔ IsInPlace (tree_of tree.now) step.now.hart step.now.action }
{
    step.hart < HARTS && tree.has_place(step.hart, &step.action)
}
