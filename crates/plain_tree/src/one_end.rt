//! The trees that steps lead to.
ghost use Rattle.plain_tree.specs.OneEnd.{ChainsToOne, StepsToOne};

/// A step gives one answer at most, and leads to one tree at most: that of `Tree::apply`, if the step is in its
/// place.
pub fn steps_to_one()
    ensures { StepsToOne }
{}

/// A list of steps with their answers leads from a tree to one tree at most.
pub fn chains_to_one()
    ensures { ChainsToOne }
{}
