//! What the definitions say of one another.
ghost use Rattle.plain_tree.specs.Laws.{AnswersAreSteps, AppliedIsAStep, ClimbsInEachVersion, RowsName, RowsStay, SettledSteps, SettlesOnce};

/// A step as it is applied is a tree step. It must be in its place, with a right choice, and with the least unused id
/// for a file that it opens.
pub fn applied_is_a_step()
    ensures { AppliedIsAStep }
{}

/// What `Tree::apply` answered is a tree step, except if the step was out of its place; then nothing changed.
pub fn answers_are_steps()
    ensures { AnswersAreSteps }
{}

/// A tree that has settled stays as it is when it settles again.
pub fn settles_once()
    ensures { SettlesOnce }
{}

/// A node is named if some hart's current directory, hold or descriptor names it.
pub fn rows_name()
    ensures { RowsName }
{}

/// A step does to a settled tree what it does to the tree before it settled, if what the step asks for stays.
pub fn settled_steps()
    ensures { SettledSteps }
{}

/// A step of one hart leaves the current directory, the hold and the descriptors of every other hart, with their open
/// files. But an inherit's child takes over those of its hart.
pub fn rows_stay()
    ensures { RowsStay }
{}

/// Whether a path has the element ".." does not depend on the version that cuts its elements.
pub fn climbs_in_each_version()
    ensures { ClimbsInEachVersion }
{}
