//! What a migrated image is. The function does nothing: it carries the law.
ghost use Rattle.migration.specs.Laws.{MigratedImagesHoldTheTree};

/// The image that is made of one that can be migrated is well formed, and holds the same tree.
pub fn migrated_images_hold_the_tree()
    ensures { MigratedImagesHoldTheTree }
{}
