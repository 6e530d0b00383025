//! What the steps on descriptors and open files answer.
use crate::entries::Reference;
use crate::files::Refused;

/// A descriptor doubled.
#[derive(Clone, Copy)]
pub enum Doubled {
    BadDescriptor,
    /// The hart's descriptors are all open.
    Full,
    Gave(u8),
}

/// A descriptor closed.
pub enum Shut {
    BadDescriptor,
    /// Others name the open file still.
    Closed,
    /// It was the last one: the reference that the file had.
    Last(Reference),
}

/// What goes to a child next.
pub enum Given {
    /// This descriptor, which it has now too; and whether there are more to come.
    Descriptor(u8, bool),
    /// There is none left: the directory. The child's old one is to be dropped.
    Directory(Reference),
}
