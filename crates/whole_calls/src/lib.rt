//! Calls over whole inodes (xv6's sysfile.c, and what it calls of file.c): what a call asks next, and how it goes on with what it hears.
#![tactic(auto)]

mod chdir;
mod close;
mod descriptors;
mod dropping;
mod ending;
mod link;
mod mkdir;
mod opens;
mod reading;
mod unlink;
mod whole;
mod writing;

pub use crate::chdir::Chdir;
pub use crate::close::{Close, Inherit};
pub use crate::descriptors::{Dup, Fstat};
pub use crate::dropping::Dropping;
pub use crate::ending::{Ending, Freeing};
pub use crate::link::Link;
pub use crate::mkdir::Mkdir;
pub use crate::opens::{Found, NewName, Open};
pub use crate::reading::Read;
pub use crate::unlink::{Name, Unlink};
pub use crate::whole::Whole;
pub use crate::writing::{Piece, Write};
