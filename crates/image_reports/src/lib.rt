//! Reports about an image: the tree that it holds as lines, the bytes of its files, and the fields of its parts.
//!
//! An image is examined first, and only read. A path begins at the root, with a '/' or without.
#![tactic(auto)]

mod dump;
mod fault;
mod fields;
mod file;
mod item;
mod line;
mod listing;
mod opened;
mod paths;
mod rows;
mod shown;
mod usage;
mod walk;
mod words;

pub use crate::dump::{dump_directory, dump_inode, dump_log, dump_super};
pub use crate::fault::ReportFault;
pub use crate::file::{content_at, get};
pub use crate::item::Item;
pub use crate::listing::list;
pub use crate::opened::{Opened, open_image};
pub use crate::usage::{Usage, find_usage, write_usage};
pub use crate::walk::{listings_are_one, write_below};
pub use crate::words::{path_in, shown_paths_are_read};
