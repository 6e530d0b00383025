//! Makes images of both versions: a root with files in it, on an otherwise empty disk. `make_as` answers exactly the
//! bytes that docs/FORMATS.md describes, or the first refusal that holds, in its order.
//!
//! The programs read the host's files no further than they can use them. They write a file beside its place and then
//! move it there, so that none is ever half written.
#![tactic(auto)]

mod appends;
mod command_line;
mod images;
mod judges;
mod layout;
mod made;
mod new_file;
mod nodes;
mod parts;
mod refused;
mod replacing;
pub mod widths;
mod words;

ghost use Rattle.std.specs.Prelude.{◌≤◌, ◌+◌, length, IfOk};

pub use crate::appends::push_many;
pub use crate::command_line::{
    FILES, FORCE, IMAGE, INODES, MIGRATE, SIZE, VERSION, number, options, version,
};
pub use crate::images::{ImageFile, ImageRefused, is_other_file, read_image};
pub use crate::judges::is_file_name;
pub use crate::layout::{data_start, node_blocks};
pub use crate::made::{made_blocks, made_front, made_inodes, make, make_as, push_front};
pub use crate::new_file::NewFile;
pub use crate::parts::{addresses, push_bitmap, push_content, push_entry};
pub use crate::refused::MakeRefused;
pub use crate::replacing::{SaveRefused, save, try_to_save};
pub use crate::words::{WordsRefused, read_words};
use std::fs::{File, Files};
use std::io;
use std::io::Read;

/// The file's bytes; of a longer one the first `most` and one more, so that the reading of a device without end stops
/// there.
pub fn read_at_most<R: Files + Alloc>(rt: &R, path: &str, most: usize) -> io::Result<Vec<u8, R::A>>
    ensures { IfOk result (λ bytes. length bytes.items ≤ most + 1) }
{
    let mut bytes = Vec::new(rt.alloc());
    let limit = most.saturating_add(1);
    File::open(rt, path)?
        .take(limit as u64)
        .read_to_end(&mut bytes)?;
    bytes.truncate(limit);
    Ok(bytes)
}
