//! Operations on whole inodes as parts over blocks.
#![tactic(auto)]

mod answers;
mod call_text;
mod changing_directories;
mod changing_inodes;
mod faces;
mod file_bytes;
mod laws;
mod locking_files;
mod lowered;
mod note;
mod one_step;
mod opening;
mod operation;
mod part;
mod places;
mod records;
mod relock_part;
mod take_part;

pub use changing_directories::{ClearPart, EnterPart, FillPart};
pub use changing_inodes::{ClaimPart, EmptyPart, FreePart, StorePart};
pub use file_bytes::{LockedFile, ReadFilePart, WriteFilePart};
pub use laws::dup_runs_by_parts;
pub use locking_files::{LockFilePart, LockOpenPart, StatFilePart};
pub use lowered::Lowered;
pub use note::{Note, Notes};
pub use one_step::OneStep;
pub use operation::Operation;
pub use part::InodePart;
pub use relock_part::RelockPart;
pub use take_part::TakePart;
