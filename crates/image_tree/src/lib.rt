//! The examination of an image: what damage it has, and which tree it holds.
//!
//! Nodes without a name are freed before a disk is used again (`settle`). A node that was removed while it was open
//! is one, if the file system stopped before its last close.
#![tactic(auto, using(block_device::specs::CallLaws::by_calls))]

mod content;
mod counts;
mod disk;
mod entries;
mod examination;
mod fault;
mod freeing;
mod heads;
mod inodes;
mod limits;
mod links;
mod marks;
mod names;
mod numbers;
mod once;
mod one_tree;
mod putting;
mod recovery;
mod restart;
mod rows;
mod settling;
mod shape;
mod sizes;
mod slots;
mod tallies;
mod trees;
mod types;

pub use crate::content::load_content;
pub use crate::disk::{Layout, load, load_inode};
pub use crate::examination::{examine, examine_layout};
pub use crate::fault::{Damage, MountFault};
pub use crate::freeing::{freed_disks_agree, freed_nodes_leave_images, reclaim};
pub use crate::heads::{find_layout, find_version, supers_tell_versions};
pub use crate::inodes::{is_directory, is_free, is_live, is_live_directory};
pub use crate::numbers::numbers_at;
pub use crate::recovery::{images_are_seen_recovered, recover};
pub use crate::restart::recovered_tree;
pub use crate::settling::settle;
pub use crate::shape::Shape;
pub use crate::sizes::block_number;
pub use crate::slots::load_slots;
pub use crate::trees::tree_of;
