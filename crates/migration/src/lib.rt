//! Migrates an image to a later version: makes a new image with the same tree (docs/MKFS.md says what the image has).
//!
//! The new image isn't examined again: it is proved that it is an image with the same tree.
#![tactic(auto, using(block_device::specs::CallLaws::by_calls))]

mod directories;
mod image;
pub mod laws;
mod migration;
mod node;
mod nodes;
mod parts;
mod refused;
mod sizes;
mod slots;
mod taken;
mod taking;

pub use crate::migration::{least_size, migrate};
pub use crate::node::NewNode;
pub use crate::refused::MigrateRefused;
