//! The differences between the versions of images, and the widths and limits that all share. Each version is a row of
//! a table here, so that no other crate has numbers of its own for them. docs/FORMATS.md has both versions side by
//! side.
//!
//! Version 1 is xv6's own image. In version 2 a directory's entry has 32 bytes, and so a name up to 30.
#![tactic(auto)]

pub mod laws;
pub mod one;
pub mod two;
mod version;
pub mod widths;

pub use crate::version::Version;
