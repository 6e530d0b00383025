//! Tests of the layers: the plain tree and the search for histories, images that are examined, recovered and made.
//! And of the layers from records in blocks up to the log. They are here, above the crates that they run, because a
//! crate with tests is proved twice.
#![tactic(auto)]

#[cfg(test)]
mod buffers;
pub mod by_hand;
#[cfg(test)]
mod disks;
#[cfg(test)]
mod explains;
#[cfg(test)]
mod images;
#[cfg(test)]
mod locks;
#[cfg(test)]
mod logs;
#[cfg(test)]
mod made_images;
#[cfg(test)]
mod makes;
#[cfg(test)]
mod nameless;
#[cfg(test)]
mod plain_buffers;
#[cfg(test)]
mod records;
#[cfg(test)]
mod recoveries;
#[cfg(test)]
mod searches;
#[cfg(test)]
mod short;
#[cfg(test)]
mod steps;
#[cfg(test)]
mod story;
#[cfg(test)]
mod tables;
#[cfg(test)]
mod told;
#[cfg(test)]
mod told_images;
