//! Tests of a mounted world: what its calls answer, event by event, and the histories that are handed out. They are
//! here, above the crates that they run, because a crate with tests is proved twice. Most are rows (`rows`), over a
//! few images (`images`), so that there are few functions to prove.
#![tactic(auto)]

#[cfg(test)]
mod between;
#[cfg(test)]
mod calls;
#[cfg(test)]
mod contents;
#[cfg(test)]
mod creates;
#[cfg(test)]
mod directories;
#[cfg(test)]
mod everywhere;
#[cfg(test)]
mod histories;
#[cfg(test)]
mod history_rows;
#[cfg(test)]
mod images;
#[cfg(test)]
mod inherits;
#[cfg(test)]
mod links;
#[cfg(test)]
mod lists;
#[cfg(test)]
mod memory;
#[cfg(test)]
mod opens;
#[cfg(test)]
mod play;
#[cfg(test)]
mod rows;
#[cfg(test)]
mod runs;
#[cfg(test)]
mod short;
#[cfg(test)]
mod short_histories;
#[cfg(test)]
mod stops;
#[cfg(test)]
mod trees;
#[cfg(test)]
mod unlinks;
#[cfg(test)]
mod worked;
#[cfg(test)]
mod writes;

// `rt test` runs the tests; there is nothing else to run here.
fn main() {}
