//! Tests of running harts: threads that make calls of one kernel. They are here, above the crates that they run,
//! because a crate with tests is proved twice.
#![tactic(auto)]

#[cfg(test)]
mod asks;
#[cfg(test)]
mod differences;
#[cfg(test)]
mod handed;
#[cfg(test)]
mod kernels;
#[cfg(test)]
mod meeting;
#[cfg(test)]
mod plan;
#[cfg(test)]
mod runs;
#[cfg(test)]
mod seats;
#[cfg(test)]
mod short;
#[cfg(test)]
mod turns;
#[cfg(test)]
mod work;

// `rt test` runs the tests; there is nothing else to run here.
fn main() {}
