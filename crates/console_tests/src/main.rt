//! Tests of the console that no stored script can be. They are of a device, a script or answers that fail, of the
//! bytes of an image, and of short memory. What scripts print is in examples/rows/. The tests are here, above the
//! crate that they run.
#![tactic(auto)]

#[cfg(test)]
mod commits;
#[cfg(test)]
mod faults;
#[cfg(test)]
mod parts;
#[cfg(test)]
mod prompts;
#[cfg(test)]
mod scripts;
#[cfg(test)]
mod short;

// `rt test` runs the tests; there is nothing else to run here.
fn main() {}
