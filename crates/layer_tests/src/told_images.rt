//! What a test says of a row that doesn't hold.
use std::fmt::Display;
use std::process::Abort;

/// Ends the test if something isn't so, and says of what.
pub fn holds<N: Display + Drop>(rt: &impl Abort, is_so: bool, of: &str, number: N) {
    if !is_so {
        panic!(rt; "it isn't so: {of} {number}");
    }
}
