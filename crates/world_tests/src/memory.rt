//! Memory of a test. If it is refused the test says so, and ends.
use std::alloc::Global;
use std::process::Abort;

/// One item more.
pub fn push<T: Drop>(rt: &impl Abort, items: &mut Vec<T>, item: T) {
    assert!(rt; items.push(item).is_ok(), "error: AllocError");
}

/// Bytes of their own.
pub fn copied(rt: &impl Abort, alloc: Global, bytes: &[u8]) -> Vec<u8> {
    Vec::from_slice(alloc, bytes).expect(rt, "error")
}
