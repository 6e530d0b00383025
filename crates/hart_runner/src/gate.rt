//! What workers ask before each step.
use std::sync::Wait;

/// What a worker asks before each step of a call, with no lock held.
pub trait Gate {
    /// Before this hart makes a try of its call; they are numbered from 0, and the greatest number stays.
    fn at(&self, rt: &impl Wait, hart: u8, number: u64);
}

/// A gate that is always open.
#[derive(Drop)]
pub struct NoGate;

impl Gate for NoGate {
    fn at(&self, _rt: &impl Wait, _hart: u8, _number: u64) {}
}
