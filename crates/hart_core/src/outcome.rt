//! The outcome of a step.
use fs_machine::Kind;
use plain_tree::Reply;

/// Why a call is stopped.
#[derive(Clone, Copy, PartialEq, Eq, Debug)]
pub enum Stop {
    /// The device failed in this step.
    DeviceFault = 31,
    /// It had failed before.
    Halted = 32,
}

/// The outcome of a hart's step.
#[derive(Drop)]
pub enum Outcome {
    /// The hart has no call.
    Idle,
    /// It waits, for another hart or for the log.
    Waits,
    /// One operation of this kind ran, and the call goes on.
    Ran(Kind),
    /// The call's last operation ran.
    Done(Reply),
    /// The call neither ran nor waits.
    Stopped(Stop),
}
