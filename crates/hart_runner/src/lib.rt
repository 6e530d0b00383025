//! Threads of eight harts' callers, round one locked world.
//!
//! A `Kernel` has one lock, and eight `Seat`s, one for each hart. Each start and each step is made under the lock. A
//! call's receipt is of the seat's hart and its next reply, and hands the call back. `close` takes all eight seats,
//! and is Ok only if each seat's replies are its hart's in the list.
#![tactic(auto)]

mod gate;
mod kernel;
mod session;

pub use crate::gate::{Gate, NoGate};
pub use crate::kernel::{BusySeat, CallFault, Kernel, Seat, Strange};
pub use crate::session::two_calls;
