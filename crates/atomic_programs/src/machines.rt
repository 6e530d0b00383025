//! The result of a machine's step.
ghost use Rattle.std.specs.Prelude.{◌≡◌, Some, None};

use std::mem;

/// A machine is a value that `step` consumes and hands on. Its contract says which program it represents. The
/// operation's answer decides the kind of a step, in that very step.
#[derive(Drop)]
pub enum Stepped<M, R, K> {
    /// It waits, and nothing has changed.
    Waits(M),
    /// One operation ran, of this kind.
    Ran(M, K),
    /// The last operation ran, of this kind, and this is the result.
    Done(R, K),
    /// The operation stopped the world; the machine represents the same program as before.
    Stopped(M),
}

/// The result of a step of a machine in its place. The rest of the machine stays there, so that a machine within
/// others isn't moved.
#[derive(Drop)]
pub enum SteppedInPlace<R, K> {
    /// It waits, and nothing has changed.
    Waits,
    /// One operation ran, of this kind.
    Ran(K),
    /// The last operation ran, of this kind, and this is the result. Nothing is left of the machine.
    Done(R, K),
    /// The operation stopped the world; the machine represents the same program as before.
    Stopped,
}

/// Puts a machine in an empty place.
pub fn put<M>(place: &mut Option<M>, machine: M)
    requires { place.old ≡ None }
    ensures { place.new ≡ Some machine }
{
    match mem::replace(place, Some(machine)) {
        None => {}
        Some(_) => unreachable!(),
    }
}
