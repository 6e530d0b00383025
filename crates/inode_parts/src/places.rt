//! The seat in hand of an inode's lock, or of a reference to it.
ghost use Rattle.std.specs.Prelude.{◌≡◌};
ghost use Rattle.inode_parts.specs.Vocabulary.{number_at, reference_at};
ghost use Rattle.inode_parts.specs.OneSteps.{free_seat, locks, refers, seat_of_lock, seat_of_reference};

use fs_machine::{Hand, Inode, InodePlace, Reference};
use sleep_lock::Guard;

fn number_of(reference: &Option<Reference>) -> Option<u32>
    ensures { result ≡ reference.now }
{
    match reference {
        Some(reference) => Some(reference.number()),
        None => None,
    }
}

/// The number of the inode to which the reference at a seat is.
pub(crate) fn number_to(hand: &Hand, seat: InodePlace) -> Option<u32>
    ensures { result ≡ reference_at seat hand.now }
{
    match seat {
        InodePlace::One => number_of(&hand.to_one),
        InodePlace::Two => number_of(&hand.to_two),
    }
}

/// That number, if there is a reference.
pub(crate) fn known_number(hand: &Hand, seat: InodePlace) -> u32
    ensures { result ≡ number_at seat hand.now }
{
    number_to(hand, seat).unwrap_or(0)
}

fn has_number(place: &Option<Guard<Inode>>, number: u32) -> bool
    ensures { result ≡ locks number place.now }
{
    match place {
        Some(guard) => number == guard.value().number(),
        None => false,
    }
}

/// The seat of the lock of the inode of this number.
pub(crate) fn lock_seat(hand: &Hand, number: u32) -> InodePlace
    ensures { result ≡ seat_of_lock number hand.now }
{
    if has_number(&hand.one, number) {
        InodePlace::One
    } else {
        InodePlace::Two
    }
}

fn refers_to(place: &Option<Reference>, number: u32) -> bool
    ensures { result ≡ refers number place.now }
{
    match place {
        Some(reference) => number == reference.number(),
        None => false,
    }
}

/// The seat of the reference to the inode of this number.
pub(crate) fn reference_seat(hand: &Hand, number: u32) -> InodePlace
    ensures { result ≡ seat_of_reference number hand.now }
{
    if refers_to(&hand.to_one, number) {
        InodePlace::One
    } else {
        InodePlace::Two
    }
}

/// Whether the reference at a seat is to the inode of this number.
pub(crate) fn refers_at(hand: &Hand, seat: InodePlace, number: u32) -> bool
    ensures { result ≡ refers number (reference_at seat hand.now) }
{
    match seat {
        InodePlace::One => refers_to(&hand.to_one, number),
        InodePlace::Two => refers_to(&hand.to_two, number),
    }
}

/// The free seat of the hand: the first if it has no reference, else the second.
pub(crate) fn free_seat(hand: &Hand) -> InodePlace
    ensures { result ≡ free_seat hand.now }
{
    match &hand.to_one {
        Some(_) => InodePlace::Two,
        None => InodePlace::One,
    }
}
