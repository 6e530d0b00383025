//! Inodes whose locks are in hand.
ghost use Rattle.std.specs.Prelude.{◌≡◌, Some, None, IsSome};
ghost use Rattle.inode_table.specs.Vocabulary.{option_map, inode_at};
ghost use Rattle.inode_table.specs.HeldInodes.{record_in, without_content, unloaded, IsLoadedAt};

use fs_layout::Dinode;
use fs_machine::{Hand, Inode, InodePlace};
use sleep_lock::Guard;

/// The record of the inode at a seat.
pub fn record_at(hand: &Hand, seat: InodePlace) -> &Dinode
    requires { IsLoadedAt seat hand.now }
    ensures { result.now ≡ record_in seat hand.now }
{
    hand.inode(seat).record()
}

fn unload(place: &mut Option<Guard<Inode>>)
    requires { IsSome place.old }
    ensures { place.new ≡ option_map without_content place.old }
{
    match place {
        Some(guard) => guard.value_mut().unload(),
        None => unreachable!(),
    }
}

/// Unloads the inode at a seat.
pub fn unload_at(hand: &mut Hand, seat: InodePlace)
    requires { IsSome (inode_at seat hand.old) }
    ensures { hand.new ≡ unloaded seat hand.old }
{
    match seat {
        InodePlace::One => unload(&mut hand.one),
        InodePlace::Two => unload(&mut hand.two),
    }
}
