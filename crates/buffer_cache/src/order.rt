//! The order of giving back.
ghost use Rattle.std.specs.Prelude.{◌≡◌, ◌<◌};
ghost use Rattle.std.specs.List.{find};
ghost use Rattle.buffer_cache.specs.Limits.{buffer_count};
ghost use Rattle.buffer_cache.specs.Lists.{change_to_end};
ghost use Rattle.buffer_cache.specs.Seats.{is_free};

use crate::limits::BUFFERS;
use crate::links::{link_all, link_behind, unlink};
use crate::seat::BufferSeat;
use std::marker::Model;

// One more number is for the ends of the order: after it comes the oldest, and before it the youngest.
const LINKS: usize = BUFFERS + 1;

/// The numbers of the buffers in order of giving back, each linked to its older and to its younger neighbour. A contract
/// sees the list of them.
#[derive(Drop)]
pub(crate) struct Order {
    younger: [u8; LINKS],
    older: [u8; LINKS],
}

impl Model for Order {
    ghost use Rattle.std.specs.Prelude.{ℕ, List};
    ghost use Rattle.buffer_cache.specs.Limits.{buffer_count};
    ghost use Rattle.buffer_cache.specs.Links.{follow, IsRing};

    ghost Value = { List ℕ };

    ghost view = { λ o. follow o.younger buffer_count buffer_count };

    ghost invariant = { λ o. IsRing buffer_count o.younger o.older };
}

impl Order {
    ghost use Rattle.buffer_cache.specs.Order.{numbered, numbers, is_same, IsOrdered};

    /// The numbers from 0 on.
    pub fn new() -> Order
        ensures { result ≡ numbers }
    {
        let mut younger = [0; LINKS];
        let mut older = [0; LINKS];
        link_all(&mut younger, &mut older);
        Order { younger, older }
    }

    /// The least recently given back buffer that is neither out nor pinned.
    pub fn first_free(&self, seats: &[BufferSeat]) -> Option<usize>
        requires ordered { IsOrdered seats.now self.now }
        ensures { result ≡ find (λ n. is_free (numbered seats.now n)) self.now }
    {
        let mut at = BUFFERS;
        for _ in 0..BUFFERS {
            at = self.younger[at] as usize;
            if seats[at].is_free() {
                return Some(at);
            }
        }
        None
    }

    /// Makes a buffer the most recent one.
    pub fn move_last(&mut self, number: u8)
        requires { number < buffer_count }
        ensures { self.new ≡ change_to_end (is_same number) (λ n. n) self.old }
    {
        // the buffer that was in use last is often given back again: then it is in its place
        if self.older[BUFFERS] == number {
            return;
        }
        unlink(&mut self.younger, &mut self.older, number);
        let youngest = self.older[BUFFERS];
        link_behind(&mut self.younger, &mut self.older, youngest, number);
    }
}
