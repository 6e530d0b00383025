//! Which buffer has a block.
ghost use Rattle.std.specs.Prelude.{◌≡◌, ◌≤◌, ◌<◌, ℕ, List, length, slice_set, Option, Some};
ghost use Rattle.std.specs.List.{position};
ghost use Rattle.buffer_cache.specs.Limits.{buffer_count};
ghost use Rattle.buffer_cache.specs.Links.{head_of};
ghost use Rattle.buffer_cache.specs.Lists.{count_of};
ghost use Rattle.buffer_cache.specs.Seats.{has_block, unused_from};

use crate::limits::BUFFERS;
use crate::links::{link_all, link_behind, unlink};
use crate::seat::BufferSeat;
use std::marker::Model;

// A block's buffer is in the chain of the block's number modulo this.
const CHAINS: usize = 13;

// The head of a chain has this number more.
const HEADS: usize = BUFFERS;

// The head of the chain of the buffers that have no block.
const UNUSED: usize = HEADS + CHAINS;

const LINKS: usize = UNUSED + 1;

/// The numbers of the buffers, linked in chains by their blocks. All chains are one ring: after the head of a chain
/// come the buffers of that chain. A contract sees what comes after the head of those that have no block.
#[derive(Drop)]
pub(crate) struct Chains {
    next: [u8; LINKS],
    previous: [u8; LINKS],
}

impl Model for Chains {
    ghost use Rattle.std.specs.Prelude.{ℕ, List};
    ghost use Rattle.buffer_cache.specs.Links.{follow, no_block, IsRing};

    ghost Value = { List ℕ };

    ghost view = { λ c. follow c.next no_block no_block };

    ghost invariant = { λ c. IsRing no_block c.next c.previous };
}

impl Chains {
    ghost use Rattle.buffer_cache.specs.Links.{IsChained, IsGrouped};

    /// No buffer has a block.
    pub fn new() -> Chains
        ensures { IsChained (unused_from 0 buffer_count) result }
    {
        let mut next = [0; LINKS];
        let mut previous = [0; LINKS];
        link_all(&mut next, &mut previous);
        Chains { next, previous }
    }

    /// The buffer that has a block.
    pub fn find(&self, seats: &[BufferSeat], b: u32) -> Option<usize>
        requires chained { IsChained seats.now self.now }
        requires once { count_of (has_block b) seats.now ≤ 1 }
        ensures { result ≡ position (has_block b) seats.now }
    {
        let mut at = chain_of(b) as usize;
        for _ in 0..BUFFERS {
            at = self.next[at] as usize;
            if at >= BUFFERS {
                return None;
            }
            if seats[at].has_block(b) {
                return Some(at);
            }
        }
        None
    }

    /// Moves a buffer to the chain of the block `b`, which it gets.
    pub fn move_to(&mut self, number: u8, b: u32)
        requires { number < buffer_count }
        ensures { (blocks : List (Option ℕ)) → number < length blocks → IsGrouped blocks self.old
            → IsGrouped (slice_set blocks number (Some b)) self.new }
    {
        unlink(&mut self.next, &mut self.previous, number);
        link_behind(&mut self.next, &mut self.previous, chain_of(b), number);
    }
}

// The head of a block's chain.
fn chain_of(b: u32) -> u8
    ensures { result ≡ head_of (Some b) }
{
    (HEADS + b as usize % CHAINS) as u8
}
