//! A block's buffer, taken and valid.
ghost use Rattle.std.specs.Prelude.{◌≡◌, ℕ, List, None, IfSome, IfNone};
ghost use Rattle.fs_machine.specs.Hands.{with_buffer};
ghost use Rattle.fs_machine.specs.Ops.{IsAfter, answer_in};
ghost use Rattle.fs_machine.specs.Controls.{Goes, left_after, bare};
ghost use Rattle.fs_machine.specs.declared.hand.Hand.{Hand as HandState};
ghost use Rattle.fs_machine.specs.Fetching.{fetch_left, fetch_asked, FetchReady, FetchEnds, fetched_bytes, fetch_block, fetch_place};

use crate::Kind;
use crate::control::Part;
use crate::hand::{Hand, Place};
use crate::op::{Answer, Op};

/// Takes a block's buffer, and reads the block if it isn't valid (xv6: `bread`).
#[derive(Clone, Copy, Drop)]
pub enum Fetch {
    Get(Place, u32),
    Read(Place, u32),
}

/// The buffer's place, and its block.
#[derive(Clone, Copy, Drop)]
pub struct Fetched {
    pub place: Place,
    pub block: u32,
}

impl Part for Fetch {
    type Out = Fetched;

    ghost Value = { List ℕ };

    ghost value = { fetched_bytes };

    ghost left = { fetch_left };

    ghost asked = { fetch_asked };

    ghost Ready = { FetchReady };

    ghost place = { fetch_place };

    ghost About = { ℕ };

    ghost about = { fetch_block };

    ghost Ends = { FetchEnds };

    fn op(&self, hand: &mut Hand) -> Op {
        match self {
            Fetch::Get(place, b) => Op::Get(*place, *b),
            Fetch::Read(place, _) => Op::Read(*place),
        }
    }

    #[inline(always)]
    #[tactic(auto, using(crate::proofs::Going::got_valid, crate::proofs::Going::got_unread, crate::proofs::Going::was_read))]
    fn next(&mut self, answer: &Answer, hand: &Hand) -> Option<Fetched> {
        match *self {
            Fetch::Get(place, block) => {
                if hand.is_valid(place) {
                    Some(Fetched { place, block })
                } else {
                    *self = Fetch::Read(place, block);
                    None
                }
            }
            Fetch::Read(place, block) => Some(Fetched { place, block }),
        }
    }
}
