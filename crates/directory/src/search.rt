//! A directory searched: its index, and then the blocks after those that it has, one at a time.
ghost use Rattle.std.specs.Prelude.{◌≡◌, ◌+◌, ◌≤◌, ◌<◌, Some, None, IsSome, IfSome, IfNone};
ghost use Rattle.directory.specs.Vocabulary.{asks, Version as VersionState, IfBegun, InodePlace as InodePlaceState, most_blocks, op_in, answer_in, CanDo, Prepared, IsAfter, IsLoadedAt, IsName, Goes, bare, index_at, left_after, loaded_in, record_in, Hand as HandState, NoBuffers};
ghost use Rattle.directory.specs.Programs.{Aim, Entry, Named, lookup, search, search_from};
ghost use Rattle.directory.specs.Sought.{aim_of, IsSlot, IsSought};
ghost use Rattle.directory.specs.Searching.{begun_left, beside_index, entries, found_with, search_left, search_asked, SearchReady};

use crate::found::{Found, Sought, block_count, is_directory, is_live_directory};
use crate::index::first_of;
use crate::seat::{index_at, look_at};
use fs_machine::{Answer, Hand, InodePlace, Op, Part, Place};
use image_versions::Version;
use inode_data::{Begun, FetchBlock};
use inode_table::record_at;

/// The blocks of a directory that a search has to look at yet.
#[derive(Clone, Copy, Drop)]
pub struct Blocks {
    /// This one is looked at next ..
    pub block: usize,
    /// .. and this number after it.
    pub left: usize,
}

/// Looks for a slot of the directory whose lock is at a seat, a block at a time, and stops at the first. Each of its
/// steps gets the seat and what is sought (xv6: `dirlookup`).
#[derive(Clone, Copy, Drop)]
pub enum Search {
    /// The next block is fetched.
    Fetching(Blocks, FetchBlock),
    /// It was looked at, and is given back.
    Giving(Blocks, Option<Found>),
}

impl Search {
    /// Over all slots of the directory at a seat.
    #[inline(always)]
    pub fn begin(
        version: Version,
        hand: &Hand,
        seat: InodePlace,
        sought: Sought,
    ) -> Begun<Search, Option<Found>>
        requires loaded { IsLoadedAt seat hand.now }
        requires sought { IsSought version sought }
        ensures program { let aim = aim_of sought.entry in begun_left version aim seat result hand.now
            ≡ search version aim (loaded_in seat hand.now) }
        ensures ready { NoBuffers hand.now → IfBegun (λ m. SearchReady version seat m hand.now) (λ _. Unit {0}) result }
        ensures slot { IfBegun (λ _. Unit {0}) (IsSlot version) result }
    {
        let inode = record_at(hand, seat);
        let index = index_at(hand, seat);
        match first_of(version, index, inode, sought) {
            Some(found) => Begun::Is(Some(found)),
            None => {
                let known = index.blocks();
                let left = block_count(version, inode).saturating_sub(known);
                next(version, hand, seat, known, left)
            }
        }
    }

    /// For what the directory at a seat has under a name. If it has no link, or is no directory, nothing is found and
    /// no block touched.
    #[inline(always)]
    pub fn lookup(
        version: Version,
        hand: &Hand,
        seat: InodePlace,
        name: &[u8],
    ) -> Begun<Search, Option<Found>>
        requires loaded { IsLoadedAt seat hand.now }
        requires name { IsName version name.now }
        ensures program { begun_left version (Named name.now) seat result hand.now ≡ lookup version name.now (loaded_in seat hand.now) }
        ensures ready { NoBuffers hand.now → IfBegun (λ m. SearchReady version seat m hand.now) (λ _. Unit {0}) result }
        ensures slot { IfBegun (λ _. Unit {0}) (IsSlot version) result }
    {
        if is_live_directory(record_at(hand, seat)) {
            Search::begin(version, hand, seat, Sought::Name(name))
        } else {
            Begun::Is(None)
        }
    }

    /// For a used slot past the first two: whether a directory is empty. In what is no directory there is none.
    pub fn entries(version: Version, hand: &Hand, seat: InodePlace) -> Begun<Search, Option<Found>>
        requires { IsLoadedAt seat hand.now }
        ensures program { begun_left version Entry seat result hand.now ≡ entries version (loaded_in seat hand.now) }
        ensures ready { NoBuffers hand.now → IfBegun (λ m. SearchReady version seat m hand.now) (λ _. Unit {0}) result }
        ensures slot { IfBegun (λ _. Unit {0}) (IsSlot version) result }
    {
        if is_directory(record_at(hand, seat)) {
            Search::begin(version, hand, seat, Sought::Entry)
        } else {
            Begun::Is(None)
        }
    }

    /// The next operation.
    pub fn op(&self, hand: &mut Hand) -> Op
        requires ready { (version : VersionState) × (seat : InodePlaceState) × SearchReady version seat self.now hand.old }
        ensures op { result ≡ search_asked self.now }
        ensures asks { (version : VersionState) (aim : Aim) (seat : InodePlaceState)
            → asks (search_left version aim seat self.now hand.old) ≡ Some (op_in hand.new result) }
        ensures can { CanDo result hand.new }
        ensures prepared { Prepared result hand.old hand.new }
    {
        match self {
            Search::Fetching(_, fetch) => fetch.op(hand),
            Search::Giving(_, _) => Op::Give(Place::First),
        }
    }

    /// How it goes on. The block that was fetched is indexed if it may be; all else in hand but the buffers is as it
    /// was.
    #[inline(always)]
    #[tactic(auto, using(fs_machine::proofs::Going::goes_bind))]
    pub fn next(
        &mut self,
        version: Version,
        seat: InodePlace,
        sought: Sought,
        answer: &Answer,
        hand: &mut Hand,
    ) -> Option<Option<Found>>
        requires sought { IsSought version sought }
        requires came { (before : HandState) × SearchReady version seat self.old before
            × IsAfter (search_asked self.old) before answer.now hand.old }
        ensures goes { (before : HandState) → SearchReady version seat self.old before
            → IsAfter (search_asked self.old) before answer.now hand.old
            → Goes (search_left version (aim_of sought.entry) seat self.old before) (answer_in (search_asked self.old) answer.now hand.old)
            (left_after (search_left version (aim_of sought.entry) seat) (found_with seat) result self.new hand.new) }
        ensures ready { IfNone result (SearchReady version seat self.new hand.new) }
        ensures slot { IfSome result (IsSlot version) }
        ensures over { IfSome result (λ _. NoBuffers hand.new) }
        ensures loaded { IsLoadedAt seat hand.new }
        ensures beside { (before : HandState) → SearchReady version seat self.old before
            → IsAfter (search_asked self.old) before answer.now hand.old
            → beside_index seat hand.new ≡ beside_index seat before }
        ensures hand { bare hand.new ≡ bare hand.old }
    {
        match self {
            Search::Fetching(at, fetch) => {
                let at = *at;
                let Some(_) = fetch.next(answer, hand) else {
                    return None;
                };
                let found = look_at(version, hand, seat, at.block, sought);
                *self = Search::Giving(at, found);
                None
            }
            Search::Giving(at, found) => {
                let at = *at;
                match *found {
                    Some(found) => Some(Some(found)),
                    None => match next(version, hand, seat, at.block + 1, at.left) {
                        Begun::Is(found) => Some(found),
                        Begun::Runs(search) => {
                            *self = search;
                            None
                        }
                    },
                }
            }
        }
    }
}

// `left` blocks, from one on.
#[tactic(auto, unfolding(crate::specs::Programs::search_from))]
fn next(
    version: Version,
    hand: &Hand,
    seat: InodePlace,
    block: usize,
    left: usize,
) -> Begun<Search, Option<Found>>
    requires loaded { IsLoadedAt seat hand.now }
    requires within { 0 < left → block + left ≤ most_blocks }
    ensures program { (aim : Aim) → begun_left version aim seat result hand.now
        ≡ search_from version left aim (record_in seat hand.now) block (index_at seat hand.now) }
    ensures ready { NoBuffers hand.now → IfBegun (λ m. SearchReady version seat m hand.now) (λ _. Unit {0}) result }
    ensures slot { IfBegun (λ _. Unit {0}) (IsSlot version) result }
{
    if left == 0 {
        return Begun::Is(None);
    }
    let fetch = FetchBlock::new(record_at(hand, seat), block);
    let at = Blocks {
        block,
        left: left - 1,
    };
    Begun::Runs(Search::Fetching(at, fetch))
}
