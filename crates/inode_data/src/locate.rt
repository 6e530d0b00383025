//! A block of a content, taken if it is missing.
ghost use Rattle.std.specs.Prelude.{◌≡◌, ◌≤◌, ◌<◌, ℕ, None, IsSome, IfSome, IfNone};
ghost use Rattle.inode_data.specs.Vocabulary.{bits_per_block, with_buffer, IsAfter, answer_in, Goes, left_after, bare, HandState};
ghost use Rattle.inode_data.specs.Widths.{direct, most_blocks};
ghost use Rattle.inode_data.specs.Writing.{with_address, locate};
ghost use Rattle.inode_data.specs.declared.locate.Located.{Located as LocatedState};
ghost use Rattle.inode_data.specs.Beginnings.{begun_of, IfBegun};
ghost use Rattle.inode_data.specs.InHand.{NoBuffers};
ghost use Rattle.inode_data.specs.Locating.{locate_left, locate_asked, named_direct, LocateReady, Leaves};
ghost use Rattle.inode_data.specs.declared.begun.Begun.TheVariants as begun;

use crate::addresses::{Address, DIRECT, address_of};
use crate::begun::Begun;
use crate::place::{name_at, number_at};
use bitmap_alloc::TakeBlock;
use fs_layout::{Dinode, Super};
use fs_machine::{Answer, Control, Fetch, Hand, Op, Part, Place};

/// A block's number, None if no block was free; and the inode's record, with what was taken for it.
#[derive(Drop, Clone, Copy)]
pub struct Located {
    pub inode: Dinode,
    pub number: Option<u32>,
}

impl Located {
    #[inline(always)]
    fn new(inode: Dinode, number: Option<u32>) -> Located
        ensures { result ≡ (record { inode = inode; number = number }) }
    {
        Located { inode, number }
    }
}

/// How far the search is.
#[derive(Clone, Copy, Drop)]
pub enum Stage {
    /// A block is taken for this place of the inode.
    Direct(usize, TakeBlock),
    /// An indirect block is taken, for the number at this place of it.
    NewTable(usize, TakeBlock),
    /// The indirect block is fetched.
    Table(usize, Fetch),
    /// A block is taken for this place of it.
    NewEntry(usize, TakeBlock),
    /// It goes back with this number there, or as it was.
    Name(usize, Option<u32>),
    /// It goes back as it was, and has this number.
    Give(u32),
}

/// Seeks a block of a content, and takes it if it is missing (xv6: `bmap`). An indirect block is taken just before
/// the block that needs it, and is in the second place of the hand.
#[derive(Clone, Copy, Drop)]
pub struct Locate {
    pub inode: Dinode,
    pub sizes: Super,
    pub stage: Stage,
}

impl Locate {
    /// Block `k` of the content of this inode, on a disk with this superblock.
    pub fn begin(inode: &Dinode, sizes: &Super, k: usize) -> Begun<Locate, Located>
        requires block { k < most_blocks }
        requires size { sizes.now.size ≤ bits_per_block }
        ensures program { (h : HandState) → begun_of (λ m. locate_left m h) (λ l. l) result ≡ locate sizes.now inode.now k }
        ensures ready { (h : HandState) → NoBuffers h → IsSome h.txn → IfBegun (λ m. LocateReady m h) (λ _. Unit {0}) result }
    {
        match address_of(k) {
            Address::Direct(i) => {
                let number = inode.addrs[i];
                if number != 0 {
                    return Begun::Is(Located::new(*inode, Some(number)));
                }
                let take = TakeBlock::new(sizes.bmapstart, sizes.size, Place::First);
                runs(inode, sizes, Stage::Direct(i, take))
            }
            Address::InTable(i) => {
                let table = inode.addrs[DIRECT];
                if table != 0 {
                    let fetch = Fetch::Get(Place::Second, table);
                    return runs(inode, sizes, Stage::Table(i, fetch));
                }
                let take = TakeBlock::new(sizes.bmapstart, sizes.size, Place::First);
                runs(inode, sizes, Stage::NewTable(i, take))
            }
        }
    }
}

impl Control for Locate {
    type Out = Located;

    ghost Value = { LocatedState };

    ghost value = { λ _ l _. l };

    ghost left = { locate_left };

    ghost asked = { locate_asked };

    ghost Ready = { LocateReady };

    ghost Ends = { λ _ _. Unit {0} };

    ghost Tells = { λ _ _ _ _ _ _. Unit {0} };

    fn op(&self, hand: &mut Hand) -> Op {
        match &self.stage {
            Stage::Direct(_, take) => take.op(hand),
            Stage::NewTable(_, take) => take.op(hand),
            Stage::Table(_, fetch) => fetch.op(hand),
            Stage::NewEntry(_, take) => take.op(hand),
            Stage::Name(i, number) => match number {
                None => Op::Give(Place::Second),
                Some(b) => {
                    name_at(hand, Place::Second, *i, *b);
                    Op::Record(Place::Second)
                }
            },
            Stage::Give(_) => Op::Give(Place::Second),
        }
    }

    #[inline(always)]
    #[tactic(auto, using(fs_machine::proofs::Going::goes_bind, fs_machine::proofs::Goings::fetched_goes))]
    fn next(&mut self, answer: &Answer, hand: &mut Hand) -> Option<Located>
        requires came { (before : HandState) × LocateReady self.old before × IsAfter (locate_asked self.old) before answer.now hand.old }
        ensures goes { (before : HandState) → LocateReady self.old before → IsAfter (locate_asked self.old) before answer.now hand.old
            → Goes (locate_left self.old before) (answer_in (locate_asked self.old) answer.now hand.old)
            (left_after locate_left (λ l _. l) result self.new hand.new) }
        ensures ready { IfNone result (LocateReady self.new hand.new) }
        ensures ends { IfSome result (λ _. Unit {0}) }
        ensures hand { bare hand.new ≡ bare hand.old }
        ensures same { hand.new ≡ hand.old }
        ensures over { IfSome result (λ _. (hand.old.first ≡ None) × (hand.old.second ≡ None)) }
        ensures beside { (before : HandState) → LocateReady self.old before → IsAfter (locate_asked self.old) before answer.now hand.old
            → Leaves before hand.old }
    {
        match &mut self.stage {
            Stage::Direct(i, take) => {
                let i = *i;
                let number = take.next(answer, hand)?;
                Some(direct_named(self.inode, i, number))
            }
            Stage::NewTable(i, take) => {
                let i = *i;
                match take.next(answer, hand) {
                    None => None,
                    Some(None) => Some(Located::new(self.inode, None)),
                    Some(Some(table)) => {
                        self.inode.addrs[DIRECT] = table;
                        self.stage = Stage::Table(i, Fetch::Get(Place::Second, table));
                        None
                    }
                }
            }
            Stage::Table(i, fetch) => {
                let i = *i;
                fetch.next(answer, hand)?;
                let number = number_at(hand, Place::Second, i);
                if number == 0 {
                    let take = TakeBlock::new(self.sizes.bmapstart, self.sizes.size, Place::First);
                    self.stage = Stage::NewEntry(i, take);
                    return None;
                }
                self.stage = Stage::Give(number);
                None
            }
            Stage::NewEntry(i, take) => {
                let i = *i;
                let number = take.next(answer, hand)?;
                self.stage = Stage::Name(i, number);
                None
            }
            Stage::Name(_, number) => Some(Located::new(self.inode, *number)),
            Stage::Give(number) => Some(Located::new(self.inode, Some(*number))),
        }
    }
}

// What was taken for a place of the inode.
fn direct_named(inode: Dinode, place: usize, number: Option<u32>) -> Located
    requires { place < direct }
    ensures { result ≡ named_direct place inode number }
{
    let mut inode = inode;
    match number {
        None => {}
        Some(b) => inode.addrs[place] = b,
    }
    Located::new(inode, number)
}

// A search at this stage.
#[inline(always)]
fn runs(inode: &Dinode, sizes: &Super, stage: Stage) -> Begun<Locate, Located>
    ensures { result ≡ begun.Runs (record { inode = inode.now; sizes = sizes.now; stage = stage }) }
{
    Begun::Runs(Locate {
        inode: *inode,
        sizes: *sizes,
        stage,
    })
}
