//! A name's slot cleared.
ghost use Rattle.std.specs.Prelude.{◌≡◌, ◌<◌, ◌^◌, Some, None, IsSome, IfSome, IfNone};
ghost use Rattle.directory.specs.Vocabulary.{Dinode as DinodeState, Free, inode_block, IsAfter, answer_in, Goes, left_after, bare, Hand as HandState, beside_buffers, NoBuffers};
ghost use Rattle.directory.specs.Programs.{most_slots, put_entry, with_slot};
ghost use Rattle.directory.specs.Clearing.{clear_left, clear_asked, ClearReady};

use fs_layout::{Dinode, Dirent, write_dirent};
use fs_machine::{Answer, Hand, Op, Part, Place, Routine};
use image_versions::Version;
use inode_data::FetchBlock;
use inode_table::StoreInode;

/// A slot of a directory.
#[derive(Clone, Copy, Drop)]
pub struct Slot {
    /// The version of its image.
    pub version: Version,
    /// The directory as it is.
    pub inode: Dinode,
    /// Its number, on a disk whose inode blocks begin at `inodestart`.
    pub number: u32,
    pub inodestart: u32,
    /// The slot's place, counted from the directory's first one.
    pub slot: u32,
}

/// Clears a slot of a directory, and stores the directory, which is as it was if the slot is one of its own. Its
/// record is answered.
#[derive(Drop)]
pub enum Clear {
    /// The slot's block is fetched.
    Fetching(Slot, FetchBlock),
    /// It is there.
    Write(Slot),
    /// The directory is stored, with this record.
    Storing(Dinode, StoreInode),
}

impl Clear {
    /// This slot.
    pub fn new(slot: Slot) -> Clear
        requires slot { slot.slot < most_slots slot.version }
        requires block { inode_block slot.inodestart slot.number < 2 ^ 32 }
        ensures program { (h : HandState) → clear_left result h
            ≡ put_entry slot.version slot.inodestart slot.number slot.inode slot.slot Free }
        ensures ready { (h : HandState) → NoBuffers h → IsSome h.txn → ClearReady result h }
    {
        let block = slot.slot as usize / slot.version.dirents_per_block();
        let fetch = FetchBlock::new(&slot.inode, block);
        Clear::Fetching(slot, fetch)
    }
}

impl Routine for Clear {
    type Out = Dinode;

    ghost Value = { DinodeState };

    ghost value = { λ inode _. inode };

    ghost left = { clear_left };

    ghost asked = { clear_asked };

    ghost Ready = { ClearReady };

    ghost About = { Unit {0} };

    ghost about = { λ _. tt };

    ghost beside = { beside_buffers };

    ghost Ends = { λ _ _ h. NoBuffers h };

    #[tactic(auto, unfolding(crate::specs::Programs::with_dirent))]
    fn op(&self, hand: &mut Hand) -> Op {
        match self {
            Clear::Fetching(_, fetch) => fetch.op(hand),
            Clear::Write(slot) => {
                let place = slot.slot as usize % slot.version.dirents_per_block();
                write_dirent(
                    slot.version,
                    hand.block_mut(Place::First),
                    place,
                    &Dirent::Free,
                );
                Op::Record(Place::First)
            }
            Clear::Storing(_, store) => store.op(hand),
        }
    }

    #[tactic(auto, using(fs_machine::proofs::Going::goes_bind))]
    fn next(&mut self, answer: &Answer, hand: &mut Hand) -> Option<Dinode> {
        match self {
            Clear::Fetching(slot, fetch) => {
                fetch.next(answer, hand)?;
                *self = Clear::Write(*slot);
                None
            }
            Clear::Write(slot) => {
                let inode = slotted(slot);
                let store = StoreInode::new(slot.inodestart, slot.number, inode, Place::First);
                *self = Clear::Storing(inode, store);
                None
            }
            Clear::Storing(inode, store) => {
                let inode = *inode;
                store.next(answer, hand)?;
                Some(inode)
            }
        }
    }
}

// The directory's record with the slot.
fn slotted(slot: &Slot) -> Dinode
    requires { slot.now.slot < most_slots slot.now.version }
    ensures { result ≡ with_slot slot.now.version slot.now.slot slot.now.inode }
{
    let end = slot.version.dirent_len() as u32 * (slot.slot + 1);
    Dinode {
        size: slot.inode.size.max(end),
        ..slot.inode
    }
}
