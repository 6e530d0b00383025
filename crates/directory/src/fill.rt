//! The names of a new directory, written.
ghost use Rattle.std.specs.Prelude.{◌≡◌, ◌≤◌, ◌<◌, ◌^◌, take, Some, IsSome, IfSome, IfNone};
ghost use Rattle.directory.specs.Vocabulary.{bits_per_block, new_directory_size_of, inode_block, IsAfter, answer_in, Goes, left_after, bare, Hand as HandState, beside_buffers, NoBuffers, written_as};
ghost use Rattle.directory.specs.Filling.{dots, fill, fill_left, fill_asked, filled_in, FillReady};
ghost use Rattle.directory.specs.declared.fill.Filled.{Filled as FilledState};

use crate::enter::entry_bytes;
use fs_layout::{Dinode, Super};
use fs_machine::{Answer, Hand, Op, Routine};
use image_versions::Version;
use image_versions::widths::LONGEST_DIRENT_LEN;
use inode_data::{WritePart, Written};

// "." and ".." at their longest.
const LONGEST_DOTS: usize = 2 * LONGEST_DIRENT_LEN;

/// The directory as it was stored, and whether it has its two names: it has none if no block was free.
#[derive(Clone, Copy, Drop)]
pub struct Filled {
    pub inode: Dinode,
    pub whole: bool,
}

/// Writes "." and ".." into a new directory, and stores it.
#[derive(Drop)]
pub struct Fill {
    pub version: Version,
    pub number: u32,
    pub parent: u32,
    pub part: WritePart,
}

impl Fill {
    /// Into inode `number` with this record, on a disk with this superblock, in this directory.
    pub fn new(number: u32, inode: &Dinode, sizes: &Super, parent: u32) -> Fill
        requires size { sizes.now.size ≤ bits_per_block }
        requires block { inode_block sizes.now.inodestart number < 2 ^ 32 }
        ensures program { (h : HandState) → fill_left result h ≡ fill sizes.now number inode.now parent }
        ensures ready { (h : HandState) → NoBuffers h → IsSome h.txn → FillReady result h }
    {
        let version = sizes.version;
        Fill {
            version,
            number,
            parent,
            part: WritePart::begin(number, inode, sizes, 0, version.new_directory_size()),
        }
    }
}

impl Routine for Fill {
    type Out = Filled;

    ghost Value = { FilledState };

    ghost value = { λ filled _. filled };

    ghost left = { fill_left };

    ghost asked = { fill_asked };

    ghost Ready = { FillReady };

    ghost About = { Unit {0} };

    ghost about = { λ _. tt };

    ghost beside = { beside_buffers };

    ghost Ends = { λ _ _ h. NoBuffers h };

    fn op(&self, hand: &mut Hand) -> Op {
        let bytes = dots(self.version, self.number, self.parent);
        self.part
            .op(&bytes[..self.version.new_directory_size()], hand)
    }

    #[tactic(auto, using(fs_machine::proofs::Going::goes_bind))]
    fn next(&mut self, answer: &Answer, hand: &mut Hand) -> Option<Filled> {
        let version = self.version;
        let bytes = dots(version, self.number, self.parent);
        let names = &bytes[..version.new_directory_size()];
        let written = self.part.next(names, answer, hand)?;
        Some(whole_in(version, &written))
    }
}

// The result of the writing.
fn whole_in(version: Version, written: &Written) -> Filled
    ensures { result ≡ filled_in version (written_as written.now) }
{
    Filled {
        inode: written.inode,
        whole: written.upto == version.new_directory_size(),
    }
}

// The bytes of a new directory, at the front.
fn dots(version: Version, number: u32, parent: u32) -> [u8; LONGEST_DOTS]
    ensures { take (new_directory_size_of version) result ≡ dots version number parent }
{
    let len = version.dirent_len();
    let mut bytes = [0; LONGEST_DOTS];
    bytes[..len].copy_from_slice(&entry_bytes(version, number, b".")[..len]);
    bytes[len..2 * len].copy_from_slice(&entry_bytes(version, parent, b"..")[..len]);
    bytes
}
