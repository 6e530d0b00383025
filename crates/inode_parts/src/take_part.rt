//! An inode locked, and what is looked for found in it.
ghost use Rattle.std.specs.Prelude.{◌≡◌, ◌++◌, ℕ, List, true, not, Some, None, is_some, IfNone};
ghost use Rattle.inode_parts.specs.Vocabulary.{asks, number_at, op_in, answer_in, CanDo, Prepared, IsAfter, Goes, left_after, bare, Hand as HandState, HasNoBuffer, loaded_in, IfBegun, Take, number_found, query_in, sight_in, Version};
ghost use Rattle.inode_machine.specs.Inodes as whole;
ghost use Rattle.inode_parts.specs.Carries.{carry_in, handed, with_note};
ghost use Rattle.inode_parts.specs.Faces.{face_unless_free};
ghost use Rattle.inode_parts.specs.Holding.{IsCounted};
ghost use Rattle.inode_parts.specs.Leaving.{heard_if, having, StaysOrLeaves};
ghost use Rattle.inode_parts.specs.Sides.{beside_in};
ghost use Rattle.inode_parts.specs.Parts.{IsPart};
ghost use Rattle.inode_parts.specs.Takes.{looked, note_of, begun_if, taken_left, take_left, take_asked, take_query, take_seat, take_version, IsTaken, IsTold, Sees, TakeAmid, TakeBegins, TakeReady, TakeTold};
ghost use Rattle.inode_parts.specs.declared.note.Note.TheVariants as note;
ghost use Rattle.inode_parts.specs.declared.note.Notes.{Notes as NotesState};
ghost use Rattle.path_walk.specs.declared.asks.Heard.TheVariants as hearing;

use crate::call_text::name;
use crate::faces::face_unless_free;
use crate::note::{Note, Notes};
use crate::places::reference_seat;
use directory::{Found, Search, Sought};
use fs_layout::{Dinode, Super};
use fs_machine::{Answer, Hand, InodePlace, Op, Routine};
use image_versions::Version;
use inode_data::Begun;
use inode_table::{LockInode, record_at};
use path_walk::{Element, Heard, Query, Sight};

/// The lock of an inode is taken, to which a reference is in hand, and the inode is looked at. The disk has this
/// version.
#[derive(Clone, Copy, Drop)]
pub enum TakePart {
    /// It is locked and loaded, to look for this.
    Locking(Version, Query, LockInode),
    /// A name is sought in the directory at this seat.
    Naming(Version, InodePlace, Element, Search),
    /// An entry is sought, past the first two.
    Listing(Version, InodePlace, Search),
}

impl TakePart {
    /// The inode of this number, on a disk of these sizes.
    pub fn begin(number: u32, query: Query, sizes: &Super, hand: &Hand) -> TakePart
        requires begins { TakeBegins sizes.now number hand.now }
        ensures part { (path : List ℕ) (notes : NotesState)
            → IsPart sizes.now (carry_in path notes hand.now) (Take number (query_in path query)) (take_left path notes result hand.now) }
        ensures ready { TakeReady result hand.now }
        ensures told { (path second : List ℕ) → IsTold sizes.now.version path second query → TakeTold path second result }
        ensures amid { (path : List ℕ) → TakeAmid sizes.now.version path number (query_in path query) hand.now result hand.now }
    {
        let seat = reference_seat(hand, number);
        let lock = LockInode::new(sizes.inodestart, seat);
        TakePart::Locking(sizes.version, query, lock)
    }

    /// The next operation.
    pub fn op(&self, hand: &mut Hand) -> Op
        requires ready { TakeReady self.now hand.old }
        ensures op { result ≡ take_asked self.now }
        ensures asks { (path : List ℕ) (notes : NotesState) → asks (take_left path notes self.now hand.old) ≡ Some (op_in hand.new result) }
        ensures can { CanDo result hand.new }
        ensures prepared { Prepared result hand.old hand.new }
    {
        match self {
            TakePart::Locking(_, _, lock) => lock.op(hand),
            TakePart::Naming(_, _, _, search) => search.op(hand),
            TakePart::Listing(_, _, search) => search.op(hand),
        }
    }

    /// How it goes on, in a call with this path and a second one: true if it is over, with what is heard left in
    /// `heard`.
    pub fn next(
        &mut self,
        path: &[u8],
        second: &[u8],
        notes: &mut Notes,
        answer: &Answer,
        hand: &mut Hand,
        heard: &mut Heard,
    ) -> bool
        requires told { TakeTold path.now second.now self.old }
        requires came { (before : HandState) × TakeReady self.old before × IsAfter (take_asked self.old) before answer.now hand.old }
        ensures goes { let text = path.now ++ second.now in (before : HandState) → TakeReady self.old before
            → IsAfter (take_asked self.old) before answer.now hand.old
            → Goes (take_left text notes.old self.old before) (answer_in (take_asked self.old) answer.now hand.old)
            (left_after (take_left text notes.new) (handed text notes.new) (heard_if result heard.new) self.new hand.new) }
        ensures ready { IfNone (heard_if result heard.new) (TakeReady self.new hand.new) }
        ensures told { IfNone (heard_if result heard.new) (TakeTold path.now second.now self.new) }
        ensures leaves { let text = path.now ++ second.now in (version : Version) (n : ℕ) (looking : whole.Query) (start before : HandState)
            → TakeAmid version text n looking start self.old before
            → TakeReady self.old before → IsAfter (take_asked self.old) before answer.now hand.old
            → StaysOrLeaves version (TakeAmid version text n looking start self.new) text (Take n looking) (heard_if result heard.new)
            (having start notes.old) (having hand.new notes.new) }
        ensures hand { bare hand.new ≡ bare hand.old }
    {
        match self {
            TakePart::Locking(version, query, lock) => match lock.next(answer, hand) {
                None => false,
                Some(seat) => {
                    let (version, query) = (*version, *query);
                    self.look(version, query, path, second, seat, notes, hand, heard)
                }
            },
            TakePart::Naming(version, seat, element, search) => {
                let sought = Sought::Name(name(path, second, element));
                match search.next(*version, *seat, sought, answer, hand) {
                    None => false,
                    Some(found) => {
                        let inode = record_at(hand, *seat);
                        named(inode, *seat, *element, found, notes, heard);
                        true
                    }
                }
            }
            TakePart::Listing(version, seat, search) => {
                match search.next(*version, *seat, Sought::Entry, answer, hand) {
                    None => false,
                    Some(found) => {
                        let inode = record_at(hand, *seat);
                        listed(inode, *seat, found, notes, heard);
                        true
                    }
                }
            }
        }
    }

    // Looks for this in the inode at a seat, which is locked and loaded, in a call with this path and a second one.
    // It is true if nothing more must be read for that. What was seen is in `heard` then.
    fn look(
        &mut self,
        version: Version,
        query: Query,
        path: &[u8],
        second: &[u8],
        seat: InodePlace,
        notes: &mut Notes,
        hand: &Hand,
        heard: &mut Heard,
    ) -> bool
        requires taken { IsTaken seat hand.now }
        requires free { HasNoBuffer hand.now }
        requires told { IsTold version path.now second.now query }
        ensures program { let text = path.now ++ second.now in taken_left text notes.new (begun_if result self.new heard.new) hand.now
            ≡ looked version text query (beside_in text notes.old seat hand.now) (number_at seat hand.now) (loaded_in seat hand.now) }
        ensures ready { IfBegun (λ p. TakeReady p hand.now) (λ _. Unit {0}) (begun_if result self.new heard.new) }
        ensures told { IfBegun (λ p. TakeTold path.now second.now p) (λ _. Unit {0}) (begun_if result self.new heard.new) }
        ensures looks { IfBegun (λ p. (take_seat p ≡ seat) × (take_query p ≡ query) × (notes.new ≡ notes.old) × (take_version p ≡ version))
            (λ _. Unit {0}) (begun_if result self.new heard.new) }
        ensures sees { let text = path.now ++ second.now in
            IfBegun (λ _. Unit {0}) (λ x. Sees version text (query_in text query) seat x notes.old notes.new)
            (begun_if result self.new heard.new) }
    {
        let inode = record_at(hand, seat);
        match query {
            Query::Nothing => {
                notes.set(seat, Note::Nothing);
                saw(inode, None, true, heard);
                true
            }
            Query::Name(element) => match Search::lookup(
                version,
                hand,
                seat,
                name(path, second, &element),
            ) {
                Begun::Is(found) => {
                    named(inode, seat, element, found, notes, heard);
                    true
                }
                Begun::Runs(search) => {
                    *self = TakePart::Naming(version, seat, element, search);
                    false
                }
            },
            Query::Entries => match Search::entries(version, hand, seat) {
                Begun::Is(found) => {
                    listed(inode, seat, found, notes, heard);
                    true
                }
                Begun::Runs(search) => {
                    *self = TakePart::Listing(version, seat, search);
                    false
                }
            },
        }
    }
}

// What was seen of an inode is heard.
fn saw(inode: &Dinode, found: Option<u32>, empty: bool, heard: &mut Heard)
    ensures heard { heard.new ≡ hearing.Saw (record { face = face_unless_free inode.now; found = found; empty = empty }) }
    ensures counted { IsCounted (sight_in heard.new) }
{
    *heard = Heard::Saw(Sight {
        face: face_unless_free(inode),
        found,
        empty,
    });
}

// The same if a name was sought; its slot is noted.
#[inline(always)]
fn named(
    inode: &Dinode,
    seat: InodePlace,
    element: Element,
    found: Option<Found>,
    notes: &mut Notes,
    heard: &mut Heard,
)
    ensures heard { heard.new ≡ hearing.Saw (record { face = face_unless_free inode.now; found = number_found found; empty = true }) }
    ensures notes { notes.new ≡ with_note seat (note_of element found) notes.old }
    ensures counted { IsCounted (sight_in heard.new) }
{
    match found {
        Some(found) => {
            notes.set(seat, Note::Finds(element, found.slot));
            saw(inode, Some(found.number), true, heard);
        }
        None => {
            notes.set(seat, Note::Nothing);
            saw(inode, None, true, heard);
        }
    }
}

// The same if an entry was sought.
fn listed(
    inode: &Dinode,
    seat: InodePlace,
    found: Option<Found>,
    notes: &mut Notes,
    heard: &mut Heard,
)
    ensures heard { heard.new ≡ hearing.Saw (record { face = face_unless_free inode.now; found = None; empty = not (is_some found) }) }
    ensures notes { notes.new ≡ with_note seat note.Nothing notes.old }
    ensures counted { IsCounted (sight_in heard.new) }
{
    notes.set(seat, Note::Nothing);
    saw(inode, None, found.is_none(), heard);
}
