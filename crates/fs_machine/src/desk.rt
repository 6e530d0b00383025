//! What each hart has of the tables.
ghost use Rattle.std.specs.Prelude.{◌≡◌, ◌<◌, ◌≤◌, None, IfSome, is_some, length, position, replicate, slice_get, slice_index};
ghost use Rattle.fs_machine.specs.Vocabulary.{list_any};
ghost use Rattle.fs_machine.specs.Lists.{change_at, first_empty, next_full};
ghost use Rattle.fs_machine.specs.Tables.{at_descriptor, if_there};
ghost use Rattle.fs_machine.specs.Inodes.{directory_of, with_directory};
ghost use Rattle.fs_machine.specs.Files.{descriptors_of, hand_of, names, with_descriptor, with_hand};
ghost use Rattle.fs_machine.specs.Fresh.{fresh_desk};
ghost use Rattle.fs_machine.specs.Names.{one_name_less, one_name_more};

use crate::limits::{DESCRIPTORS, ROOT};
use buffer_cache::HARTS;
use std::marker::Model;

// A descriptor's place is a byte.
const BYTES: usize = 256;

/// A hart's descriptors, each with the place of its open file; its current directory; and the place that it has taken for a
/// file to be opened.
#[derive(Clone, Copy)]
pub struct Desk {
    pub descriptors: [Option<u8>; DESCRIPTORS],
    pub directory: u32,
    pub hand: Option<u8>,
}

impl Desk {
    /// Nothing is open, and the directory is the root.
    pub(crate) fn new() -> Desk
        ensures { result ≡ record { descriptors = replicate DESCRIPTORS None; directory = ROOT; hand = None } }
    {
        Desk {
            descriptors: [None; DESCRIPTORS],
            directory: ROOT,
            hand: None,
        }
    }

    /// The place of the open file that a descriptor names.
    pub(crate) fn place(&self, fd: u32) -> Option<u8>
        ensures place { result ≡ if_there (slice_get self.now.descriptors fd) }
        ensures within { IfSome result (λ _. fd < DESCRIPTORS) }
    {
        match self.descriptors.get(fd as usize) {
            None => None,
            Some(place) => *place,
        }
    }

    /// The lowest descriptor that is free.
    pub(crate) fn lowest(&self) -> Option<usize>
        ensures lowest { result ≡ first_empty self.now.descriptors }
        ensures within { IfSome result (λ fd. fd < DESCRIPTORS) }
    {
        self.descriptors.iter().position(|place| place.is_none())
    }

    /// The first descriptor from this one on that is open.
    pub(crate) fn next(&self, from: u32) -> Option<usize>
        ensures next { result ≡ next_full from self.now.descriptors }
        ensures within { IfSome result (λ fd. fd < DESCRIPTORS) }
        ensures from { IfSome result (λ fd. from ≤ fd) }
    {
        let from = from as usize;
        if from > DESCRIPTORS {
            return None;
        }
        match first_named(&self.descriptors[from..]) {
            None => None,
            Some(after) => Some(from + after),
        }
    }
}

/// The harts' desks. A contract sees them.
#[derive(Drop)]
pub(crate) struct Desks {
    desks: [Desk; HARTS as usize],
    // How many descriptors name each place for an open file (xv6: `ref` of `struct file`).
    counts: [u8; BYTES],
}

impl Model for Desks {
    ghost use Rattle.std.specs.Prelude.{List};
    ghost use Rattle.fs_machine.specs.declared.desk.Desk.{Desk as DeskState};
    ghost use Rattle.fs_machine.specs.Names.{AreCounted};

    ghost Value = { List DeskState };

    ghost view = { λ d. d.desks };

    ghost invariant = { λ d. AreCounted d.counts d.desks };
}

impl Desks {
    /// Nothing is open, and each hart's directory is the root.
    pub fn new() -> Desks
        ensures { result ≡ replicate HARTS fresh_desk }
    {
        Desks {
            desks: [Desk::new(); HARTS as usize],
            counts: [0; BYTES],
        }
    }

    /// The place that a hart's descriptor names.
    pub fn place_at(&self, hart: u8, fd: u32) -> Option<u8>
        requires { hart < HARTS }
        ensures place { result ≡ at_descriptor fd (slice_get self.now hart) }
        ensures within { IfSome result (λ _. fd < DESCRIPTORS) }
    {
        self.desks[hart as usize].place(fd)
    }

    /// The lowest descriptor of a hart that is free.
    pub fn lowest(&self, hart: u8) -> Option<usize>
        requires { hart < HARTS }
        ensures lowest { result ≡ first_empty (descriptors_of (slice_get self.now hart)) }
        ensures within { IfSome result (λ fd. fd < DESCRIPTORS) }
    {
        self.desks[hart as usize].lowest()
    }

    /// The first descriptor of a hart from this one on that is open.
    pub fn next_at(&self, hart: u8, from: u32) -> Option<usize>
        requires { hart < HARTS }
        ensures next { result ≡ next_full from (descriptors_of (slice_get self.now hart)) }
        ensures within { IfSome result (λ fd. fd < DESCRIPTORS) }
        ensures from { IfSome result (λ fd. from ≤ fd) }
    {
        self.desks[hart as usize].next(from)
    }

    /// The place in a hart's hand.
    pub fn hand_of(&self, hart: u8) -> Option<u8>
        requires { hart < HARTS }
        ensures { result ≡ hand_of (slice_get self.now hart) }
    {
        self.desks[hart as usize].hand
    }

    /// The number of a hart's current directory.
    pub fn directory_at(&self, hart: u8) -> u32
        requires { hart < HARTS }
        ensures { result ≡ directory_of (slice_get self.now hart) }
    {
        self.desks[hart as usize].directory
    }

    /// Whether a descriptor names a place.
    pub fn is_named(&self, place: u8) -> bool
        ensures { result ≡ list_any (names place) self.now }
    {
        0 < self.counts[place as usize]
    }

    /// A hart's current directory becomes the one of this number.
    pub fn set_directory(&mut self, hart: u8, number: u32)
        requires { hart < HARTS }
        ensures { self.new ≡ change_at hart (with_directory number) self.old }
    {
        self.desks[hart as usize].directory = number;
    }

    /// A descriptor names this place from now on, or none.
    pub fn set_descriptor(&mut self, hart: u8, fd: usize, place: Option<u8>)
        requires hart { hart < HARTS }
        requires fd { fd < DESCRIPTORS }
        ensures { self.new ≡ change_at hart (with_descriptor fd place) self.old }
    {
        let old = self.desks[hart as usize].descriptors[fd];
        self.desks[hart as usize].descriptors[fd] = place;
        count_less(&mut self.counts, old);
        count_more(&mut self.counts, place);
    }

    /// A hart has this place in hand from now on, or none.
    pub fn set_hand(&mut self, hart: u8, place: Option<u8>)
        requires { hart < HARTS }
        ensures { self.new ≡ change_at hart (with_hand place) self.old }
    {
        self.desks[hart as usize].hand = place;
    }
}

fn count_less(counts: &mut [u8; BYTES], place: Option<u8>)
    requires { IfSome place (λ p. p < BYTES → 0 < slice_index counts.old p) }
    ensures counts { counts.new ≡ one_name_less place counts.old }
    ensures byte { IfSome place (λ p. p < BYTES) }
{
    if let Some(place) = place {
        counts[place as usize] -= 1;
    }
}

fn count_more(counts: &mut [u8; BYTES], place: Option<u8>)
    requires { IfSome place (λ p. p < BYTES → slice_index counts.old p < 255) }
    ensures counts { counts.new ≡ one_name_more place counts.old }
    ensures byte { IfSome place (λ p. p < BYTES) }
{
    if let Some(place) = place {
        counts[place as usize] += 1;
    }
}

// The first of these descriptors that is open.
fn first_named(descriptors: &[Option<u8>]) -> Option<usize>
    ensures first { result ≡ position is_some descriptors.now }
    ensures within { IfSome result (λ k. k < length descriptors.now) }
{
    descriptors.iter().position(|place| place.is_some())
}
