//! What a hart has in hand between two operations.
ghost use Rattle.std.specs.Prelude.{◌≡◌, ◌≢◌, [], Some, None, IfOk, IsSome, is_some};
ghost use Rattle.fs_machine.specs.Vocabulary.{MatchOption, option_map, option_map_or};
ghost use Rattle.std.specs.Borrow.{sem};
ghost use Rattle.fs_machine.specs.Lending.{LendsBlock, LendsIndexAt};
ghost use Rattle.fs_machine.specs.Ops.{content_at};
ghost use Rattle.fs_machine.specs.Tied.{bytes_of};
ghost use Rattle.fs_machine.specs.Hands.{empty_hand, HasNothing, buffer_at, bytes_at, with_buffer, inode_at, with_inode, reference_at, with_aside, with_first, with_reference, with_seated, with_txn, index_at, inode_in, no_inode, recorded, with_record};

use crate::queue::Queue;
use crate::{Inode, NameIndex, Reference, RetiredCore};
use atomic_programs::machines::put;
use buffer_cache::Buffer;
use fs_layout::Dinode;
use fs_layout::widths::Block;
use group_log::Txn;
use sleep_lock::Guard;
use std::alloc::{AllocError, Global};
use std::mem;

/// A place for a buffer.
#[derive(Clone, Copy)]
pub enum Place {
    First,
    Second,
}

/// A place for an inode, called a seat: a reference to it, and its lock.
#[derive(Clone, Copy)]
pub enum InodePlace {
    One,
    Two,
}

/// All that a hart has in hand between two operations.
pub struct Hand {
    pub txn: Option<Txn>,
    pub first: Option<Guard<Buffer>>,
    pub second: Option<Guard<Buffer>>,
    pub one: Option<Guard<Inode>>,
    pub two: Option<Guard<Inode>>,
    pub to_one: Option<Reference>,
    pub to_two: Option<Reference>,
    /// A reference that came when no seat was free, until one is.
    pub aside: Option<Reference>,
    /// References that a walk keeps: each is the last one to a dead inode, and the call frees the inode at its end.
    pub listed: Queue,
    /// The numbers of inodes of which one is to be claimed, and how many these are.
    pub numbers: [u32; 16],
    pub count: u8,
}

impl Hand {
    /// Nothing yet, and the memory for what a call lists.
    pub fn new(alloc: Global) -> Result<Hand, AllocError>
        ensures { IfOk result (λ hand. hand ≡ empty_hand) }
    {
        let listed = Queue::new(alloc)?;
        Ok(Hand {
            txn: None,
            first: None,
            second: None,
            one: None,
            two: None,
            to_one: None,
            to_two: None,
            aside: None,
            listed,
            numbers: [0; 16],
            count: 0,
        })
    }

    /// A transaction, if there is none.
    pub(crate) fn hold_txn(&mut self, txn: Txn)
        requires { self.old.txn ≡ None }
        ensures { self.new ≡ with_txn (Some txn) self.old }
    {
        put(&mut self.txn, txn);
    }

    /// The buffer at a place, which is empty then.
    pub(crate) fn take_buffer(&mut self, place: Place) -> Option<Guard<Buffer>>
        ensures is { result ≡ buffer_at place self.old }
        ensures left { self.new ≡ with_buffer place None self.old }
    {
        match place {
            Place::First => mem::replace(&mut self.first, None),
            Place::Second => mem::replace(&mut self.second, None),
        }
    }

    /// A buffer for a place that is empty.
    pub(crate) fn hold_buffer(&mut self, place: Place, guard: Guard<Buffer>)
        requires { buffer_at place self.old ≡ None }
        ensures { self.new ≡ with_buffer place (Some guard) self.old }
    {
        match place {
            Place::First => put(&mut self.first, guard),
            Place::Second => put(&mut self.second, guard),
        }
    }

    /// Whether the buffer at a place is valid.
    pub fn is_valid(&self, place: Place) -> bool
        ensures { result ≡ is_some (content_at place self.now) }
    {
        match place {
            Place::First => is_valid(&self.first),
            Place::Second => is_valid(&self.second),
        }
    }

    /// The bytes of the valid buffer at a place.
    pub fn block(&self, place: Place) -> &Block
        requires { MatchOption (buffer_at place self.now) ⊥ (λ g. IsSome g.value.content) }
        ensures { result.now ≡ bytes_at place self.now }
    {
        match place {
            Place::First => bytes(&self.first),
            Place::Second => bytes(&self.second),
        }
    }

    /// The same, to be changed.
    pub fn block_mut(&mut self, place: Place) -> &mut Block
        requires { MatchOption (buffer_at place self.old) ⊥ (λ g. IsSome g.value.content) }
        ensures* writes_back { sem 𝓛 (LendsBlock self.entry place result) }
        ensures value { result.now ≡ bytes_at place self.old }
    {
        match place {
            Place::First => match &mut self.first {
                Some(guard) => guard.value_mut().bytes_mut(),
                None => unreachable!(),
            },
            Place::Second => match &mut self.second {
                Some(guard) => guard.value_mut().bytes_mut(),
                None => unreachable!(),
            },
        }
    }

    /// The lock at a seat, which is empty then.
    pub(crate) fn take_inode(&mut self, seat: InodePlace) -> Option<Guard<Inode>>
        ensures is { result ≡ inode_at seat self.old }
        ensures left { self.new ≡ with_inode seat None self.old }
    {
        match seat {
            InodePlace::One => mem::replace(&mut self.one, None),
            InodePlace::Two => mem::replace(&mut self.two, None),
        }
    }

    /// A lock for a seat that is empty.
    pub(crate) fn hold_inode(&mut self, seat: InodePlace, guard: Guard<Inode>)
        requires { inode_at seat self.old ≡ None }
        ensures { self.new ≡ with_inode seat (Some guard) self.old }
    {
        match seat {
            InodePlace::One => put(&mut self.one, guard),
            InodePlace::Two => put(&mut self.two, guard),
        }
    }

    /// The reference at a seat.
    pub(crate) fn reference(&self, seat: InodePlace) -> Option<&Reference>
        ensures { MatchOption result (reference_at seat self.now ≡ None) (λ reference. reference_at seat self.now ≡ Some reference.now) }
    {
        let place = match seat {
            InodePlace::One => &self.to_one,
            InodePlace::Two => &self.to_two,
        };
        place.as_ref()
    }

    /// The reference at a seat, which is empty then.
    pub(crate) fn take_reference(&mut self, seat: InodePlace) -> Option<Reference>
        ensures is { result ≡ reference_at seat self.old }
        ensures left { self.new ≡ with_reference seat None self.old }
    {
        match seat {
            InodePlace::One => mem::replace(&mut self.to_one, None),
            InodePlace::Two => mem::replace(&mut self.to_two, None),
        }
    }

    /// A reference for a seat that is empty.
    pub(crate) fn hold_reference(&mut self, seat: InodePlace, reference: Reference)
        requires { reference_at seat self.old ≡ None }
        ensures { self.new ≡ with_reference seat (Some reference) self.old }
    {
        match seat {
            InodePlace::One => put(&mut self.to_one, reference),
            InodePlace::Two => put(&mut self.to_two, reference),
        }
    }

    /// A reference that no seat is free for.
    pub(crate) fn hold_aside(&mut self, reference: Reference)
        requires { self.old.aside ≡ None }
        ensures { self.new ≡ with_aside (Some reference) self.old }
    {
        put(&mut self.aside, reference);
    }

    /// What is aside is put into an empty seat.
    pub(crate) fn seat_aside(&mut self, seat: InodePlace)
        requires { reference_at seat self.old ≡ None }
        ensures { self.new ≡ with_seated seat self.old }
    {
        match mem::replace(&mut self.aside, None) {
            Some(reference) => self.hold_reference(seat, reference),
            None => {}
        }
    }

    /// The first listed reference for a seat that is empty.
    pub(crate) fn hold_first(&mut self, seat: InodePlace)
        requires listed { self.old.listed ≢ [] }
        requires empty { reference_at seat self.old ≡ None }
        ensures { self.new ≡ with_first seat self.old }
    {
        match self.listed.take_first() {
            None => unreachable!(),
            Some(reference) => self.hold_reference(seat, reference),
        }
    }

    /// Whether the inode at a seat is loaded.
    pub fn is_loaded(&self, seat: InodePlace) -> bool
        ensures { result ≡ is_some (inode_in seat self.now).content }
    {
        match seat {
            InodePlace::One => is_loaded(&self.one),
            InodePlace::Two => is_loaded(&self.two),
        }
    }

    /// The inode at a seat.
    pub fn inode(&self, seat: InodePlace) -> &Inode
        requires { IsSome (inode_at seat self.now) }
        ensures { result.now ≡ inode_in seat self.now }
    {
        match seat {
            InodePlace::One => inode_of(&self.one),
            InodePlace::Two => inode_of(&self.two),
        }
    }

    /// The index of the names of the loaded inode at a seat, to be changed.
    pub fn index_mut(&mut self, seat: InodePlace) -> &mut NameIndex
        requires { MatchOption (inode_at seat self.old) ⊥ (λ g. IsSome g.value.content) }
        ensures* writes_back { sem 𝓛 (LendsIndexAt self.entry seat result) }
        ensures value { result.now ≡ index_at seat self.old }
    {
        match seat {
            InodePlace::One => match &mut self.one {
                Some(guard) => guard.value_mut().index_mut(),
                None => unreachable!(),
            },
            InodePlace::Two => match &mut self.two {
                Some(guard) => guard.value_mut().index_mut(),
                None => unreachable!(),
            },
        }
    }

    /// Sets the record of the inode at a seat.
    pub fn set_record(&mut self, seat: InodePlace, inode: Dinode)
        requires { IsSome (inode_at seat self.old) }
        ensures { self.new ≡ with_record seat inode self.old }
    {
        match seat {
            InodePlace::One => set_record(&mut self.one, inode),
            InodePlace::Two => set_record(&mut self.two, inode),
        }
    }

    /// Ends it with nothing in it.
    pub fn end(self)
        requires { HasNothing self }
    {
        let Hand {
            txn,
            first,
            second,
            one,
            two,
            to_one,
            to_two,
            aside,
            listed,
            numbers: _,
            count: _,
        } = self;
        end_none(txn);
        end_none(first);
        end_none(second);
        end_none(one);
        end_none(two);
        end_none(to_one);
        end_none(to_two);
        end_none(aside);
        listed.end();
    }

    /// Ends it in mid-call, after all that harts share has ended.
    pub fn retire(self, retired: &RetiredCore) {
        let Hand {
            txn,
            first,
            second,
            one,
            two,
            to_one,
            to_two,
            aside,
            listed,
            numbers: _,
            count: _,
        } = self;
        match txn {
            Some(txn) => txn.retire(&retired.log),
            None => {}
        }
        retire_buffer(first, retired);
        retire_buffer(second, retired);
        retire_inode(one, retired);
        retire_inode(two, retired);
        retire_reference(to_one, retired);
        retire_reference(to_two, retired);
        retire_reference(aside, retired);
        listed.retire(retired);
    }
}

fn bytes(place: &Option<Guard<Buffer>>) -> &Block
    requires { MatchOption place.now ⊥ (λ g. IsSome g.value.content) }
    ensures { result.now ≡ option_map_or bytes_of place.now [] }
{
    match place {
        Some(guard) => guard.value().bytes(),
        None => unreachable!(),
    }
}

fn is_valid(place: &Option<Guard<Buffer>>) -> bool
    ensures { result ≡ is_some (option_map_or (λ g. g.value.content) place.now None) }
{
    match place {
        Some(guard) => guard.value().is_valid(),
        None => false,
    }
}

fn is_loaded(place: &Option<Guard<Inode>>) -> bool
    ensures { result ≡ is_some (option_map_or (λ g. g.value) place.now no_inode).content }
{
    match place {
        Some(guard) => guard.value().is_loaded(),
        None => false,
    }
}

fn inode_of(place: &Option<Guard<Inode>>) -> &Inode
    requires { IsSome place.now }
    ensures { result.now ≡ option_map_or (λ g. g.value) place.now no_inode }
{
    match place {
        Some(guard) => guard.value(),
        None => unreachable!(),
    }
}

fn set_record(place: &mut Option<Guard<Inode>>, inode: Dinode)
    requires { IsSome place.old }
    ensures { place.new ≡ option_map (recorded inode) place.old }
{
    match place {
        Some(guard) => guard.value_mut().set_record(inode),
        None => unreachable!(),
    }
}

// A place is empty.
fn end_none<T>(place: Option<T>)
    requires { place ≡ None }
{
    match place {
        None => {}
        Some(_) => unreachable!(),
    }
}

fn retire_buffer(place: Option<Guard<Buffer>>, retired: &RetiredCore) {
    match place {
        Some(guard) => guard.retire_in_row(&retired.buffers),
        None => {}
    }
}

fn retire_inode(place: Option<Guard<Inode>>, retired: &RetiredCore) {
    match place {
        Some(guard) => guard.retire_in_row(&retired.inodes),
        None => {}
    }
}

fn retire_reference(place: Option<Reference>, retired: &RetiredCore) {
    match place {
        Some(reference) => reference.retire(&retired.inodes),
        None => {}
    }
}
