//! A call over whole inodes, run below.
ghost use Rattle.std.specs.Prelude.{◌≡◌, Some, None, IfSome, IfNone};
ghost use Rattle.inode_parts.specs.Vocabulary.{Reply as ReplyState, Version, program, OpAbove, reply_to, call_in, first_in, second_in, text_in, HasRoomFor, IsCall, nothing, IsEmpty, bare, Goes, answer_in, IsAfter, Hand as HandState};
ghost use Rattle.inode_parts.specs.Parts.{lowered};
ghost use Rattle.inode_parts.specs.Calls.{lowered_left, lowered_asked, path_of, FillsOrStays, IsReading, LoweredReady, RunsByParts};
ghost use Rattle.inode_parts.specs.Holding.{Having};
ghost use Rattle.inode_parts.specs.InodeParts.{part_left, part_left_after, part_asked, PartReady, PartTold, ReadsInto};
ghost use Rattle.inode_parts.specs.Leaving.{having, heard_if};
ghost use Rattle.inode_parts.specs.UnderWay.{GoesOrLeaves, UnderWay};
ghost use Rattle.inode_parts.specs.Sizes.{IsSized};
ghost use Rattle.inode_parts.specs.Telling.{BeginsAsking, LoweredTells, lacks_place};

use crate::changing_inodes::ClaimPart;
use crate::note::Notes;
use crate::part::InodePart;
use fs_layout::Super;
use fs_machine::{Answer, Control, Hand, Op};
use image_versions::Version;
use inode_table::NewInode;
use path_walk::{Heard, Numbers};
use plain_tree::{Answer as CallAnswer, Call, Reply};
use std::alloc::{AllocError, Global};
use std::mem;
use whole_calls::{Dup, Whole};

// The sizes of no disk.
const NO_SIZES: Super = Super {
    version: Version::One,
    size: 0,
    nblocks: 0,
    ninodes: 0,
    nlog: 0,
    logstart: 0,
    inodestart: 0,
    bmapstart: 0,
};

/// A call with the part of its present operation; between two calls of its hart it is idle.
#[derive(Drop)]
pub struct Lowered {
    sizes: Super,
    call: Whole,
    list: Numbers,
    notes: Notes,
    part: InodePart,
    // Whether an operation over whole inodes ended in the call's last step, and what was heard as the last one ended.
    ended: bool,
    heard: Heard,
    // What the call answers, once it has ended.
    says: CallAnswer,
}

impl Lowered {
    /// No call yet, and the memory for what one lists.
    pub fn idle(alloc: Global) -> Result<Lowered, AllocError> {
        let list = Numbers::new(alloc)?;
        Ok(Lowered {
            sizes: NO_SIZES,
            call: no_call(),
            list,
            notes: Notes::new(),
            part: InodePart::idle(),
            ended: false,
            heard: Heard::WasDone,
            says: CallAnswer::Done,
        })
    }

    /// A call begins in this place, on a disk of these sizes, of a hart with nothing in hand.
    #[inline(always)]
    pub fn start(&mut self, sizes: &Super, call: Call, hand: &mut Hand)
        requires call { IsCall sizes.now.version call }
        requires runs { RunsByParts sizes.now.version (path_of call) call }
        requires sizes { IsSized sizes.now }
        requires empty { IsEmpty hand.old }
        ensures program { lowered_left self.new hand.new ≡ lowered sizes.now nothing (program sizes.now.version call) }
        ensures asks { BeginsAsking sizes.now nothing (program sizes.now.version call) self.new hand.new }
        ensures ready { LoweredReady self.new hand.new }
        ensures hand { bare hand.new ≡ bare hand.old }
    {
        self.sizes = *sizes;
        self.call = Whole::new(call);
        self.list.clear();
        self.notes = Notes::new();
        self.ended = false;
        let ask = self.call.ask();
        self.part.begin(ask, sizes, &self.call, &self.notes, hand);
    }

    /// What the call heard in its last step, if an operation over whole inodes ended there; also of a call that has
    /// ended.
    pub fn heard(&self) -> Option<Heard>
        ensures { result ≡ heard_if self.now.ended self.now.heard }
    {
        if self.ended { Some(self.heard) } else { None }
    }

    /// The same, written in its place: what is large is not moved twice.
    #[inline(always)]
    pub fn tell(&self, last: &mut Option<Heard>)
        ensures { last.new ≡ heard_if self.now.ended self.now.heard }
    {
        if self.ended {
            *last = Some(self.heard);
        } else {
            *last = None;
        }
    }

    /// Whether the call claims an inode for which no place in memory was left, and its next step must say so.
    pub fn lacks_place(&self) -> bool
        ensures { result ≡ lacks_place self.now }
    {
        match &self.part {
            InodePart::Claim(
                ClaimPart {
                    claim: NewInode::GiveBack(_, _),
                },
            ) => true,
            _ => false,
        }
    }

    /// The reply of the call, once it has ended.
    pub fn reply(&mut self) -> Reply
        ensures { result ≡ reply_to (call_in self.old.call) self.old.says }
    {
        take_call(&mut self.call).reply(self.says)
    }
}

// What is there while no call is under way.
fn no_call() -> Whole {
    Whole::Dup {
        fd: 0,
        at: Dup::Double,
    }
}

// The call, which leaves its place.
fn take_call(call: &mut Whole) -> Whole
    ensures { result ≡ call.old }
{
    mem::replace(call, no_call())
}

// A call's part goes on: true if it is over, with what is heard left in `heard`. A read's has the call's own buffer.
#[inline(always)]
fn part_next(
    part: &mut InodePart,
    call: &mut Whole,
    notes: &mut Notes,
    answer: &Answer,
    hand: &mut Hand,
    heard: &mut Heard,
) -> bool
    requires told { PartTold (first_in call.old) (second_in call.old) part.old }
    requires reads { ReadsInto part.old → IsReading call.old }
    requires came { (before : HandState) × PartReady part.old before × IsAfter (part_asked part.old) before answer.now hand.old }
    ensures goes { (before : HandState) → PartReady part.old before → IsAfter (part_asked part.old) before answer.now hand.old
        → Goes (part_left (text_in call.old) notes.old part.old before) (answer_in (part_asked part.old) answer.now hand.old)
        (part_left_after (text_in call.new) notes.new (heard_if result heard.new) part.new hand.new) }
    ensures under { (version : Version) (op : OpAbove) (start : Having) (before : HandState)
        → UnderWay version (text_in call.old) op start part.old (having before notes.old)
        → PartReady part.old before → IsAfter (part_asked part.old) before answer.now hand.old
        → GoesOrLeaves version (text_in call.old) op start (heard_if result heard.new) part.new (having hand.new notes.new) }
    ensures ready { IfNone (heard_if result heard.new) (PartReady part.new hand.new) }
    ensures told { IfNone (heard_if result heard.new) (PartTold (first_in call.new) (second_in call.new) part.new) }
    ensures call { FillsOrStays call.old call.new }
    ensures reads { IfNone (heard_if result heard.new) (ReadsInto part.new → ReadsInto part.old) }
    ensures room { ReadsInto part.old → IfSome (heard_if result heard.new) (λ x. HasRoomFor x call.new) }
    ensures hand { bare hand.new ≡ bare hand.old }
{
    match part {
        InodePart::ReadFile(read) => match call {
            Whole::Read { fd: _, buf, at: _ } => read.next(buf.as_mut_slice(), answer, hand, heard),
            _ => unreachable!(),
        }
        _ => part.next(call, notes, answer, hand, heard),
    }
}

impl Control for Lowered {
    type Out = ();

    ghost Value = { ReplyState };

    ghost value = { λ l _ _. reply_to (call_in l.call) l.says };

    ghost left = { lowered_left };

    ghost asked = { lowered_asked };

    ghost Ready = { LoweredReady };

    ghost Ends = { λ _ h. IsEmpty h };

    ghost Tells = { LoweredTells };

    #[inline(always)]
    fn op(&self, hand: &mut Hand) -> Op {
        self.part.op(&self.call, hand)
    }

    #[inline(always)]
    fn next(&mut self, answer: &Answer, hand: &mut Hand) -> Option<()> {
        let part = &mut self.part;
        if part_next(
            part,
            &mut self.call,
            &mut self.notes,
            answer,
            hand,
            &mut self.heard,
        ) {
            self.ended = true;
            if self.call.next(
                self.sizes.version,
                &self.heard,
                &mut self.list,
                &mut self.says,
            ) {
                Some(())
            } else {
                let ask = self.call.ask();
                self.part
                    .begin(ask, &self.sizes, &self.call, &self.notes, hand);
                None
            }
        } else {
            self.ended = false;
            None
        }
    }
}
