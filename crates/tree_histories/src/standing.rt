//! A call under way, and its walk in the kept tree.
ghost use Rattle.std.specs.Prelude.{◌≡◌, ◌∷◌, ℕ, false, true, if◌then◌else◌, List, Option, Some, IfOk, IsTrue};
ghost use Rattle.plain_tree.specs.Calls.{piece};
ghost use Rattle.plain_tree.specs.Steps.{path_of};
ghost use Rattle.plain_tree.specs.Tree.{is_absolute};
ghost use Rattle.plain_tree.specs.Widths.{root};
ghost use Rattle.plain_tree.specs.declared.call.Call.TheVariants as calls;
ghost use Rattle.path_walk.specs.Asks.{asks, mark_at, marked_as, op_in, piece_of};
ghost use Rattle.whole_calls.specs.Wholes.{HasRoomFor, IsCall, WholeAsks, WholeFits, action_in, call_in, first_in, second_in, text_in, whole_of};
ghost use Rattle.tree_histories.specs.Keeping.{HearsSo, IsNewCall, ReadsTooMuch, walking};
ghost use Rattle.tree_histories.specs.Walks.{IsWalk, are_none, is_on_new, is_past_old, left_to, step_for, step_in, walk_of};
ghost use Rattle.tree_histories.specs.Vocabulary.{Version, elements};

use crate::paths::rest_of;
use image_versions::Version;
use path_walk::{Ask, Heard, Mark, Numbers, is_absolute};
use plain_tree::paths::{first, next_element};
use plain_tree::{Action, Answer, Bytes, Call, NoMemory};
use std::alloc::Global;
use std::marker::Model;
use whole_calls::{Link, Read, Whole};

/// Bytes of a write's piece.
const PIECE_LEN: usize = 3072;

const ROOT: u16 = 1;

/// The place of a walk: the directory in which it looks next, and the place in its path from which the next element is
/// sought. A link's walk is along its old path, or along its new one.
#[derive(Clone, Copy)]
pub(crate) struct Walk {
    pub(crate) directory: u16,
    pub(crate) from: usize,
    is_new: bool,
}

/// A call under way: its place in the trace, its control over whole inodes, and its walk, if it is on one.
#[derive(Drop)]
pub(crate) struct Standing {
    id: usize,
    whole: Whole,
    list: Numbers,
    walk: Option<Walk>,
    /// A step of its present operation has run.
    has_begun: bool,
}

impl Model for Standing {
    ghost use Rattle.tree_histories.specs.Keeping.{Under};

    ghost Value = { Under };

    ghost view = { λ s. record { id = s.id; whole = s.whole; listed = s.list; walk = s.walk; has_begun = s.has_begun } };
}

// Whether no more was heard to be read than the call's buffer has.
fn has_room(whole: &Whole, heard: &Heard) -> bool
    ensures room { IsTrue result → HasRoomFor heard.now whole.now }
    ensures none { result ≡ false → ReadsTooMuch heard.now whole.now }
{
    match (whole, heard) {
        (
            Whole::Read {
                buf,
                at: Read::Part(_, _),
                ..
            },
            Heard::Read(count),
        ) => *count <= buf.len(),
        _ => true,
    }
}

fn copy(alloc: Global, bytes: &[u8]) -> Result<Bytes, NoMemory>
    ensures { IfOk result (λ b. b ≡ bytes.now) }
{
    Ok(Bytes::new(Vec::from_slice(alloc, bytes)?))
}

// The piece of a write at this place.
fn piece(bytes: &[u8], index: usize) -> &[u8]
    ensures { result.now ≡ piece bytes.now index }
{
    let start = PIECE_LEN.saturating_mul(index).min(bytes.len());
    first(&bytes[start..], PIECE_LEN)
}

// Whether a link has come to its second path.
fn is_past_old(at: &Link) -> bool
    ensures { result ≡ is_past_old at.now }
{
    !matches!(at, Link::Join | Link::WalksOld(_))
}

// Whether the call is a link that has come to its second path.
fn is_on_new(whole: &Whole) -> bool
    ensures { result ≡ is_on_new whole.now }
{
    match whole {
        Whole::Link { at, .. } => is_past_old(at),
        _ => false,
    }
}

// The path of the call's steps; of a link the old one, or the new one.
fn path(whole: &Whole, is_new: bool) -> &[u8]
    ensures { result.now ≡ path_of (step_for (call_in whole.now) is_new) }
{
    match whole {
        Whole::Open { path, .. } => path.as_slice(),
        Whole::Link { old, new, .. } => {
            if is_new {
                new.as_slice()
            } else {
                old.as_slice()
            }
        }
        Whole::Unlink { path, .. } => path.as_slice(),
        Whole::Mkdir { path, .. } => path.as_slice(),
        Whole::Chdir { path, .. } => path.as_slice(),
        _ => &[],
    }
}

// The inode at which a path starts; `current` is the hart's directory.
fn start_of(path: &[u8], current: u16) -> u16
    ensures { result ≡ (if is_absolute path.now then root else current) }
{
    if is_absolute(path) { ROOT } else { current }
}

// The tree step that the call's next mark is for; of a link the one along its old path, or the one along the new.
fn step(whole: &Whole, is_new: bool) -> Result<Action, NoMemory>
    ensures { IfOk result (λ s. s ≡ step_for (call_in whole.now) is_new) }
{
    match whole {
        Whole::Open { path, flags, .. } => {
            let path = path.clone()?;
            Ok(Action::Open {
                path,
                flags: *flags,
            })
        }
        Whole::Link { old, new, .. } => link_step(old, new, is_new),
        Whole::Unlink { path, .. } => {
            let path = path.clone()?;
            Ok(Action::Unlink { path })
        }
        Whole::Mkdir { path, .. } => {
            let path = path.clone()?;
            Ok(Action::Mkdir { path })
        }
        Whole::Chdir { path, .. } => {
            let path = path.clone()?;
            Ok(Action::Chdir { path })
        }
        Whole::Write { fd, bytes, .. } => {
            let bytes = bytes.clone()?;
            Ok(Action::WritePart { fd: *fd, bytes })
        }
        Whole::Read { fd, buf, .. } => Ok(Action::Read {
            fd: *fd,
            count: buf.len(),
        }),
        Whole::Dup { fd, .. } => Ok(Action::Dup { fd: *fd }),
        Whole::Fstat { fd, .. } => Ok(Action::Fstat { fd: *fd }),
        Whole::Close { fd, .. } => Ok(Action::Close { fd: *fd }),
        Whole::Inherit { child, .. } => Ok(Action::Inherit { child: *child }),
    }
}

// A link's step along its old path, or along its new one.
fn link_step(old: &Bytes, new: &Bytes, is_new: bool) -> Result<Action, NoMemory>
    ensures { IfOk result (λ s. s ≡ step_for (calls.Link old.now new.now) is_new) }
{
    if is_new {
        let new = new.clone()?;
        Ok(Action::Enter { new })
    } else {
        let old = old.clone()?;
        Ok(Action::Find { old })
    }
}

impl Standing {
    /// A call that begins, the one at this place of the trace.
    pub(crate) fn new(alloc: Global, id: usize, call: Call) -> Result<Standing, NoMemory>
        ensures { IfOk result (λ s. (v : Version) → IsCall v call → IsNewCall v id call s) }
    {
        let list = Numbers::new(alloc)?;
        let whole = Whole::new(call);
        Ok(Standing {
            id,
            whole,
            list,
            walk: None,
            has_begun: false,
        })
    }

    pub(crate) fn id(&self) -> usize
        ensures { result ≡ self.now.id }
    {
        self.id
    }

    pub(crate) fn walk(&self) -> Option<Walk>
        ensures { result ≡ self.now.walk }
    {
        self.walk
    }

    pub(crate) fn set_walk(&mut self, walk: Option<Walk>)
        ensures { self.new ≡ walking walk self.old }
    {
        self.walk = walk;
    }

    /// Whether a step of its present operation has run before.
    pub(crate) fn has_begun(&self) -> bool
        ensures { result ≡ self.now.has_begun }
    {
        self.has_begun
    }

    /// A step of its present operation has run.
    pub(crate) fn begin(&mut self)
        ensures { self.new ≡ record self.old { has_begun = true } }
    {
        self.has_begun = true;
    }

    /// Its next operation, if it has listed these inodes.
    pub(crate) fn ask(&self) -> Ask
        ensures asks { (v : Version) (listed : List ℕ) → WholeFits v listed self.now.whole
            → asks (whole_of v listed self.now.whole) ≡ Some (op_in (text_in self.now.whole) result) }
        ensures named { (v : Version) (listed : List ℕ) → WholeFits v listed self.now.whole → WholeAsks v self.now.whole result }
    {
        self.whole.ask()
    }

    /// The two paths of the call, or the one and nothing.
    pub(crate) fn paths(&self) -> (&[u8], &[u8])
        ensures { (result.0.now ≡ first_in self.now.whole) × (result.1.now ≡ second_in self.now.whole) }
    {
        (self.whole.text(), self.whole.second())
    }

    /// The mark of its operation at this answer.
    pub(crate) fn mark(&self, version: Version, heard: &Heard) -> Option<Mark>
        requires { WholeFits version self.now.listed self.now.whole }
        ensures { (listed : List ℕ)
            → mark_at (whole_of version listed self.now.whole) heard.now ≡ marked_as (action_in self.now.whole) result }
    {
        self.whole.mark(version, heard)
    }

    /// It goes on with what it heard; none if it has ended.
    pub(crate) fn hear(self, version: Version, heard: &Heard) -> Option<Standing>
        requires { WholeFits version self.listed self.whole }
        ensures { HearsSo version self heard.now result }
    {
        let Standing {
            id,
            whole,
            list,
            walk,
            has_begun: _,
        } = self;
        let mut whole = whole;
        let mut list = list;
        let mut says = Answer::Done;
        if !has_room(&whole, heard) {
            return None;
        }
        if whole.next(version, heard, &mut list, &mut says) {
            return None;
        }
        Some(Standing {
            id,
            whole,
            list,
            walk,
            has_begun: false,
        })
    }

    /// The inode at which its path starts; `current` is the hart's directory.
    pub(crate) fn start_number(&self, current: u16) -> u16
        ensures { result ≡ (if is_absolute (path_of (action_in self.now.whole)) then root else current) }
    {
        start_of(path(&self.whole, is_on_new(&self.whole)), current)
    }

    /// The walk at the start of its path, if the path has elements; `current` is the hart's directory.
    pub(crate) fn start(&self, version: Version, current: u16) -> Option<Walk>
        ensures { let path = path_of (action_in self.now.whole) in
            IsWalk version (call_in self.now.whole) result (action_in self.now.whole) (if is_absolute path then root else current)
            (elements version path) }
    {
        let is_new = is_on_new(&self.whole);
        let path = path(&self.whole, is_new);
        let _element = next_element(version, path)?;
        Some(Walk {
            directory: start_of(path, current),
            from: 0,
            is_new,
        })
    }

    /// The name that the walk looks up next.
    pub(crate) fn name(&self, version: Version, walk: Walk) -> &[u8]
        ensures { result.now ≡ (walk_of version (call_in self.now.whole) walk).next }
    {
        match next_element(version, rest_of(path(&self.whole, walk.is_new), walk.from)) {
            Some((name, _)) => name,
            None => &[],
        }
    }

    /// Whether the walk's next element is the last one.
    pub(crate) fn is_last(&self, version: Version, walk: Walk) -> bool
        ensures { result ≡ are_none (walk_of version (call_in self.now.whole) walk).rest }
    {
        match next_element(version, rest_of(path(&self.whole, walk.is_new), walk.from)) {
            Some((_, rest)) => next_element(version, rest).is_none(),
            None => true,
        }
    }

    /// The walk in this node, which it has found, if its path goes on.
    pub(crate) fn after(&self, version: Version, walk: Walk, number: u16) -> Option<Walk>
        ensures { let before = walk_of version (call_in self.now.whole) walk in
            IsWalk version (call_in self.now.whole) result before.step number before.rest }
    {
        let path = path(&self.whole, walk.is_new);
        let (_, rest) = next_element(version, rest_of(path, walk.from))?;
        let _element = next_element(version, rest)?;
        Some(Walk {
            directory: number,
            from: path.len().saturating_sub(rest.len()),
            is_new: walk.is_new,
        })
    }

    /// The tree step that the walk is for.
    pub(crate) fn step(&self, walk: Walk) -> Result<Action, NoMemory>
        ensures { IfOk result (λ s. s ≡ step_for (call_in self.now.whole) walk.is_new) }
    {
        step(&self.whole, walk.is_new)
    }

    /// The tree step that this mark is for.
    pub(crate) fn action(&self, alloc: Global, mark: Mark) -> Result<Action, NoMemory>
        ensures { IfOk result (λ s. s ≡ step_in (action_in self.now.whole) mark) }
    {
        match mark {
            Mark::Truncate(fd) => Ok(Action::Truncate { fd }),
            Mark::Bump => Ok(Action::Bump),
            Mark::Unbump => Ok(Action::Unbump),
            Mark::Piece(index) => self.piece_step(alloc, index),
            _ => step(&self.whole, is_on_new(&self.whole)),
        }
    }

    // The step of a write's piece.
    fn piece_step(&self, alloc: Global, index: usize) -> Result<Action, NoMemory>
        ensures { IfOk result (λ s. s ≡ piece_of (action_in self.now.whole) index) }
    {
        match &self.whole {
            Whole::Write { fd, bytes, .. } => {
                let bytes = copy(alloc, piece(bytes.as_slice(), index))?;
                Ok(Action::WritePart { fd: *fd, bytes })
            }
            whole => step(whole, is_on_new(whole)),
        }
    }
}
