//! A path walked, from directory to directory.
ghost use Rattle.std.specs.Prelude.{◌≡◌, ◌≢◌, ◌≤◌, ◌+◌, ℕ, All, List, Option, Some, drop, length};
ghost use Rattle.image_versions.specs.declared.version.Version.{Version};
ghost use Rattle.path_walk.specs.Vocabulary.{elements, Action, is_directory_face, is_live_face, face_or, Call, stopped};
ghost use Rattle.path_walk.specs.Asks.{asks, hears, mark_at, marked_as, op_in, sight_of, reply_to, face_of, IsNamed, OnlySeeks};
ghost use Rattle.path_walk.specs.Walks.{After, Stands, StandsAt, elements_from, most_left, most_walked, onward, walk_of, walked_to, stop_of};

use crate::asks::{Ask, Face, Heard, InodeType, Mark, Query, Sight};
use crate::elements::{Element, is_absolute, next_element};
use crate::numbers::{MOST_LISTED, Numbers};
use image_versions::Version;
use plain_tree::{Answer, Cause, Full};

/// What a path leads to: what it names, or the directory of its last element.
#[derive(Clone, Copy)]
pub enum Goal {
    Inside,
    Parent,
}

/// Why a walk ends before its end.
#[derive(Clone, Copy)]
pub enum Lost {
    NotThere,
    NoMemory,
}

/// What comes after a directory was left: the next one, if the path goes on at a place; or nothing.
#[derive(Clone, Copy)]
pub enum Next {
    Go(u32, usize),
    Quits(Lost),
}

/// A walk. Its places are in the path (xv6: `namex`).
#[derive(Clone, Copy)]
pub enum Walk {
    /// A reference to the path's start is taken.
    Start,
    /// An element is looked up in a directory.
    Look(u32, Element),
    /// The last element's directory is seen to be one.
    See(u32, Element),
    /// A reference to what was found is taken.
    Up(u32, u32, usize),
    /// The directory's lock is given up ..
    UnlockInode(u32, Next),
    /// .. and the reference to it dropped.
    Down(u32, Next),
    /// The lock of the parent that was reached is given up.
    Leave(u32, Element),
}

/// How a walk goes on: it walks, or has come to its end.
#[derive(Clone, Copy)]
pub enum Walked {
    Walks,
    Reached(u32, Option<Element>),
    Lost(Lost),
}

/// On from a directory, at this place of the path.
#[inline(always)]
fn onward(
    version: Version,
    walk: &mut Walk,
    goal: Goal,
    directory: u32,
    path: &[u8],
    rest: usize,
) -> Walked
    requires rest { rest ≤ length path.now }
    requires nonzero { All (λ b. b ≢ 0) path.now }
    ensures goes { (s : Action) (after : After) (list : List ℕ)
        → walked_to version s path.now after goal list walk.new result
        ≡ onward version s path.now after goal directory (elements version (drop rest path.now)) list }
    ensures most { most_walked version path.now walk.new result ≤ elements_from version path.now rest }
    ensures stands { StandsAt version path.now walk.new result }
{
    match (goal, next_element(version, path, rest)) {
        (Goal::Inside, None) => Walked::Reached(directory, None),
        (Goal::Inside, Some(element)) => {
            *walk = Walk::Look(directory, element);
            Walked::Walks
        }
        (Goal::Parent, None) => Walked::Lost(Lost::NotThere),
        (Goal::Parent, Some(element)) => {
            *walk = match next_element(version, path, element.rest) {
                None => Walk::See(directory, element),
                Some(_) => Walk::Look(directory, element),
            };
            Walked::Walks
        }
    }
}

/// A directory was seen.
pub fn is_directory(sight: &Sight) -> bool
    ensures { result ≡ is_directory_face (sight_of sight.now).face }
{
    matches!(sight.face, Some(face) if matches!(face.inode_type, InodeType::Directory))
}

/// A directory with links was seen.
pub fn is_live(sight: &Sight) -> bool
    ensures { result ≡ is_live_face (sight_of sight.now).face }
{
    is_directory(sight) && face_or(sight).count > 0
}

impl Walk {
    #[inline(always)]
    pub fn ask(&self, path: &[u8]) -> Ask
        ensures asks { (v : Version) (s : Action) (after : After) (goal : Goal) (list : List ℕ)
            → asks (walk_of v s path.now after goal list self.now) ≡ Some (op_in path.now result) }
        ensures named { (v : Version) → Stands v path.now self.now → IsNamed v path.now result }
        ensures seeks { OnlySeeks result }
    {
        match self {
            Walk::Start => Ask::UpStart(is_absolute(path)),
            Walk::Look(directory, element) => Ask::Take(*directory, Query::Name(*element)),
            Walk::See(directory, _) => Ask::Take(*directory, Query::Nothing),
            Walk::Up(_, number, _) => Ask::Up(*number),
            Walk::UnlockInode(directory, _) | Walk::Leave(directory, _) => Ask::UnlockInode(
                *directory,
            ),
            Walk::Down(directory, _) => Ask::WalkDown(*directory),
        }
    }

    /// Goes on in its place with what it hears.
    #[inline(always)]
    pub fn step(
        &mut self,
        version: Version,
        goal: Goal,
        heard: &Heard,
        path: &[u8],
        list: &mut Numbers,
    ) -> Walked
        requires nonzero { All (λ b. b ≢ 0) path.now }
        requires room { length list.old + most_left version path.now self.old ≤ MOST_LISTED }
        requires stands { Stands version path.now self.old }
        ensures goes { (text : List ℕ) (s : Action) (after : After)
            → hears text (walk_of version s path.now after goal list.old self.old) heard.now
            ≡ walked_to version s path.now after goal list.new self.new result }
        ensures most { length list.new + most_walked version path.now self.new result
            ≤ length list.old + most_left version path.now self.old }
        ensures stands { StandsAt version path.now self.new result }
    {
        match self {
            Walk::Start => {
                return match heard.start() {
                    Some(directory) => onward(version, self, goal, directory, path, 0),
                    None => Walked::Lost(Lost::NoMemory),
                };
            }
            Walk::Look(directory, element) => match heard.sight().found {
                Some(number) => *self = Walk::Up(*directory, number, element.rest),
                None => *self = Walk::UnlockInode(*directory, Next::Quits(Lost::NotThere)),
            },
            Walk::See(directory, element) => {
                if is_directory(&heard.sight()) {
                    *self = Walk::Leave(*directory, *element);
                } else {
                    *self = Walk::UnlockInode(*directory, Next::Quits(Lost::NotThere));
                }
            }
            Walk::Up(directory, number, rest) => {
                if heard.is() {
                    *self = Walk::UnlockInode(*directory, Next::Go(*number, *rest));
                } else {
                    *self = Walk::UnlockInode(*directory, Next::Quits(Lost::NoMemory));
                }
            }
            Walk::UnlockInode(directory, next) => *self = Walk::Down(*directory, *next),
            Walk::Down(directory, next) => {
                if heard.is() {
                    list.push(*directory);
                }
                return match *next {
                    Next::Go(directory, rest) => onward(version, self, goal, directory, path, rest),
                    Next::Quits(why) => Walked::Lost(why),
                };
            }
            Walk::Leave(directory, element) => return Walked::Reached(*directory, Some(*element)),
        }
        Walked::Walks
    }

    /// The move of the walk that is made here, if one is.
    pub fn mark(&self, heard: &Heard) -> Option<Mark>
        ensures { (v : Version) (s : Action) (path : List ℕ) (after : After) (goal : Goal) (list : List ℕ)
            → mark_at (walk_of v s path after goal list self.now) heard.now ≡ marked_as s result }
    {
        match self {
            Walk::Start => match heard.start() {
                Some(_) => Some(Mark::Begin),
                None => Some(Mark::Mends),
            },
            Walk::Look(_, _) => {
                if is_live(&heard.sight()) {
                    Some(Mark::Look(0))
                } else {
                    Some(Mark::GiveUpWalk)
                }
            }
            Walk::See(_, _) => {
                if is_directory(&heard.sight()) {
                    None
                } else {
                    Some(Mark::GiveUpWalk)
                }
            }
            Walk::Up(_, _, _) => { if heard.is() { None } else { Some(Mark::Mends) } }
            _ => None,
        }
    }
}

/// Why a call fails whose walk is lost.
pub fn stopped(why: Lost) -> Answer
    ensures { (call : Call) → reply_to call result ≡ stopped call (stop_of why) }
{
    match why {
        Lost::NotThere => Answer::Failed(Cause::NoEntry),
        Lost::NoMemory => Answer::Full(Full::MemInodes),
    }
}

/// A face that was seen, or one that nobody asks for.
pub fn face_or(sight: &Sight) -> Face
    ensures { face_of result ≡ face_or (sight_of sight.now).face }
{
    match sight.face {
        Some(face) => face,
        None => Face {
            inode_type: InodeType::File,
            count: 0,
            size: 0,
        },
    }
}
