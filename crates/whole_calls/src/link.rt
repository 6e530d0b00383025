//! link: the count goes up first, and down again if the name can't be entered.
ghost use Rattle.std.specs.Prelude.{◌≡◌, ◌≢◌, ◌≤◌, ◌+◌, ◌++◌, ℕ, All, List, Option, Some, length, false};
ghost use Rattle.image_versions.specs.declared.version.Version.{Version};
ghost use Rattle.whole_calls.specs.Vocabulary.{elements, asks, entered_in, face_of, hears, mark_at, marked_as, op_in, reply_to, sight_of, stepped, IsNamedInTwo, IsElement, face_or, bump_refused, lower, named_on, give_up, tail, Heard};
ghost use Rattle.plain_tree.specs.declared.call.Call.TheVariants as calls;
ghost use Rattle.whole_calls.specs.Links.{link_action, link_of, link_stage, LinkFits, Past, took};
ghost use Rattle.whole_calls.specs.declared.link.Link.TheVariants as linking;

use crate::dropping::Dropping;
use crate::ending::Ending;
use image_versions::Version;
use path_walk::{
    Ask, Element, Entered, Face, Goal, Heard, MOST_LISTED, Mark, Numbers, Query, Sight, Walk,
    Walked, face_or, is_directory, is_live, next_element, stopped,
};
use plain_tree::{Answer, Cause, Full};

const COUNT_LIMIT: u16 = 32767;

const NO_ENTRY: Answer = Answer::Failed(Cause::NoEntry);

/// The number is that of what gets the name.
#[derive(Clone, Copy)]
pub enum Link {
    Join,
    WalksOld(Walk),
    Take(u32),
    Raise(u32, Face),
    UnlockInode(u32),
    WalksNew(Walk, u32),
    Look(u32, Element, u32),
    Enter(u32, Element, u32),
    GiveNamed(Dropping, u32),
    GiveFailed(Dropping, u32, Answer),
    /// The count goes down again.
    TakeRaised(u32, Answer),
    Lower(u32, Face, Answer),
    Ends(Ending),
}

// Gives an inode up, and answers this.
fn refuse(number: u32, answer: Answer) -> Link
    ensures program { (v : Version) (old new list : List ℕ)
        → link_of v old new list result ≡ give_up number (tail list (reply_to (calls.Link old new) answer)) }
    ensures past { link_stage result ≡ Past }
{
    Link::Ends(Ending::Gives(Dropping::UnlockInode(number), answer))
}

// Why a link isn't raised: there are too many.
fn refusal(face: &Face) -> Option<Cause>
    ensures { result ≡ bump_refused (face_of face.now) }
{
    if face.count < COUNT_LIMIT {
        None
    } else {
        Some(Cause::TooManyLinks)
    }
}

// What is to get the name was taken.
fn took(number: u32, sight: &Sight) -> Link
    ensures program { (v : Version) (old new list : List ℕ)
        → link_of v old new list result ≡ took v old new number list (face_or (sight_of sight.now).face) }
    ensures fits { (v : Version) (old new list : List ℕ) → length list + length (elements v new) ≤ MOST_LISTED
        → LinkFits v old new list (link_stage result) }
{
    let face = face_or(sight);
    if is_directory(sight) {
        return refuse(number, Answer::Failed(Cause::IsDirectory));
    }
    match refusal(&face) {
        Some(cause) => refuse(number, Answer::Failed(cause)),
        None => Link::Raise(number, face),
    }
}

// It was given up with its count raised.
fn gave(version: Version, number: u32, new: &[u8]) -> Link
    requires { All (λ b. b ≢ 0) new.now }
    ensures program { (text : List ℕ) (old list : List ℕ) (heard : Heard)
        → hears text (link_of version old new.now list (linking.UnlockInode number)) heard ≡ link_of version old new.now list result }
    ensures fits { (old list : List ℕ) → length list + length (elements version new.now) ≤ MOST_LISTED
        → LinkFits version old new.now list (link_stage result) }
{
    match next_element(version, new, 0) {
        None => Link::TakeRaised(number, NO_ENTRY),
        Some(_) => Link::WalksNew(Walk::Start, number),
    }
}

// The directory is given up, and the count goes down again.
fn fail(directory: u32, number: u32, answer: Answer) -> Link
    ensures program { (v : Version) (old new list : List ℕ)
        → link_of v old new list result ≡ give_up directory (lower old new number (reply_to (calls.Link old new) answer) list) }
    ensures past { link_stage result ≡ Past }
{
    Link::GiveFailed(Dropping::UnlockInode(directory), number, answer)
}

// What the directory has under the name.
fn looked(directory: u32, element: Element, number: u32, heard: &Heard) -> Link
    ensures program { (v : Version) (text old new list : List ℕ)
        → hears text (link_of v old new list (linking.Look directory element number)) heard.now ≡ link_of v old new list result }
    ensures fits { (v : Version) (old new list : List ℕ) → IsElement v new element → LinkFits v old new list (link_stage result) }
{
    let sight = heard.sight();
    if !is_live(&sight) {
        return fail(directory, number, NO_ENTRY);
    }
    match sight.found {
        Some(_) => fail(directory, number, Answer::Failed(Cause::Exists)),
        None => Link::Enter(directory, element, number),
    }
}

// The name was to be entered.
fn entered(directory: u32, number: u32, heard: &Heard) -> Link
    ensures program { (v : Version) (old new list : List ℕ)
        → link_of v old new list result ≡ named_on old new number directory list (entered_in heard.now) }
    ensures past { link_stage result ≡ Past }
{
    match heard.entered() {
        Entered::InPlace => Link::GiveNamed(Dropping::UnlockInode(directory), number),
        Entered::NoBlock => fail(directory, number, Answer::Full(Full::Blocks)),
        Entered::NoSlot => fail(directory, number, Answer::Full(Full::Directory)),
    }
}

impl Link {
    /// The next operation. The new path is after the old one.
    #[inline(always)]
    pub fn ask(&self, old: &[u8], new: &[u8]) -> Ask
        ensures asks { (v : Version) (list : List ℕ) → LinkFits v old.now new.now list (link_stage self.now)
            → asks (link_of v old.now new.now list self.now) ≡ Some (op_in (old.now ++ new.now) result) }
        ensures named { (v : Version) (list : List ℕ) → LinkFits v old.now new.now list (link_stage self.now)
            → IsNamedInTwo v old.now new.now result }
    {
        match self {
            Link::Join => Ask::Join,
            Link::WalksOld(walk) => walk.ask(old),
            Link::Take(number) => Ask::Take(*number, Query::Nothing),
            Link::Raise(number, face) => Ask::Store(*number, u32::from(face.count) + 1),
            Link::UnlockInode(number) => Ask::UnlockInode(*number),
            Link::WalksNew(walk, _) => walk.ask(new).shifted(old.len()),
            Link::Look(directory, element, _) => {
                Ask::Take(*directory, Query::Name(element.shifted(old.len())))
            }
            Link::Enter(directory, element, number) => {
                Ask::Enter(*directory, element.shifted(old.len()), *number)
            }
            Link::GiveNamed(dropping, _) => dropping.ask(),
            Link::GiveFailed(dropping, _, _) => dropping.ask(),
            Link::TakeRaised(number, _) => Ask::Take(*number, Query::Nothing),
            Link::Lower(number, face, _) => {
                Ask::Store(*number, u32::from(face.count.saturating_sub(1)))
            }
            Link::Ends(ending) => ending.ask(),
        }
    }

    /// Goes on in its place with what it hears: true if it has ended, with its answer left in `says`.
    pub fn step(
        &mut self,
        version: Version,
        heard: &Heard,
        old: &[u8],
        new: &[u8],
        list: &mut Numbers,
        says: &mut Answer,
    ) -> bool
        requires old_nonzero { All (λ b. b ≢ 0) old.now }
        requires new_nonzero { All (λ b. b ≢ 0) new.now }
        requires fits { LinkFits version old.now new.now list.old (link_stage self.old) }
        ensures goes { (text : List ℕ)
            → hears text (link_of version old.now new.now list.old self.old) heard.now
            ≡ stepped (link_of version old.now new.now list.new self.new) (calls.Link old.now new.now) says.new result }
        ensures fits { result ≡ false → LinkFits version old.now new.now list.new (link_stage self.new) }
    {
        match self {
            Link::Join => *self = Link::WalksOld(Walk::Start),
            Link::WalksOld(walk) => match walk.step(version, Goal::Inside, heard, old, list) {
                Walked::Walks => {}
                Walked::Reached(number, _) => *self = Link::Take(number),
                Walked::Lost(why) => *self = Link::Ends(Ending::Leaves(stopped(why))),
            },
            Link::Take(number) => *self = took(*number, &heard.sight()),
            Link::Raise(number, _) => *self = Link::UnlockInode(*number),
            Link::UnlockInode(number) => *self = gave(version, *number, new),
            Link::WalksNew(walk, number) => match walk.step(
                version,
                Goal::Parent,
                heard,
                new,
                list,
            ) {
                Walked::Walks => {}
                Walked::Reached(directory, Some(element)) => {
                    *self = Link::Look(directory, element, *number);
                }
                Walked::Reached(_, None) => *self = Link::TakeRaised(*number, NO_ENTRY),
                Walked::Lost(why) => *self = Link::TakeRaised(*number, stopped(why)),
            },
            Link::Look(directory, element, number) => {
                *self = looked(*directory, *element, *number, heard);
            }
            Link::Enter(directory, _, number) => *self = entered(*directory, *number, heard),
            Link::GiveNamed(dropping, number) => {
                if dropping.step(heard) {
                    *self = Link::Ends(Ending::Gives(Dropping::Down(*number), Answer::Done));
                }
            }
            Link::GiveFailed(dropping, number, answer) => {
                if dropping.step(heard) {
                    *self = Link::TakeRaised(*number, *answer);
                }
            }
            Link::TakeRaised(number, answer) => {
                *self = Link::Lower(*number, face_or(&heard.sight()), *answer);
            }
            Link::Lower(number, _, answer) => *self = refuse(*number, *answer),
            Link::Ends(ending) => return ending.step(heard, list, says),
        }
        false
    }

    pub fn mark(&self, version: Version, heard: &Heard, new: &[u8]) -> Option<Mark>
        requires { All (λ b. b ≢ 0) new.now }
        ensures { (old list : List ℕ)
            → mark_at (link_of version old new.now list self.now) heard.now ≡ marked_as (link_action old new.now self.now) result }
    {
        match self {
            Link::WalksOld(walk) => walk.mark(heard),
            Link::Take(_) => {
                let sight = heard.sight();
                if is_directory(&sight) || refusal(&face_or(&sight)).is_none() {
                    None
                } else {
                    Some(Mark::Bump)
                }
            }
            Link::Raise(_, _) => Some(Mark::Bump),
            Link::UnlockInode(_) => {
                if next_element(version, new, 0).is_none() {
                    Some(Mark::Begin)
                } else {
                    None
                }
            }
            Link::WalksNew(walk, _) => walk.mark(heard),
            Link::Look(_, _, _) => {
                let sight = heard.sight();
                if !is_live(&sight) {
                    Some(Mark::GiveUpWalk)
                } else if sight.found.is_some() {
                    Some(Mark::Look(0))
                } else {
                    None
                }
            }
            Link::Enter(_, _, _) => match heard.entered() {
                Entered::InPlace => Some(Mark::Look(0)),
                _ => Some(Mark::Mends),
            },
            Link::GiveNamed(dropping, _) => dropping.mark(),
            Link::GiveFailed(dropping, _, _) => dropping.mark(),
            Link::Lower(_, _, _) => Some(Mark::Unbump),
            Link::Ends(ending) => ending.mark(),
            _ => None,
        }
    }
}
