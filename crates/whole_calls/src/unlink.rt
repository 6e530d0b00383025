//! unlink: a name removed.
ghost use Rattle.std.specs.Prelude.{◌≡◌, ◌≢◌, ◌≤◌, ℕ, All, [], List, Option, Some, length, false};
ghost use Rattle.image_versions.specs.declared.version.Version.{Version};
ghost use Rattle.plain_tree.specs.declared.call.Call.TheVariants as calls;
ghost use Rattle.plain_tree.specs.declared.step.Action.TheVariants as steps;
ghost use Rattle.whole_calls.specs.Vocabulary.{asks, face_of, hears, mark_at, marked_as, op_in, stepped, reply_to, sight_of, IsNamed, is_directory_type, face_or, unlink_found, IsElement, give_up, tail, name_in, elements};
ghost use Rattle.whole_calls.specs.Calls.{Fits, Past, unlink_stage, cleared, is_dots, unlink_in, unlink_of};
ghost use Rattle.whole_calls.specs.declared.unlink.Unlink.TheVariants as unlinking;

use crate::dropping::Dropping;
use crate::ending::Ending;
use image_versions::Version;
use path_walk::{
    Ask, Element, Face, Goal, Heard, InodeType, MOST_LISTED, Mark, Numbers, Query, Sight, Walk,
    Walked, face_or, is_live, next_element, stopped,
};
use plain_tree::{Answer, Cause, Full};

/// A name in its directory, of which this is seen.
#[derive(Clone, Copy)]
pub struct Name {
    pub directory: u32,
    pub element: Element,
    pub face: Face,
}

/// The name goes, then the counts of its directory and of what it named (xv6: `sys_unlink`).
#[derive(Clone, Copy)]
pub enum Unlink {
    Join,
    Walks(Walk),
    /// "." and ".." stay.
    Dots(u32),
    /// The name is looked up.
    Look(u32, Element),
    /// What it names is referred to ..
    Up(Name, u32),
    /// .. and taken. A directory with entries stays.
    Take(Name, u32),
    Clear(Name, u32, Face),
    LowerParent(Name, u32, Face),
    GiveParent(Dropping, u32, Face),
    Lower(u32, Face),
    Ends(Ending),
}

// Gives the directory up, and answers this.
#[inline(always)]
fn refuse(directory: u32, answer: Answer, at: &mut Unlink)
    ensures program { (v : Version) (path list : List ℕ)
        → unlink_of v path list at.new ≡ give_up directory (tail list (reply_to (calls.Unlink path) answer)) }
    ensures past { unlink_stage at.new ≡ Past }
{
    *at = Unlink::Ends(Ending::Gives(Dropping::UnlockInode(directory), answer));
}

fn is_directory(face: &Face) -> bool
    ensures { result ≡ is_directory_type (face_of face.now).inode_type }
{
    matches!(face.inode_type, InodeType::Directory)
}

// "." or "..".
fn is_dots(name: &[u8]) -> bool
    ensures { result ≡ is_dots name.now }
{
    let len = name.len();
    if len == 1 {
        return name[0] == b'.';
    }
    if len == 2 {
        return name[0] == b'.' && name[1] == b'.';
    }
    false
}

// The parent is reached, with the name that is to go.
#[inline(always)]
fn reached(directory: u32, element: Element, path: &[u8], at: &mut Unlink)
    requires { (v : Version) × IsElement v path.now element }
    ensures program { (v : Version) (list : List ℕ)
        → unlink_of v path.now list at.new ≡ unlink_in path.now directory (Some (name_in path.now element)) list }
    ensures fits { (v : Version) (list : List ℕ) → IsElement v path.now element → Fits v path.now list (unlink_stage at.new) }
{
    if is_dots(&path[element.start..element.end]) {
        *at = Unlink::Dots(directory);
    } else {
        *at = Unlink::Look(directory, element);
    }
}

// "." or ".." stays, if its directory has links.
#[inline(always)]
fn stays(directory: u32, heard: &Heard, at: &mut Unlink)
    ensures program { (v : Version) (text path list : List ℕ)
        → hears text (unlink_of v path list (unlinking.Dots directory)) heard.now ≡ unlink_of v path list at.new }
    ensures past { unlink_stage at.new ≡ Past }
{
    if is_live(&heard.sight()) {
        refuse(directory, Answer::Failed(Cause::DotName), at);
    } else {
        refuse(directory, Answer::Failed(Cause::NoEntry), at);
    }
}

// A reference to what has the name was wanted.
#[inline(always)]
fn referred(name: Name, number: u32, heard: &Heard, at: &mut Unlink)
    ensures program { (v : Version) (text path list : List ℕ)
        → hears text (unlink_of v path list (unlinking.Up name number)) heard.now ≡ unlink_of v path list at.new }
    ensures past { unlink_stage at.new ≡ Past }
{
    if heard.is() {
        *at = Unlink::Take(name, number);
    } else {
        refuse(name.directory, Answer::Full(Full::MemInodes), at);
    }
}

// What has the name was taken. A directory with entries stays.
#[inline(always)]
fn took(name: Name, number: u32, heard: &Heard, at: &mut Unlink)
    ensures program { (v : Version) (text path list : List ℕ)
        → hears text (unlink_of v path list (unlinking.Take name number)) heard.now ≡ unlink_of v path list at.new }
    ensures past { unlink_stage at.new ≡ Past }
{
    if heard.sight().empty {
        *at = Unlink::Clear(name, number, face_or(&heard.sight()));
    } else {
        let dropping = Dropping::UnlockInode(number);
        let answer = Answer::Failed(Cause::NotEmpty);
        *at = Unlink::Ends(Ending::GivesTwo(dropping, name.directory, answer));
    }
}

// Once the name is gone.
#[inline(always)]
fn cleared(name: Name, number: u32, face: Face, at: &mut Unlink)
    ensures program { (v : Version) (path list : List ℕ)
        → unlink_of v path list at.new ≡ cleared path name.directory list (face_of name.face) number (face_of face) }
    ensures past { unlink_stage at.new ≡ Past }
{
    if is_directory(&face) {
        *at = Unlink::LowerParent(name, number, face);
    } else {
        *at = Unlink::GiveParent(Dropping::UnlockInode(name.directory), number, face);
    }
}

impl Unlink {
    #[inline(always)]
    pub fn ask(&self, path: &[u8]) -> Ask
        ensures asks { (v : Version) (list : List ℕ) → asks (unlink_of v path.now list self.now) ≡ Some (op_in path.now result) }
        ensures named { (v : Version) (list : List ℕ) → Fits v path.now list (unlink_stage self.now) → IsNamed v path.now result }
    {
        match self {
            Unlink::Join => Ask::Join,
            Unlink::Walks(walk) => walk.ask(path),
            Unlink::Dots(directory) => Ask::Take(*directory, Query::Nothing),
            Unlink::Look(directory, element) => Ask::Take(*directory, Query::Name(*element)),
            Unlink::Up(_, number) => Ask::Up(*number),
            Unlink::Take(_, number) => Ask::Take(*number, Query::Entries),
            Unlink::Clear(name, _, _) => Ask::Clear(name.directory, name.element),
            Unlink::LowerParent(name, _, _) => {
                Ask::Store(name.directory, u32::from(name.face.count.saturating_sub(1)))
            }
            Unlink::GiveParent(dropping, _, _) => dropping.ask(),
            Unlink::Lower(number, face) => Ask::Store(
                *number,
                u32::from(face.count.saturating_sub(1)),
            ),
            Unlink::Ends(ending) => ending.ask(),
        }
    }

    /// Goes on in its place with what it hears: true if it has ended, with its answer left in `says`.
    #[inline(always)]
    pub fn step(
        &mut self,
        version: Version,
        heard: &Heard,
        path: &[u8],
        list: &mut Numbers,
        says: &mut Answer,
    ) -> bool
        requires nonzero { All (λ b. b ≢ 0) path.now }
        requires fits { Fits version path.now list.old (unlink_stage self.old) }
        ensures goes { (text : List ℕ)
            → hears text (unlink_of version path.now list.old self.old) heard.now
            ≡ stepped (unlink_of version path.now list.new self.new) (calls.Unlink path.now) says.new result }
        ensures fits { result ≡ false → Fits version path.now list.new (unlink_stage self.new) }
    {
        match self {
            Unlink::Join => begin(version, path, self),
            Unlink::Walks(walk) => match walk.step(version, Goal::Parent, heard, path, list) {
                Walked::Walks => {}
                Walked::Reached(directory, Some(element)) => {
                    reached(directory, element, path, self);
                }
                Walked::Reached(_, None) => {
                    *self = Unlink::Ends(Ending::Leaves(Answer::Failed(Cause::NoEntry)));
                }
                Walked::Lost(why) => *self = Unlink::Ends(Ending::Leaves(stopped(why))),
            },
            Unlink::Dots(directory) => stays(*directory, heard, self),
            Unlink::Look(directory, element) => found(*directory, *element, &heard.sight(), self),
            Unlink::Up(name, number) => referred(*name, *number, heard, self),
            Unlink::Take(name, number) => took(*name, *number, heard, self),
            Unlink::Clear(name, number, face) => cleared(*name, *number, *face, self),
            Unlink::LowerParent(name, number, face) => {
                let dropping = Dropping::UnlockInode(name.directory);
                *self = Unlink::GiveParent(dropping, *number, *face);
            }
            Unlink::GiveParent(dropping, number, face) => {
                if dropping.step(heard) {
                    *self = Unlink::Lower(*number, *face);
                }
            }
            Unlink::Lower(number, _) => {
                let dropping = Dropping::UnlockInode(*number);
                *self = Unlink::Ends(Ending::Gives(dropping, Answer::Done));
            }
            Unlink::Ends(ending) => return ending.step(heard, list, says),
        }
        false
    }

    /// The move that is made here, if one is.
    pub fn mark(&self, version: Version, heard: &Heard, path: &[u8]) -> Option<Mark>
        requires { All (λ b. b ≢ 0) path.now }
        ensures { (list : List ℕ)
            → mark_at (unlink_of version path.now list self.now) heard.now ≡ marked_as (steps.Unlink path.now) result }
    {
        match self {
            Unlink::Join => {
                if next_element(version, path, 0).is_none() {
                    Some(Mark::Begin)
                } else {
                    None
                }
            }
            Unlink::Walks(walk) => walk.mark(heard),
            Unlink::Dots(_) => {
                if is_live(&heard.sight()) {
                    Some(Mark::Look(0))
                } else {
                    Some(Mark::GiveUpWalk)
                }
            }
            Unlink::Look(_, _) => {
                let sight = heard.sight();
                if !is_live(&sight) {
                    Some(Mark::GiveUpWalk)
                } else if sight.found.is_none() {
                    Some(Mark::Look(0))
                } else {
                    None
                }
            }
            Unlink::Up(_, _) => { if heard.is() { None } else { Some(Mark::Mends) } }
            Unlink::Take(_, _) => {
                if heard.sight().empty {
                    None
                } else {
                    Some(Mark::Look(0))
                }
            }
            Unlink::Clear(_, _, _) => Some(Mark::Look(0)),
            Unlink::GiveParent(dropping, _, _) => dropping.mark(),
            Unlink::Ends(ending) => ending.mark(),
            _ => None,
        }
    }
}

// A transaction is joined.
fn begin(version: Version, path: &[u8], at: &mut Unlink)
    requires { All (λ b. b ≢ 0) path.now }
    ensures program { (text : List ℕ) (heard : Heard)
        → hears text (unlink_of version path.now [] unlinking.Join) heard ≡ unlink_of version path.now [] at.new }
    ensures fits { length (elements version path.now) ≤ MOST_LISTED → Fits version path.now [] (unlink_stage at.new) }
{
    match next_element(version, path, 0) {
        None => *at = Unlink::Ends(Ending::Leaves(Answer::Failed(Cause::NoEntry))),
        Some(_) => *at = Unlink::Walks(Walk::Start),
    }
}

// What the directory has under the name.
#[inline(always)]
fn found(directory: u32, element: Element, sight: &Sight, at: &mut Unlink)
    ensures program { (v : Version) (path list : List ℕ)
        → unlink_of v path list at.new
        ≡ unlink_found path directory (name_in path element) list (face_or (sight_of sight.now).face) sight.now.found }
    ensures past { unlink_stage at.new ≡ Past }
{
    match sight.found {
        None => refuse(directory, Answer::Failed(Cause::NoEntry), at),
        Some(number) if number == directory => {
            refuse(directory, Answer::Failed(Cause::NoEntry), at);
        }
        Some(number) => {
            let name = Name {
                directory,
                element,
                face: face_or(sight),
            };
            *at = Unlink::Up(name, number);
        }
    }
}
