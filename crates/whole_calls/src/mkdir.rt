//! mkdir: the new directory with its two entries first, then its name and its parent's count.
ghost use Rattle.std.specs.Prelude.{◌≡◌, ◌≢◌, ◌≤◌, ℕ, All, [], List, Option, Some, length, false};
ghost use Rattle.image_versions.specs.declared.version.Version.{Version};
ghost use Rattle.whole_calls.specs.Vocabulary.{elements, asks, claimed_of, entered_of, face_of, hears, mark_at, marked_as, op_in, reply_to, sight_of, stepped, IsNamed, name_in, IsElement, face_or, mkdir_refused, mkdir_with, name_directory, give_up, tail, Heard};
ghost use Rattle.plain_tree.specs.declared.call.Call.TheVariants as calls;
ghost use Rattle.plain_tree.specs.declared.step.Action.TheVariants as steps;
ghost use Rattle.whole_calls.specs.Calls.{Fits, Past};
ghost use Rattle.whole_calls.specs.Makes.{mkdir_of, mkdir_stage};
ghost use Rattle.whole_calls.specs.declared.mkdir.Mkdir.TheVariants as making;

use crate::dropping::Dropping;
use crate::ending::Ending;
use crate::opens::NewName;
use image_versions::Version;
use path_walk::{
    Ask, Claimed, Element, Entered, Face, Goal, Heard, InodeType, MOST_LISTED, Mark, Numbers,
    Query, Sight, Walk, Walked, face_or, is_live, next_element, stopped,
};
use plain_tree::{Answer, Cause, Full};

const COUNT_LIMIT: u16 = 32767;

/// The face is the parent's, as it was seen (xv6: `sys_mkdir` and `create`).
#[derive(Clone, Copy)]
pub enum Mkdir {
    Join,
    Walks(Walk),
    Look(u32, Element),
    Claim(u32, Element, Face),
    ForgetSame(u32),
    TakeNew(NewName, Face),
    StoreNew(NewName, Face),
    Fill(NewName, Face),
    Enter(NewName, Face),
    Raise(NewName, Face),
    Unmake(NewName, Answer),
    Ends(Ending),
}

fn refuse(number: u32, answer: Answer) -> Mkdir
    ensures program { (v : Version) (path list : List ℕ)
        → mkdir_of v path list result ≡ give_up number (tail list (reply_to (calls.Mkdir path) answer)) }
    ensures past { mkdir_stage result ≡ Past }
{
    Mkdir::Ends(Ending::Gives(Dropping::UnlockInode(number), answer))
}

fn begin(version: Version, path: &[u8]) -> Mkdir
    requires { All (λ b. b ≢ 0) path.now }
    ensures program { (text : List ℕ) (heard : Heard)
        → hears text (mkdir_of version path.now [] making.Join) heard ≡ mkdir_of version path.now [] result }
    ensures fits { length (elements version path.now) ≤ MOST_LISTED → Fits version path.now [] (mkdir_stage result) }
{
    match next_element(version, path, 0) {
        None => Mkdir::Ends(Ending::Leaves(Answer::Failed(Cause::NoEntry))),
        Some(_) => Mkdir::Walks(Walk::Start),
    }
}

// Why a directory isn't made: its name is there, or its parent has all its links.
fn refusal(sight: &Sight) -> Option<Cause>
    ensures { result ≡ mkdir_refused sight.now.found (face_or (sight_of sight.now).face) }
{
    match sight.found {
        Some(_) => Some(Cause::Exists),
        None => {
            if face_or(sight).count < COUNT_LIMIT {
                None
            } else {
                Some(Cause::TooManyLinks)
            }
        }
    }
}

// What the directory has under the name.
fn looked(directory: u32, element: Element, heard: &Heard) -> Mkdir
    ensures program { (v : Version) (text path list : List ℕ)
        → hears text (mkdir_of v path list (making.Look directory element)) heard.now ≡ mkdir_of v path list result }
    ensures fits { (v : Version) (path list : List ℕ) → IsElement v path element → Fits v path list (mkdir_stage result) }
{
    let sight = heard.sight();
    if !is_live(&sight) {
        return refuse(directory, Answer::Failed(Cause::NoEntry));
    }
    match refusal(&sight) {
        Some(cause) => refuse(directory, Answer::Failed(cause)),
        None => Mkdir::Claim(directory, element, face_or(&sight)),
    }
}

fn claimed(directory: u32, element: Element, face: Face, claimed: Claimed) -> Mkdir
    ensures program { (v : Version) (path list : List ℕ)
        → mkdir_of v path list result ≡ mkdir_with path directory (name_in path element) list (face_of face) (claimed_of claimed) }
    ensures fits { (v : Version) (path list : List ℕ) → IsElement v path element → Fits v path list (mkdir_stage result) }
{
    match claimed {
        Claimed::NoInode => refuse(directory, Answer::Full(Full::DiskInodes)),
        Claimed::NoPlace => refuse(directory, Answer::Full(Full::MemInodes)),
        Claimed::New(number) if number == directory => Mkdir::ForgetSame(directory),
        Claimed::New(number) => {
            let name = NewName {
                directory,
                element,
                number,
            };
            Mkdir::TakeNew(name, face)
        }
    }
}

fn entered(name: NewName, face: Face, entered: Entered) -> Mkdir
    ensures program { (v : Version) (path list : List ℕ)
        → mkdir_of v path list result ≡ name_directory path name.directory (face_of face) name.number list (entered_of entered) }
    ensures past { mkdir_stage result ≡ Past }
{
    match entered {
        Entered::InPlace => Mkdir::Raise(name, face),
        Entered::NoBlock => Mkdir::Unmake(name, Answer::Full(Full::Blocks)),
        Entered::NoSlot => Mkdir::Unmake(name, Answer::Full(Full::Directory)),
    }
}

impl Mkdir {
    #[inline(always)]
    pub fn ask(&self, path: &[u8]) -> Ask
        ensures asks { (v : Version) (list : List ℕ) → asks (mkdir_of v path.now list self.now) ≡ Some (op_in path.now result) }
        ensures named { (v : Version) (list : List ℕ) → Fits v path.now list (mkdir_stage self.now) → IsNamed v path.now result }
    {
        match self {
            Mkdir::Join => Ask::Join,
            Mkdir::Walks(walk) => walk.ask(path),
            Mkdir::Look(directory, element) => Ask::Take(*directory, Query::Name(*element)),
            Mkdir::Claim(_, _, _) => Ask::Claim(InodeType::Directory),
            Mkdir::ForgetSame(number) => Ask::Forget(*number),
            Mkdir::TakeNew(name, _) => Ask::Take(name.number, Query::Nothing),
            Mkdir::StoreNew(name, _) => Ask::Store(name.number, 1),
            Mkdir::Fill(name, _) => Ask::Fill(name.number, name.directory),
            Mkdir::Enter(name, _) => Ask::Enter(name.directory, name.element, name.number),
            Mkdir::Raise(name, face) => Ask::Store(name.directory, u32::from(face.count) + 1),
            Mkdir::Unmake(name, _) => Ask::Store(name.number, 0),
            Mkdir::Ends(ending) => ending.ask(),
        }
    }

    /// Goes on in its place with what it hears: true if it has ended, with its answer left in `says`.
    pub fn step(
        &mut self,
        version: Version,
        heard: &Heard,
        path: &[u8],
        list: &mut Numbers,
        says: &mut Answer,
    ) -> bool
        requires nonzero { All (λ b. b ≢ 0) path.now }
        requires fits { Fits version path.now list.old (mkdir_stage self.old) }
        ensures goes { (text : List ℕ)
            → hears text (mkdir_of version path.now list.old self.old) heard.now
            ≡ stepped (mkdir_of version path.now list.new self.new) (calls.Mkdir path.now) says.new result }
        ensures fits { result ≡ false → Fits version path.now list.new (mkdir_stage self.new) }
    {
        match self {
            Mkdir::Join => *self = begin(version, path),
            Mkdir::Walks(walk) => match walk.step(version, Goal::Parent, heard, path, list) {
                Walked::Walks => {}
                Walked::Reached(directory, Some(element)) => {
                    *self = Mkdir::Look(directory, element);
                }
                Walked::Reached(_, None) => {
                    *self = Mkdir::Ends(Ending::Leaves(Answer::Failed(Cause::NoEntry)));
                }
                Walked::Lost(why) => *self = Mkdir::Ends(Ending::Leaves(stopped(why))),
            },
            Mkdir::Look(directory, element) => *self = looked(*directory, *element, heard),
            Mkdir::Claim(directory, element, face) => {
                *self = claimed(*directory, *element, *face, heard.claimed());
            }
            Mkdir::ForgetSame(directory) => {
                *self = refuse(*directory, Answer::Full(Full::MemInodes));
            }
            Mkdir::TakeNew(name, face) => *self = Mkdir::StoreNew(*name, *face),
            Mkdir::StoreNew(name, face) => *self = Mkdir::Fill(*name, *face),
            Mkdir::Fill(name, face) => {
                *self = if heard.is() {
                    Mkdir::Enter(*name, *face)
                } else {
                    Mkdir::Unmake(*name, Answer::Full(Full::Blocks))
                };
            }
            Mkdir::Enter(name, face) => *self = entered(*name, *face, heard.entered()),
            Mkdir::Raise(name, _) => {
                let dropping = Dropping::UnlockInode(name.directory);
                *self = Mkdir::Ends(Ending::GivesTwo(dropping, name.number, Answer::Done));
            }
            Mkdir::Unmake(name, answer) => {
                let dropping = Dropping::UnlockInode(name.number);
                *self = Mkdir::Ends(Ending::GivesTwo(dropping, name.directory, *answer));
            }
            Mkdir::Ends(ending) => return ending.step(heard, list, says),
        }
        false
    }

    pub fn mark(&self, version: Version, heard: &Heard, path: &[u8]) -> Option<Mark>
        requires { All (λ b. b ≢ 0) path.now }
        ensures { (list : List ℕ) → mark_at (mkdir_of version path.now list self.now) heard.now ≡ marked_as (steps.Mkdir path.now) result }
    {
        match self {
            Mkdir::Join => {
                if next_element(version, path, 0).is_none() {
                    Some(Mark::Begin)
                } else {
                    None
                }
            }
            Mkdir::Walks(walk) => walk.mark(heard),
            Mkdir::Look(_, _) => {
                let sight = heard.sight();
                if !is_live(&sight) {
                    Some(Mark::GiveUpWalk)
                } else if refusal(&sight).is_some() {
                    Some(Mark::Look(0))
                } else {
                    None
                }
            }
            Mkdir::Claim(_, _, _) => match heard.claimed() {
                Claimed::New(_) => None,
                _ => Some(Mark::Mends),
            },
            Mkdir::Fill(_, _) => { if heard.is() { None } else { Some(Mark::Mends) } }
            Mkdir::Enter(name, _) => match heard.entered() {
                Entered::InPlace => Some(Mark::Look(name.number)),
                _ => Some(Mark::Mends),
            },
            Mkdir::Unmake(name, _) => Some(Mark::Orphans(name.number)),
            Mkdir::Ends(ending) => ending.mark(),
            _ => None,
        }
    }
}
