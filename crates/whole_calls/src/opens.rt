//! open: what is there is opened, or a new file made.
ghost use Rattle.std.specs.Prelude.{◌≡◌, ◌≢◌, ◌≤◌, ℕ, All, [], List, Option, Some, length, ◌==◌, false};
ghost use Rattle.image_versions.specs.declared.version.Version.{Version};
ghost use Rattle.whole_calls.specs.Vocabulary.{has, elements, asks, claimed_of, entered_of, hears, mark_at, marked_as, op_in, reply_to, sight_of, type_of, stepped, IsNamed, name_in, IsElement, face_or, open_refusal, empties, make_on, make_with, open_face, give_up, tail, Heard};
ghost use Rattle.plain_tree.specs.declared.call.Call.TheVariants as calls;
ghost use Rattle.plain_tree.specs.declared.step.Action.TheVariants as steps;
ghost use Rattle.whole_calls.specs.Calls.{Fits, Past};
ghost use Rattle.whole_calls.specs.Opens.{installed, open_goal, open_of, open_stage};
ghost use Rattle.whole_calls.specs.declared.opens.Open.TheVariants as opening;

use crate::dropping::Dropping;
use crate::ending::Ending;
use image_versions::Version;
use path_walk::{
    Ask, Claimed, Element, Entered, Goal, Heard, InodeType, MOST_LISTED, Mark, Numbers, Query,
    Sight, Walk, Walked, face_or, is_live, next_element, stopped,
};
use plain_tree::{Answer, Cause, Full};

const CREATE: u32 = 0x200;

const EMPTY: u32 = 0x400;

const DRIVERS: i16 = 10;

/// An inode that is to have a descriptor.
#[derive(Clone, Copy)]
pub struct Found {
    pub number: u32,
    pub inode_type: InodeType,
    /// It is new.
    pub made: bool,
}

impl Found {
    #[inline(always)]
    fn new(number: u32, inode_type: InodeType, made: bool) -> Found
        ensures { result ≡ (record { number = number; inode_type = inode_type; made = made }) }
    {
        Found {
            number,
            inode_type,
            made,
        }
    }
}

/// A name for a new inode.
#[derive(Clone, Copy)]
pub struct NewName {
    pub directory: u32,
    pub element: Element,
    pub number: u32,
}

/// An open (xv6: `sys_open` and `create`).
#[derive(Clone, Copy)]
pub enum Open {
    Join,
    Walks(Walk),
    /// What is there is taken.
    Take(u32),
    /// A place for an open file, and a descriptor for it; a file may be emptied; its lock is given up.
    Slot(Found),
    Install(Found),
    Empty(u32, u32),
    UnlockInode(u32, u32),
    /// The name is looked up, to be made if it isn't there.
    Look(u32, Element),
    Up(u32, u32),
    GiveParent(Dropping, u32),
    Claim(u32, Element),
    /// What was claimed is the directory itself, which was no directory then.
    ForgetSame(u32),
    TakeNew(NewName),
    StoreNew(NewName, InodeType),
    Enter(NewName, InodeType),
    GiveEntered(Dropping, u32, InodeType),
    Unmake(u32, u32, Answer),
    Ends(Ending),
}

// The flags have this bit.
fn has_flag(flags: u32, bit: u32) -> bool
    ensures { result ≡ has flags bit }
{
    flags & bit != 0
}

fn goal(flags: u32) -> Goal
    ensures { result ≡ open_goal flags }
{
    if has_flag(flags, CREATE) {
        Goal::Parent
    } else {
        Goal::Inside
    }
}

// A file is emptied.
fn is_emptied(flags: u32, inode_type: InodeType) -> bool
    ensures { result ≡ empties flags (type_of inode_type) }
{
    match inode_type {
        InodeType::File => has_flag(flags, EMPTY),
        _ => false,
    }
}

// Why what is of this type isn't opened.
fn refusal(flags: u32, inode_type: InodeType) -> Option<Cause>
    ensures { result ≡ open_refusal (flags == 0) (type_of inode_type) }
{
    match inode_type {
        InodeType::Directory => {
            if flags == 0 {
                None
            } else {
                Some(Cause::IsDirectory)
            }
        }
        InodeType::File => None,
        InodeType::Device(major) => {
            if 0 <= major && major < DRIVERS {
                None
            } else {
                Some(Cause::NoDriver)
            }
        }
    }
}

// Gives an inode up, and answers this.
#[inline(always)]
fn refuse(number: u32, answer: Answer, at: &mut Open)
    ensures program { (v : Version) (path : List ℕ) (flags : ℕ) (list : List ℕ)
        → open_of v path flags list at.new ≡ give_up number (tail list (reply_to (calls.Open path flags) answer)) }
    ensures past { open_stage at.new ≡ Past }
{
    *at = Open::Ends(Ending::Gives(Dropping::UnlockInode(number), answer));
}

// A transaction is joined.
#[inline(always)]
fn begin(version: Version, path: &[u8], flags: u32, at: &mut Open)
    requires { All (λ b. b ≢ 0) path.now }
    ensures program { (text : List ℕ) (heard : Heard)
        → hears text (open_of version path.now flags [] opening.Join) heard ≡ open_of version path.now flags [] at.new }
    ensures fits { length (elements version path.now) ≤ MOST_LISTED → Fits version path.now [] (open_stage at.new) }
{
    if has_flag(flags, CREATE) && next_element(version, path, 0).is_none() {
        *at = Open::Ends(Ending::Leaves(Answer::Failed(Cause::NoEntry)));
    } else {
        *at = Open::Walks(Walk::Start);
    }
}

// What is there was taken.
#[inline(always)]
fn took(number: u32, flags: u32, sight: &Sight, at: &mut Open)
    ensures program { (v : Version) (path list : List ℕ) → open_of v path flags list at.new ≡
        open_face path flags number list (face_or (sight_of sight.now).face).inode_type
        (open_refusal (flags == 0) (face_or (sight_of sight.now).face).inode_type) }
    ensures past { open_stage at.new ≡ Past }
{
    let inode_type = face_or(sight).inode_type;
    match refusal(flags, inode_type) {
        Some(cause) => refuse(number, Answer::Failed(cause), at),
        None => *at = Open::Slot(Found::new(number, inode_type, false)),
    }
}

// A place for an open file was wanted.
#[inline(always)]
fn placed(found: Found, heard: &Heard, at: &mut Open)
    ensures program { (v : Version) (text path : List ℕ) (flags : ℕ) (list : List ℕ)
        → hears text (open_of v path flags list (opening.Slot found)) heard.now ≡ open_of v path flags list at.new }
    ensures past { open_stage at.new ≡ Past }
{
    if heard.is() {
        *at = Open::Install(found);
    } else {
        refuse(found.number, Answer::Full(Full::OpenFiles), at);
    }
}

// A descriptor was wanted.
#[inline(always)]
fn installed(found: Found, flags: u32, fd: Option<u32>, at: &mut Open)
    ensures program { (v : Version) (path list : List ℕ) → open_of v path flags list at.new ≡ installed path flags list found fd }
    ensures past { open_stage at.new ≡ Past }
{
    match fd {
        None => refuse(found.number, Answer::Full(Full::Descriptors), at),
        Some(fd) => {
            if !found.made && is_emptied(flags, found.inode_type) {
                *at = Open::Empty(found.number, fd);
            } else {
                *at = Open::UnlockInode(found.number, fd);
            }
        }
    }
}

// What the directory has under the name.
#[inline(always)]
fn looked(directory: u32, element: Element, heard: &Heard, at: &mut Open)
    ensures program { (v : Version) (text path : List ℕ) (flags : ℕ) (list : List ℕ)
        → hears text (open_of v path flags list (opening.Look directory element)) heard.now ≡ open_of v path flags list at.new }
    ensures fits { (v : Version) (path list : List ℕ) → IsElement v path element → Fits v path list (open_stage at.new) }
{
    let sight = heard.sight();
    if !is_live(&sight) {
        return refuse(directory, Answer::Failed(Cause::NoEntry), at);
    }
    match sight.found {
        None => *at = Open::Claim(directory, element),
        Some(number) => *at = Open::Up(directory, number),
    }
}

// A reference to what has the name was wanted.
#[inline(always)]
fn referred(directory: u32, number: u32, heard: &Heard, at: &mut Open)
    ensures program { (v : Version) (text path : List ℕ) (flags : ℕ) (list : List ℕ)
        → hears text (open_of v path flags list (opening.Up directory number)) heard.now ≡ open_of v path flags list at.new }
    ensures past { open_stage at.new ≡ Past }
{
    if heard.is() {
        *at = Open::GiveParent(Dropping::UnlockInode(directory), number);
    } else {
        refuse(directory, Answer::Full(Full::MemInodes), at);
    }
}

// A new inode was wanted.
#[inline(always)]
fn claimed(directory: u32, element: Element, claimed: Claimed, at: &mut Open)
    ensures program { (v : Version) (path : List ℕ) (flags : ℕ) (list : List ℕ)
        → open_of v path flags list at.new ≡ make_with path flags directory (name_in path element) list (claimed_of claimed) }
    ensures fits { (v : Version) (path list : List ℕ) → IsElement v path element → Fits v path list (open_stage at.new) }
{
    match claimed {
        Claimed::NoInode => refuse(directory, Answer::Full(Full::DiskInodes), at),
        Claimed::NoPlace => refuse(directory, Answer::Full(Full::MemInodes), at),
        Claimed::New(number) if number == directory => *at = Open::ForgetSame(directory),
        Claimed::New(number) => {
            *at = Open::TakeNew(NewName {
                directory,
                element,
                number,
            });
        }
    }
}

// The name was to be entered.
#[inline(always)]
fn entered(name: NewName, inode_type: InodeType, entered: Entered, at: &mut Open)
    ensures program { (v : Version) (path : List ℕ) (flags : ℕ) (list : List ℕ)
        → open_of v path flags list at.new ≡ make_on path flags name.number (type_of inode_type) name.directory list (entered_of entered) }
    ensures past { open_stage at.new ≡ Past }
{
    match entered {
        Entered::InPlace => {
            let dropping = Dropping::UnlockInode(name.directory);
            *at = Open::GiveEntered(dropping, name.number, inode_type);
        }
        Entered::NoBlock => {
            *at = Open::Unmake(name.number, name.directory, Answer::Full(Full::Blocks));
        }
        Entered::NoSlot => {
            *at = Open::Unmake(name.number, name.directory, Answer::Full(Full::Directory));
        }
    }
}

impl Open {
    #[inline(always)]
    pub fn ask(&self, path: &[u8], flags: u32) -> Ask
        ensures asks { (v : Version) (list : List ℕ) → asks (open_of v path.now flags list self.now) ≡ Some (op_in path.now result) }
        ensures named { (v : Version) (list : List ℕ) → Fits v path.now list (open_stage self.now) → IsNamed v path.now result }
    {
        match self {
            Open::Join => Ask::Join,
            Open::Walks(walk) => walk.ask(path),
            Open::Take(number) => Ask::Take(*number, Query::Nothing),
            Open::Slot(_) => Ask::Slot,
            Open::Install(found) => Ask::Install(found.number, flags, found.inode_type),
            Open::Empty(number, _) => Ask::Empty(*number),
            Open::UnlockInode(number, _) => Ask::UnlockInode(*number),
            Open::Look(directory, element) => Ask::Take(*directory, Query::Name(*element)),
            Open::Up(_, number) => Ask::Up(*number),
            Open::GiveParent(dropping, _) => dropping.ask(),
            Open::Claim(_, _) => Ask::Claim(InodeType::File),
            Open::ForgetSame(number) => Ask::Forget(*number),
            Open::TakeNew(name) => Ask::Take(name.number, Query::Nothing),
            Open::StoreNew(name, _) => Ask::Store(name.number, 1),
            Open::Enter(name, _) => Ask::Enter(name.directory, name.element, name.number),
            Open::GiveEntered(dropping, _, _) => dropping.ask(),
            Open::Unmake(number, _, _) => Ask::Store(*number, 0),
            Open::Ends(ending) => ending.ask(),
        }
    }

    /// Goes on in its place with what it hears: true if it has ended, with its answer left in `says`.
    #[inline(always)]
    pub fn step(
        &mut self,
        version: Version,
        heard: &Heard,
        path: &[u8],
        flags: u32,
        list: &mut Numbers,
        says: &mut Answer,
    ) -> bool
        requires nonzero { All (λ b. b ≢ 0) path.now }
        requires fits { Fits version path.now list.old (open_stage self.old) }
        ensures goes { (text : List ℕ)
            → hears text (open_of version path.now flags list.old self.old) heard.now
            ≡ stepped (open_of version path.now flags list.new self.new) (calls.Open path.now flags) says.new result }
        ensures fits { result ≡ false → Fits version path.now list.new (open_stage self.new) }
    {
        match self {
            Open::Join => begin(version, path, flags, self),
            Open::Walks(walk) => match walk.step(version, goal(flags), heard, path, list) {
                Walked::Walks => {}
                Walked::Reached(number, None) => *self = Open::Take(number),
                Walked::Reached(number, Some(element)) => *self = Open::Look(number, element),
                Walked::Lost(why) => *self = Open::Ends(Ending::Leaves(stopped(why))),
            },
            Open::Take(number) => took(*number, flags, &heard.sight(), self),
            Open::Slot(found) => placed(*found, heard, self),
            Open::Install(found) => installed(*found, flags, heard.start(), self),
            Open::Empty(number, fd) => *self = Open::UnlockInode(*number, *fd),
            Open::UnlockInode(_, fd) => *self = Open::Ends(Ending::Leaves(Answer::Fd(*fd))),
            Open::Look(directory, element) => looked(*directory, *element, heard, self),
            Open::Up(directory, number) => referred(*directory, *number, heard, self),
            Open::GiveParent(dropping, number) => {
                if dropping.step(heard) {
                    *self = Open::Take(*number);
                }
            }
            Open::Claim(directory, element) => claimed(*directory, *element, heard.claimed(), self),
            Open::ForgetSame(directory) => refuse(*directory, Answer::Full(Full::MemInodes), self),
            Open::TakeNew(name) => {
                *self = Open::StoreNew(*name, face_or(&heard.sight()).inode_type);
            }
            Open::StoreNew(name, inode_type) => *self = Open::Enter(*name, *inode_type),
            Open::Enter(name, inode_type) => entered(*name, *inode_type, heard.entered(), self),
            Open::GiveEntered(dropping, number, inode_type) => {
                if dropping.step(heard) {
                    *self = Open::Slot(Found::new(*number, *inode_type, true));
                }
            }
            Open::Unmake(number, directory, answer) => {
                let dropping = Dropping::UnlockInode(*number);
                *self = Open::Ends(Ending::GivesTwo(dropping, *directory, *answer));
            }
            Open::Ends(ending) => return ending.step(heard, list, says),
        }
        false
    }

    /// The move that is made here, if one is.
    pub fn mark(&self, version: Version, heard: &Heard, path: &[u8], flags: u32) -> Option<Mark>
        requires { All (λ b. b ≢ 0) path.now }
        ensures { (list : List ℕ)
            → mark_at (open_of version path.now flags list self.now) heard.now ≡ marked_as (steps.Open path.now flags) result }
    {
        match self {
            Open::Join => {
                if has_flag(flags, CREATE) && next_element(version, path, 0).is_none() {
                    Some(Mark::Begin)
                } else {
                    None
                }
            }
            Open::Walks(walk) => walk.mark(heard),
            Open::Slot(_) | Open::Up(_, _) => { if heard.is() { None } else { Some(Mark::Mends) } }
            Open::Install(found) => match heard.start() {
                None => Some(Mark::Mends),
                Some(fd) if found.made && has_flag(flags, EMPTY) => Some(Mark::Truncate(fd)),
                Some(_) => None,
            },
            Open::Empty(_, fd) => Some(Mark::Truncate(*fd)),
            Open::Look(_, _) => {
                let sight = heard.sight();
                if !is_live(&sight) {
                    Some(Mark::GiveUpWalk)
                } else if sight.found.is_some() {
                    Some(Mark::Look(0))
                } else {
                    None
                }
            }
            Open::GiveParent(dropping, _) => dropping.mark(),
            Open::Claim(_, _) => match heard.claimed() {
                Claimed::New(_) => None,
                _ => Some(Mark::Mends),
            },
            Open::Enter(name, _) => match heard.entered() {
                Entered::InPlace => Some(Mark::Look(name.number)),
                _ => Some(Mark::Mends),
            },
            Open::GiveEntered(dropping, _, _) => dropping.mark(),
            Open::Unmake(number, _, _) => Some(Mark::Orphans(*number)),
            Open::Ends(ending) => ending.mark(),
            _ => None,
        }
    }
}
