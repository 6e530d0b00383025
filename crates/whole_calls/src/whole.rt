//! A call under way over whole inodes, whichever it is.
ghost use Rattle.std.specs.Prelude.{◌≡◌, ℕ, [], List, Option, Some, false};
ghost use Rattle.image_versions.specs.declared.version.Version.{Version};
ghost use Rattle.whole_calls.specs.Vocabulary.{Call, asks, hears, mark_at, marked_as, op_in, reply_to, program};
ghost use Rattle.whole_calls.specs.Wholes.{HasRoomFor, IsCall, WholeAsks, WholeFits, action_in, call_in, first_in, second_in, text_in, went_to, whole_of};

use crate::chdir::Chdir;
use crate::close::{Close, Inherit};
use crate::descriptors::{Dup, Fstat};
use crate::link::Link;
use crate::mkdir::Mkdir;
use crate::opens::Open;
use crate::reading::Read;
use crate::unlink::Unlink;
use crate::writing::Write;
use image_versions::Version;
use path_walk::{Ask, Heard, Mark, Numbers};
use plain_tree::{Answer, Bytes, Call, Reply};

/// A call with what it has come to.
#[derive(Drop)]
pub enum Whole {
    Open { path: Bytes, flags: u32, at: Open },
    Read { fd: u32, buf: Vec<u8>, at: Read },
    Write { fd: u32, bytes: Bytes, at: Write },
    Link { old: Bytes, new: Bytes, at: Link },
    Unlink { path: Bytes, at: Unlink },
    Mkdir { path: Bytes, at: Mkdir },
    Chdir { path: Bytes, at: Chdir },
    Dup { fd: u32, at: Dup },
    Fstat { fd: u32, at: Fstat },
    Close { fd: u32, at: Close },
    Inherit { child: u8, at: Inherit },
}

impl Whole {
    #[inline(always)]
    pub fn new(call: Call) -> Whole
        ensures program { (v : Version) → whole_of v [] result ≡ program v call }
        ensures call { call_in result ≡ call }
        ensures fits { (v : Version) → IsCall v call → WholeFits v [] result }
    {
        match call {
            Call::Open { path, flags } => {
                let at = Open::Join;
                Whole::Open { path, flags, at }
            }
            Call::Read { fd, buf } => {
                let buf = buf.into_vec();
                let at = Read::Lock;
                Whole::Read { fd, buf, at }
            }
            Call::Write { fd, bytes } => {
                let at = Write::new(bytes.as_slice());
                Whole::Write { fd, bytes, at }
            }
            Call::Link { old, new } => {
                let at = Link::Join;
                Whole::Link { old, new, at }
            }
            Call::Unlink { path } => {
                let at = Unlink::Join;
                Whole::Unlink { path, at }
            }
            Call::Mkdir { path } => {
                let at = Mkdir::Join;
                Whole::Mkdir { path, at }
            }
            Call::Chdir { path } => {
                let at = Chdir::Join;
                Whole::Chdir { path, at }
            }
            Call::Dup { fd } => {
                let at = Dup::Double;
                Whole::Dup { fd, at }
            }
            Call::Fstat { fd } => {
                let at = Fstat::Look;
                Whole::Fstat { fd, at }
            }
            Call::Close { fd } => {
                let at = Close::Shut;
                Whole::Close { fd, at }
            }
            Call::Inherit { child } => {
                let at = Inherit::new();
                Whole::Inherit { child, at }
            }
        }
    }

    /// The next operation. Its names are in the call's path, its pieces in its bytes.
    #[inline(always)]
    pub fn ask(&self) -> Ask
        ensures asks { (v : Version) (list : List ℕ) → WholeFits v list self.now
            → asks (whole_of v list self.now) ≡ Some (op_in (text_in self.now) result) }
        ensures named { (v : Version) (list : List ℕ) → WholeFits v list self.now → WholeAsks v self.now result }
    {
        match self {
            Whole::Open { path, flags, at } => return at.ask(path.as_slice(), *flags),
            Whole::Read { fd, buf, at } => return at.ask(*fd, buf.as_slice()),
            Whole::Write { fd, bytes, at } => return at.ask(*fd, bytes.as_slice()),
            Whole::Link { old, new, at } => return at.ask(old.as_slice(), new.as_slice()),
            Whole::Unlink { path, at } => return at.ask(path.as_slice()),
            Whole::Mkdir { path, at } => return at.ask(path.as_slice()),
            Whole::Chdir { path, at } => return at.ask(path.as_slice()),
            Whole::Dup { fd, at } => return at.ask(*fd),
            Whole::Fstat { fd, at } => return at.ask(*fd),
            Whole::Close { fd, at } => return at.ask(*fd),
            Whole::Inherit { child, at } => return at.ask(*child),
        }
    }

    /// Goes on with what it hears: true if it has ended, with its answer left in `says`.
    #[inline(always)]
    pub fn next(
        &mut self,
        version: Version,
        heard: &Heard,
        list: &mut Numbers,
        says: &mut Answer,
    ) -> bool
        requires fits { WholeFits version list.old self.old }
        requires count { HasRoomFor heard.now self.old }
        ensures goes { hears (text_in self.old) (whole_of version list.old self.old) heard.now
            ≡ went_to version list.new self.new says.new result }
        ensures call { call_in self.new ≡ call_in self.old }
        ensures fits { result ≡ false → WholeFits version list.new self.new }
    {
        match self {
            Whole::Open { path, flags, at } => at.step(
                version,
                heard,
                path.as_slice(),
                *flags,
                list,
                says,
            ),
            Whole::Read { fd: _, buf, at } => at.step(heard, buf.as_slice(), says),
            Whole::Write { fd: _, bytes, at } => at.step(heard, bytes.as_slice(), says),
            Whole::Link { old, new, at } => at.step(
                version,
                heard,
                old.as_slice(),
                new.as_slice(),
                list,
                says,
            ),
            Whole::Unlink { path, at } => at.step(version, heard, path.as_slice(), list, says),
            Whole::Mkdir { path, at } => at.step(version, heard, path.as_slice(), list, says),
            Whole::Chdir { path, at } => at.step(version, heard, path.as_slice(), list, says),
            Whole::Dup { fd: _, at } => at.step(heard, says),
            Whole::Fstat { fd: _, at } => at.step(heard, says),
            Whole::Close { fd: _, at } => at.step(heard, says),
            Whole::Inherit { child: _, at } => at.step(heard, says),
        }
    }

    /// The move of the tree that is made as its operation acts with this answer, if one is.
    pub fn mark(&self, version: Version, heard: &Heard) -> Option<Mark>
        requires { (list : List ℕ) × WholeFits version list self.now }
        ensures { (list : List ℕ) → mark_at (whole_of version list self.now) heard.now ≡ marked_as (action_in self.now) result }
    {
        match self {
            Whole::Open { path, flags, at } => at.mark(version, heard, path.as_slice(), *flags),
            Whole::Read { fd, buf, at } => at.mark(heard),
            Whole::Write { fd, bytes, at } => at.mark(heard, bytes.as_slice()),
            Whole::Link { old, new, at } => at.mark(version, heard, new.as_slice()),
            Whole::Unlink { path, at } => at.mark(version, heard, path.as_slice()),
            Whole::Mkdir { path, at } => at.mark(version, heard, path.as_slice()),
            Whole::Chdir { path, at } => at.mark(heard),
            Whole::Dup { fd, at } => at.mark(heard),
            Whole::Fstat { fd, at } => at.mark(),
            Whole::Close { fd, at } => at.mark(),
            Whole::Inherit { child, at } => at.mark(heard),
        }
    }

    /// The path that has its names, of two the first; or its bytes.
    #[inline(always)]
    pub fn text(&self) -> &[u8]
        ensures { result.now ≡ first_in self.now }
    {
        match self {
            Whole::Open { path, .. } => path.as_slice(),
            Whole::Read { buf, .. } => buf.as_slice(),
            Whole::Write { bytes, .. } => bytes.as_slice(),
            Whole::Link { old, .. } => old.as_slice(),
            Whole::Unlink { path, .. } => path.as_slice(),
            Whole::Mkdir { path, .. } => path.as_slice(),
            Whole::Chdir { path, .. } => path.as_slice(),
            _ => &[],
        }
    }

    /// The second path, which is after the first.
    #[inline(always)]
    pub fn second(&self) -> &[u8]
        ensures { result.now ≡ second_in self.now }
    {
        match self {
            Whole::Link { new, .. } => new.as_slice(),
            _ => &[],
        }
    }

    /// The call handed back.
    #[inline(always)]
    pub fn reply(self, answer: Answer) -> Reply
        ensures { result ≡ reply_to (call_in self) answer }
    {
        let call = match self {
            Whole::Open { path, flags, at: _ } => Call::Open { path, flags },
            Whole::Read { fd, buf, at: _ } => Call::Read {
                fd,
                buf: Bytes::new(buf),
            },
            Whole::Write { fd, bytes, at: _ } => Call::Write { fd, bytes },
            Whole::Link { old, new, at: _ } => Call::Link { old, new },
            Whole::Unlink { path, at: _ } => Call::Unlink { path },
            Whole::Mkdir { path, at: _ } => Call::Mkdir { path },
            Whole::Chdir { path, at: _ } => Call::Chdir { path },
            Whole::Dup { fd, at: _ } => Call::Dup { fd },
            Whole::Fstat { fd, at: _ } => Call::Fstat { fd },
            Whole::Close { fd, at: _ } => Call::Close { fd },
            Whole::Inherit { child, at: _ } => Call::Inherit { child },
        };
        Reply { answer, call }
    }
}
