//! close and inherit.
ghost use Rattle.std.specs.Prelude.{◌≡◌, ℕ, [], List, Option, Some};
ghost use Rattle.image_versions.specs.declared.version.Version.{Version};
ghost use Rattle.plain_tree.specs.declared.call.Call.TheVariants as calls;
ghost use Rattle.plain_tree.specs.declared.step.Action.TheVariants as steps;
ghost use Rattle.whole_calls.specs.Vocabulary.{asks, hears, loan_of, mark_at, marked_as, op_in, stepped, IsNamed, inherit_program, lend_from, lend_on};
ghost use Rattle.whole_calls.specs.Closes.{close_of, inherit_of};

use crate::dropping::Dropping;
use path_walk::{Ask, Heard, Loan, Mark};
use plain_tree::{Answer, Cause};

/// close: with the last descriptor the open file's reference is dropped (xv6: `sys_close`, `fileclose`).
#[derive(Clone, Copy)]
pub enum Close {
    Shut,
    Join(u32),
    Drops(Dropping),
    Leave,
    Say,
}

impl Close {
    #[inline(always)]
    pub fn ask(&self, fd: u32) -> Ask
        ensures asks { asks (close_of fd self.now) ≡ Some (op_in [] result) }
        ensures named { (v : Version) (path : List ℕ) → IsNamed v path result }
    {
        match self {
            Close::Shut => Ask::Shut(fd),
            Close::Join(_) => Ask::Join,
            Close::Drops(dropping) => dropping.ask(),
            Close::Leave => Ask::Leave,
            Close::Say => Ask::Say,
        }
    }

    /// Goes on in its place with what it hears: true if it has ended, with its answer left in `says`.
    #[inline(always)]
    pub fn step(&mut self, heard: &Heard, says: &mut Answer) -> bool
        ensures { (text : List ℕ) (fd : ℕ)
            → hears text (close_of fd self.old) heard.now ≡ stepped (close_of fd self.new) (calls.Close fd) says.new result }
    {
        match self {
            Close::Shut => match heard.shut() {
                None => {
                    *says = Answer::Failed(Cause::BadDescriptor);
                    return true;
                }
                Some(None) => *self = Close::Say,
                Some(Some(number)) => *self = Close::Join(number),
            },
            Close::Join(number) => *self = Close::Drops(Dropping::Down(*number)),
            Close::Drops(dropping) => {
                if dropping.step(heard) {
                    *self = Close::Leave;
                }
            }
            Close::Leave => *self = Close::Say,
            Close::Say => {
                *says = Answer::Done;
                return true;
            }
        }
        false
    }

    pub fn mark(&self) -> Option<Mark>
        ensures { (fd : ℕ) (heard : Heard) → mark_at (close_of fd self.now) heard ≡ marked_as (steps.Close fd) result }
    {
        match self {
            Close::Shut => Some(Mark::Own),
            Close::Drops(dropping) => dropping.mark(),
            _ => None,
        }
    }
}

/// inherit: each descriptor in turn, then the directory; the child's old one is dropped
/// (xv6: what `fork` does of files and the current directory).
#[derive(Clone, Copy)]
pub enum Inherit {
    /// At most so many descriptors more, from this one on.
    Lend(u8, u32),
    Directory,
    Join(u32),
    Drops(Dropping),
    Leave,
    Release,
}

// At most so many descriptors more, from this one on.
fn lend(left: u8, from: u32) -> Inherit
    ensures { (child : ℕ) → inherit_of child result ≡ lend_from child left from }
{
    if left == 0 {
        Inherit::Directory
    } else {
        Inherit::Lend(left - 1, from)
    }
}

fn lent(left: u8, loan: Loan) -> Inherit
    ensures { (child : ℕ) → inherit_of child result ≡ lend_on child (lend_from child left) (loan_of loan) }
{
    match loan {
        Loan::Lent(fd, true) => lend(left, u32::from(fd) + 1),
        Loan::Lent(_, false) => Inherit::Directory,
        Loan::Moved(old) => Inherit::Join(old),
    }
}

impl Inherit {
    pub fn new() -> Inherit
        ensures { (child : ℕ) → inherit_of child result ≡ inherit_program child }
    {
        Inherit::Lend(15, 0)
    }

    #[inline(always)]
    pub fn ask(&self, child: u8) -> Ask
        ensures asks { asks (inherit_of child self.now) ≡ Some (op_in [] result) }
        ensures named { (v : Version) (path : List ℕ) → IsNamed v path result }
    {
        match self {
            Inherit::Lend(_, from) => Ask::Lend(child, *from),
            Inherit::Directory => Ask::LendDirectory(child),
            Inherit::Join(_) => Ask::Join,
            Inherit::Drops(dropping) => dropping.ask(),
            Inherit::Leave => Ask::Leave,
            Inherit::Release => Ask::Release(child),
        }
    }

    /// Goes on in its place with what it hears: true if it has ended, with its answer left in `says`.
    #[inline(always)]
    pub fn step(&mut self, heard: &Heard, says: &mut Answer) -> bool
        ensures { (text : List ℕ) (child : ℕ)
            → hears text (inherit_of child self.old) heard.now ≡ stepped (inherit_of child self.new) (calls.Inherit child) says.new result }
    {
        match self {
            Inherit::Lend(left, _) => *self = lent(*left, heard.loan()),
            Inherit::Directory => *self = Inherit::Join(heard.old()),
            Inherit::Join(old) => *self = Inherit::Drops(Dropping::Down(*old)),
            Inherit::Drops(dropping) => {
                if dropping.step(heard) {
                    *self = Inherit::Leave;
                }
            }
            Inherit::Leave => *self = Inherit::Release,
            Inherit::Release => {
                *says = Answer::Done;
                return true;
            }
        }
        false
    }

    pub fn mark(&self, heard: &Heard) -> Option<Mark>
        ensures { (child : ℕ) → mark_at (inherit_of child self.now) heard.now ≡ marked_as (steps.Inherit child) result }
    {
        match self {
            Inherit::Lend(_, _) => match heard.loan() {
                Loan::Lent(_, true) => None,
                _ => Some(Mark::Own),
            },
            Inherit::Drops(dropping) => dropping.mark(),
            _ => None,
        }
    }
}
