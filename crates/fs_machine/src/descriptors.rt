//! One function for each operation on descriptors and open files.
ghost use Rattle.std.specs.Prelude.{◌≡◌, ◌≤◌, IfErr};
ghost use Rattle.fs_machine.specs.Vocabulary.{Ran as ItRan};
ghost use Rattle.fs_machine.specs.Files.{IsDirectory};
ghost use Rattle.fs_machine.specs.Results.{opened_as};
ghost use Rattle.fs_machine.specs.LogPart.{Outside};
ghost use Rattle.fs_machine.specs.Steps.{state_of, exec, CheckFile, TakePlace, TakeDescriptor, Double, Close, GiveDescriptor, Reply};
ghost use Rattle.fs_machine.specs.Premises.{May};
ghost use Rattle.fs_machine.specs.Tied.{IsOwnInode, LeavesTied};
ghost use Rattle.fs_machine.specs.Stays.{LeavesAll};

use crate::shared::Core;
use crate::{DESCRIPTORS, Doubled, Given, NewFile, Reference, Refused, Shut, Want};
use block_device::Device;

impl<D: Device> Core<D> {
    /// Why a descriptor may not be had for this.
    pub fn check_file(&self, hart: u8, want: Want, fd: u32) -> Option<Refused>
        requires may { May hart (CheckFile want fd) (state_of D.contents D.failures self.now) }
        ensures { (x : Outside) → exec hart x (CheckFile want fd) (state_of D.contents D.failures self.now)
            ≡ ItRan result (state_of D.contents D.failures self.now) }
    {
        self.tables.check(hart, want, fd)
    }

    /// Takes a place for an open file (xv6: `filealloc`). False if each of the hundred is taken.
    pub fn take_place(&mut self, hart: u8) -> bool
        requires may { May hart TakePlace (state_of D.contents D.failures self.old) }
        ensures ran { (x : Outside)
            → exec hart x TakePlace (state_of D.contents D.failures self.old) ≡ ItRan result (state_of D.contents D.failures self.new) }
        ensures others { LeavesTied hart (state_of D.contents D.failures self.old) (state_of D.contents D.failures self.new) }
        ensures log { self.new.log ≡ self.old.log }
        ensures rest { LeavesAll (IsOwnInode hart) (state_of D.contents D.failures self.old) (state_of D.contents D.failures self.new) }
    {
        self.tables.take_place(hart)
    }

    /// Opens a file at that place, by the lowest free descriptor (xv6: `fdalloc`). If all are open the place is given
    /// back, and the reference.
    pub fn take_descriptor(
        &mut self,
        hart: u8,
        reference: Reference,
        file: NewFile,
    ) -> Result<u8, Reference>
        requires may { May hart (TakeDescriptor reference file) (state_of D.contents D.failures self.old) }
        ensures ran { (x : Outside)
            → exec hart x (TakeDescriptor reference file) (state_of D.contents D.failures self.old)
            ≡ ItRan (opened_as result) (state_of D.contents D.failures self.new) }
        ensures back { IfErr result (λ back. back ≡ reference) }
        ensures others { LeavesTied hart (state_of D.contents D.failures self.old) (state_of D.contents D.failures self.new) }
        ensures log { self.new.log ≡ self.old.log }
        ensures rest { LeavesAll (IsOwnInode hart) (state_of D.contents D.failures self.old) (state_of D.contents D.failures self.new) }
    {
        self.tables.open(hart, reference, file)
    }

    /// One descriptor more for what this one names, the lowest that is free (xv6: `fdalloc` and `filedup`).
    pub fn double(&mut self, hart: u8, fd: u32) -> Doubled
        requires may { May hart (Double fd) (state_of D.contents D.failures self.old) }
        ensures ran { (x : Outside)
            → exec hart x (Double fd) (state_of D.contents D.failures self.old) ≡ ItRan result (state_of D.contents D.failures self.new) }
        ensures others { LeavesTied hart (state_of D.contents D.failures self.old) (state_of D.contents D.failures self.new) }
        ensures log { self.new.log ≡ self.old.log }
        ensures rest { LeavesAll (IsOwnInode hart) (state_of D.contents D.failures self.old) (state_of D.contents D.failures self.new) }
    {
        self.tables.double(hart, fd)
    }

    /// A descriptor goes, and with the last one that names it the open file, whose reference is handed out (xv6: `fileclose`, without its
    /// `iput`).
    pub fn close(&mut self, hart: u8, fd: u32) -> Shut
        requires may { May hart (Close fd) (state_of D.contents D.failures self.old) }
        ensures ran { (x : Outside)
            → exec hart x (Close fd) (state_of D.contents D.failures self.old) ≡ ItRan result (state_of D.contents D.failures self.new) }
        ensures others { LeavesTied hart (state_of D.contents D.failures self.old) (state_of D.contents D.failures self.new) }
        ensures log { self.new.log ≡ self.old.log }
        ensures rest { LeavesAll (IsOwnInode hart) (state_of D.contents D.failures self.old) (state_of D.contents D.failures self.new) }
    {
        self.tables.shut(hart, fd)
    }

    /// To the child the hart's next descriptor from this one on, and whether there are more. If there is none the
    /// child's directory becomes the hart's, and the reference to its old one is handed out.
    pub fn give(&mut self, hart: u8, child: u8, from: u32) -> Given
        requires may { May hart (GiveDescriptor child from) (state_of D.contents D.failures self.old) }
        ensures ran { (x : Outside)
            → exec hart x (GiveDescriptor child from) (state_of D.contents D.failures self.old)
            ≡ ItRan result (state_of D.contents D.failures self.new) }
        ensures past { DESCRIPTORS ≤ from → IsDirectory result }
        ensures others { LeavesTied hart (state_of D.contents D.failures self.old) (state_of D.contents D.failures self.new) }
        ensures log { self.new.log ≡ self.old.log }
        ensures rest { LeavesAll (IsOwnInode hart) (state_of D.contents D.failures self.old) (state_of D.contents D.failures self.new) }
    {
        self.tables.give(hart, child, from)
    }

    /// Gives the reply, which changes nothing.
    #[tactic(auto, unfolding(crate::specs::Steps::exec))]
    pub fn reply(&self, hart: u8)
        ensures { (x : Outside) → exec hart x Reply (state_of D.contents D.failures self.now)
            ≡ ItRan tt (state_of D.contents D.failures self.now) }
    {}
}
