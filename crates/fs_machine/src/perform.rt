//! Operations on inodes, references and descriptors, made of what is in hand; and any of them.
ghost use Rattle.std.specs.Prelude.{◌≡◌, ◌<◌};
ghost use Rattle.fs_machine.specs.Steps.{state_of};
ghost use Rattle.fs_machine.specs.Premises.{May};
ghost use Rattle.fs_machine.specs.Hands.{HandFits};
ghost use Rattle.fs_machine.specs.declared.hand.Hand.{Hand as HandState};
ghost use Rattle.fs_machine.specs.declared.op.Answer.{Answer as AnswerState};
ghost use Rattle.fs_machine.specs.Ops.{op_in, CanDo, Prepared};
ghost use Rattle.fs_machine.specs.Performs.{Performs};

use crate::hand::{Hand, InodePlace, Place};
use crate::op::{Answer, Op, Performed};
use crate::{
    Claim, Core, Doubled, Dropped, Given, JoinedToWrite, Kind, LockedFile, NewFile, Refused, Shut,
    Want,
};
use block_device::Device;
use buffer_cache::HARTS;

impl Hand {
    // Takes the lock of the inode to which the reference is.
    pub(crate) fn lock<D: Device>(
        &mut self,
        hart: u8,
        core: &mut Core<D>,
        seat: InodePlace,
    ) -> Performed
        requires fits { HandFits hart (state_of D.contents D.failures core.old) self.old }
        requires can { CanDo (Op.Lock seat) self.old }
        requires may { May hart (op_in self.old (Op.Lock seat)) (state_of D.contents D.failures core.old) }
        ensures { (told : AnswerState)
            → Performs D.contents D.failures D.Called hart (Op.Lock seat) self.old self.new told result core.old core.new }
    {
        match self.reference(seat) {
            None => unreachable!(),
            Some(reference) => match core.lock(hart, reference) {
                None => Performed::Waits,
                Some(guard) => {
                    self.hold_inode(seat, guard);
                    Performed::Ran(Kind::Lock)
                }
            },
        }
    }

    // Gives it back, with the inode as it is in hand.
    pub(crate) fn unlock<D: Device>(
        &mut self,
        hart: u8,
        core: &mut Core<D>,
        seat: InodePlace,
    ) -> Performed
        requires fits { HandFits hart (state_of D.contents D.failures core.old) self.old }
        requires can { CanDo (Op.Unlock seat) self.old }
        requires may { May hart (op_in self.old (Op.Unlock seat)) (state_of D.contents D.failures core.old) }
        ensures { (told : AnswerState)
            → Performs D.contents D.failures D.Called hart (Op.Unlock seat) self.old self.new told result core.old core.new }
    {
        match self.take_inode(seat) {
            None => unreachable!(),
            Some(guard) => {
                core.unlock(hart, guard);
                Performed::Ran(Kind::Unlock)
            }
        }
    }

    // A reference to the inode of this number.
    pub(crate) fn up<D: Device>(
        &mut self,
        hart: u8,
        core: &mut Core<D>,
        seat: InodePlace,
        number: u32,
    ) -> Performed
        requires fits { HandFits hart (state_of D.contents D.failures core.old) self.old }
        requires can { CanDo (Op.Up seat number) self.old }
        requires may { May hart (op_in self.old (Op.Up seat number)) (state_of D.contents D.failures core.old) }
        ensures { (told : AnswerState)
            → Performs D.contents D.failures D.Called hart (Op.Up seat number) self.old self.new told result core.old core.new }
    {
        match core.up(hart, number) {
            None => {}
            Some(reference) => self.hold_reference(seat, reference),
        }
        Performed::Ran(Kind::Up)
    }

    // The same if no seat is free.
    pub(crate) fn up_aside<D: Device>(
        &mut self,
        hart: u8,
        core: &mut Core<D>,
        number: u32,
    ) -> Performed
        requires fits { HandFits hart (state_of D.contents D.failures core.old) self.old }
        requires can { CanDo (Op.UpAside number) self.old }
        requires may { May hart (op_in self.old (Op.UpAside number)) (state_of D.contents D.failures core.old) }
        ensures { (told : AnswerState)
            → Performs D.contents D.failures D.Called hart (Op.UpAside number) self.old self.new told result core.old core.new }
    {
        match core.up(hart, number) {
            None => {}
            Some(reference) => self.hold_aside(reference),
        }
        Performed::Ran(Kind::Up)
    }

    // Drops it.
    pub(crate) fn down<D: Device>(
        &mut self,
        hart: u8,
        core: &mut Core<D>,
        seat: InodePlace,
        told: &mut Answer,
    ) -> Performed
        requires fits { HandFits hart (state_of D.contents D.failures core.old) self.old }
        requires can { CanDo (Op.Down seat) self.old }
        requires may { May hart (op_in self.old (Op.Down seat)) (state_of D.contents D.failures core.old) }
        ensures { Performs D.contents D.failures D.Called hart (Op.Down seat) self.old self.new told.new result core.old core.new }
    {
        match self.take_reference(seat) {
            None => unreachable!(),
            Some(reference) => match core.drop_reference(hart, reference) {
                Dropped::Counted => {
                    *told = Answer::Is(false);
                    Performed::Ran(Kind::Down)
                }
                Dropped::Dying(reference, guard) => {
                    self.hold_reference(seat, reference);
                    self.hold_inode(seat, guard);
                    *told = Answer::Is(true);
                    Performed::Ran(Kind::Lock)
                }
            },
        }
    }

    // Joins if a descriptor may be written.
    pub(crate) fn join_to_write<D: Device>(
        &mut self,
        hart: u8,
        core: &mut Core<D>,
        fd: u32,
        told: &mut Answer,
    ) -> Performed
        requires fits { HandFits hart (state_of D.contents D.failures core.old) self.old }
        requires can { CanDo (Op.JoinToWrite fd) self.old }
        requires may { May hart (op_in self.old (Op.JoinToWrite fd)) (state_of D.contents D.failures core.old) }
        ensures { Performs D.contents D.failures D.Called hart (Op.JoinToWrite fd) self.old self.new told.new result core.old core.new }
    {
        match core.join_to_write(hart, fd) {
            JoinedToWrite::Waits => Performed::Waits,
            JoinedToWrite::Refused(why) => {
                *told = Answer::Refused(why);
                Performed::Ran(Kind::Reply)
            }
            JoinedToWrite::Joined(txn, number) => {
                self.hold_txn(txn);
                *told = Answer::Number(number);
                Performed::Ran(Kind::Join)
            }
        }
    }

    // Takes the lock of what a descriptor names.
    pub(crate) fn lock_file<D: Device>(
        &mut self,
        hart: u8,
        core: &mut Core<D>,
        seat: InodePlace,
        want: Want,
        fd: u32,
        told: &mut Answer,
    ) -> Performed
        requires fits { HandFits hart (state_of D.contents D.failures core.old) self.old }
        requires can { CanDo (Op.LockFile seat want fd) self.old }
        requires may { May hart (op_in self.old (Op.LockFile seat want fd)) (state_of D.contents D.failures core.old) }
        ensures { Performs D.contents D.failures D.Called hart
            (Op.LockFile seat want fd) self.old self.new told.new result core.old core.new }
    {
        match core.lock_file(hart, want, fd) {
            LockedFile::Waits => Performed::Waits,
            LockedFile::Refused(why) => {
                *told = Answer::Refused(why);
                Performed::Ran(Kind::Reply)
            }
            LockedFile::Locked(file, guard) => {
                self.hold_inode(seat, guard);
                *told = Answer::File(file);
                Performed::Ran(Kind::Lock)
            }
        }
    }

    // Takes the lock of what a descriptor names that is open.
    pub(crate) fn lock_open<D: Device>(
        &mut self,
        hart: u8,
        core: &mut Core<D>,
        seat: InodePlace,
        fd: u32,
        told: &mut Answer,
    ) -> Performed
        requires fits { HandFits hart (state_of D.contents D.failures core.old) self.old }
        requires can { CanDo (Op.LockOpen seat fd) self.old }
        requires may { May hart (op_in self.old (Op.LockOpen seat fd)) (state_of D.contents D.failures core.old) }
        ensures { Performs D.contents D.failures D.Called hart (Op.LockOpen seat fd) self.old self.new told.new result core.old core.new }
    {
        match core.lock_open(hart, fd) {
            None => Performed::Waits,
            Some((file, guard)) => {
                self.hold_inode(seat, guard);
                *told = Answer::File(file);
                Performed::Ran(Kind::Lock)
            }
        }
    }

    // Gives a lock back, and moves a file.
    pub(crate) fn unlock_moving<D: Device>(
        &mut self,
        hart: u8,
        core: &mut Core<D>,
        seat: InodePlace,
        fd: u32,
        offset: u32,
    ) -> Performed
        requires eight { hart < HARTS }
        requires fits { HandFits hart (state_of D.contents D.failures core.old) self.old }
        requires can { CanDo (Op.UnlockMoving seat fd offset) self.old }
        requires may { May hart (op_in self.old (Op.UnlockMoving seat fd offset)) (state_of D.contents D.failures core.old) }
        ensures { (told : AnswerState)
            → Performs D.contents D.failures D.Called hart
            (Op.UnlockMoving seat fd offset) self.old self.new told result core.old core.new }
    {
        match self.take_inode(seat) {
            None => unreachable!(),
            Some(guard) => {
                core.unlock_moving(hart, guard, fd, offset);
                Performed::Ran(Kind::Unlock)
            }
        }
    }

    // Gives a lock back, and settles there.
    pub(crate) fn settle<D: Device>(
        &mut self,
        hart: u8,
        core: &mut Core<D>,
        seat: InodePlace,
    ) -> Performed
        requires fits { HandFits hart (state_of D.contents D.failures core.old) self.old }
        requires can { CanDo (Op.SetDirectory seat) self.old }
        requires may { May hart (op_in self.old (Op.SetDirectory seat)) (state_of D.contents D.failures core.old) }
        ensures { (told : AnswerState)
            → Performs D.contents D.failures D.Called hart (Op.SetDirectory seat) self.old self.new told result core.old core.new }
    {
        match self.take_inode(seat) {
            None => unreachable!(),
            Some(guard) => match self.take_reference(seat) {
                None => unreachable!(),
                Some(reference) => {
                    let old = core.settle(hart, guard, reference);
                    self.hold_reference(seat, old);
                    Performed::Ran(Kind::Unlock)
                }
            },
        }
    }

    // A reference to the hart's current directory.
    pub(crate) fn up_directory<D: Device>(
        &mut self,
        hart: u8,
        core: &mut Core<D>,
        seat: InodePlace,
    ) -> Performed
        requires fits { HandFits hart (state_of D.contents D.failures core.old) self.old }
        requires can { CanDo (Op.UpDirectory seat) self.old }
        requires may { May hart (op_in self.old (Op.UpDirectory seat)) (state_of D.contents D.failures core.old) }
        ensures { (told : AnswerState)
            → Performs D.contents D.failures D.Called hart (Op.UpDirectory seat) self.old self.new told result core.old core.new }
    {
        match core.up_directory(hart) {
            None => {}
            Some(reference) => self.hold_reference(seat, reference),
        }
        Performed::Ran(Kind::Up)
    }

    // Drops a reference within a walk; the one aside comes in its place.
    pub(crate) fn down_walked<D: Device>(
        &mut self,
        hart: u8,
        core: &mut Core<D>,
        seat: InodePlace,
        told: &mut Answer,
    ) -> Performed
        requires fits { HandFits hart (state_of D.contents D.failures core.old) self.old }
        requires can { CanDo (Op.DownWalked seat) self.old }
        requires may { May hart (op_in self.old (Op.DownWalked seat)) (state_of D.contents D.failures core.old) }
        ensures { Performs D.contents D.failures D.Called hart (Op.DownWalked seat) self.old self.new told.new result core.old core.new }
    {
        match self.take_reference(seat) {
            None => unreachable!(),
            Some(reference) => {
                self.seat_aside(seat);
                match core.drop_walked(hart, reference) {
                    None => {
                        *told = Answer::Is(false);
                        Performed::Ran(Kind::Down)
                    }
                    Some(kept) => {
                        self.listed.push(kept);
                        *told = Answer::Is(true);
                        Performed::Ran(Kind::Down)
                    }
                }
            }
        }
    }

    // Takes the first listed reference, and the lock of its inode.
    pub(crate) fn lock_listed<D: Device>(
        &mut self,
        hart: u8,
        core: &mut Core<D>,
        seat: InodePlace,
    ) -> Performed
        requires fits { HandFits hart (state_of D.contents D.failures core.old) self.old }
        requires can { CanDo (Op.LockListed seat) self.old }
        requires may { May hart (op_in self.old (Op.LockListed seat)) (state_of D.contents D.failures core.old) }
        ensures { (told : AnswerState)
            → Performs D.contents D.failures D.Called hart (Op.LockListed seat) self.old self.new told result core.old core.new }
    {
        match self.listed.first() {
            None => unreachable!(),
            Some(first) => match core.lock(hart, first) {
                None => Performed::Waits,
                Some(guard) => {
                    self.hold_first(seat);
                    self.hold_inode(seat, guard);
                    Performed::Ran(Kind::Lock)
                }
            },
        }
    }

    // Drops the reference to a freed inode.
    pub(crate) fn down_freed<D: Device>(
        &mut self,
        hart: u8,
        core: &mut Core<D>,
        seat: InodePlace,
    ) -> Performed
        requires fits { HandFits hart (state_of D.contents D.failures core.old) self.old }
        requires can { CanDo (Op.DownFreed seat) self.old }
        requires may { May hart (op_in self.old (Op.DownFreed seat)) (state_of D.contents D.failures core.old) }
        ensures { (told : AnswerState)
            → Performs D.contents D.failures D.Called hart (Op.DownFreed seat) self.old self.new told result core.old core.new }
    {
        match self.take_reference(seat) {
            None => unreachable!(),
            Some(reference) => {
                core.drop_freed(hart, reference);
                Performed::Ran(Kind::Down)
            }
        }
    }

    // Whether a descriptor may be had.
    pub(crate) fn check_file<D: Device>(
        &mut self,
        hart: u8,
        core: &mut Core<D>,
        want: Want,
        fd: u32,
        told: &mut Answer,
    ) -> Performed
        requires fits { HandFits hart (state_of D.contents D.failures core.old) self.old }
        requires can { CanDo (Op.CheckFile want fd) self.old }
        requires may { May hart (op_in self.old (Op.CheckFile want fd)) (state_of D.contents D.failures core.old) }
        ensures { Performs D.contents D.failures D.Called hart (Op.CheckFile want fd) self.old self.new told.new result core.old core.new }
    {
        match core.check_file(hart, want, fd) {
            None => {
                *told = Answer::Nothing;
                Performed::Ran(Kind::Reply)
            }
            Some(why) => {
                *told = Answer::Refused(why);
                Performed::Ran(Kind::Reply)
            }
        }
    }

    // Takes a place for an open file.
    pub(crate) fn take_place<D: Device>(
        &mut self,
        hart: u8,
        core: &mut Core<D>,
        told: &mut Answer,
    ) -> Performed
        requires fits { HandFits hart (state_of D.contents D.failures core.old) self.old }
        requires can { CanDo (Op.TakePlace) self.old }
        requires may { May hart (op_in self.old (Op.TakePlace)) (state_of D.contents D.failures core.old) }
        ensures { Performs D.contents D.failures D.Called hart (Op.TakePlace) self.old self.new told.new result core.old core.new }
    {
        let taken = core.take_place(hart);
        *told = Answer::Is(taken);
        Performed::Ran(Kind::Slot)
    }

    // Opens a file.
    pub(crate) fn take_descriptor<D: Device>(
        &mut self,
        hart: u8,
        core: &mut Core<D>,
        seat: InodePlace,
        file: NewFile,
        told: &mut Answer,
    ) -> Performed
        requires fits { HandFits hart (state_of D.contents D.failures core.old) self.old }
        requires can { CanDo (Op.TakeDescriptor seat file) self.old }
        requires may { May hart (op_in self.old (Op.TakeDescriptor seat file)) (state_of D.contents D.failures core.old) }
        ensures { Performs D.contents D.failures D.Called hart
            (Op.TakeDescriptor seat file) self.old self.new told.new result core.old core.new }
    {
        match self.take_reference(seat) {
            None => unreachable!(),
            Some(reference) => match core.take_descriptor(hart, reference, file) {
                Ok(fd) => {
                    *told = Answer::Number(fd as u32);
                    Performed::Ran(Kind::Slot)
                }
                Err(back) => {
                    self.hold_reference(seat, back);
                    *told = Answer::Nothing;
                    Performed::Ran(Kind::Slot)
                }
            },
        }
    }

    // Doubles a descriptor.
    pub(crate) fn double<D: Device>(
        &mut self,
        hart: u8,
        core: &mut Core<D>,
        fd: u32,
        told: &mut Answer,
    ) -> Performed
        requires fits { HandFits hart (state_of D.contents D.failures core.old) self.old }
        requires can { CanDo (Op.Double fd) self.old }
        requires may { May hart (op_in self.old (Op.Double fd)) (state_of D.contents D.failures core.old) }
        ensures { Performs D.contents D.failures D.Called hart (Op.Double fd) self.old self.new told.new result core.old core.new }
    {
        match core.double(hart, fd) {
            Doubled::BadDescriptor => {
                *told = Answer::Doubled(Doubled::BadDescriptor);
                Performed::Ran(Kind::Reply)
            }
            Doubled::Full => {
                *told = Answer::Doubled(Doubled::Full);
                Performed::Ran(Kind::Slot)
            }
            Doubled::Gave(copy) => {
                *told = Answer::Doubled(Doubled::Gave(copy));
                Performed::Ran(Kind::Slot)
            }
        }
    }

    // Closes a descriptor.
    pub(crate) fn close<D: Device>(
        &mut self,
        hart: u8,
        core: &mut Core<D>,
        seat: InodePlace,
        fd: u32,
        told: &mut Answer,
    ) -> Performed
        requires fits { HandFits hart (state_of D.contents D.failures core.old) self.old }
        requires can { CanDo (Op.Close seat fd) self.old }
        requires may { May hart (op_in self.old (Op.Close seat fd)) (state_of D.contents D.failures core.old) }
        ensures { Performs D.contents D.failures D.Called hart (Op.Close seat fd) self.old self.new told.new result core.old core.new }
    {
        match core.close(hart, fd) {
            Shut::BadDescriptor => {
                *told = Answer::Refused(Refused::BadDescriptor);
                Performed::Ran(Kind::Reply)
            }
            Shut::Closed => {
                *told = Answer::Is(false);
                Performed::Ran(Kind::Slot)
            }
            Shut::Last(reference) => {
                self.hold_reference(seat, reference);
                *told = Answer::Is(true);
                Performed::Ran(Kind::Slot)
            }
        }
    }

    // Gives a child the next descriptor, or the directory.
    pub(crate) fn give_to<D: Device>(
        &mut self,
        hart: u8,
        core: &mut Core<D>,
        seat: InodePlace,
        child: u8,
        from: u32,
        told: &mut Answer,
    ) -> Performed
        requires fits { HandFits hart (state_of D.contents D.failures core.old) self.old }
        requires can { CanDo (Op.GiveTo seat child from) self.old }
        requires may { May hart (op_in self.old (Op.GiveTo seat child from)) (state_of D.contents D.failures core.old) }
        ensures { Performs D.contents D.failures D.Called hart
            (Op.GiveTo seat child from) self.old self.new told.new result core.old core.new }
    {
        match core.give(hart, child, from) {
            Given::Descriptor(fd, more) => {
                *told = Answer::Given(fd, more);
                Performed::Ran(Kind::Slot)
            }
            Given::Directory(reference) => {
                self.hold_reference(seat, reference);
                *told = Answer::Is(true);
                Performed::Ran(Kind::Up)
            }
        }
    }

    // A reference to the first of the numbers in hand to which there is none.
    pub(crate) fn claim<D: Device>(
        &mut self,
        hart: u8,
        core: &mut Core<D>,
        place: Place,
        seat: InodePlace,
        told: &mut Answer,
    ) -> Performed
        requires fits { HandFits hart (state_of D.contents D.failures core.old) self.old }
        requires can { CanDo (Op.Claim place seat) self.old }
        requires may { May hart (op_in self.old (Op.Claim place seat)) (state_of D.contents D.failures core.old) }
        ensures { Performs D.contents D.failures D.Called hart (Op.Claim place seat) self.old self.new told.new result core.old core.new }
    {
        let numbers = self.numbers;
        let count = self.count as usize;
        match self.take_buffer(place) {
            None => unreachable!(),
            Some(guard) => match core.claim(hart, guard, &numbers[..count]) {
                Claim::Claimed(reference, guard) => {
                    let number = reference.number();
                    self.hold_buffer(place, guard);
                    self.hold_reference(seat, reference);
                    *told = Answer::Number(number);
                    Performed::Ran(Kind::Up)
                }
                Claim::NoPlace(guard) => {
                    self.hold_buffer(place, guard);
                    *told = Answer::Is(true);
                    Performed::Ran(Kind::Up)
                }
                Claim::NoInode => {
                    *told = Answer::Nothing;
                    Performed::Ran(Kind::Put)
                }
            },
        }
    }

    // Gives the reply.
    pub(crate) fn reply<D: Device>(&mut self, hart: u8, core: &mut Core<D>) -> Performed
        requires fits { HandFits hart (state_of D.contents D.failures core.old) self.old }
        requires may { May hart (op_in self.old Op.Reply) (state_of D.contents D.failures core.old) }
        ensures { (told : AnswerState)
            → Performs D.contents D.failures D.Called hart Op.Reply self.old self.new told result core.old core.new }
    {
        core.reply(hart);
        Performed::Ran(Kind::Reply)
    }

    /// One operation. It is made of what is in hand, and leaves in hand what it gives. It records in `told` what the
    /// hand doesn't show of its answer. An operation whose answer is all in hand leaves `told` as before.
    pub fn perform<D: Device>(
        &mut self,
        hart: u8,
        core: &mut Core<D>,
        op: Op,
        told: &mut Answer,
    ) -> Performed
        requires eight { hart < HARTS }
        requires fits { (before : HandState) × HandFits hart (state_of D.contents D.failures core.old) before
            × Prepared op before self.old }
        requires can { CanDo op self.old }
        requires may { May hart (op_in self.old op) (state_of D.contents D.failures core.old) }
        ensures { Performs D.contents D.failures D.Called hart op self.old self.new told.new result core.old core.new }
    {
        match op {
            Op::Join => self.join(hart, core),
            Op::Leave => self.leave(hart, core, told),
            Op::Commit => self.commit(hart, core, told),
            Op::Get(place, b) => self.get(hart, core, place, b),
            Op::Read(place) => self.read(hart, core, place),
            Op::Give(place) => self.give(hart, core, place),
            Op::Record(place) => self.record(hart, core, place),
            Op::Lock(seat) => self.lock(hart, core, seat),
            Op::Unlock(seat) => self.unlock(hart, core, seat),
            Op::Up(seat, number) => self.up(hart, core, seat, number),
            Op::UpAside(number) => self.up_aside(hart, core, number),
            Op::Down(seat) => self.down(hart, core, seat, told),
            Op::JoinToWrite(fd) => self.join_to_write(hart, core, fd, told),
            Op::LockFile(seat, want, fd) => self.lock_file(hart, core, seat, want, fd, told),
            Op::LockOpen(seat, fd) => self.lock_open(hart, core, seat, fd, told),
            Op::UnlockMoving(seat, fd, offset) => self.unlock_moving(hart, core, seat, fd, offset),
            Op::SetDirectory(seat) => self.settle(hart, core, seat),
            Op::UpDirectory(seat) => self.up_directory(hart, core, seat),
            Op::DownWalked(seat) => self.down_walked(hart, core, seat, told),
            Op::LockListed(seat) => self.lock_listed(hart, core, seat),
            Op::DownFreed(seat) => self.down_freed(hart, core, seat),
            Op::CheckFile(want, fd) => self.check_file(hart, core, want, fd, told),
            Op::TakePlace => self.take_place(hart, core, told),
            Op::TakeDescriptor(seat, file) => self.take_descriptor(hart, core, seat, file, told),
            Op::Double(fd) => self.double(hart, core, fd, told),
            Op::Close(seat, fd) => self.close(hart, core, seat, fd, told),
            Op::GiveTo(seat, child, from) => self.give_to(hart, core, seat, child, from, told),
            Op::Claim(place, seat) => self.claim(hart, core, place, seat, told),
            Op::Reply => self.reply(hart, core),
        }
    }
}
