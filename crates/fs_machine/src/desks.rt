//! The steps on descriptors and open files.
ghost use Rattle.std.specs.Prelude.{◌≡◌, ◌<◌, if◌then◌else◌, Some, None, IfSome, IfErr, position, slice_get, slice_set};
ghost use Rattle.fs_machine.specs.Vocabulary.{Ran};
ghost use Rattle.fs_machine.specs.Tables.{open_at};
ghost use Rattle.fs_machine.specs.Inodes.{refusal_of, is_number, directory_of, settled, with_offset};
ghost use Rattle.fs_machine.specs.Files.{is_free, names, opened, hand_of};

use crate::entries::Reference;
use crate::files::{FilePlace, NewFile, OpenFile, Refused, Want};
use crate::limits::{DEVICE, OPEN_FILES};
use crate::slots::{Doubled, Shut};
use crate::tables::Tables;
use buffer_cache::HARTS;

impl Tables {
    ghost use Rattle.fs_machine.specs.Tables.{file_named, place_named};
    ghost use Rattle.fs_machine.specs.Locks.{LeavesLocked};
    ghost use Rattle.fs_machine.specs.Files.{take_place, double_descriptor, shut_descriptor, open_file};
    ghost use Rattle.fs_machine.specs.Results.{opened_as};

    /// The open file that a descriptor names (xv6: `argfd`).
    pub fn file(&self, hart: u8, fd: u32) -> Option<OpenFile>
        requires { hart < HARTS }
        ensures { result ≡ file_named hart fd self.now }
    {
        match self.desks.place_at(hart, fd) {
            None => None,
            Some(place) => file_at(&self.files, place),
        }
    }

    /// Why a descriptor may not be had for this.
    pub fn check(&self, hart: u8, want: Want, fd: u32) -> Option<Refused>
        requires { hart < HARTS }
        ensures { result ≡ refusal_of want (file_named hart fd self.now) }
    {
        refusal(want, self.file(hart, fd))
    }

    /// The number of the hart's current directory.
    pub fn directory(&self, hart: u8) -> u32
        requires { hart < HARTS }
        ensures { result ≡ directory_of (slice_get self.now.desks hart) }
    {
        self.desks.directory_at(hart)
    }

    /// The hart's current directory becomes this inode, whose reference goes into the table; the old one's is handed out.
    pub fn set_directory(&mut self, hart: u8, reference: Reference) -> Reference
        requires { hart < HARTS }
        ensures ran { settled hart reference self.old ≡ Ran result self.new }
        ensures others { LeavesLocked self.old self.new }
    {
        let old = self.desks.directory_at(hart);
        self.desks.set_directory(hart, reference.end());
        Reference::new(old)
    }

    /// From now on the open file that a descriptor names has this offset.
    pub fn move_offset(&mut self, hart: u8, fd: u32, offset: u32)
        requires { hart < HARTS }
        ensures ran { self.new ≡ with_offset hart (Some (fd, offset)) self.old }
        ensures others { LeavesLocked self.old self.new }
    {
        match self.desks.place_at(hart, fd) {
            None => {}
            Some(place) => match file_at(&self.files, place) {
                None => {}
                Some(file) => {
                    let moved = OpenFile { offset, ..file };
                    set_place(&mut self.files, place as usize, FilePlace::Open(moved));
                }
            },
        }
    }

    /// Takes a place for an open file into the hart's hand (xv6: `filealloc`). False if all are taken, and then
    /// nothing changes.
    pub fn take_place(&mut self, hart: u8) -> bool
        requires { hart < HARTS }
        ensures ran { take_place hart self.old ≡ Ran result self.new }
        ensures others { LeavesLocked self.old self.new }
    {
        match free_place(&self.files) {
            None => false,
            Some(place) => {
                set_place(&mut self.files, place, FilePlace::Taken);
                self.desks.set_hand(hart, Some(place as u8));
                true
            }
        }
    }

    /// Opens a file at the place in hand, by the lowest free descriptor (xv6: `fdalloc`). If all are open the place is
    /// given back, and the reference.
    #[inline(always)]
    pub fn open(&mut self, hart: u8, reference: Reference, file: NewFile) -> Result<u8, Reference>
        requires { hart < HARTS }
        ensures ran { open_file hart reference file self.old ≡ Ran (opened_as result) self.new }
        ensures back { IfErr result (λ back. back ≡ reference) }
        ensures others { LeavesLocked self.old self.new }
    {
        match self.desks.hand_of(hart) {
            None => Err(reference),
            Some(place) => match self.desks.lowest(hart) {
                None => {
                    set_place(&mut self.files, place as usize, FilePlace::Free);
                    self.desks.set_hand(hart, None);
                    Err(reference)
                }
                Some(fd) => {
                    let opened = opened(reference, file);
                    set_place(&mut self.files, place as usize, FilePlace::Open(opened));
                    self.desks.set_descriptor(hart, fd, Some(place));
                    self.desks.set_hand(hart, None);
                    Ok(fd as u8)
                }
            },
        }
    }

    /// The lowest free descriptor names what this one names (xv6: `fdalloc` and `filedup`).
    pub fn double(&mut self, hart: u8, fd: u32) -> Doubled
        requires { hart < HARTS }
        ensures ran { double_descriptor hart fd self.old ≡ Ran result self.new }
        ensures others { LeavesLocked self.old self.new }
    {
        match self.desks.place_at(hart, fd) {
            None => Doubled::BadDescriptor,
            Some(place) => match self.desks.lowest(hart) {
                None => Doubled::Full,
                Some(other) => {
                    self.desks.set_descriptor(hart, other, Some(place));
                    Doubled::Gave(other as u8)
                }
            },
        }
    }

    /// The descriptor goes, and with the last one that names it the open file, whose reference is handed out (xv6: `fileclose`, without
    /// its `iput`).
    #[inline(always)]
    pub fn shut(&mut self, hart: u8, fd: u32) -> Shut
        requires { hart < HARTS }
        ensures ran { shut_descriptor hart fd self.old ≡ Ran result self.new }
        ensures others { LeavesLocked self.old self.new }
    {
        match self.desks.place_at(hart, fd) {
            None => Shut::BadDescriptor,
            Some(place) => {
                self.desks.set_descriptor(hart, fd as usize, None);
                if self.desks.is_named(place) {
                    return Shut::Closed;
                }
                match file_at(&self.files, place) {
                    None => Shut::Closed,
                    Some(file) => {
                        set_place(&mut self.files, place as usize, FilePlace::Free);
                        Shut::Last(Reference::new(file.number))
                    }
                }
            }
        }
    }
}

// The open file at a place.
fn file_at(files: &[FilePlace; OPEN_FILES], place: u8) -> Option<OpenFile>
    ensures { result ≡ open_at (slice_get files.now place) }
{
    match files.get(place as usize) {
        None => None,
        Some(place) => match place {
            FilePlace::Free => None,
            FilePlace::Taken => None,
            FilePlace::Open(file) => Some(*file),
        },
    }
}

// The first place that is free.
fn free_place(files: &[FilePlace; OPEN_FILES]) -> Option<usize>
    ensures free { result ≡ position is_free files.now }
    ensures within { IfSome result (λ place. place < OPEN_FILES) }
{
    files.iter().position(|place| place.is_free())
}

fn set_place(files: &mut [FilePlace; OPEN_FILES], place: usize, to: FilePlace)
    ensures { files.new ≡ slice_set files.old place to }
{
    if place < files.len() {
        files[place] = to;
    }
}

// A file that is opened.
fn opened(reference: Reference, file: NewFile) -> OpenFile
    ensures { result ≡ opened reference file }
{
    OpenFile {
        number: reference.end(),
        kind: file.kind,
        readable: file.readable,
        writable: file.writable,
        offset: 0,
    }
}

// Why a file may not be had for this.
fn refusal(want: Want, file: Option<OpenFile>) -> Option<Refused>
    ensures { result ≡ refusal_of want file }
{
    match file {
        None => Some(Refused::BadDescriptor),
        Some(file) => match want {
            Want::Stat => None,
            Want::Read => mode_refusal(file.readable, file.kind),
            Want::Write => mode_refusal(file.writable, file.kind),
        },
    }
}

fn mode_refusal(allowed: bool, kind: i16) -> Option<Refused>
    ensures { result ≡ (if allowed then (if is_number 3 kind then Some Refused.NoDriver else None) else Some Refused.BadMode) }
{
    if !allowed {
        Some(Refused::BadMode)
    } else if kind == DEVICE {
        Some(Refused::NoDriver)
    } else {
        None
    }
}
