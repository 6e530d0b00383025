//! What a child is given of its parent's desk.
ghost use Rattle.std.specs.Prelude.{◌≡◌, ◌+◌, ◌<◌, ◌≤◌, ◌^◌, IfSome, slice_get};
ghost use Rattle.fs_machine.specs.Vocabulary.{Ran};
ghost use Rattle.fs_machine.specs.Inodes.{directory_of};

use crate::entries::Reference;
use crate::limits::DESCRIPTORS;
use crate::slots::Given;
use crate::tables::Tables;
use buffer_cache::HARTS;

impl Tables {
    ghost use Rattle.fs_machine.specs.Tables.{references_of, place_named, place_of};
    ghost use Rattle.fs_machine.specs.Locks.{LeavesLocked};
    ghost use Rattle.fs_machine.specs.Files.{give_next, give_at, given_directory, IsDirectory};

    /// To the child the hart's next descriptor from this one on; if there is none its directory becomes the hart's,
    /// and the reference to its old one is handed out.
    #[tactic(auto, unfolding(crate::specs::Files::give_next))]
    pub fn give(&mut self, hart: u8, child: u8, from: u32) -> Given
        requires hart { hart < HARTS }
        requires child { child < HARTS }
        requires room { references_of (directory_of (slice_get self.old.desks hart)) self.old + 1 < 2 ^ 32 }
        ensures ran { give_next hart child from self.old ≡ Ran result self.new }
        ensures past { DESCRIPTORS ≤ from → IsDirectory result }
        ensures others { LeavesLocked self.old self.new }
    {
        match self.desks.next_at(hart, from) {
            Some(fd) => self.give_descriptor(hart, child, fd as u32),
            None => self.give_directory(hart, child),
        }
    }

    // The child's descriptor names what the hart's names.
    fn give_descriptor(&mut self, hart: u8, child: u8, fd: u32) -> Given
        requires hart { hart < HARTS }
        requires child { child < HARTS }
        requires fd { fd < DESCRIPTORS }
        ensures ran { give_at hart child fd self.old (place_named hart fd self.old) ≡ Ran result self.new }
        ensures others { LeavesLocked self.old self.new }
    {
        let more = self.desks.next_at(hart, fd + 1).is_some();
        match self.desks.place_at(hart, fd) {
            None => {}
            Some(place) => self.desks.set_descriptor(child, fd as usize, Some(place)),
        }
        Given::Descriptor(fd as u8, more)
    }

    // The child's directory becomes the hart's.
    fn give_directory(&mut self, hart: u8, child: u8) -> Given
        requires hart { hart < HARTS }
        requires child { child < HARTS }
        requires room { references_of (directory_of (slice_get self.old.desks hart)) self.old + 1 < 2 ^ 32 }
        ensures directory { IsDirectory result }
        ensures ran { given_directory hart child self.old (place_of (directory_of (slice_get self.old.desks hart)) self.old.entries)
            ≡ Ran result self.new }
        ensures others { LeavesLocked self.old self.new }
    {
        let number = self.desks.directory_at(hart);
        let old = self.desks.directory_at(child);
        match self.entries.place_of(number) {
            None => Given::Directory(Reference::new(old)),
            Some(place) => {
                self.entries.count_up(place);
                self.desks.set_directory(child, number);
                Given::Directory(Reference::new(old))
            }
        }
    }
}
