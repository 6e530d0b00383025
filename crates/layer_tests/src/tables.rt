//! The tables of inodes, open files and descriptors: who waits, what is full, and what a child is given.
ghost use Rattle.std.specs.Prelude.{◌≡◌};
ghost use Rattle.fs_machine.specs.InMemory.{stands_so};
ghost use Rattle.fs_machine.specs.Locks.{IsLocked};

use atomic_programs::machines::put;
use buffer_cache::HARTS;
use directory::Search;
use fs_layout::Dinode;
use fs_machine::{
    DESCRIPTORS, Doubled, Dropped, Given, Hand, Inode, InodePlace, Listed, MEMORY_INODES, NewFile,
    OPEN_FILES, ROOT, Reference, Refused, Shut, Tables, Want,
};
use image_versions::Version;
use inode_data::Begun;
use sleep_lock::Guard;
use std::mem;
use std::process::Abort;
use std::test::Fail;

// A file's record, with this count of names.
fn file(nlink: i16) -> Dinode {
    Dinode {
        kind: 2,
        major: 0,
        minor: 0,
        nlink,
        size: 0,
        addrs: [0; 13],
    }
}

const READABLE: NewFile = NewFile {
    kind: 2,
    readable: true,
    writable: false,
};

fn up(rt: &impl Abort, tables: &mut Tables, number: u32) -> Option<Reference> {
    assert!(rt; tables.references(number) < 1000);
    tables.up(number)
}

// A reference that isn't the last one goes.
fn down(rt: &impl Abort, tables: &mut Tables, hart: u8, reference: Reference) {
    assert!(rt; 1 < tables.references(reference.number()));
    match tables.drop_reference(hart, reference) {
        Dropped::Counted => {}
        Dropped::Dying(_reference, _guard) => panic!(rt; "others refer to it"),
    }
}

// The inode is loaded, with this record.
fn loaded(tables: &Tables, guard: Guard<Inode>, inode: Dinode) -> Guard<Inode>
    requires { IsLocked guard tables.now }
    ensures locked { IsLocked result tables.now }
    ensures guard { (result.hart ≡ guard.hart) × (result.value ≡ stands_so inode guard.value) }
{
    let mut guard = guard;
    guard.value_mut().set_record(inode);
    guard
}

// Loads an inode with this record, by a hart that takes its lock and gives it back, and drops the last reference to it.
fn load_and_drop(
    rt: &impl Abort,
    tables: &mut Tables,
    hart: u8,
    reference: Reference,
    inode: Dinode,
) -> Dropped {
    let number = reference.number();
    let guard = tables.lock(hart, number).expect(rt, "nobody has it");
    let guard = loaded(tables, guard, inode);
    tables.unlock(hart, guard);
    assert!(rt; tables.references(number) == 1);
    tables.drop_reference(hart, reference)
}

#[test]
fn a_lock_waits_while_it_is_out(rt: HostRuntime) -> Result<(), Fail> {
    let mut tables = Tables::new(rt.alloc())?;
    let guard = tables.lock(0, ROOT).expect(&rt, "nobody has it");
    assert!(rt; !guard.value().is_loaded());
    match tables.lock(1, ROOT) {
        None => {}
        Some(_guard) => panic!(rt; "it is out"),
    }
    let guard = loaded(&tables, guard, file(3));
    tables.unlock(0, guard);
    let guard = tables.lock(1, ROOT).expect(&rt, "it was given back");
    assert!(rt; guard.hart() == 1);
    assert!(rt; guard.value().is_loaded());
    assert!(rt; guard.value().record().nlink == 3);
    tables.unlock(1, guard);
    match tables.lock(1, 7) {
        None => {}
        Some(_guard) => panic!(rt; "nothing refers to it"),
    }
    let _ = tables.retire();
    Ok(())
}

/// In a directory without a link a search for a name, even for ".", finds nothing and begins with no block. Its size
/// is that of "." and "..".
#[test]
fn a_removed_directory_has_no_names(rt: HostRuntime) -> Result<(), Fail> {
    let removed = Dinode {
        kind: 1,
        size: 32,
        ..file(0)
    };
    let mut tables = Tables::new(rt.alloc())?;
    let mut hand = Hand::new(rt.alloc())?;
    let guard = tables.lock(0, ROOT).expect(&rt, "nobody has it");
    put(&mut hand.one, loaded(&tables, guard, removed));
    match Search::lookup(Version::One, &hand, InodePlace::One, b".") {
        Begun::Runs(_search) => panic!(rt; "it has no link"),
        Begun::Is(found) => assert!(rt; found.is_none()),
    }
    match mem::replace(&mut hand.one, None) {
        None => panic!(rt; "its lock is there"),
        Some(guard) => tables.unlock(0, guard),
    }
    hand.end();
    let _ = tables.retire();
    Ok(())
}

// Each hart's directory is the root, which has one place, so 49 others have one.
#[test]
fn fifty_inodes_are_referred_to(rt: HostRuntime) -> Result<(), Fail> {
    let mut tables = Tables::new(rt.alloc())?;
    let mut held = Listed::new(rt.alloc())?;
    for number in 2..MEMORY_INODES as u32 + 1 {
        held.push(up(&rt, &mut tables, number).expect(&rt, "there is a place"));
    }
    match up(&rt, &mut tables, 51) {
        None => {}
        Some(_reference) => panic!(rt; "each place is referred to"),
    }
    assert!(rt; tables.references(51) == 0);
    let again = up(&rt, &mut tables, 50).expect(&rt, "it has its place");
    assert!(rt; (tables.references(50), tables.references(ROOT)) == (2, HARTS as u32));
    down(&rt, &mut tables, 0, again);
    assert!(rt; tables.references(50) == 1);
    held.retire(&tables.retire());
    Ok(())
}

#[test]
fn the_last_reference_to_a_dead_inode_is_told(rt: HostRuntime) -> Result<(), Fail> {
    let mut tables = Tables::new(rt.alloc())?;
    let reference = up(&rt, &mut tables, 9).expect(&rt, "there is a place");
    match load_and_drop(&rt, &mut tables, 4, reference, file(1)) {
        Dropped::Counted => assert!(rt; tables.references(9) == 0),
        Dropped::Dying(_reference, _guard) => panic!(rt; "it has a name"),
    }
    let reference = up(&rt, &mut tables, 9).expect(&rt, "there is a place");
    match load_and_drop(&rt, &mut tables, 4, reference, file(0)) {
        Dropped::Counted => panic!(rt; "it has no name"),
        Dropped::Dying(reference, guard) => {
            assert!(rt; (reference.number(), guard.hart()) == (9, 4));
            assert!(rt; tables.references(9) == 1);
            let ended = tables.retire();
            assert!(rt; (guard.number() as usize) < ended.count());
            guard.retire_in_row(&ended);
            reference.retire(&ended);
        }
    }
    Ok(())
}

#[test]
fn a_hart_opens_sixteen_files(rt: HostRuntime) -> Result<(), Fail> {
    let mut tables = Tables::new(rt.alloc())?;
    for fd in 0..DESCRIPTORS as u8 {
        let reference = up(&rt, &mut tables, 2).expect(&rt, "there is a place");
        assert!(rt; tables.take_place(3));
        match tables.open(3, reference, READABLE) {
            Ok(given) => assert!(rt; given == fd),
            Err(_reference) => panic!(rt; "a descriptor is free"),
        }
    }
    let reference = up(&rt, &mut tables, 2).expect(&rt, "there is a place");
    assert!(rt; tables.take_place(3));
    match tables.open(3, reference, READABLE) {
        Ok(_) => panic!(rt; "all descriptors are open"),
        Err(reference) => down(&rt, &mut tables, 3, reference),
    }
    match tables.double(3, 5) {
        Doubled::Full => {}
        Doubled::BadDescriptor => panic!(rt; "it is open"),
        Doubled::Gave(_) => panic!(rt; "all descriptors are open"),
    }
    match tables.shut(3, 5) {
        Shut::Last(reference) => down(&rt, &mut tables, 3, reference),
        Shut::BadDescriptor => panic!(rt; "it is open"),
        Shut::Closed => panic!(rt; "it alone named the file"),
    }
    match tables.double(3, 9) {
        Doubled::Gave(fd) => assert!(rt; fd == 5),
        Doubled::BadDescriptor => panic!(rt; "it is open"),
        Doubled::Full => panic!(rt; "one is free"),
    }
    match tables.shut(3, 9) {
        Shut::Closed => {}
        Shut::BadDescriptor => panic!(rt; "it is open"),
        Shut::Last(_reference) => panic!(rt; "another names the file"),
    }
    assert!(rt; tables.check(3, Want::Stat, 9) == Some(Refused::BadDescriptor));
    assert!(rt; tables.check(3, Want::Write, 5) == Some(Refused::BadMode));
    assert!(rt; tables.check(3, Want::Read, 5) == None);
    let _ = tables.retire();
    Ok(())
}

#[test]
fn a_hundred_files_are_open(rt: HostRuntime) -> Result<(), Fail> {
    let mut tables = Tables::new(rt.alloc())?;
    for taken in 0..OPEN_FILES {
        assert!(rt; tables.take_place((taken % HARTS as usize) as u8));
    }
    assert!(rt; !tables.take_place(0));
    let _ = tables.retire();
    Ok(())
}

// Descriptors 0 and 2 go to the child, then the directory.
#[test]
fn a_child_is_given_what_its_parent_has(rt: HostRuntime) -> Result<(), Fail> {
    let mut tables = Tables::new(rt.alloc())?;
    for _ in 0..3 {
        let reference = up(&rt, &mut tables, 2).expect(&rt, "there is a place");
        assert!(rt; tables.take_place(0));
        match tables.open(0, reference, READABLE) {
            Ok(_) => {}
            Err(_reference) => panic!(rt; "a descriptor is free"),
        }
    }
    match tables.shut(0, 1) {
        Shut::Last(reference) => down(&rt, &mut tables, 0, reference),
        Shut::BadDescriptor => panic!(rt; "it is open"),
        Shut::Closed => panic!(rt; "it alone named the file"),
    }
    for (from, fd, more) in [(0, 0, true), (1, 2, false)] {
        match give(&rt, &mut tables, 0, 7, from) {
            Given::Descriptor(given, has_more) => assert!(rt; (given, has_more) == (fd, more)),
            Given::Directory(_reference) => panic!(rt; "there are more descriptors"),
        }
    }
    let old = match give(&rt, &mut tables, 0, 7, 3) {
        Given::Descriptor(_, _) => panic!(rt; "there are no more descriptors"),
        Given::Directory(old) => old,
    };
    assert!(rt; (old.number(), tables.references(ROOT)) == (ROOT, 9));
    down(&rt, &mut tables, 0, old);
    assert!(rt; tables.check(7, Want::Read, 2) == None);
    assert!(rt; tables.check(7, Want::Read, 1) == Some(Refused::BadDescriptor));
    let _ = tables.retire();
    Ok(())
}

fn give(rt: &impl Abort, tables: &mut Tables, hart: u8, child: u8, from: u32) -> Given {
    assert!(rt; hart < HARTS && child < HARTS);
    assert!(rt; tables.references(tables.directory(hart)) < 1000);
    tables.give(hart, child, from)
}
