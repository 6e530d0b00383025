//! The bytes of the image, if a script ends in the middle of a commit, or has emptied a file.
use crate::scripts::{disk, disk_with_f, image_after, prints};
use block_device::BLOCK_LEN;
use std::alloc::Global;
use std::process::Abort;
use std::test::Fail;

// A call whose commit is stopped. The file `/f` is empty, or has the letter A.
struct Commit {
    // Lines that are run first, after the one that opens the file.
    before: &'static str,
    hart: u8,
    call: &'static str,
    // The blocks that the commit writes, one a step.
    blocks: &'static [usize],
    // How many of these are copies in the log, before the header that names them, and how that begins.
    copies: usize,
    header: &'static [u8],
    // What is read of the file before that header and from then on.
    old: &'static str,
    new: &'static str,
}

const EMPTY: &str = "0 open fd 0\n0 fstat 1 2 2 1 0\n0 read 0\n";

const LETTER: &str = "0 open fd 0\n0 fstat 1 2 2 1 1\n0 read 1 41\n";

// A write of one byte: the bitmap, the block, the inode. An open that empties the file: the bitmap, the inode.
const COMMITS: [Commit; 2] = [
    Commit {
        before: "",
        hart: 0,
        call: "write 0 A",
        blocks: &[3, 4, 5, 2, 46, 48, 33, 2],
        copies: 3,
        header: b"\x03\0\0\0\x2e\0\0\0\x30\0\0\0\x21\0\0\0",
        old: EMPTY,
        new: LETTER,
    },
    Commit {
        before: "do 0 write 0 A\n",
        hart: 1,
        call: "open /f 0x400",
        blocks: &[3, 4, 2, 46, 33, 2],
        copies: 2,
        header: b"\x02\0\0\0\x2e\0\0\0\x21\0\0\0",
        old: LETTER,
        new: EMPTY,
    },
];

// Whether two images differ in this block and in no other; if none is named, whether they are the same.
fn differ_in(block: Option<&usize>, old: &[u8], new: &[u8]) -> bool {
    let blocks = old.chunks(BLOCK_LEN).zip(new.chunks(BLOCK_LEN));
    old.len() == new.len()
        && blocks
            .enumerate()
            .all(|(b, (x, y))| (x != y) == (block == Some(&b)))
}

// The place of the log's header.
const HEADER: usize = 2 * BLOCK_LEN;

// Leaves a call's commit after each of its writes in turn, and looks at the image.
fn commits(
    rt: &impl Abort,
    alloc: Global,
    image: &[u8],
    open: &str,
    commit: &Commit,
) -> Result<(), Fail> {
    let (hart, call) = (commit.hart, commit.call);
    let before = format!(in alloc; "{open}{}", commit.before)?;
    let mut old = image_after(alloc, image, before.as_str().as_bytes())?;
    for written in 0..=commit.blocks.len() {
        let (kind, steps) = if written == 0 {
            ("leave", 1)
        } else {
            ("commit", written)
        };
        let script = format!(in alloc; "{before}{hart} {call}\nupto {hart} {kind} {steps}\n")?;
        let new = image_after(alloc, image, script.as_str().as_bytes())?;
        let block = commit.blocks.get(written.wrapping_sub(1));
        assert!(rt;
            differ_in(block, old.as_slice(), new.as_slice()),
            "{script}"
        );
        if written == commit.copies.saturating_add(1) {
            let header = new.as_slice().get(HEADER..);
            assert!(rt;
                header.is_some_and(|h| h.starts_with(commit.header)),
                "{script}"
            );
        }
        let lines = if written <= commit.copies {
            commit.old
        } else {
            commit.new
        };
        let look = "do 0 open /f 0\ndo 0 fstat 0\ndo 0 read 0 9\n";
        assert!(rt; prints(alloc, new.as_slice(), look, lines)?, "{script}");
        old = new;
    }
    Ok(())
}

/// A commit writes the log's copies, the header, the blocks at home, and the header again. An image that is left
/// before the first header has the old file, and from then on the new one. This holds for a file that was made, and
/// for one that was there.
#[test]
fn commits_are_left_at_each_write(rt: HostRuntime) -> Result<(), Fail> {
    let fresh = disk(rt.alloc(), 2000, 200)?.into_bytes();
    let with_f = disk_with_f(rt.alloc(), 2000, 200, b"")?.into_bytes();
    let opens = [
        (&fresh, "do 0 open /f 0x201\n"),
        (&with_f, "do 0 open /f 1\n"),
    ];
    for (image, open) in opens {
        for commit in &COMMITS {
            commits(&rt, rt.alloc(), image.as_slice(), open, commit)?;
        }
    }
    Ok(())
}

// The bit of block 48 in the bitmap, which is the lowest one of its byte.
const BIT_48: usize = 46 * BLOCK_LEN + 48 / 8;

/// The first block that is written to a file of the image is the first one after the root's. It is free again if
/// another hart empties the file.
#[test]
fn an_emptied_file_gives_its_block_back(rt: HostRuntime) -> Result<(), Fail> {
    let image = disk_with_f(rt.alloc(), 2000, 200, b"")?.into_bytes();
    for (script, bits) in [
        ("do 0 open /f 1\n", 0),
        ("do 0 open /f 1\ndo 0 write 0 A\n", 1),
        ("do 0 open /f 1\ndo 0 write 0 A\ndo 1 open /f 0x400\n", 0),
    ] {
        let image = image_after(rt.alloc(), image.as_slice(), script.as_bytes())?;
        assert_eq!(rt; image.get(BIT_48), Some(&bits), "{script}");
    }
    Ok(())
}
