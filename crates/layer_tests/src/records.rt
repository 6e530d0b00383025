//! Bytes of images made elsewhere, read and written.
use fs_layout::widths::{BLOCK_LEN, Block};
use fs_layout::{
    Dinode, Dirent, Name, Super, bit, clear_bit, read_dinode, read_dirent, read_log_head,
    read_number, read_numbers, read_super, set_bit, write_dinode, write_dirent, write_log_head,
    write_number, write_numbers, write_super,
};
use image_versions::Version;
use image_versions::one::NAME_LEN;

/// The superblock of a fresh disk of 2000 blocks.
const SUPERBLOCK: [u8; 32] = [
    0x40, 0x30, 0x20, 0x10, 0xd0, 0x07, 0, 0, 0xa1, 0x07, 0, 0, 0xc8, 0, 0, 0, 0x1f, 0, 0, 0, 2, 0,
    0, 0, 0x21, 0, 0, 0, 0x2e, 0, 0, 0,
];

/// How the inode of its root begins, in block 33 at byte 64. The rest is zeros.
const ROOT: [u8; 16] = [1, 0, 0, 0, 0, 0, 1, 0, 0, 4, 0, 0, 0x2f, 0, 0, 0];

/// A log's head with the copies of blocks 46, 48 and 33.
const HEAD: [u8; 16] = [3, 0, 0, 0, 0x2e, 0, 0, 0, 0x30, 0, 0, 0, 0x21, 0, 0, 0];

#[test]
fn superblock_of_a_fresh_disk(rt: HostRuntime) {
    let mut block = [0; BLOCK_LEN];
    assert!(rt; read_super(Version::One, &block).is_none());
    let fresh = Super {
        version: Version::One,
        size: 2000,
        nblocks: 1953,
        ninodes: 200,
        nlog: 31,
        logstart: 2,
        inodestart: 33,
        bmapstart: 46,
    };
    write_super(&mut block, &fresh);
    assert!(rt; block.starts_with(&SUPERBLOCK));
    assert!(rt; read_super(Version::One, &block) == Some(fresh));
}

#[test]
fn root_inode(rt: HostRuntime) {
    let mut block = [0; BLOCK_LEN];
    let mut addrs = [0; 13];
    addrs[0] = 47;
    let root = Dinode {
        kind: 1,
        major: 0,
        minor: 0,
        nlink: 1,
        size: 1024,
        addrs,
    };
    write_dinode(&mut block, 1, &root);
    assert!(rt; &block[64..80] == ROOT.as_slice());
    assert!(rt; read_dinode(&block, 1) == root);
}

#[test]
fn inode_37_at_byte_320_with_extreme_counts(rt: HostRuntime) {
    let mut block = [0; BLOCK_LEN];
    let place = 37 % 16;
    for (nlink, bytes) in [(-1, [0xff, 0xff]), (32767, [0xff, 0x7f])] {
        let mut inode = read_dinode(&block, place);
        inode.nlink = nlink;
        inode.addrs[12] = 0x0102_0304;
        write_dinode(&mut block, place, &inode);
        assert!(rt; &block[326..328] == bytes.as_slice());
        assert!(rt; &block[380..384] == [4, 3, 2, 1].as_slice());
        assert!(rt; read_dinode(&block, place).nlink == nlink);
    }
}

/// The bytes of an entry in the last slot of a block of ones, if its name can be read back.
fn entry_bytes(number: u16, name: &[u8]) -> Option<[u8; 16]> {
    let mut block = [0xff; BLOCK_LEN];
    let name = Name::new(Version::One, name)?;
    if number == 0 {
        return None;
    }
    write_dirent(Version::One, &mut block, 63, &Dirent::Used { number, name });
    let mut bytes = [0; 16];
    bytes.copy_from_slice(&block[1008..]);
    match read_dirent(Version::One, &block, 63)? {
        Dirent::Free => None,
        Dirent::Used { .. } => Some(bytes),
    }
}

#[test]
fn names_of_1_13_and_14_bytes(rt: HostRuntime) {
    assert!(rt; entry_bytes(1, b".") == Some(*b"\x01\0.\0\0\0\0\0\0\0\0\0\0\0\0\0"));
    assert!(rt; entry_bytes(258, b"thirteenbytes") == Some(*b"\x02\x01thirteenbytes\0"));
    assert!(rt; entry_bytes(3, b"fourteen_bytes") == Some(*b"\x03\0fourteen_bytes"));
    for bad in [&b""[..], b"a/b", b"a\0b", b"fifteen_bytes__"] {
        assert!(rt; Name::new(Version::One, bad).is_none());
    }
}

#[test]
fn free_slot_and_no_entry(rt: HostRuntime) {
    let mut block = [0xff; BLOCK_LEN];
    write_dirent(Version::One, &mut block, 1, &Dirent::Free);
    assert!(rt; &block[16..32] == [0; 16].as_slice());
    assert!(rt; matches!(read_dirent(Version::One, &block, 1), Some(Dirent::Free)));
    block[31] = b'x';
    assert!(rt; read_dirent(Version::One, &block, 1).is_none());
    let name: [u8; NAME_LEN] = [0xff; NAME_LEN];
    match read_dirent(Version::One, &block, 0) {
        Some(Dirent::Used { number, name: read }) => {
            assert!(rt; number == 0xffff);
            assert!(rt; read.as_bytes() == name.as_slice());
        }
        _ => assert!(rt; false),
    }
}

#[test]
fn bits_47_and_48_of_a_fresh_bitmap(rt: HostRuntime) {
    let mut block: Block = [0; BLOCK_LEN];
    block[..6].fill(0xff);
    assert!(rt; bit(&block, 47));
    assert!(rt; !bit(&block, 48));
    set_bit(&mut block, 48);
    assert!(rt; &block[..8] == [0xff, 0xff, 0xff, 0xff, 0xff, 0xff, 1, 0].as_slice());
    clear_bit(&mut block, 47);
    assert!(rt; &block[..8] == [0xff, 0xff, 0xff, 0xff, 0xff, 0x7f, 1, 0].as_slice());
}

#[test]
fn log_head_of_three_blocks(rt: HostRuntime) {
    let mut block = [0; BLOCK_LEN];
    write_log_head(&mut block, &[46, 48, 33]);
    assert!(rt; &block[..16] == HEAD.as_slice());
    match read_log_head(&block) {
        Some(head) => assert!(rt; head.blocks.as_slice() == [46, 48, 33].as_slice()),
        None => assert!(rt; false),
    }
    block[0] = 255;
    assert!(rt; read_log_head(&block).is_some());
    block[1] = 1;
    assert!(rt; read_log_head(&block).is_none());
}

#[test]
fn numbers_of_an_indirect_block(rt: HostRuntime) {
    let mut block = [0; BLOCK_LEN];
    write_number(&mut block, 255, 0x0102_0304);
    assert!(rt; &block[1020..] == [4, 3, 2, 1].as_slice());
    assert!(rt; read_number(&block, 255) == 0x0102_0304);
    let mut numbers = read_numbers(&block);
    assert!(rt; numbers[255] == 0x0102_0304);
    numbers[0] = 48;
    write_numbers(&mut block, &numbers);
    assert!(rt; &block[..8] == [48, 0, 0, 0, 0, 0, 0, 0].as_slice());
    assert!(rt; read_number(&block, 0) == 48);
}
