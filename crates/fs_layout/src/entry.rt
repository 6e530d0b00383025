//! A directory entry on the disk, of which a block has 64, or 32 in version 2. docs/FORMATS.md has its table.
ghost use Rattle.std.specs.Prelude.{◌≡◌, ◌≢◌, ◌+◌, ◌*◌, ◌≤◌, ◌<◌, ℕ, List, Some, length, drop};
ghost use Rattle.fs_layout.specs.Vocabulary.{list_all, position_or_len, dirent_len_of, dirents_per_block_of, Version};
ghost use Rattle.fs_layout.specs.Bytes.{overwrite, IsBytes};
ghost use Rattle.fs_layout.specs.Entry.{dirent_at, dirent_of, spell_dirent, used_of, free_of, IsDirent};
ghost use Rattle.fs_layout.specs.declared.entry.Dirent.{Dirent};
ghost use Rattle.fs_layout.specs.Name.{is_zero};

use crate::bytes::{put_bytes, put_u16, put_zeros, u16_in};
use crate::name::Name;
use crate::widths::{Block, DIRENT_NAME_AT};
use image_versions::Version;

/// A slot of a directory: free, or the number of an inode and its name (xv6: `struct dirent`).
#[derive(Drop)]
pub enum Dirent {
    Free,
    Used { number: u16, name: Name },
}

fn are_zero(bytes: &[u8]) -> bool
    ensures { result ≡ list_all is_zero bytes.now }
{
    bytes.iter().all(|b| *b == 0)
}

fn first_zero(field: &[u8]) -> usize
    ensures value { result ≡ position_or_len is_zero field.now }
    ensures bound { result ≤ length field.now }
{
    for (i, b) in field.iter().enumerate() {
        if *b == 0 {
            return i;
        }
    }
    field.len()
}

fn free_in(field: &[u8]) -> Option<Dirent>
    ensures { result ≡ free_of field.now }
{
    if are_zero(field) {
        Some(Dirent::Free)
    } else {
        None
    }
}

fn used_in(version: Version, number: u16, field: &[u8]) -> Option<Dirent>
    ensures { result ≡ used_of version number field.now }
{
    let len = first_zero(field);
    if !are_zero(&field[len..]) {
        return None;
    }
    match Name::new(version, &field[..len]) {
        Some(name) => Some(Dirent::Used { number, name }),
        None => None,
    }
}

/// The slot at a place of a directory's block, counted in slots. `None` if its bytes are no entry. They are none if a
/// number 0 has bytes that aren't 0, or if the name is empty or has a '/'. They are none too if a byte other than 0
/// comes after a 0.
pub fn read_dirent(version: Version, block: &Block, place: usize) -> Option<Dirent>
    requires { place < dirents_per_block_of version }
    ensures { result ≡ dirent_at version place block.now }
{
    let len = version.dirent_len();
    let at = len * place;
    let number = u16_in(block, at);
    let field = &block[at + DIRENT_NAME_AT..at + len];
    if number == 0 {
        free_in(field)
    } else {
        used_in(version, number, field)
    }
}

/// Writes a slot at a place of a directory's block, counted in slots. A name is padded with zeros; one as long as its
/// field has none after it.
pub fn write_dirent(version: Version, block: &mut Block, place: usize, entry: &Dirent)
    requires place { place < dirents_per_block_of version }
    requires entry { IsDirent version entry.now }
    ensures bytes { block.new ≡ overwrite block.old (dirent_len_of version * place) (spell_dirent version entry.now) }
    ensures reads_back { dirent_at version place block.new ≡ Some entry.now }
    ensures others { (q : ℕ) → q < dirents_per_block_of version → q ≢ place
        → dirent_at version q block.new ≡ dirent_at version q block.old }
{
    let len = version.dirent_len();
    let at = len * place;
    match entry {
        Dirent::Free => put_zeros(block, at, len),
        Dirent::Used { number, name } => {
            put_u16(block, at, *number);
            let bytes = name.as_bytes();
            put_bytes(block, at + DIRENT_NAME_AT, bytes);
            let end = at + DIRENT_NAME_AT + bytes.len();
            put_zeros(block, end, version.name_len() - bytes.len());
        }
    }
}

/// An entry and its bytes determine each other, and other bytes are none.
pub fn dirent_spelling()
    ensures reads_back { (v : Version) (d : Dirent) → IsDirent v d → dirent_of v (spell_dirent v d) ≡ Some d }
    ensures only { (v : Version) (bytes : List ℕ) (d : Dirent) → length bytes ≡ dirent_len_of v → IsBytes bytes
        → dirent_of v bytes ≡ Some d → spell_dirent v d ≡ bytes }
{}
