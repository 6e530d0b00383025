//! The nodes of an image: the root, and the files in it.
ghost use Rattle.std.specs.Prelude.{◌≡◌, ◌+◌, ◌*◌, ◌^◌, ◌<◌, ◌≤◌, ◌++◌, ℕ, List, length, map, All, IfOk, OnOk};
ghost use Rattle.mkfs.specs.Vocabulary.{flat_map, spell_dinode, spell_dirent, IsName, blocks_for, largest_size};
ghost use Rattle.mkfs.specs.Layout.{node_blocks};
ghost use Rattle.mkfs.specs.Image.{contents_of, data_from, entries_from, file_node, inodes_from, names_of, root_content};

use crate::appends::push_whole;
use crate::layout::node_blocks;
use crate::new_file::NewFile;
use crate::parts::{push_content, push_entry, push_inode};
use crate::widths::{FILE, FIRST_FILE, ROOT};
use image_versions::Version;
use std::alloc::{AllocError, Global};

// Appends the files' entries.
fn push_entries(
    content: &mut Vec<u8>,
    version: Version,
    files: &[NewFile],
) -> Result<(), AllocError>
    requires names { All (IsName version) (names_of files.now) }
    requires few { 2 + length files.now < 2 ^ 16 }
    ensures { OnOk result (content.new.items ≡ content.old.items
        ++ flat_map (spell_dirent version) (entries_from FIRST_FILE (names_of files.now))) }
{
    let mut number = FIRST_FILE;
    for file in files {
        push_entry(content, version, number, file.name.as_slice())?;
        number += 1;
    }
    Ok(())
}

/// The root's content: its entries, and free ones up to a whole block.
pub fn root_content(
    alloc: Global,
    version: Version,
    files: &[NewFile],
) -> Result<Vec<u8>, AllocError>
    requires names { All (IsName version) (names_of files.now) }
    requires few { 2 + length files.now < 2 ^ 16 }
    ensures { IfOk result (λ content. content.items ≡ root_content version (names_of files.now)) }
{
    let mut entries = Vec::new(alloc);
    push_entry(&mut entries, version, ROOT, b".")?;
    push_entry(&mut entries, version, ROOT, b"..")?;
    push_entries(&mut entries, version, files)?;
    let mut content = Vec::new(alloc);
    push_whole(&mut content, &entries)?;
    Ok(content)
}

/// Appends the files' inodes, if the first file's blocks begin at `first`.
pub fn push_file_inodes(
    image: &mut Vec<u8>,
    first: u32,
    files: &[NewFile],
) -> Result<(), AllocError>
    requires each { All (λ content. length content ≤ largest_size) (contents_of files.now) }
    requires few { length files.now < 2 ^ 16 }
    requires first { first < 2 ^ 16 }
    ensures { OnOk result (image.new.items
        ≡ image.old.items ++ flat_map spell_dinode (inodes_from first (map file_node (contents_of files.now)))) }
{
    let mut at = first;
    for file in files {
        let content = file.content.as_slice();
        push_inode(image, FILE, at, content.len())?;
        at += node_blocks(content.len()) as u32;
    }
    Ok(())
}

/// Appends the files' blocks, of which the first will be block `first`.
pub fn push_files(image: &mut Vec<u8>, first: u32, files: &[NewFile]) -> Result<(), AllocError>
    requires each { All (λ content. length content ≤ largest_size) (contents_of files.now) }
    requires few { length files.now < 2 ^ 16 }
    requires first { first < 2 ^ 16 }
    ensures { OnOk result (image.new.items ≡ image.old.items ++ data_from first (map file_node (contents_of files.now))) }
{
    let mut at = first;
    for file in files {
        let content = file.content.as_slice();
        push_content(image, at, content)?;
        at += node_blocks(content.len()) as u32;
    }
    Ok(())
}
