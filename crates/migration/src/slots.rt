//! A directory's content, spelled anew.
ghost use Rattle.std.specs.Prelude.{◌≡◌, ◌++◌, All, IfOk, OnOk};
ghost use Rattle.migration.specs.Nodes.{spell_slot, spell_slots};
ghost use Rattle.migration.specs.Parts.{CanSpell};

use fs_layout::Dirent;
use image_versions::Version;
use mkfs::{push_entry, push_many};
use std::alloc::{AllocError, Global};

// Appends a slot; a free one as zeros.
fn push_slot(
    content: &mut Vec<u8>,
    version: Version,
    slot: &Option<Dirent>,
) -> Result<(), AllocError>
    requires { CanSpell version slot.now }
    ensures { OnOk result (content.new.items ≡ content.old.items ++ spell_slot version slot.now) }
{
    match slot {
        Some(Dirent::Used { number, name }) => push_entry(
            content,
            version,
            *number,
            name.as_bytes(),
        ),
        _ => push_many(content, version.dirent_len(), 0),
    }
}

/// The content of a directory with these slots.
pub fn spell_slots(
    alloc: Global,
    version: Version,
    slots: &[Option<Dirent>],
) -> Result<Vec<u8>, AllocError>
    requires { All (CanSpell version) slots.now }
    ensures { IfOk result (λ content. content.items ≡ spell_slots version slots.now) }
{
    let mut content = Vec::new(alloc);
    for s in 0..slots.len() {
        push_slot(&mut content, version, &slots[s])?;
    }
    Ok(content)
}
