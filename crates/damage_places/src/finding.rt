//! The search for the first place of damage.
ghost use Rattle.std.specs.Prelude.{◌≡◌, ℕ, List, IfOk};
ghost use Rattle.std.specs.Option.{MatchOption};
ghost use Rattle.damage_places.specs.Vocabulary.{Version, IsFirstDamage, IsLayout, IsWellFormed, OnlyReads, UpToMarks, UpToRange, UpToSlots};
ghost use Rattle.damage_places.specs.Places.{IsFirstPlace, PlacesAreDamage};
ghost use Rattle.damage_places.specs.Reads.{faults_with};

use crate::heads::find_layout;
use crate::inodes::find_inode;
use crate::links::{Links, find_links};
use crate::marks::find_front;
use crate::once::find_shared;
use crate::place::{Check, Place};
use crate::search_fault::SearchFault;
use crate::types::find_root;
use block_device::Device;
use image_tree::Layout;
use image_versions::Version;
use std::alloc::Global;

/// The first place that the checks up to that of block numbers find.
fn find_in_inodes<D: Device>(
    alloc: Global,
    device: &mut D,
    layout: &Layout,
    none: &Links,
) -> Result<Option<Place>, SearchFault>
    requires { IsLayout (D.contents device.old) layout.now }
    ensures place { IfOk result (λ found. MatchOption found
        (UpToRange layout.now.version (D.contents device.old))
        (IsFirstPlace layout.now.version (D.contents device.old))) }
    ensures device { OnlyReads D.contents D.failures (faults_with result) device.old device.new }
{
    if let Some(place) = find_inode(alloc, device, layout, none, Check::Types, 1)? {
        return Ok(Some(place));
    }
    if let Some(place) = find_root(device, layout)? {
        return Ok(Some(place));
    }
    find_inode(alloc, device, layout, none, Check::Numbers, 1)
}

/// The first place that the checks of named blocks find.
fn find_in_blocks<D: Device>(
    alloc: Global,
    device: &mut D,
    layout: &Layout,
    none: &Links,
) -> Result<Option<Place>, SearchFault>
    requires layout { IsLayout (D.contents device.old) layout.now }
    requires passed { UpToRange layout.now.version (D.contents device.old) }
    ensures place { IfOk result (λ found. MatchOption found
        (UpToMarks layout.now.version (D.contents device.old))
        (IsFirstPlace layout.now.version (D.contents device.old))) }
    ensures device { OnlyReads D.contents D.failures (faults_with result) device.old device.new }
{
    if let Some(place) = find_shared(alloc, device, layout)? {
        return Ok(Some(place));
    }
    if let Some(block) = find_front(device, layout)? {
        return Ok(Some(Place::Front { block }));
    }
    find_inode(alloc, device, layout, none, Check::Marks, 1)
}

/// The first place that the checks of sizes and slots find.
fn find_in_nodes<D: Device>(
    alloc: Global,
    device: &mut D,
    layout: &Layout,
    none: &Links,
) -> Result<Option<Place>, SearchFault>
    requires layout { IsLayout (D.contents device.old) layout.now }
    requires passed { UpToMarks layout.now.version (D.contents device.old) }
    ensures place { IfOk result (λ found. MatchOption found
        (UpToSlots layout.now.version (D.contents device.old))
        (IsFirstPlace layout.now.version (D.contents device.old))) }
    ensures device { OnlyReads D.contents D.failures (faults_with result) device.old device.new }
{
    let sizes = find_inode(alloc, device, layout, none, Check::Sizes, 1)?;
    if let Some(place) = sizes {
        return Ok(Some(place));
    }
    let slots = find_inode(alloc, device, layout, none, Check::Slots, 1)?;
    Ok(slots)
}

/// The first place that the checks of the tree and of counts find.
fn find_in_tree<D: Device>(
    alloc: Global,
    device: &mut D,
    layout: &Layout,
) -> Result<Option<Place>, SearchFault>
    requires layout { IsLayout (D.contents device.old) layout.now }
    requires passed { UpToSlots layout.now.version (D.contents device.old) }
    ensures place { IfOk result (λ found. MatchOption found
        (IsWellFormed layout.now.version (D.contents device.old))
        (IsFirstPlace layout.now.version (D.contents device.old))) }
    ensures device { OnlyReads D.contents D.failures (faults_with result) device.old device.new }
{
    let links = find_links(alloc, device, layout)?;
    let tree = find_inode(alloc, device, layout, &links, Check::Tree, 1)?;
    if let Some(place) = tree {
        return Ok(Some(place));
    }
    let counts = find_inode(alloc, device, layout, &links, Check::Counts, 1)?;
    Ok(counts)
}

/// The first place at which the first failing check of an image of this version fails; `None` if the image is well
/// formed. It only reads. Of one inode it is the first thing that its check asks about; the table of checks in
/// docs/FORMATS.md has the order.
pub fn find_place<D: Device>(
    alloc: Global,
    device: &mut D,
    version: Version,
) -> Result<Option<Place>, SearchFault>
    ensures place { IfOk result (λ found. MatchOption found
        (IsWellFormed version (D.contents device.old))
        (IsFirstPlace version (D.contents device.old))) }
    ensures device { OnlyReads D.contents D.failures (faults_with result) device.old device.new }
{
    let layout = match find_layout(device, version)? {
        Ok(layout) => layout,
        Err(place) => return Ok(Some(place)),
    };
    let none = Links::empty(alloc);
    if let Some(place) = find_in_inodes(alloc, device, &layout, &none)? {
        return Ok(Some(place));
    }
    if let Some(place) = find_in_blocks(alloc, device, &layout, &none)? {
        return Ok(Some(place));
    }
    if let Some(place) = find_in_nodes(alloc, device, &layout, &none)? {
        return Ok(Some(place));
    }
    find_in_tree(alloc, device, &layout)
}

/// A first place is damaged: the image's first damage is that of the place. The function does nothing: it carries the law.
pub fn places_are_damage()
    ensures { PlacesAreDamage }
{}
