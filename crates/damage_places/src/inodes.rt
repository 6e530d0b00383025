//! The checks of inodes, one after another.
ghost use Rattle.std.specs.Prelude.{◌≡◌, ◌<◌, ◌≤◌, ℕ, IfOk};
ghost use Rattle.std.specs.Option.{MatchOption};
ghost use Rattle.damage_places.specs.Vocabulary.{IsLayout, OnlyReads, sizes_of};
ghost use Rattle.damage_places.specs.Checks.{Passes};
ghost use Rattle.damage_places.specs.Places.{IsFaultOf, IsInodePlace};
ghost use Rattle.damage_places.specs.Reads.{faults_with};
ghost use Rattle.damage_places.specs.Tables.{IsReady};

use crate::counts::count_fault;
use crate::entries::slot_fault;
use crate::links::Links;
use crate::numbers::{outside_fault, unmarked_fault};
use crate::place::{Check, InodeFault, Place};
use crate::search_fault::SearchFault;
use crate::sizes::size_fault;
use crate::tree::tree_fault;
use crate::types::type_fault;
use block_device::Device;
use image_tree::Layout;
use std::alloc::Global;

/// What this check finds wrong with inode i.
fn fault_at<D: Device>(
    alloc: Global,
    device: &mut D,
    layout: &Layout,
    links: &Links,
    check: Check,
    i: u32,
) -> Result<Option<InodeFault>, SearchFault>
    requires layout { IsLayout (D.contents device.old) layout.now }
    requires ready { IsReady layout.now.version (D.contents device.old) links.now check }
    requires low { 1 ≤ i }
    requires bound { i < layout.now.sizes.ninodes }
    ensures fault { IfOk result (λ found. MatchOption found
        (Passes layout.now.version (D.contents device.old) check i)
        (IsFaultOf layout.now.version (D.contents device.old) i check)) }
    ensures device { OnlyReads D.contents D.failures (faults_with result) device.old device.new }
{
    match check {
        Check::Types => type_fault(device, layout, i),
        Check::Numbers => outside_fault(device, layout, i),
        Check::Marks => unmarked_fault(device, layout, i),
        Check::Sizes => size_fault(device, layout, i),
        Check::Slots => slot_fault(alloc, device, layout, i),
        Check::Tree => tree_fault(device, layout, links, i),
        Check::Counts => count_fault(device, layout, links, i),
    }
}

/// The first inode, from `first` on, in which this check finds something wrong. The tables are asked by the checks of the tree and
/// of counts alone.
pub fn find_inode<D: Device>(
    alloc: Global,
    device: &mut D,
    layout: &Layout,
    links: &Links,
    check: Check,
    first: u32,
) -> Result<Option<Place>, SearchFault>
    requires layout { IsLayout (D.contents device.old) layout.now }
    requires ready { IsReady layout.now.version (D.contents device.old) links.now check }
    requires low { 1 ≤ first }
    ensures place { IfOk result (λ found. MatchOption found
        ((i : ℕ) → first ≤ i → i < (sizes_of (D.contents device.old)).ninodes
        → Passes layout.now.version (D.contents device.old) check i)
        (IsInodePlace layout.now.version (D.contents device.old) first check)) }
    ensures device { OnlyReads D.contents D.failures (faults_with result) device.old device.new }
{
    for i in first..layout.sizes.ninodes {
        let found = fault_at(alloc, device, layout, links, check, i)?;
        if let Some(fault) = found {
            return Ok(Some(Place::Inode {
                check,
                inode: i,
                fault,
            }));
        }
    }
    Ok(None)
}
