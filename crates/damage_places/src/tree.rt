//! The place of a live directory in the tree.
ghost use Rattle.std.specs.Prelude.{◌≡◌, ◌≢◌, ◌<◌, ◌≤◌, ◌↔◌, ℕ, length, slice_index, true, IfOk, IsTrue};
ghost use Rattle.std.specs.Option.{MatchOption};
ghost use Rattle.damage_places.specs.Vocabulary.{IsLayout, OnlyReads, Reaches};
ghost use Rattle.damage_places.specs.Checks.{IsPlaced, Passes};
ghost use Rattle.damage_places.specs.Places.{IsFaultOf, IsTreeFault, told};
ghost use Rattle.damage_places.specs.Reads.{faults_with};
ghost use Rattle.damage_places.specs.Tables.{IsLinks};
ghost use Rattle.damage_places.specs.declared.place.Check.TheVariants as checks;

use crate::links::Links;
use crate::place::InodeFault;
use crate::search_fault::SearchFault;
use crate::tallies::up_of;
use block_device::Device;
use image_tree::{Layout, is_live_directory, load_inode};

/// The number of the root.
const ROOT: u16 = 1;

/// More steps than there are inodes.
const MOST_STEPS: u32 = 65_537;

/// Whether going up from inode i reaches the root.
fn reaches_root(ups: &[u16], i: u16) -> bool
    ensures { IsTrue result ↔ Reaches (λ n. slice_index ups.now n) i }
{
    let mut at = i;
    for _step in 0..MOST_STEPS {
        if at == ROOT {
            return true;
        }
        at = up_of(ups, at);
    }
    false
}

/// What is wrong with the place of inode i, a live directory, by tables that count no further than the greatest u16.
fn misplaced(i: u32, up: u16, further: u16, proper: u16, reaches: bool) -> Option<InodeFault>
    ensures { (f p : ℕ) → further ≡ told f → proper ≡ told p → (i ≡ 1 → IsTrue reaches)
        → MatchOption result (IsPlaced i up f p (IsTrue reaches)) (IsTreeFault i up f p (IsTrue reaches)) }
{
    let is_root = i == u32::from(ROOT);
    if is_root && up != ROOT {
        return Some(InodeFault::RootUp { up });
    }
    if is_root && further != 0 {
        return Some(InodeFault::RootNamed { times: further });
    }
    if is_root {
        return None;
    }
    if further != 1 {
        return Some(InodeFault::Named { times: further });
    }
    if proper != 1 {
        return Some(InodeFault::Elsewhere { up });
    }
    if !reaches {
        return Some(InodeFault::Astray { up });
    }
    None
}

/// What is wrong with the place of inode i in the tree, if it is a live directory.
pub fn tree_fault<D: Device>(
    device: &mut D,
    layout: &Layout,
    links: &Links,
    i: u32,
) -> Result<Option<InodeFault>, SearchFault>
    requires layout { IsLayout (D.contents device.old) layout.now }
    requires links { IsLinks layout.now.version (D.contents device.old) links.now }
    requires low { 1 ≤ i }
    requires bound { i < layout.now.sizes.ninodes }
    ensures fault { IfOk result (λ found. MatchOption found
        (Passes layout.now.version (D.contents device.old) checks.Tree i)
        (IsFaultOf layout.now.version (D.contents device.old) i checks.Tree)) }
    ensures device { OnlyReads D.contents D.failures (faults_with result) device.old device.new }
{
    let inode = load_inode(device, layout, i)?;
    if !is_live_directory(&inode) {
        return Ok(None);
    }
    let place = i as usize;
    let ups = links.ups.as_slice();
    let reaches = reaches_root(ups, i as u16);
    Ok(misplaced(
        i,
        links.ups[place],
        links.further[place],
        links.proper[place],
        reaches,
    ))
}
