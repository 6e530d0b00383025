//! That the live directories are one tree.
ghost use Rattle.std.specs.Prelude.{◌≡◌, ◌≢◌, ◌+◌, ◌<◌, ◌≤◌, ◌↔◌, ℕ, List, length, map, slice_index, IfOk, IsTrue};
ghost use Rattle.image_tree.specs.Vocabulary.{Version};
ghost use Rattle.image_tree.specs.Links.{Reaches};
ghost use Rattle.image_tree.specs.Checks.{HasGoodSlots, IsOneTree};
ghost use Rattle.image_tree.specs.Marks.{IsLinks};

use crate::limits;
use crate::links::Links;
use crate::tallies::up_of;
use std::alloc::{AllocError, Global};

/// The number of the root.
const ROOT: u16 = limits::ROOT as u16;

/// The number of doublings of one step that reach farther than there are inodes.
const DOUBLINGS: u32 = 16;

/// Whether one slot past the first two names each live directory except the root, and that slot is in the directory's
/// "..".
fn are_named(ups: &[u16], further: &[u16], proper: &[u16]) -> bool
    requires further { length further.now ≡ length ups.now }
    requires proper { length proper.now ≡ length ups.now }
    ensures { IsTrue result
        ↔ ((i : ℕ) → 2 ≤ i → i < length ups.now → slice_index ups.now i ≢ 0
        → (slice_index further.now i ≡ 1) × (slice_index proper.now i ≡ 1)) }
{
    for i in 2..ups.len() {
        if ups[i] != 0 && (further[i] != 1 || proper[i] != 1) {
            return false;
        }
    }
    true
}

/// Twice as many steps from each inode.
fn doubled(alloc: Global, jumps: &[u16]) -> Result<Vec<u16>, AllocError>
    ensures { IfOk result (λ twice. twice.items ≡ map (λ n. slice_index jumps.now n) jumps.now) }
{
    jumps.iter().map(|n| up_of(jumps, *n)).collect(alloc)
}

fn end_at_root(ups: &[u16], jumps: &[u16]) -> bool
    requires { length jumps.now ≡ length ups.now }
    ensures { IsTrue result
        ↔ ((i : ℕ) → i < length ups.now → slice_index ups.now i ≢ 0 → slice_index jumps.now i ≡ 1) }
{
    for i in 0..ups.len() {
        if ups[i] != 0 && jumps[i] != ROOT {
            return false;
        }
    }
    true
}

/// Whether going up from each live directory reaches the root, whose own ".." is the root.
fn reach_root(alloc: Global, ups: &[u16]) -> Result<bool, AllocError>
    requires none { slice_index ups.now 0 ≡ 0 }
    requires root { slice_index ups.now 1 ≡ 1 }
    requires size { length ups.now ≤ 65536 }
    ensures { IfOk result (λ reach. IsTrue reach
        ↔ ((i : ℕ) → slice_index ups.now i ≢ 0 → Reaches (λ n. slice_index ups.now n) i)) }
{
    let mut jumps = doubled(alloc, ups)?;
    for _doubling in 1..DOUBLINGS {
        jumps = doubled(alloc, jumps.as_slice())?;
    }
    Ok(end_at_root(ups, jumps.as_slice()))
}

/// Whether the live directories of an image with these tables are one tree.
pub fn is_one_tree(alloc: Global, links: &Links) -> Result<bool, AllocError>
    requires links { (v : Version) × (disk : List (List ℕ)) × IsLinks v disk links.now }
    requires size { length links.now.ups.items ≤ 65536 }
    ensures { IfOk result (λ one. (v : Version) (disk : List (List ℕ)) → IsLinks v disk links.now → HasGoodSlots v disk
        → IsTrue one ↔ IsOneTree v disk) }
{
    let ups = links.ups.as_slice();
    let further = links.further.as_slice();
    if ups.len() < 2 || ups[1] != ROOT || further[1] != 0 {
        return Ok(false);
    }
    if !are_named(ups, further, links.proper.as_slice()) {
        return Ok(false);
    }
    let reach = reach_root(alloc, ups)?;
    Ok(reach)
}
