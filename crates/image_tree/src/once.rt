//! That no block number is named twice.
ghost use Rattle.std.specs.Prelude.{◌≡◌, ◌<◌, ◌++◌, ◌∷◌, ◌↔◌, [], ℕ, Bool, List, length, filter, IfOk, IfErr, All, IsTrue};
ghost use Rattle.image_tree.specs.Vocabulary.{faults_after, ComesByCalls};
ghost use Rattle.image_tree.specs.Inodes.{is_block};
ghost use Rattle.image_tree.specs.Checks.{HasGoodNumbers, NamesOnce};
ghost use Rattle.image_tree.specs.Damage.{JudgesFault, faults_with};
ghost use Rattle.image_tree.specs.Layout.{IsLayout};
ghost use Rattle.image_tree.specs.Lists.{IsOnce};
ghost use Rattle.image_tree.specs.Marks.{Marks};
ghost use Rattle.image_tree.specs.Reads.{OnlyReads};

use crate::disk::Layout;
use crate::fault::MountFault;
use crate::numbers::numbers_at;
use block_device::{Device, Fault};
use fs_layout::widths::BITS_PER_BLOCK;
use std::alloc::Global;

fn mark_all(seen: &mut [bool], numbers: &[u32]) -> bool
    requires length { length seen.old ≡ 8192 }
    requires small { All (λ b. b < 8192) numbers.now }
    ensures once { (xs : List ℕ) → Marks seen.old xs → IsOnce xs
        → IsTrue result ↔ IsOnce (xs ++ filter is_block numbers.now) }
    ensures marks { (xs : List ℕ) → Marks seen.old xs → IsOnce xs
        → IsTrue result → Marks seen.new (xs ++ filter is_block numbers.now) }
{
    for i in 0..numbers.len() {
        if !mark(seen, numbers[i]) {
            return false;
        }
    }
    true
}

/// Marks a number that isn't 0. It says whether the number is 0 or wasn't marked before.
fn mark(seen: &mut [bool], b: u32) -> bool
    requires length { length seen.old ≡ 8192 }
    requires small { b < 8192 }
    ensures once { (xs : List ℕ) → Marks seen.old xs → IsOnce xs
        → IsTrue result ↔ IsOnce (xs ++ filter is_block (b ∷ [])) }
    ensures marks { (xs : List ℕ) → Marks seen.old xs → IsOnce xs
        → IsTrue result → Marks seen.new (xs ++ filter is_block (b ∷ [])) }
{
    if b == 0 {
        return true;
    }
    if seen[b as usize] {
        return false;
    }
    seen[b as usize] = true;
    true
}

/// Whether each number is named once.
pub fn names_once<D: Device>(
    alloc: Global,
    device: &mut D,
    layout: &Layout,
) -> Result<bool, MountFault>
    requires layout { IsLayout (D.contents device.old) layout.now }
    requires numbers { HasGoodNumbers (D.contents device.old) }
    ensures once { IfOk result (λ once. IsTrue once ↔ NamesOnce (D.contents device.old)) }
    ensures err { IfErr result (JudgesFault layout.now.version (D.contents device.old)) }
    ensures device { OnlyReads D.contents D.failures (faults_with result) device.old device.new }
    ensures calls { ComesByCalls D.Called device.old device.new }
{
    let mut seen = vec![in alloc; false; BITS_PER_BLOCK]?;
    let once = has_no_repeat(device, layout, &mut seen)?;
    Ok(once)
}

fn has_no_repeat<D: Device>(
    device: &mut D,
    layout: &Layout,
    seen: &mut [bool],
) -> Result<bool, Fault>
    requires layout { IsLayout (D.contents device.old) layout.now }
    requires numbers { HasGoodNumbers (D.contents device.old) }
    requires length { length seen.old ≡ 8192 }
    requires blank { Marks seen.old [] }
    ensures once { IfOk result (λ once. IsTrue once ↔ NamesOnce (D.contents device.old)) }
    ensures device { OnlyReads D.contents D.failures (faults_after result) device.old device.new }
    ensures calls { ComesByCalls D.Called device.old device.new }
{
    for i in 1..layout.sizes.ninodes {
        let numbers = numbers_at(device, layout, i)?;
        if !mark_all(seen, numbers.as_slice()) {
            return Ok(false);
        }
    }
    Ok(true)
}
