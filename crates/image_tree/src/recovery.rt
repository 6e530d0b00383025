//! Recovery: what the log holds goes home.
ghost use Rattle.std.specs.Prelude.{◌≡◌, ◌≢◌, ◌⊎◌, ◌<◌, ℕ, [], length, replicate, slice_set, Err, OnOk, OnErr, IfOk};
ghost use Rattle.image_tree.specs.Vocabulary.{faults_after, block_at, ComesByCalls, logged, recovered, sizes_of, IsOutsideLog, SameRecovered};
ghost use Rattle.image_tree.specs.Damage.{JudgesWith, UpToLog, IsWellFormed, faults_with};
ghost use Rattle.image_tree.specs.Trees.{tree_in};
ghost use Rattle.image_tree.specs.Layout.{IsLayout};
ghost use Rattle.image_tree.specs.Recovery.{OnDamage};
ghost use Rattle.image_tree.specs.Views.{ChecksSeeRecovered, TreesSeeRecovered};
ghost use Rattle.image_tree.specs.Reads.{OnlyReads};

use crate::disk::Layout;
use crate::fault::MountFault;
use crate::heads::find_layout;
use block_device::{BLOCK_LEN, Device, Fault};
use image_versions::Version;

/// Copies the logged blocks of an image of this version home, and then clears the log's head (the xv6 book, chapter
/// "File system", "Logging layer"). If nothing is logged it writes nothing. It takes no memory.
///
/// Wherever it stops, even in the middle of a write, recovery may be run again and makes the same disk (xv6:
/// `recover_from_log`).
pub fn recover<D: Device>(device: &mut D, version: Version) -> Result<(), MountFault>
    // Superblock and log are good, or the answer is their first damage; then nothing was written.
    ensures judges { JudgesWith version (λ _. UpToLog version (D.contents device.old)) (D.contents device.old) result }
    ensures memory { result ≢ Err MountFault.NoMemory }
    ensures unwritten { OnDamage result (D.contents device.new ≡ D.contents device.old) }
    ensures empty { logged (D.contents device.old) ≡ [] → D.contents device.new ≡ D.contents device.old }
    ensures faults { D.failures device.new ≡ faults_with result (D.failures device.old) }
    ensures calls { ComesByCalls D.Called device.old device.new }

    // Whatever it answers, recovery would make the same disk as before.
    ensures kept { SameRecovered (D.contents device.old) (D.contents device.new) }
    ensures sizes { sizes_of (D.contents device.new) ≡ sizes_of (D.contents device.old) }
    ensures good { UpToLog version (D.contents device.old) → UpToLog version (D.contents device.new) }

    // So what was well formed stays so, with the same tree.
    ensures well { IsWellFormed version (D.contents device.old) → IsWellFormed version (D.contents device.new) }
    ensures tree { IsWellFormed version (D.contents device.old)
        → tree_in version (D.contents device.new) ≡ tree_in version (D.contents device.old) }

    // Afterwards the disk is the recovered one, and its log is empty.
    ensures home { OnOk result ((b : ℕ) → IsOutsideLog (sizes_of (D.contents device.old)) b
        → block_at (D.contents device.new) b ≡ recovered (D.contents device.old) b) }
    ensures cleared { OnOk result (logged (D.contents device.new) ≡ []) }
{
    let layout = find_layout(device, version)?;
    install(device, &layout)?;
    Ok(())
}

fn install<D: Device>(device: &mut D, layout: &Layout) -> Result<(), Fault>
    requires { IsLayout (D.contents device.old) layout.now }
    ensures empty { logged (D.contents device.old) ≡ [] → D.contents device.new ≡ D.contents device.old }
    ensures faults { D.failures device.new ≡ faults_after result (D.failures device.old) }
    ensures calls { ComesByCalls D.Called device.old device.new }
    ensures kept { SameRecovered (D.contents device.old) (D.contents device.new) }
    ensures sizes { sizes_of (D.contents device.new) ≡ sizes_of (D.contents device.old) }
    ensures good { UpToLog layout.now.version (D.contents device.new) }
    ensures home { OnOk result ((b : ℕ) → IsOutsideLog (sizes_of (D.contents device.old)) b
        → block_at (D.contents device.new) b ≡ recovered (D.contents device.old) b) }
    ensures cleared { OnOk result (logged (D.contents device.new) ≡ []) }
{
    let blocks = layout.head.blocks.as_slice();
    if blocks.is_empty() {
        return Ok(());
    }
    let logstart = layout.sizes.logstart;
    for i in 0..blocks.len() {
        copy(device, logstart + 1 + i as u32, blocks[i])?;
    }
    device.write(logstart, &zeros())
}

// One block into the place of another.
fn copy<D: Device>(device: &mut D, from: u32, to: u32) -> Result<(), Fault>
    requires from { from < length (D.contents device.old) }
    requires to { to < length (D.contents device.old) }
    ensures ok { OnOk result (D.contents device.new ≡ slice_set (D.contents device.old) to (block_at (D.contents device.old) from)) }
    ensures err { OnErr result ((D.contents device.new ≡ D.contents device.old)
        ⊎ (D.contents device.new ≡ slice_set (D.contents device.old) to (block_at (D.contents device.old) from))) }
    ensures faults { D.failures device.new ≡ faults_after result (D.failures device.old) }
    ensures calls { ComesByCalls D.Called device.old device.new }
{
    let block = read(device, from)?;
    device.write(to, &block)
}

fn read<D: Device>(device: &mut D, b: u32) -> Result<[u8; BLOCK_LEN], Fault>
    requires { b < length (D.contents device.old) }
    ensures read { IfOk result (λ block. block ≡ block_at (D.contents device.old) b) }
    ensures device { OnlyReads D.contents D.failures (faults_after result) device.old device.new }
    ensures calls { ComesByCalls D.Called device.old device.new }
{
    let mut block = [0; BLOCK_LEN];
    device.read(b, &mut block)?;
    Ok(block)
}

// A head that names no block.
fn zeros() -> [u8; BLOCK_LEN]
    ensures { result ≡ replicate BLOCK_LEN 0 }
{
    [0; BLOCK_LEN]
}

/// Checks and trees see a disk's recovered blocks outside the log alone. The function does nothing: it carries the law.
pub fn images_are_seen_recovered()
    ensures checks { ChecksSeeRecovered }
    ensures trees { TreesSeeRecovered }
{}
