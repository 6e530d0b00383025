//! What is done with a disk before it is used: recovery, and then the freeing of nodes without a name.
ghost use Rattle.std.specs.Prelude.{◌≡◌, ◌<◌, ◌≤◌, ℕ, [], OnOk};
ghost use Rattle.image_tree.specs.Vocabulary.{block_at, faults_after, ComesByCalls, logged, recovered, sizes_of, IsOutsideLog};
ghost use Rattle.image_tree.specs.Damage.{IsWellFormed};
ghost use Rattle.image_tree.specs.Trees.{tree_in};
ghost use Rattle.image_tree.specs.Freeing.{AreFreed, AreNamed};

use crate::freeing::reclaim;
use crate::putting::install;
use block_device::{Device, Fault};
use fs_layout::Super;
use image_versions::Version;

/// Recovers a well-formed image of this version, and then frees each node with count 0, as [`reclaim`] does. It takes
/// no memory.
///
/// Wherever it stops, even in the middle of a write, the image is well formed, with the same tree, and `settle` may
/// be run again.
pub fn settle<D: Device>(device: &mut D, version: Version, sizes: Super) -> Result<(), Fault>
    requires well { IsWellFormed version (D.contents device.old) }
    requires sizes { sizes ≡ sizes_of (D.contents device.old) }
    ensures faults { D.failures device.new ≡ faults_after result (D.failures device.old) }
    ensures calls { ComesByCalls D.Called device.old device.new }

    // Whatever it answers, the image stays well formed, with the same tree.
    ensures sizes { sizes_of (D.contents device.new) ≡ sizes_of (D.contents device.old) }
    ensures well { IsWellFormed version (D.contents device.new) }
    ensures tree { tree_in version (D.contents device.new) ≡ tree_in version (D.contents device.old) }

    // Afterwards each node has a name, and the log is empty. The disk is the recovered one, except for the nodes that
    // had no name: they are free, and so are their blocks. If each node had one, the disk is the recovered one.
    ensures named { OnOk result (AreNamed (D.contents device.new)) }
    ensures freed { OnOk result (AreFreed (D.contents device.old) (D.contents device.new)) }
    ensures empty { OnOk result (logged (D.contents device.new) ≡ []) }
    ensures home { AreNamed (D.contents device.old) → OnOk result ((b : ℕ) → IsOutsideLog (sizes_of (D.contents device.old)) b
        → block_at (D.contents device.new) b ≡ recovered (D.contents device.old) b) }
{
    install(device, version)?;
    reclaim(device, version, sizes)
}
