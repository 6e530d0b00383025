//! After a stop: recovery, and then the tree.
ghost use Rattle.std.specs.Prelude.{◌≡◌, ◌≢◌, Err, IfOk};
ghost use Rattle.image_tree.specs.Vocabulary.{ComesByCalls};
ghost use Rattle.image_tree.specs.Damage.{IsWellFormed, faults_with};
ghost use Rattle.image_tree.specs.Trees.{tree_in};
ghost use Rattle.image_tree.specs.declared.fault.Damage.{Damage};

use crate::fault::MountFault;
use crate::recovery::recover;
use crate::trees::tree_of;
use block_device::Device;
use image_versions::Version;
use plain_tree::Tree;
use std::alloc::Global;

/// Recovers an image of this version, and gives the tree that it holds. If the image is well formed, the tree is the
/// one that it held before, and no damage is found. Wherever recovery stops, the image stays well formed, with the
/// same tree.
pub fn recovered_tree<D: Device>(
    alloc: Global,
    device: &mut D,
    version: Version,
) -> Result<Tree, MountFault>
    ensures tree { IsWellFormed version (D.contents device.old) → IfOk result (λ tree. tree ≡ tree_in version (D.contents device.old)) }
    ensures undamaged { IsWellFormed version (D.contents device.old) → (damage : Damage) → result ≢ Err (MountFault.Damaged damage) }
    ensures well { IsWellFormed version (D.contents device.old) → IsWellFormed version (D.contents device.new) }
    ensures same { IsWellFormed version (D.contents device.old)
        → tree_in version (D.contents device.new) ≡ tree_in version (D.contents device.old) }
    ensures faults { D.failures device.new ≡ faults_with result (D.failures device.old) }
    ensures calls { ComesByCalls D.Called device.old device.new }
{
    recover(device, version)?;
    tree_of(alloc, device, version)
}
