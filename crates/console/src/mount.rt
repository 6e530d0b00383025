//! Mounting a disk in memory.
ghost use Rattle.std.specs.Prelude.{◌≡◌, IfOk, IfErr};
ghost use Rattle.console.specs.Vocabulary.{blocks_of, tree_in};
ghost use Rattle.console.specs.Histories.{WhereSet};
ghost use Rattle.console.specs.Images.{RefusesDisk};
ghost use Rattle.console.specs.Scripts.{IsMountedOn};

use crate::fault::ConsoleFault;
use crate::session::Session;
use block_device::MemoryDisk;
use image_tree::{find_version, tree_of};
use plain_tree::Tree;
use std::alloc::Global;

/// The tree of an image, and a file system that is mounted on it.
pub struct Mounted {
    pub base: Tree,
    pub session: Session<MemoryDisk>,
}

// The tree of a disk's image, if it is wanted; else one without nodes.
fn base_of(alloc: Global, wanted: bool, disk: &mut MemoryDisk) -> Result<Tree, ConsoleFault>
    ensures tree { IfOk result (λ tree. WhereSet wanted (tree ≡ tree_in (blocks_of disk.old)) (Unit {0})) }
    ensures blocks { IfOk result (λ _. blocks_of disk.new ≡ blocks_of disk.old) }
    ensures refused { IfErr result (RefusesDisk (blocks_of disk.old)) }
{
    if !wanted {
        return Ok(Tree::of_nodes(alloc, Vec::new(alloc)));
    }
    let Ok(version) = find_version(disk) else {
        unreachable!();
    };
    let base = tree_of(alloc, disk, version)?;
    Ok(base)
}

/// Mounts a disk. If its tree is wanted, it is taken before the mount.
pub fn mount_disk(alloc: Global, wanted: bool, disk: MemoryDisk) -> Result<Mounted, ConsoleFault>
    ensures mounted { IfOk result (λ m. IsMountedOn wanted disk m.base m.session) }
    ensures refused { IfErr result (RefusesDisk (blocks_of disk)) }
{
    let mut device = disk;
    let base = base_of(alloc, wanted, &mut device)?;
    match Session::mount(alloc, device) {
        Ok(session) => Ok(Mounted { base, session }),
        Err((_, fault)) => Err(ConsoleFault::from(fault)),
    }
}
