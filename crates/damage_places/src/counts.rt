//! The count of a node.
ghost use Rattle.std.specs.Prelude.{◌≡◌, ◌<◌, ◌≤◌, ℕ, IfOk};
ghost use Rattle.std.specs.Option.{MatchOption};
ghost use Rattle.damage_places.specs.Vocabulary.{IsLayout, OnlyReads, IsGoodCount};
ghost use Rattle.damage_places.specs.Checks.{Passes};
ghost use Rattle.damage_places.specs.Places.{IsCountFault, IsFaultOf, told};
ghost use Rattle.damage_places.specs.Reads.{faults_with};
ghost use Rattle.damage_places.specs.Tables.{IsLinks};
ghost use Rattle.damage_places.specs.declared.place.Check.TheVariants as checks;

use crate::links::Links;
use crate::place::InodeFault;
use crate::search_fault::SearchFault;
use block_device::Device;
use fs_layout::Dinode;
use image_tree::{Layout, is_directory, is_free, is_live, load_inode};

/// What is wrong with the count of an inode, by tables that count no further than the greatest u16.
fn miscounted(inode: &Dinode, names: u16, further: u16, children: u16) -> Option<InodeFault>
    ensures { (n f k : ℕ) → names ≡ told n → further ≡ told f → children ≡ told k
        → MatchOption result (IsGoodCount inode.now n f k) (IsCountFault inode.now n f k) }
{
    let links = inode.nlink;
    let count = i32::from(links);
    if !is_directory(inode) {
        return (count != i32::from(names)).then_some(InodeFault::Names { links, names });
    }
    if is_live(inode) {
        return (count != 1 + i32::from(children)).then_some(InodeFault::Children {
            links,
            children,
        });
    }
    (further != 0).then_some(InodeFault::DeadNamed { times: further })
}

/// What is wrong with the count of inode i, if it is a node.
pub fn count_fault<D: Device>(
    device: &mut D,
    layout: &Layout,
    links: &Links,
    i: u32,
) -> Result<Option<InodeFault>, SearchFault>
    requires layout { IsLayout (D.contents device.old) layout.now }
    requires links { IsLinks layout.now.version (D.contents device.old) links.now }
    requires low { 1 ≤ i }
    requires bound { i < layout.now.sizes.ninodes }
    ensures fault { IfOk result (λ found. MatchOption found
        (Passes layout.now.version (D.contents device.old) checks.Counts i)
        (IsFaultOf layout.now.version (D.contents device.old) i checks.Counts)) }
    ensures device { OnlyReads D.contents D.failures (faults_with result) device.old device.new }
{
    let inode = load_inode(device, layout, i)?;
    if is_free(&inode) {
        return Ok(None);
    }
    let place = i as usize;
    Ok(miscounted(
        &inode,
        links.names[place],
        links.further[place],
        links.children[place],
    ))
}
