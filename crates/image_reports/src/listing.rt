//! The listing of an image.
ghost use Rattle.std.specs.Prelude.{OnOk, IfErr};
ghost use Rattle.image_reports.specs.Vocabulary.{blocks_of};
ghost use Rattle.image_reports.specs.Faults.{IsSilent, Refuses};
ghost use Rattle.image_reports.specs.Listing.{ListsImage};

use crate::fault::ReportFault;
use crate::item::Item;
use crate::opened::{Opened, open_image};
use crate::paths::{path_of, resolve};
use crate::walk::write_below;
use std::alloc::Global;
use std::io::Write;

/// Writes a line for each name in the image's tree at this path and below it, in the order of their directory's
/// slots, each directory before what is in it. A refused image or path writes nothing.
pub fn list<W: Write>(
    alloc: Global,
    image: Vec<u8>,
    path: &[u8],
    long: bool,
    out: &mut W,
) -> Result<(), ReportFault>
    ensures lists { OnOk result (ListsImage (blocks_of image.items) path.now long (W.contents out.old) (W.contents out.new)) }
    ensures refused { IfErr result (Refuses (blocks_of image.items) path.now) }
    ensures silent { IfErr result (IsSilent (W.contents out.old) (W.contents out.new)) }
{
    let Opened { version, tree } = open_image(alloc, image)?;
    let Some(number) = resolve(&tree, version, path) else {
        return Err(ReportFault::NoPath);
    };
    let path = path_of(alloc, version, path)?;
    write_below(alloc, out, version, &tree, long, Item { path, number })
}
