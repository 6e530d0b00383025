//! The bytes of a file of an image.
ghost use Rattle.std.specs.Prelude.{◌≢◌, Err, IfErr, IfOk, OnOk};
ghost use Rattle.image_reports.specs.Vocabulary.{blocks_of};
ghost use Rattle.image_reports.specs.Faults.{IsSilent, Refuses};
ghost use Rattle.image_reports.specs.Files.{GetsFile, IsFileOf};

use crate::fault::ReportFault;
use crate::opened::{Opened, open_image};
use crate::paths::resolve;
use plain_tree::{Node, NodeKind, Tree};
use std::alloc::Global;
use std::io::Write;

/// The bytes of the file at this path.
pub fn content_at(alloc: Global, image: Vec<u8>, path: &[u8]) -> Result<Vec<u8>, ReportFault>
    ensures content { IfOk result (λ bytes. IsFileOf (blocks_of image.items) path.now bytes.items) }
    ensures refused { IfErr result (Refuses (blocks_of image.items) path.now) }
    ensures ends { result ≢ Err ReportFault.TooLong }
{
    let Opened { version, tree } = open_image(alloc, image)?;
    let Some(number) = resolve(&tree, version, path) else {
        return Err(ReportFault::NoPath);
    };
    match tree.node(usize::from(number)) {
        Some(
            Node {
                kind: NodeKind::File { bytes },
                ..
            },
        ) => Ok(Vec::from_slice(alloc, bytes.as_slice())?),
        _ => Err(ReportFault::NoFile),
    }
}

/// Writes the bytes of the file at this path. A refused image or path writes nothing.
pub fn get<W: Write>(
    alloc: Global,
    image: Vec<u8>,
    path: &[u8],
    out: &mut W,
) -> Result<(), ReportFault>
    ensures gets { OnOk result (GetsFile (blocks_of image.items) path.now (W.contents out.old) (W.contents out.new)) }
    ensures refused { IfErr result (Refuses (blocks_of image.items) path.now) }
    ensures ends { result ≢ Err ReportFault.TooLong }
    ensures silent { IfErr result (IsSilent (W.contents out.old) (W.contents out.new)) }
{
    let bytes = content_at(alloc, image, path)?;
    out.write_all(bytes.as_slice()).map_err(ReportFault::Write)
}
