//! The line of a node.
ghost use Rattle.std.specs.Prelude.{◌≡◌, OnOk};
ghost use Rattle.image_reports.specs.Vocabulary.{Appends, size_of, tree_of};
ghost use Rattle.image_reports.specs.Lines.{details, kind_word, line_of, node_details};

use crate::item::Item;
use crate::shown::write_shown;
use image_versions::Version;
use plain_tree::{Node, NodeKind, Tree};
use std::io;
use std::io::Write;

fn kind_word(kind: &NodeKind) -> &'static str
    ensures { result.now ≡ kind_word kind.now }
{
    match kind {
        NodeKind::Directory { .. } => "directory",
        NodeKind::File { .. } => "file",
        NodeKind::Device { .. } => "device",
    }
}

fn size(version: Version, kind: &NodeKind) -> u64
    ensures { result ≡ size_of version kind.now }
{
    match kind {
        NodeKind::Directory { slots } => {
            version.dirent_len() as u64 * slots.as_slice().len() as u64
        }
        NodeKind::File { bytes } => bytes.as_slice().len() as u64,
        NodeKind::Device { size, .. } => u64::from(*size),
    }
}

// Type, links, size and number.
fn write_details<W: Write>(
    out: &mut W,
    version: Version,
    number: u16,
    node: &Node,
) -> io::Result<()>
    ensures { OnOk result (Appends (W.contents out.old) (W.contents out.new) (details version number node.now)) }
{
    let (word, count) = (kind_word(&node.kind), node.count);
    let size = size(version, &node.kind);
    write!(out, "{word} {count} {size} {number} ")
}

fn write_node<W: Write>(out: &mut W, version: Version, tree: &Tree, number: u16) -> io::Result<()>
    ensures { OnOk result (Appends (W.contents out.old) (W.contents out.new)
        (node_details version number ((tree_of tree.now).nodes number))) }
{
    match tree.node(usize::from(number)) {
        Some(node) => write_details(out, version, number, node),
        None => Ok(()),
    }
}

/// Writes the line of a node: its path, and if it is to be long, before it the node's type, links, size and number.
pub fn write_line<W: Write>(
    out: &mut W,
    version: Version,
    tree: &Tree,
    long: bool,
    item: &Item,
) -> io::Result<()>
    ensures { OnOk result (Appends (W.contents out.old) (W.contents out.new)
        (line_of version (tree_of tree.now).nodes long item.now)) }
{
    if long {
        write_node(out, version, tree, item.number)?;
    }
    write_shown(out, item.path.as_slice())?;
    writeln!(out)
}
