//! The lines that a console prints (docs/SCRIPT.md).
ghost use Rattle.std.specs.Prelude.{◌≡◌, ◌<◌, ◌++◌, codes, decimal, OnOk};
ghost use Rattle.script.specs.Vocabulary.{Appends};
ghost use Rattle.script.specs.Text.{bytes_text, given_text, hex, hex_digit, numbered_text, reply_line, shape_line, stat_text, told_line};

use image_tree::Shape;
use plain_tree::{Answer, Call, Reply, Stat};
use std::io;
use std::io::Write;

/// Writes the line of a reply to the hart's call, whose word is `name`. An error is the writer's.
pub fn write_reply<W: Write>(out: &mut W, hart: u8, name: &str, reply: &Reply) -> io::Result<()>
    ensures { OnOk result (Appends (W.contents out.old) (W.contents out.new) (reply_line hart name.now reply.now)) }
{
    match reply.answer {
        Answer::Fd(fd) => writeln!(out, "{hart} {name} fd {fd}"),
        Answer::Count(count) => {
            write!(out, "{hart} {name} {count}")?;
            write_given(out, &reply.call, count)?;
            writeln!(out)
        }
        Answer::Stat(stat) => write_stat(out, hart, name, &stat),
        Answer::Done => writeln!(out, "{hart} {name} ok"),
        Answer::Failed(cause) => {
            write_numbered(out, hart, name, "failed", cause.number(), cause.name())
        }
        Answer::Full(full) => write_numbered(out, hart, name, "full", full.number(), full.name()),
    }
}

// What an inode is.
fn write_stat<W: Write>(out: &mut W, hart: u8, name: &str, stat: &Stat) -> io::Result<()>
    ensures { OnOk result (Appends (W.contents out.old) (W.contents out.new) (told_line hart name.now (stat_text stat.now))) }
{
    write_inode(out, hart, name, stat.device, stat.inode)?;
    write_state(out, stat.kind.number(), stat.nlink, stat.size)
}

fn write_inode<W: Write>(
    out: &mut W,
    hart: u8,
    name: &str,
    device: u32,
    inode: u16,
) -> io::Result<()>
    ensures { OnOk result (Appends (W.contents out.old) (W.contents out.new)
        (decimal hart ++ codes " " ++ name.now ++ codes " " ++ decimal device ++ codes " " ++ decimal inode)) }
{
    write!(out, "{hart} {name} {device} {inode}")
}

fn write_state<W: Write>(out: &mut W, kind: u8, nlink: u16, size: u64) -> io::Result<()>
    ensures { OnOk result (Appends (W.contents out.old) (W.contents out.new)
        (codes " " ++ decimal kind ++ codes " " ++ decimal nlink ++ codes " " ++ decimal size ++ codes "\n")) }
{
    writeln!(out, " {kind} {nlink} {size}")
}

/// Writes the line of a call's fate (`failed`, `refused` or `stopped`), with the number and the name of the reason.
/// An error is the writer's.
pub fn write_numbered<W: Write>(
    out: &mut W,
    hart: u8,
    name: &str,
    fate: &str,
    number: u8,
    why: &str,
) -> io::Result<()>
    ensures { OnOk result (Appends (W.contents out.old) (W.contents out.new)
        (told_line hart name.now (numbered_text fate.now number why.now))) }
{
    writeln!(out, "{hart} {name} {fate} {number} {why}")
}

// The bytes that a read gave.
fn write_given<W: Write>(out: &mut W, call: &Call, count: u32) -> io::Result<()>
    ensures { OnOk result (Appends (W.contents out.old) (W.contents out.new) (given_text call.now count)) }
{
    match call {
        Call::Read { fd: _, buf } => {
            let bytes = buf.as_slice();
            write_bytes(out, &bytes[..bytes.len().min(count as usize)])
        }
        _ => Ok(()),
    }
}

/// A space and the bytes, if there are any.
pub(crate) fn write_bytes<W: Write>(out: &mut W, bytes: &[u8]) -> io::Result<()>
    ensures { OnOk result (Appends (W.contents out.old) (W.contents out.new) (bytes_text bytes.now)) }
{
    if bytes.is_empty() {
        return Ok(());
    }
    out.write_all(b" ")?;
    write_hex(out, bytes)
}

/// Each byte as two digits.
pub(crate) fn write_hex<W: Write>(out: &mut W, bytes: &[u8]) -> io::Result<()>
    ensures { OnOk result (Appends (W.contents out.old) (W.contents out.new) (hex bytes.now)) }
{
    for byte in bytes {
        out.write_all(&[hex_digit(byte / 16), hex_digit(byte % 16)])?;
    }
    Ok(())
}

fn hex_digit(n: u8) -> u8
    requires { n < 16 }
    ensures { result ≡ hex_digit n }
{
    if n < 10 { b'0' + n } else { b'a' - 10 + n }
}

/// Writes the line of a hart that waits. An error is the writer's.
pub fn write_waits<W: Write>(out: &mut W, hart: u8) -> io::Result<()>
    ensures { OnOk result (Appends (W.contents out.old) (W.contents out.new) (decimal hart ++ codes " waits\n")) }
{
    writeln!(out, "{hart} waits")
}

/// Writes the line of an image that was examined and is well formed. An error is the writer's.
pub fn write_shape<W: Write>(out: &mut W, shape: &Shape) -> io::Result<()>
    ensures { OnOk result (Appends (W.contents out.old) (W.contents out.new) (shape_line shape.now)) }
{
    let (live, orphans, blocks) = (shape.live, shape.orphans, shape.blocks);
    writeln!(out, "clean live {live} orphans {orphans} blocks {blocks}")
}
