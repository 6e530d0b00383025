//! How a path is printed.
ghost use Rattle.std.specs.Prelude.{◌≡◌, ◌<◌, OnOk};
ghost use Rattle.image_reports.specs.Vocabulary.{Appends};
ghost use Rattle.image_reports.specs.Shown.{are_printed, hex, hex_digit, is_printed, shown};

use std::io;
use std::io::Write;

/// Writes a path as scripts do: as it is if each of its bytes is printed, else in digits. The root's is "/".
pub fn write_shown<W: Write>(out: &mut W, path: &[u8]) -> io::Result<()>
    ensures { OnOk result (Appends (W.contents out.old) (W.contents out.new) (shown path.now)) }
{
    if path.is_empty() {
        return out.write_all(b"/");
    }
    if are_printed(path) {
        return out.write_all(path);
    }
    out.write_all(b"hex:")?;
    write_hex(out, path)
}

// A byte from '!' to '~'.
fn is_printed(byte: u8) -> bool
    ensures { result ≡ is_printed byte }
{
    byte > 32 && byte < 127
}

fn are_printed(bytes: &[u8]) -> bool
    ensures { result ≡ are_printed bytes.now }
{
    bytes.iter().all(|byte| is_printed(*byte))
}

fn hex_digit(n: u8) -> u8
    requires { n < 16 }
    ensures { result ≡ hex_digit n }
{
    if n < 10 { b'0' + n } else { b'a' - 10 + n }
}

// Each byte as two digits.
fn write_hex<W: Write>(out: &mut W, bytes: &[u8]) -> io::Result<()>
    ensures { OnOk result (Appends (W.contents out.old) (W.contents out.new) (hex bytes.now)) }
{
    for byte in bytes {
        out.write_all(&[hex_digit(byte / 16), hex_digit(byte % 16)])?;
    }
    Ok(())
}
