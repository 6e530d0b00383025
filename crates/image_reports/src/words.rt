//! Paths as the command line has them.
ghost use Rattle.std.specs.Prelude.{◌≡◌, ◌<◌, drop, IfOk};
ghost use Rattle.image_reports.specs.Vocabulary.{option_map};
ghost use Rattle.image_reports.specs.Words.{ReadsShown, digit_of, pair_of, pairs_in, says};

use crate::rows::push;
use std::alloc::{AllocError, Global};

/// What begins a path in hexadecimal digits.
const HEX_MARK: &[u8] = b"hex:";

fn digit_of(digit: u8) -> Option<u8>
    ensures { result ≡ digit_of digit }
{
    match digit {
        b'0'..=b'9' => Some(digit - b'0'),
        b'a'..=b'f' => Some(digit - b'a' + 10),
        b'A'..=b'F' => Some(digit - b'A' + 10),
        _ => None,
    }
}

fn pair_of(high: u8, low: u8) -> Option<u8>
    ensures { result ≡ pair_of high low }
{
    match (digit_of(high), digit_of(low)) {
        (Some(high), Some(low)) => Some(high * 16 + low),
        _ => None,
    }
}

// The digits after the first two.
fn after_pair(digits: &[u8]) -> &[u8]
    ensures { result.now ≡ drop 2 digits.now }
{
    if digits.len() > 2 { &digits[2..] } else { &[] }
}

// The bytes of these pairs of digits.
fn pairs_in(alloc: Global, digits: &[u8]) -> Result<Option<Vec<u8>>, AllocError>
    ensures { IfOk result (λ o. option_map (λ v. v.items) o ≡ pairs_in digits.now) }
{
    let mut bytes = Vec::new(alloc);
    let mut rest = digits;
    while rest.len() >= 2 {
        let Some(byte) = pair_of(rest[0], rest[1]) else {
            return Ok(None);
        };
        push(&mut bytes, byte)?;
        rest = after_pair(rest);
    }
    if rest.is_empty() {
        Ok(Some(bytes))
    } else {
        Ok(None)
    }
}

/// The path that a word says: the bytes of its pairs of digits after "hex:", else its own. `None` if the digits are no
/// pairs.
pub fn path_in(alloc: Global, word: &[u8]) -> Result<Option<Vec<u8>>, AllocError>
    ensures { IfOk result (λ o. option_map (λ v. v.items) o ≡ says word.now) }
{
    match word.strip_prefix(HEX_MARK) {
        Some(digits) => pairs_in(alloc, digits),
        None => Ok(Some(Vec::from_slice(alloc, word)?)),
    }
}

/// What a listing prints of a path says that path. The function does nothing: it carries the law.
pub fn shown_paths_are_read()
    ensures { ReadsShown }
{}
