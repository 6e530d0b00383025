//! Bytes as words say them.
ghost use Rattle.std.specs.Prelude.{◌≡◌};
ghost use Rattle.script.specs.Words.{byte_of, bytes_in, pairs_in, pair_of};
ghost use Rattle.script.specs.Gives.{Gives};

use crate::digits::digit_value;
use crate::fault::LineFault;
use crate::reason::Reason;
use std::alloc::{AllocError, Global};

/// What begins a word of bytes in hexadecimal.
const HEX_MARK: &[u8] = b"hex:";

/// The word of no bytes.
const NO_BYTES: &[u8] = b"\"\"";

const HEXADECIMAL: u32 = 16;

const DIGITS_OF_BYTE: usize = 2;

/// The bytes that a word says: none for two quotation marks, those in hexadecimal after "hex:", else its own. `name` is what the
/// grammar calls the word.
pub fn bytes(alloc: Global, word: &[u8], name: &'static str) -> Result<Vec<u8>, LineFault>
    ensures { Gives (λ v. v.items) result (bytes_in word.now) }
{
    if word.is_empty() {
        return Err(LineFault::Bad(Reason::EmptyWord));
    }
    if word == NO_BYTES {
        return Ok(Vec::new(alloc));
    }
    match word.strip_prefix(HEX_MARK) {
        Some(digits) => hex_bytes(alloc, digits, name),
        None => Ok(Vec::from_slice(alloc, word)?),
    }
}

// The bytes of these pairs of digits.
#[tactic(auto, using(crate::proofs::Pairs::one_pair, crate::proofs::Pairs::no_pair, crate::proofs::Pairs::push_front))]
fn hex_bytes(alloc: Global, digits: &[u8], name: &'static str) -> Result<Vec<u8>, LineFault>
    ensures { Gives (λ v. v.items) result (pairs_in digits.now) }
{
    let mut bytes = Vec::new(alloc);
    for pair in digits.chunks(DIGITS_OF_BYTE) {
        let Some(byte) = byte_of(pair) else {
            return Err(LineFault::Bad(Reason::PairsWanted(name)));
        };
        bytes.push(byte).map_err(AllocError::from)?;
    }
    Ok(bytes)
}

fn byte_of(pair: &[u8]) -> Option<u8>
    ensures { result ≡ byte_of pair.now }
{
    match pair {
        [high, low] => pair_value(*high, *low),
        _ => None,
    }
}

fn pair_value(high: u8, low: u8) -> Option<u8>
    ensures { result ≡ pair_of high low }
{
    let value = digit_value(high, HEXADECIMAL)? * HEXADECIMAL + digit_value(low, HEXADECIMAL)?;
    u8::try_from(value).ok()
}
