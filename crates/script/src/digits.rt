//! Numbers in digits.
ghost use Rattle.std.specs.Prelude.{◌≡◌};
ghost use Rattle.script.specs.Words.{digit_in, with_digit, digits_in, number_in, hart_in};
ghost use Rattle.script.specs.Gives.{Gives};

use crate::fault::LineFault;
use crate::reason::Reason;

/// What begins a number in hexadecimal.
const HEXADECIMAL: &[u8] = b"0x";

// The number that a word says, in decimal digits, or in hexadecimal ones after "0x".
fn number(word: &[u8]) -> Option<u32>
    ensures { result ≡ number_in word.now }
{
    match word.strip_prefix(HEXADECIMAL) {
        Some(digits) => digits_value(digits, 16),
        None => digits_value(word, 10),
    }
}

/// The hart that a word says.
pub fn hart(word: &[u8]) -> Option<u8>
    ensures { result ≡ hart_in word.now }
{
    u8::try_from(number(word)?).ok()
}

/// The number that a word says; `name` is what the grammar calls the word.
pub fn number_of(word: &[u8], name: &'static str) -> Result<u32, LineFault>
    ensures { Gives (λ n. n) result (number_in word.now) }
{
    number(word).ok_or(LineFault::Bad(Reason::NumberWanted(name)))
}

/// The hart that a word says; `name` is what the grammar calls the word.
pub fn hart_of(word: &[u8], name: &'static str) -> Result<u8, LineFault>
    ensures { Gives (λ h. h) result (hart_in word.now) }
{
    hart(word).ok_or(LineFault::Bad(Reason::HartWanted(name)))
}

// The number of at least one digit.
#[tactic(auto, using(crate::proofs::Numbers::one_more, crate::proofs::Numbers::no_more, crate::proofs::Numbers::some_digits))]
fn digits_value(digits: &[u8], radix: u32) -> Option<u32>
    ensures { result ≡ digits_in radix digits.now }
{
    if digits.is_empty() {
        return None;
    }
    let mut value = 0;
    for byte in digits {
        value = with_digit(radix, value, *byte)?;
    }
    Some(value)
}

// The number with one more digit, if it fits.
fn with_digit(radix: u32, value: u32, byte: u8) -> Option<u32>
    ensures { result ≡ with_digit radix value byte }
{
    value
        .checked_mul(radix)?
        .checked_add(digit_value(byte, radix)?)
}

/// The value of a digit, of either case.
pub fn digit_value(byte: u8, radix: u32) -> Option<u32>
    ensures { result ≡ digit_in radix byte }
{
    let digit = match byte {
        b'0'..=b'9' => u32::from(byte - b'0'),
        b'a'..=b'f' => u32::from(byte - b'a') + 10,
        b'A'..=b'F' => u32::from(byte - b'A') + 10,
        _ => return None,
    };
    if digit < radix { Some(digit) } else { None }
}
