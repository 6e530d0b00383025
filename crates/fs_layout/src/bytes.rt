//! Numbers in a block, lowest byte first.
ghost use Rattle.std.specs.Prelude.{◌≡◌, ◌+◌, ◌*◌, ◌≤◌, ◌<◌, ◌++◌, ◌^◌, length, replicate};
ghost use Rattle.fs_layout.specs.Vocabulary.{flat_map, AllByRecursion};
ghost use Rattle.fs_layout.specs.Bytes.{overwrite, u16_bytes, u32_bytes, i16_bytes, u16_at, i16_at, u32_at, u32s_at};

use crate::widths::NUMBER_LEN;
use byteorder::{ByteOrder, LittleEndian};

#[tactic(auto, unfolding(crate::specs::Bytes::u16_at))]
pub fn u16_in(bytes: &[u8], at: usize) -> u16
    requires { at + 2 ≤ length bytes.now }
    ensures { result ≡ u16_at bytes.now at }
{
    LittleEndian::read_u16(&bytes[at..])
}

#[tactic(auto, unfolding(crate::specs::Bytes::u16_at))]
pub fn i16_in(bytes: &[u8], at: usize) -> i16
    requires { at + 2 ≤ length bytes.now }
    ensures { result ≡ i16_at bytes.now at }
{
    LittleEndian::read_i16(&bytes[at..])
}

#[tactic(auto, unfolding(crate::specs::Bytes::u32_at))]
pub fn u32_in(bytes: &[u8], at: usize) -> u32
    requires { at + NUMBER_LEN ≤ length bytes.now }
    ensures { result ≡ u32_at bytes.now at }
{
    LittleEndian::read_u32(&bytes[at..])
}

pub fn put_u16(bytes: &mut [u8], at: usize, n: u16)
    requires { at + 2 ≤ length bytes.old }
    ensures { bytes.new ≡ overwrite bytes.old at (u16_bytes n) }
{
    LittleEndian::write_u16(&mut bytes[at..], n);
}

pub fn put_i16(bytes: &mut [u8], at: usize, n: i16)
    requires { at + 2 ≤ length bytes.old }
    ensures { bytes.new ≡ overwrite bytes.old at (i16_bytes n) }
{
    put_u16(bytes, at, n.cast_unsigned());
}

pub fn put_u32(bytes: &mut [u8], at: usize, n: u32)
    requires { at + NUMBER_LEN ≤ length bytes.old }
    ensures { bytes.new ≡ overwrite bytes.old at (u32_bytes n) }
{
    LittleEndian::write_u32(&mut bytes[at..], n);
}

/// Reads as many numbers as `to` has.
pub fn u32s_in(bytes: &[u8], at: usize, to: &mut [u32])
    requires { at + NUMBER_LEN * length to.old ≤ length bytes.now }
    ensures { to.new ≡ u32s_at (length to.old) bytes.now at }
{
    for i in 0..to.len() {
        to[i] = u32_in(bytes, at + NUMBER_LEN * i);
    }
}

/// Writes the numbers one after the other.
pub fn put_u32s(bytes: &mut [u8], at: usize, from: &[u32])
    requires { at + NUMBER_LEN * length from.now ≤ length bytes.old }
    ensures bytes { bytes.new ≡ overwrite bytes.old at (flat_map u32_bytes from.now) }
    ensures fits { AllByRecursion (λ n. n < 2 ^ 32) from.now }
{
    for i in 0..from.len() {
        put_u32(bytes, at + NUMBER_LEN * i, from[i]);
    }
}

/// Writes the bytes.
pub fn put_bytes(bytes: &mut [u8], at: usize, from: &[u8])
    requires { at + length from.now ≤ length bytes.old }
    ensures { bytes.new ≡ overwrite bytes.old at from.now }
{
    bytes[at..at + from.len()].copy_from_slice(from);
}

/// Writes n zeros.
pub fn put_zeros(bytes: &mut [u8], at: usize, n: usize)
    requires { at + n ≤ length bytes.old }
    ensures { bytes.new ≡ overwrite bytes.old at (replicate n 0) }
{
    bytes[at..at + n].fill(0);
}
