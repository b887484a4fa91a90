// Base 32, and the fold of a digest to the 20 bytes that a store path writes.
ghost use Rattle.std.specs.Prelude.{◌≡◌, ◌+◌, ◌<◌, slice_index};
ghost use Rattle.store_path.specs.Base32.{bit, five, character, base32, fold};
ghost use Rattle.store_path.specs.Names.{digits_32};

use crate::names::DIGITS;
use std::array;

fn bit_at(bytes: &[u8; 20], b: usize) -> u8
    requires { b < 160 }
    ensures { result ≡ bit bytes.now b }
{
    bytes[b / 8] >> (b % 8) & 1
}

// The number in the five bits from `b` on, the lowest first.
fn five_at(bytes: &[u8; 20], b: usize) -> u8
    requires { b + 4 < 160 }
    ensures { result ≡ five bytes.now b }
{
    (0..5).fold(0, |n, i| n | bit_at(bytes, b + i) << i)
}

fn digit(n: u8) -> u8
    requires { n < 32 }
    ensures { result ≡ slice_index digits_32 n }
{
    DIGITS[n as usize]
}

// The digit at place `p` from the left.
fn character(bytes: &[u8; 20], p: usize) -> u8
    requires { p < 32 }
    ensures { result ≡ character bytes.now p }
{
    digit(five_at(bytes, 5 * (31 - p)))
}

// Each five bits as a digit, the lowest at the right end.
pub fn base32(bytes: &[u8; 20]) -> [u8; 32]
    ensures { result ≡ base32 bytes.now }
{
    array::from_fn(|p| character(bytes, p))
}

// Byte i of the answer is the xor of all bytes whose index is i modulo 20.
pub fn fold(bytes: &[u8; 32]) -> [u8; 20]
    ensures { result ≡ fold bytes.now }
{
    let mut out = [0u8; 20];
    for (k, b) in bytes.iter().enumerate() {
        out[k % 20] ^= *b;
    }
    out
}
