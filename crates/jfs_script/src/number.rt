//! Numbers of a script.

ghost use Rattle.std.specs.Prelude.{◌≡◌, ◌+◌, ◌-◌, ◌*◌, ◌^◌, ◌<◌, ◌≤◌, IfOk};
ghost use Rattle.std.specs.Option.{SomeIff};
ghost use Rattle.jfs_script.specs.Number.{numeral, number_of, count_of, mode_of, hex_of, byte_of};
ghost use Rattle.jfs_script.specs.Words.{Gives};

use crate::error::LineError;
use hex::FromHexError;
use jfs_bits::{Blob, Rule};
use std::alloc::Global;

/// The greatest number of digits of a number.
const MOST_DIGITS: usize = 20;

/// The greatest number of hexadecimal digits of the bytes to be written.
const MOST_HEX: usize = 8192;

/// A number of 1 to 20 digits.
pub fn number_of(word: &[u8]) -> Result<u64, Rule>
    ensures { result ≡ number_of word.now }
{
    if word.is_empty() || word.len() > MOST_DIGITS {
        return Err(Rule::Number);
    }
    match numeral(10, word) {
        Some(number) => Ok(number),
        None => Err(Rule::Number),
    }
}

/// A number of bytes from `offset` on, from 1 to `most`, of which none lies at or past 2 to the power of 64.
pub fn count_of(most: u32, offset: u64, word: &[u8]) -> Result<u32, Rule>
    ensures { result ≡ count_of most offset word.now }
{
    if word.is_empty() || word.len() > MOST_DIGITS {
        return Err(Rule::Number);
    }
    match numeral(10, word) {
        Some(number) if 1 <= number && number <= u64::from(most) && number <= u64::MAX - offset => {
            Ok(number as u32)
        }
        _ => Err(Rule::Number),
    }
}

/// A mode of 3 or 4 octal digits.
pub fn mode_of(word: &[u8]) -> Result<u32, Rule>
    ensures { result ≡ mode_of word.now }
{
    if word.len() != 3 && word.len() != 4 {
        return Err(Rule::Mode);
    }
    match numeral(8, word) {
        Some(mode) if mode < 4096 => Ok(mode as u32),
        _ => Err(Rule::Mode),
    }
}

/// The bytes of 2 to 8,192 hexadecimal digits.
pub fn hex_of(alloc: Global, word: &[u8]) -> Result<Blob, LineError>
    ensures { Gives result (λ bytes. bytes ≡ hex_of word.now) }
{
    if word.len() < 2 || word.len() > MOST_HEX {
        return Err(LineError::Broken(Rule::Hex));
    }
    match hex::decode(alloc, word) {
        Ok(bytes) => Ok(Blob::from(bytes)),
        Err(FromHexError::OutOfMemory) => Err(LineError::Memory),
        Err(_) => Err(LineError::Broken(Rule::Hex)),
    }
}

/// The byte of two hexadecimal digits.
pub fn byte_of(word: &[u8]) -> Result<u8, Rule>
    ensures { result ≡ byte_of word.now }
{
    let mut byte = [0; 1];
    match hex::decode_to_slice(word, &mut byte) {
        Ok(()) => Ok(byte[0]),
        Err(_) => Err(Rule::Byte),
    }
}

/// The number of 64 bits that digits spell.
fn numeral(base: u8, word: &[u8]) -> Option<u64>
    requires { (1 ≤ base) × (base ≤ 10) }
    ensures { result ≡ numeral base word.now }
{
    let mut value = 0;
    for byte in word {
        if *byte < b'0' || *byte >= b'0' + base {
            return None;
        }
        match with_digit(base, value, *byte - b'0') {
            Some(longer) => value = longer,
            None => return None,
        }
    }
    Some(value)
}

/// The number with a further digit, if 64 bits have room for it.
fn with_digit(base: u8, value: u64, digit: u8) -> Option<u64>
    ensures { SomeIff result (value * base + digit < 2 ^ 64) (value * base + digit) }
{
    value
        .checked_mul(u64::from(base))?
        .checked_add(u64::from(digit))
}
