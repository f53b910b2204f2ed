//! Targets of symbolic links.

ghost use Rattle.std.specs.Prelude.{◌≡◌, ◌<◌, ◌∷◌, ℕ, IfOk, IfSome, MatchOption};
ghost use Rattle.hex.specs.Hex.{hex_digit_value};
ghost use Rattle.jfs_script.specs.Target.{Spells, TargetIs, IsBadEscape, escaped_byte};
ghost use Rattle.jfs_script.specs.Words.{Gives};

use crate::error::LineError;
use jfs_bits::{Blob, Rule};
use std::alloc::{AllocError, Global};

/// The greatest number of bytes of a target.
const LONGEST: usize = 255;

/// The target that a word spells.
pub fn target_of(alloc: Global, word: &[u8]) -> Result<Blob, LineError>
    ensures { Gives result (TargetIs word.now) }
{
    match spelled_bytes(alloc, word)? {
        Some(bytes) if !bytes.is_empty() && bytes.len() <= LONGEST => Ok(bytes),
        _ => Err(LineError::Broken(Rule::Target)),
    }
}

/// The bytes that a text spells.
fn spelled_bytes(alloc: Global, text: &[u8]) -> Result<Option<Blob>, AllocError>
    ensures { IfOk result (λ bytes. Spells text.now bytes) }
{
    let mut bytes = Blob::new(alloc);
    let mut rest = text;
    while let Some((first, after)) = rest.split_first() {
        if *first != b'%' {
            bytes.push(*first)?;
            rest = after;
            continue;
        }
        match read_escape(after) {
            Some((byte, behind)) => {
                bytes.push(byte)?;
                rest = behind;
            }
            None => return Ok(None),
        }
    }
    Ok(Some(bytes))
}

/// The byte of two digits, if it isn't 0, and what stands behind them.
fn read_escape(text: &[u8]) -> Option<(u8, &[u8])>
    ensures { MatchOption result (IsBadEscape text.now) (λ read. (high : ℕ) × (low : ℕ) × (text.now ≡ high ∷ low ∷ read.1.now) × (escaped_byte (hex_digit_value high) (hex_digit_value low) ≡ Some read.0)) }
{
    let [high, low, rest @ ..] = text else {
        return None;
    };
    let byte = digit_of(*high)? * 16 + digit_of(*low)?;
    if byte == 0 { None } else { Some((byte, rest)) }
}

/// The value of a hexadecimal digit, of either case.
fn digit_of(byte: u8) -> Option<u8>
    ensures value { result ≡ hex_digit_value byte }
    ensures small { IfSome result (λ digit. digit < 16) }
{
    match byte {
        b'0'..=b'9' => Some(byte - b'0'),
        b'A'..=b'F' => Some(byte - b'A' + 10),
        b'a'..=b'f' => Some(byte - b'a' + 10),
        _ => None,
    }
}
