//! Names written as text.

ghost use Rattle.std.specs.Prelude.{◌≡◌, ◌<◌, ◌+◌, ◌++◌, ◌∷◌, [], List, ℕ, length, OnOk, OnErr};
ghost use Rattle.jfs_name.specs.Name.{IsName};
ghost use Rattle.jfs_name.specs.Text.{IsPath};
ghost use Rattle.jfs_name.specs.Spelled.{digit_byte, escape, plain_byte, spelled};

use crate::unit::is_plain;
use std::alloc::AllocError;

/// Writes a name: each unit as the plain byte where there is one, else as `%u` and four hexadecimal digits in upper case. At `Err` nothing was written.
pub fn write_name(units: &[u16], into: &mut Vec<u8>) -> Result<(), AllocError>
    ensures ok { OnOk result (into.new.items ≡ into.old.items ++ spelled units.now) }
    ensures err { OnErr result (into.new.items ≡ into.old.items) }
    ensures read_back { IsName units.now → IsPath (47 ∷ spelled units.now) (units.now ∷ []) }
{
    let start = into.len();
    let written = write_units(units, into);
    if written.is_err() {
        into.truncate(start);
    }
    written
}

fn write_units(units: &[u16], into: &mut Vec<u8>) -> Result<(), AllocError>
    ensures ok { OnOk result (into.new.items ≡ into.old.items ++ spelled units.now) }
    ensures err { OnErr result ((some : List ℕ) × (into.new.items ≡ into.old.items ++ some)) }
{
    for unit in units {
        match plain_byte(*unit) {
            Some(byte) => into.push(byte)?,
            None => into.extend_from_slice(&escape(*unit))?,
        }
    }
    Ok(())
}

/// The byte that stands for a unit, where there is one.
fn plain_byte(unit: u16) -> Option<u8>
    ensures { result ≡ plain_byte unit }
{
    if unit < 128 && is_plain(unit as u8) {
        Some(unit as u8)
    } else {
        None
    }
}

/// A unit as `%u` and four digits.
fn escape(unit: u16) -> [u8; 6]
    ensures { result ≡ escape unit }
{
    [
        b'%',
        b'u',
        digit_byte(unit / 4096),
        digit_byte(unit / 256 % 16),
        digit_byte(unit / 16 % 16),
        digit_byte(unit % 16),
    ]
}

fn digit_byte(digit: u16) -> u8
    requires { digit < 16 }
    ensures { result ≡ digit_byte digit }
{
    if digit < 10 {
        b'0' + digit as u8
    } else {
        b'A' + (digit - 10) as u8
    }
}
