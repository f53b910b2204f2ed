//! Names made for tests.

ghost use Rattle.std.specs.Prelude.{◌≡◌, ◌<◌, ◌≤◌, IfOk, length};

use jfs_name::Name;
use std::alloc::{AllocError, Global};

/// How a number is spelled.
pub enum Kind {
    /// 238 units `n`, and the last three digits.
    Long,
    /// 237 units `n`, and the last three digits.
    Other,
    /// `n`, the last three digits, and nine units `n`.
    Small,
    /// The small name of the double.
    Even,
    /// The small name of the double, and three units `n`.
    Longer,
    /// `n`, the last three digits, and 237 units `n`.
    Behind,
    /// `f`, and the last digit.
    Digit,
    /// `o` alone.
    Alone,
    /// One of 510 names: units `n` and a last one; two of each length, one with its last unit before `n` and one with `n` or a later one.
    Mixed,
}

/// The name of a number.
pub fn name_of(alloc: Global, kind: &Kind, number: u32) -> Result<Name, AllocError>
    ensures { IfOk result (λ name. length name ≤ 255) }
{
    match kind {
        Kind::Long => numbered(alloc, 238, number, 0),
        Kind::Other => numbered(alloc, 237, number, 0),
        Kind::Small => numbered(alloc, 1, number, 9),
        Kind::Even => numbered(alloc, 1, number.saturating_mul(2), 9),
        Kind::Longer => numbered(alloc, 1, number.saturating_mul(2), 12),
        Kind::Behind => numbered(alloc, 1, number, 237),
        Kind::Digit => spelled(alloc, &[0x66, digit(number, 1)]),
        Kind::Alone => spelled(alloc, &[0x6f]),
        Kind::Mixed => mixed(alloc, number),
    }
}

/// A name of these units.
fn spelled(alloc: Global, units: &[u16]) -> Result<Name, AllocError>
    ensures { IfOk result (λ name. length name ≡ length units.now) }
{
    let mut name = Name::new(alloc);
    name.extend_from_slice(units)?;
    Ok(name)
}

/// A name of the first `count` of these units.
fn first_of(alloc: Global, units: &[u16; 255], count: u8) -> Result<Name, AllocError>
    ensures { IfOk result (λ name. length name ≤ 255) }
{
    spelled(alloc, &units[..usize::from(count)])
}

/// The digit at a place, 1 for the last one, 10 for the one before it.
fn digit(number: u32, place: u32) -> u16
    requires { 0 < place }
{
    48 + (number / place % 10) as u16
}

/// So many units `n`, three digits, and so many units `n` behind them.
fn numbered(alloc: Global, front: u8, number: u32, behind: u8) -> Result<Name, AllocError>
    ensures { IfOk result (λ name. length name ≤ 255) }
{
    let mut units = [0x6e; 255];
    let front = front.min(252);
    let at = usize::from(front);
    units[at] = digit(number, 100);
    units[at + 1] = digit(number, 10);
    units[at + 2] = digit(number, 1);
    first_of(alloc, &units, (front + 3).saturating_add(behind))
}

fn mixed(alloc: Global, k: u32) -> Result<Name, AllocError>
    ensures { IfOk result (λ name. length name ≤ 255) }
{
    let mut units = [0x6e; 255];
    let at = (k % 255 * 37 % 255) as u8;
    units[usize::from(at)] = if k < 255 {
        0x61 + (k % 13) as u16
    } else {
        0x6e + (k % 12) as u16
    };
    first_of(alloc, &units, at + 1)
}
