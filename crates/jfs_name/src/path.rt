//! Paths read from text.

ghost use Rattle.std.specs.Prelude.{◌≡◌, true, false, ◌<◌, ◌≤◌, ◌+◌, ℕ, Some, None, List, Result, IfOk, IfErr, length, slice_get, All};
ghost use Rattle.jfs_name.specs.Name.{IsName, IsNoDot};
ghost use Rattle.jfs_name.specs.Text.{IsBegun};
ghost use Rattle.jfs_name.specs.Answer.{IsAnswer, IsFrontAnswer, IsNameAnswer};

use crate::error::PathError;
use crate::name::{Name, Path};
use crate::unit::read_unit;
use std::alloc::Global;

/// The greatest number of bytes of a path.
const LONGEST: usize = 4095;

/// The greatest number of units of a name.
const MOST_UNITS: usize = 255;

/// The path that a text spells: a slash before each name, or a slash alone.
pub fn read_path(alloc: Global, text: &[u8]) -> Result<Path, PathError>
    ensures { IsAnswer text.now result }
{
    if text.len() <= LONGEST {
        return read_front(alloc, text);
    }
    match read_front(alloc, &text[..LONGEST]) {
        Ok(_) => Err(PathError::BadPath { place: LONGEST }),
        Err(error) => Err(error),
    }
}

/// The path that a text spells that isn't too long.
fn read_front(alloc: Global, text: &[u8]) -> Result<Path, PathError>
    requires { length text.now ≤ 4095 }
    ensures { IsFrontAnswer text.now result }
{
    if text.is_empty() || text[0] != b'/' {
        return Err(PathError::BadPath { place: 0 });
    }
    let mut path = Path::new(alloc);
    if text.len() == 1 {
        return Ok(path);
    }
    let mut at = 0;
    while at < text.len() {
        let (name, end) = read_name(alloc, text, at + 1)?;
        path.push(name)?;
        at = end;
    }
    Ok(path)
}

/// The name from a place on, and the place where it ends.
fn read_name(alloc: Global, text: &[u8], first: usize) -> Result<(Name, usize), PathError>
    requires size { length text.now ≤ 4095 }
    requires within { first ≤ length text.now }
    requires begun { IsBegun text.now first }
    ensures { IsNameAnswer text.now first result }
{
    let mut units = Name::new(alloc);
    let mut at = first;
    while at < text.len() && text[at] != b'/' {
        let (unit, end) = match read_unit(text, at) {
            Ok(read) => read,
            Err(place) => return Err(PathError::BadPath { place }),
        };
        if units.len() == MOST_UNITS {
            return Err(PathError::NameTooLong { place: at });
        }
        units.push(unit)?;
        at = end;
    }
    if units.is_empty() || is_dots(units.as_slice()) {
        return Err(PathError::BadPath { place: at });
    }
    Ok((units, at))
}

/// Whether these units are `.` or `..`.
fn is_dots(units: &[u16]) -> bool
    ensures dots { result ≡ true → ¬ (IsNoDot units.now) }
    ensures other { result ≡ false → IsNoDot units.now }
{
    units == [46].as_slice() || units == [46, 46].as_slice()
}
