//! A name looked up in a page.

ghost use Rattle.std.specs.Prelude.{◌≡◌, ◌<◌, ◌≤◌, ◌+◌, ◌-◌, ◌/◌, ℕ, length};
ghost use Rattle.jfs_dtpage.specs.Form.{bytes_of};
ghost use Rattle.jfs_dtpage.specs.Order.{IsFound};
ghost use Rattle.jfs_dtpage.specs.Page.{names_of, IsDtPage};

use crate::entry::{count_of, dt_name};
use crate::head::DtForm;
use std::cmp::Ordering;

/// The place of a name, by binary search, or else the place where it would go.
pub fn dt_find(bytes: &[u8], form: DtForm, name: &[u16]) -> Result<u32, u32>
    requires size { length bytes.now ≡ bytes_of form }
    requires page { IsDtPage form bytes.now }
    ensures { IsFound (names_of form bytes.now) name.now result }
{
    let mut buffer = [0u16; 255];
    let mut low = 0;
    let mut high = u32::from(count_of(bytes));
    while low < high {
        let middle = low + (high - low) / 2;
        let units = dt_name(bytes, form, middle, &mut buffer) as usize;
        let found = &buffer[..units];
        match found.cmp(&name) {
            Ordering::Less => low = middle + 1,
            Ordering::Equal => return Ok(middle),
            Ordering::Greater => high = middle,
        }
    }
    Err(low)
}
