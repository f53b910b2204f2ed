//! Places of extents on a page.

ghost use Rattle.std.specs.Prelude.{◌≡◌, ◌<◌, ◌≤◌, ◌+◌, ◌*◌, ◌-◌, ◌^◌, ℕ, length, true, false, ◌&&◌, suc};
ghost use Rattle.jfs_bits.specs.Extent.{FitsXad};
ghost use Rattle.jfs_xtpage.specs.Page.{bytes_of, head_of, entries_of, entry_of, count_of, end_of, IsLaidOut, IsRising, rises_from};
ghost use Rattle.jfs_xtree.specs.Node.{xt_scale, fits_flag, fits_max, fits_count, IsPlace, GoesBetween};
ghost use Rattle.jfs_tree.specs.Edit.{found_in};

use jfs_bits::{Xad, get_u8, get_u16};
use jfs_xtpage::{XtForm, xt_entry, xt_find};

/// Whether the page has its form's flag, and its slots lie within its bytes.
pub(crate) fn is_laid_out(bytes: &[u8], form: XtForm) -> bool
    requires { length bytes.now ≡ bytes_of form }
    ensures is { result ≡ (fits_flag form (head_of bytes.now).flag && fits_max form (head_of bytes.now).maxentry && fits_count (head_of bytes.now)) }
    ensures laid { result ≡ true → IsLaidOut bytes.now }
{
    let most = get_u16(bytes, 20);
    let next = get_u16(bytes, 18);
    flag_fits(form, get_u8(bytes, 16)) && max_fits(form, most) && next >= 2 && next <= most
}

fn flag_fits(form: XtForm, flag: u8) -> bool
    ensures { result ≡ fits_flag form flag }
{
    match form {
        XtForm::Root => flag % 8 == 3 || flag % 8 == 5,
        XtForm::Full => flag % 8 == 2 || flag % 8 == 4,
        XtForm::Small => flag % 8 == 3 || flag % 8 == 5,
    }
}

fn max_fits(form: XtForm, most: u16) -> bool
    ensures is { result ≡ fits_max form most }
    ensures within { result ≡ true → 16 * most ≤ bytes_of form }
{
    match form {
        XtForm::Root => most == 10 || most == 18,
        XtForm::Full => most == 256,
        XtForm::Small => most == 6,
    }
}

/// The place of the first entry past the offset.
pub(crate) fn place_of(bytes: &[u8], offset: u64) -> u16
    requires page { IsLaidOut bytes.now }
    ensures most { result ≤ count_of bytes.now }
    ensures place { IsRising bytes.now (count_of bytes.now) → IsPlace bytes.now offset result }
{
    let _next = get_u16(bytes, 18);
    match xt_find(bytes, offset) {
        Some(i) => i + 1,
        None => 0,
    }
}

/// Whether an extent goes between its neighbours at a place.
pub(crate) fn goes_between(bytes: &[u8], place: u16, x: &Xad) -> bool
    requires page { IsLaidOut bytes.now }
    requires place { place ≤ count_of bytes.now }
    requires fits { FitsXad x.now }
    ensures goes { result ≡ true → GoesBetween bytes.now place x.now }
    ensures clashes { result ≡ false → GoesBetween bytes.now place x.now → ⊥ }
{
    let next = get_u16(bytes, 18);
    let offset = x.offset;
    if place > 0 && end_of(&xt_entry(bytes, place - 1)) > offset {
        return false;
    }
    place + 2 == next || end_of(x) <= xt_entry(bytes, place).offset
}

/// The first block of the file behind an extent.
pub(crate) fn end_of(x: &Xad) -> u64
    requires { FitsXad x.now }
    ensures { result ≡ end_of x.now }
{
    let offset = x.offset;
    let len = x.at.len;
    offset + u64::from(if len == 0 { 1 } else { len })
}

/// The entry that shares a block with an extent, where its place is this: the one before the place, or the one at it.
pub(crate) fn find_at(bytes: &[u8], place: u16, x: &Xad) -> Option<Xad>
    requires page { IsLaidOut bytes.now }
    requires place { place ≤ count_of bytes.now }
    ensures { rises_from 0 (entries_of bytes.now) ≡ true → IsPlace bytes.now x.now.offset place → result ≡ found_in xt_scale x.now (entries_of bytes.now) }
{
    let next = get_u16(bytes, 18);
    let offset = x.offset;
    if place > 0 {
        let before = xt_entry(bytes, place - 1);
        if end_of(&before) > offset {
            return Some(before);
        }
    }
    if place + 2 < next {
        let behind = xt_entry(bytes, place);
        if behind.offset.saturating_sub(offset) < length_of(x) {
            return Some(behind);
        }
    }
    None
}

/// The blocks of its file that an extent takes.
pub(crate) fn length_of(x: &Xad) -> u64
    ensures { x.now.offset + result ≡ end_of x.now }
{
    let len = x.at.len;
    u64::from(if len == 0 { 1 } else { len })
}
