//! The entries of a page that breaks no rule.

ghost use Rattle.std.specs.Prelude.{◌≡◌, ◌<◌, ◌≤◌, ◌+◌, ◌*◌, ℕ, true, false, length, take, get_or, slice_get, Some};
ghost use Rattle.jfs_bits.specs.Descriptor.{FitsPxd};
ghost use Rattle.jfs_dtpage.specs.Form.{bytes_of, count_of, free_of, first_free, is_leaf, table_at};
ghost use Rattle.jfs_dtpage.specs.Order.{name_at};
ghost use Rattle.jfs_dtpage.specs.Page.{Entry, Named, Below, table_of, names_of, entries_of, SlotsFit, ChainsFit, IsDtPage};

use crate::head::DtForm;
use crate::read::{read_name, start_of};
use jfs_bits::{Pxd, get_pxd, get_u8, get_u32};

/// The inode of a leaf's entry.
pub fn dt_inode(bytes: &[u8], form: DtForm, place: u32) -> u32
    requires size { length bytes.now ≡ bytes_of form }
    requires page { IsDtPage form bytes.now }
    requires leaf { is_leaf bytes.now ≡ true }
    requires place { place < count_of bytes.now }
    ensures { slice_get (entries_of form bytes.now) place ≡ Some (Named result (name_at (names_of form bytes.now) place)) }
{
    get_u32(bytes, start_of(slot_at(bytes, form, place as u8)))
}

/// The child of an inner page's entry.
pub fn dt_child(bytes: &[u8], form: DtForm, place: u32) -> Pxd
    requires size { length bytes.now ≡ bytes_of form }
    requires page { IsDtPage form bytes.now }
    requires inner { is_leaf bytes.now ≡ false }
    requires place { place < count_of bytes.now }
    ensures value { slice_get (entries_of form bytes.now) place ≡ Some (Below result (name_at (names_of form bytes.now) place)) }
    ensures fits { FitsPxd result }
{
    get_pxd(bytes, start_of(slot_at(bytes, form, place as u8)))
}

/// Copies an entry's name; its number of units.
pub fn dt_name(bytes: &[u8], form: DtForm, place: u32, into: &mut [u16]) -> u32
    requires size { length bytes.now ≡ bytes_of form }
    requires page { IsDtPage form bytes.now }
    requires place { place < count_of bytes.now }
    requires room { 255 ≤ length into.old }
    ensures name { take result into.new ≡ name_at (names_of form bytes.now) place }
    ensures most { result ≤ 255 }
{
    read_slot(bytes, form, place as u8, into) as u32
}

/// The same where the page's chains fit.
pub fn read_slot(bytes: &[u8], form: DtForm, place: u8, into: &mut [u16]) -> usize
    requires size { length bytes.now ≡ bytes_of form }
    requires slots { SlotsFit form bytes.now }
    requires chains { ChainsFit form bytes.now }
    requires place { place < count_of bytes.now }
    requires room { 255 ≤ length into.old }
    ensures name { take result into.new ≡ name_at (names_of form bytes.now) place }
    ensures most { result ≤ 255 }
{
    read_name(bytes, is_leaf(bytes), slot_at(bytes, form, place), into)
}

/// The first slot of an entry.
pub fn slot_at(bytes: &[u8], form: DtForm, place: u8) -> u8
    requires size { length bytes.now ≡ bytes_of form }
    requires slots { SlotsFit form bytes.now }
    requires place { place < count_of bytes.now }
    ensures { result ≡ get_or (table_of form bytes.now) place 0 }
{
    get_u8(bytes, table_at(bytes, form) + usize::from(place))
}

/// Where the sorted table begins.
pub fn table_at(bytes: &[u8], form: DtForm) -> usize
    requires { length bytes.now ≡ bytes_of form }
    ensures value { result ≡ table_at form bytes.now }
    ensures most { result < 8192 }
{
    match form {
        DtForm::Root => 24,
        DtForm::Full => 32 * usize::from(get_u8(bytes, 21)),
    }
}

/// Whether the page is a leaf.
pub fn is_leaf(bytes: &[u8]) -> bool
    requires { 32 ≤ length bytes.now }
    ensures { result ≡ is_leaf bytes.now }
{
    get_u8(bytes, 16) / 2 % 2 == 1
}

/// The number of entries.
pub fn count_of(bytes: &[u8]) -> u8
    requires { 32 ≤ length bytes.now }
    ensures { result ≡ count_of bytes.now }
{
    get_u8(bytes, 17)
}

/// The number of free slots.
pub fn free_of(bytes: &[u8]) -> u8
    requires { 32 ≤ length bytes.now }
    ensures { result ≡ free_of bytes.now }
{
    get_u8(bytes, 18)
}

/// The first free slot.
pub fn first_free(bytes: &[u8]) -> u8
    requires { 32 ≤ length bytes.now }
    ensures { result ≡ first_free bytes.now }
{
    get_u8(bytes, 19)
}
