//! Changes of a page, in place.

ghost use Rattle.std.specs.Prelude.{◌≡◌, ◌<◌, ◌≤◌, ◌+◌, ◌-◌, ◌*◌, ◌/◌, ◌%◌, ◌^◌, ◌++◌, ◌∷◌, [], ℕ, length, take, drop, OnOk, OnErr};
ghost use Rattle.jfs_bits.specs.Extent.{FitsXad};
ghost use Rattle.jfs_bits.specs.Descriptor.{FitsPxd};
ghost use Rattle.jfs_bits.specs.Field.{field_of, put_bytes};
ghost use Rattle.jfs_xtpage.specs.Page.{bytes_of, head_of, count_of, entries_of, new_head, new_flag, slots_of, kind_flag, behind_slots, IsLaidOut};

use crate::head::XtForm;
use jfs_bits::{Pxd, Xad, get_u8, get_u16, put_pxd, put_u8, put_u16, put_u64, put_xad};

/// A page has its greatest count of entries.
#[derive(Clone, Copy, PartialEq, Eq, Debug)]
pub struct Full;

/// Sets the neighbours of a page on its level; 0 where there is none.
pub fn xt_link(bytes: &mut [u8], next: u64, prev: u64)
    requires { 32 ≤ length bytes.old }
    ensures head { head_of bytes.new ≡ record (head_of bytes.old) { next = next; prev = prev } }
    ensures entries { entries_of bytes.new ≡ entries_of bytes.old }
    ensures tail { IsLaidOut bytes.old → behind_slots bytes.new ≡ behind_slots bytes.old }
{
    put_u64(bytes, 0, next);
    put_u64(bytes, 8, prev);
}

/// Cuts a page to its first `keep` entries.
pub fn xt_cut(bytes: &mut [u8], keep: u16)
    requires size { 32 ≤ length bytes.old }
    requires keep { keep ≤ count_of bytes.old }
    ensures head { head_of bytes.new ≡ record (head_of bytes.old) { nextindex = keep + 2 } }
    ensures entries { entries_of bytes.new ≡ take keep (entries_of bytes.old) }
    ensures tail { IsLaidOut bytes.old → behind_slots bytes.new ≡ behind_slots bytes.old }
{
    let _end = get_u16(bytes, 18);
    put_u16(bytes, 18, keep + 2);
}

/// Makes a page a leaf or an inner page; a root stays a root.
pub fn xt_set_kind(bytes: &mut [u8], leaf: bool)
    requires { 32 ≤ length bytes.old }
    ensures head { head_of bytes.new ≡ record (head_of bytes.old) { flag = kind_flag (head_of bytes.old).flag leaf } }
    ensures entries { entries_of bytes.new ≡ entries_of bytes.old }
    ensures tail { IsLaidOut bytes.old → behind_slots bytes.new ≡ behind_slots bytes.old }
{
    let flag = get_u8(bytes, 16);
    let kind = if leaf { 2 } else { 4 };
    put_u8(bytes, 16, flag / 8 * 8 + flag % 2 + kind);
}

/// Puts an extent in the place of entry `i`.
pub fn xt_put(bytes: &mut [u8], i: u16, x: Xad)
    requires page { IsLaidOut bytes.old }
    requires place { i < count_of bytes.old }
    requires fits { FitsXad x }
    ensures head { head_of bytes.new ≡ head_of bytes.old }
    ensures entries { entries_of bytes.new ≡ take i (entries_of bytes.old) ++ x ∷ drop (i + 1) (entries_of bytes.old) }
    ensures tail { behind_slots bytes.new ≡ behind_slots bytes.old }
{
    put_xad(bytes, 32 + 16 * usize::from(i), x);
}

/// Puts an extent before entry `i`, or behind the last one; `Full` exactly where the page has its greatest count.
pub fn xt_insert(bytes: &mut [u8], i: u16, x: Xad) -> Result<(), Full>
    requires page { IsLaidOut bytes.old }
    requires place { i ≤ count_of bytes.old }
    requires fits { FitsXad x }
    ensures room { OnOk result (field_of bytes.old 18 2 < field_of bytes.old 20 2) }
    ensures head { OnOk result (head_of bytes.new ≡ record (head_of bytes.old) { nextindex = field_of bytes.old 18 2 + 1 }) }
    ensures entries { OnOk result (entries_of bytes.new ≡ take i (entries_of bytes.old) ++ x ∷ drop i (entries_of bytes.old)) }
    ensures tail { behind_slots bytes.new ≡ behind_slots bytes.old }
    ensures full { OnErr result ((bytes.new ≡ bytes.old) × (field_of bytes.old 18 2 ≡ field_of bytes.old 20 2)) }
{
    let next = get_u16(bytes, 18);
    if next >= get_u16(bytes, 20) {
        return Err(Full);
    }
    let at = 32 + 16 * usize::from(i);
    let end = 16 * usize::from(next);
    bytes.copy_within(at..end, at + 16);
    put_xad(bytes, at, x);
    put_u16(bytes, 18, next + 1);
    Ok(())
}

/// Moves the entries from `keep` on to `to`, a page without entries.
pub fn xt_split(from: &mut [u8], to: &mut [u8], keep: u16)
    requires page { IsLaidOut from.old }
    requires keep { keep ≤ count_of from.old }
    requires room { (32 ≤ length to.old) × (16 * field_of from.old 18 2 ≤ length to.old + 16 * keep) }
    ensures head { head_of from.new ≡ record (head_of from.old) { nextindex = keep + 2 } }
    ensures entries { entries_of from.new ≡ take keep (entries_of from.old) }
    ensures tail { behind_slots from.new ≡ behind_slots from.old }
    ensures page { IsLaidOut from.new }
    ensures to_head { head_of to.new ≡ record (head_of to.old) { nextindex = field_of from.old 18 2 - keep } }
    ensures to_entries { entries_of to.new ≡ drop keep (entries_of from.old) }
{
    let next = get_u16(from, 18);
    let at = 32 + 16 * usize::from(keep);
    let end = 16 * usize::from(next);
    put_slice(to, 32, &from[at..end]);
    put_u16(to, 18, next - keep);
    put_u16(from, 18, keep + 2);
}

/// Makes a root or a page without entries: a leaf, or an inner page; `at` is its own place.
pub fn xt_new(bytes: &mut [u8], form: XtForm, leaf: bool, at: Pxd)
    requires size { length bytes.old ≡ bytes_of form }
    requires fits { FitsPxd at }
    ensures head { head_of bytes.new ≡ new_head form leaf at }
    ensures entries { entries_of bytes.new ≡ [] }
{
    bytes.fill(0);
    put_u8(bytes, 16, new_flag(form, leaf));
    put_u16(bytes, 18, 2);
    put_u16(bytes, 20, slots_of(form));
    put_pxd(bytes, 24, at);
}

/// A root has the bit of roots and that of a directory's data beside its kind.
fn new_flag(form: XtForm, leaf: bool) -> u8
    ensures { result ≡ new_flag form leaf }
{
    let kind = if leaf { 2 } else { 4 };
    match form {
        XtForm::Root => 0x81 + kind,
        XtForm::Full => kind,
        XtForm::Small => 0x81 + kind,
    }
}

fn slots_of(form: XtForm) -> u16
    ensures { result ≡ slots_of form }
{
    match form {
        XtForm::Root => 18,
        XtForm::Full => 256,
        XtForm::Small => 6,
    }
}

fn put_slice(bytes: &mut [u8], from: usize, piece: &[u8])
    requires { from + length piece.now ≤ length bytes.old }
    ensures { bytes.new ≡ put_bytes from piece.now bytes.old }
{
    bytes[from..from + piece.len()].copy_from_slice(piece);
}
