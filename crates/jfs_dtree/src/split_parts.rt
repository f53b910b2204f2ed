//! A full page that becomes two.

ghost use Rattle.std.specs.Prelude.{◌≡◌, ◌<◌, ◌≤◌, ◌+◌, ◌-◌, ◌==◌, ◌&&◌, ◌++◌, ◌∷◌, [], ℕ, length, map, slice_get, Some};
ghost use Rattle.std.specs.List.{insert};
ghost use Rattle.jfs_bits.specs.Descriptor.{FitsPxd};
ghost use Rattle.jfs_dtpage.specs.declared.head.DtForm.TheVariants.{Full};
ghost use Rattle.jfs_dtpage.specs.Form.{bytes_of, count_of, free_of, is_leaf, head_of, KeepsHead};
ghost use Rattle.jfs_dtpage.specs.Order.{GoesAt, IsRising, name_at};
ghost use Rattle.jfs_dtpage.specs.Page.{entries_of, names_of, name_in, IsDtPage};
ghost use Rattle.jfs_dtpage.specs.Given.{given, is_named, ChildFits};
ghost use Rattle.jfs_dtpage.specs.Fill.{slots_of_entry};
ghost use Rattle.jfs_tree.specs.Edit.{IsCons};
ghost use Rattle.jfs_dtree.specs.Parts.{IsParted, IsLongestFront, AreNeighbours, ArePages, MovesLast, Sheds};

use jfs_bits::{Pxd, get_u64};
use jfs_dtpage::{
    DtEntry, DtForm, count_of, dt_child, dt_inode, dt_insert, dt_link, dt_name, dt_new, dt_remove,
    free_of, is_leaf,
};

/// With fewer free slots than these a page, which has 123, takes more than 70.
const LEAST_FREE: u8 = 53;

/// The place of one page.
pub(crate) fn page_at(n: u32) -> Pxd
    ensures is { result ≡ record { len = 1; addr = n } }
    ensures fits { FitsPxd result }
{
    Pxd {
        len: 1,
        addr: u64::from(n),
    }
}

/// Puts an entry at its place of a page that has room.
pub(crate) fn insert(bytes: &mut [u8], form: DtForm, place: u32, e: DtEntry<'_>)
    requires size { length bytes.old ≡ bytes_of form }
    requires page { IsDtPage form bytes.old }
    requires kind { is_leaf bytes.old ≡ is_named (given e) }
    requires name { length (name_in (given e)) ≤ 255 }
    requires child { ChildFits (given e) }
    requires place { GoesAt (names_of form bytes.old) place (name_in (given e)) }
    requires room { slots_of_entry (given e) ≤ free_of bytes.old }
    ensures page { IsDtPage form bytes.new }
    ensures entries { entries_of form bytes.new ≡ insert (entries_of form bytes.old) place (given e.entry) }
    ensures head { KeepsHead form bytes.old bytes.new }
{
    match dt_insert(bytes, form, place, e) {
        Ok(()) => {}
        Err(_) => unreachable!(),
    }
}

/// The entry at a place, with its name.
pub(crate) fn entry_at<'a>(bytes: &[u8], form: DtForm, place: u32, name: &'a [u16]) -> DtEntry<'a>
    requires size { length bytes.now ≡ bytes_of form }
    requires page { IsDtPage form bytes.now }
    requires place { place < count_of bytes.now }
    requires name { name.now ≡ name_at (names_of form bytes.now) place }
    ensures is { slice_get (entries_of form bytes.now) place ≡ Some (given result) }
    ensures kind { is_leaf bytes.now ≡ is_named (given result) }
    ensures name { name_in (given result) ≡ name.now }
    ensures child { ChildFits (given result) }
{
    if is_leaf(bytes) {
        DtEntry::Leaf {
            inode: dt_inode(bytes, form, place),
            name,
        }
    } else {
        DtEntry::Inner {
            at: dt_child(bytes, form, place),
            name,
        }
    }
}

/// Moves the last entry of a page to the front of another one.
fn move_last(bytes: &mut [u8], right: &mut [u8])
    requires size { (length bytes.old ≡ 4096) × (length right.old ≡ 4096) }
    requires pages { ArePages (entries_of Full bytes.old ++ entries_of Full right.old) bytes.old right.old }
    requires order { IsRising (map name_in (entries_of Full bytes.old ++ entries_of Full right.old)) }
    requires some { 0 < count_of bytes.old }
    requires room { 18 ≤ free_of right.old }
    ensures pages { ArePages (entries_of Full bytes.old ++ entries_of Full right.old) bytes.new right.new }
    ensures moved { MovesLast (entries_of Full bytes.old) (entries_of Full right.old) (entries_of Full bytes.new) (entries_of Full right.new) }
    ensures heads { KeepsHead Full bytes.old bytes.new × KeepsHead Full right.old right.new }
{
    let place = u32::from(count_of(bytes)) - 1;
    let mut buffer = [0u16; 255];
    let units = dt_name(bytes, DtForm::Full, place, &mut buffer) as usize;
    let e = entry_at(bytes, DtForm::Full, place, &buffer[..units]);
    dt_remove(bytes, DtForm::Full, place);
    insert(right, DtForm::Full, 0, e);
}

/// Moves last entries to the front of another page, until those that are left take 70 slots at most.
fn shed(bytes: &mut [u8], right: &mut [u8])
    requires size { (length bytes.old ≡ 4096) × (length right.old ≡ 4096) }
    requires pages { ArePages (entries_of Full bytes.old ++ entries_of Full right.old) bytes.old right.old }
    requires order { IsRising (map name_in (entries_of Full bytes.old ++ entries_of Full right.old)) }
    requires few { free_of bytes.old ≤ 70 }
    requires room { 105 ≤ free_of bytes.old + free_of right.old }
    ensures sheds { Sheds bytes.old right.old bytes.new right.new }
    ensures enough { 53 ≤ free_of bytes.new }
{
    while free_of(bytes) < LEAST_FREE {
        move_last(bytes, right);
    }
}

/// Puts an entry at its place of a page that has no room for it, and the last entries of all into a page without entries.
fn spread(bytes: &mut [u8], right: &mut [u8], place: u32, e: DtEntry<'_>)
    requires size { (length bytes.old ≡ 4096) × (length right.old ≡ 4096) }
    requires page { IsDtPage Full bytes.old }
    requires full { free_of bytes.old < 53 }
    requires right { IsDtPage Full right.old × (entries_of Full right.old ≡ []) × (is_leaf right.old ≡ is_leaf bytes.old) }
    requires kind { is_leaf bytes.old ≡ is_named (given e) }
    requires name { length (name_in (given e)) ≤ 255 }
    requires child { ChildFits (given e) }
    requires place { GoesAt (names_of Full bytes.old) place (name_in (given e)) }
    ensures pages { ArePages (insert (entries_of Full bytes.old) place (given e.entry)) bytes.new right.new }
    ensures longest { IsLongestFront (entries_of Full bytes.new) (entries_of Full right.new) }
    ensures some { IsCons (entries_of Full bytes.new) }
    ensures heads { KeepsHead Full bytes.old bytes.new × KeepsHead Full right.old right.new }
{
    shed(bytes, right);
    let kept = u32::from(count_of(bytes));
    if place > kept {
        insert(right, DtForm::Full, place - kept, e);
        return;
    }
    insert(bytes, DtForm::Full, place, e);
    shed(bytes, right);
}

/// Puts an entry at its place of a page that has no room for it, and the last of all into a page without entries.
fn move_part(last: bool, bytes: &mut [u8], right: &mut [u8], place: u32, e: DtEntry<'_>)
    requires size { (length bytes.old ≡ 4096) × (length right.old ≡ 4096) }
    requires page { IsDtPage Full bytes.old }
    requires full { free_of bytes.old < 53 }
    requires right { IsDtPage Full right.old × (entries_of Full right.old ≡ []) × (is_leaf right.old ≡ is_leaf bytes.old) }
    requires kind { is_leaf bytes.old ≡ is_named (given e) }
    requires name { length (name_in (given e)) ≤ 255 }
    requires child { ChildFits (given e) }
    requires place { GoesAt (names_of Full bytes.old) place (name_in (given e)) }
    ensures pages { ArePages (insert (entries_of Full bytes.old) place (given e.entry)) bytes.new right.new }
    ensures parted { IsParted (last && place == count_of bytes.old) (entries_of Full bytes.old) (given e.entry) (entries_of Full bytes.new) (entries_of Full right.new) }
    ensures some { IsCons (entries_of Full bytes.new) × IsCons (entries_of Full right.new) }
    ensures heads { KeepsHead Full bytes.old bytes.new × KeepsHead Full right.old right.new }
{
    if last && place == u32::from(count_of(bytes)) {
        insert(right, DtForm::Full, 0, e);
    } else {
        spread(bytes, right, place, e);
    }
}

/// Puts an entry at its place of page `n`, which takes more than 70 slots, and the last of all into the new page `q` behind it. The left page
/// keeps the longest front that takes at most 70 slots; but where it is the last page of its level, an entry behind all others stands alone on
/// the right page. The page behind both is linked by the whole call.
pub(crate) fn part(
    n: u32,
    q: u32,
    last: bool,
    bytes: &mut [u8],
    right: &mut [u8],
    place: u32,
    e: DtEntry<'_>,
)
    requires size { (length bytes.old ≡ 4096) × (length right.old ≡ 4096) }
    requires page { IsDtPage Full bytes.old }
    requires full { free_of bytes.old < 53 }
    requires kind { is_leaf bytes.old ≡ is_named (given e) }
    requires name { length (name_in (given e)) ≤ 255 }
    requires child { ChildFits (given e) }
    requires place { GoesAt (names_of Full bytes.old) place (name_in (given e)) }
    ensures pages { ArePages (insert (entries_of Full bytes.old) place (given e.entry)) bytes.new right.new }
    ensures kind { is_leaf bytes.new ≡ is_leaf bytes.old }
    ensures parted { IsParted (last && place == count_of bytes.old) (entries_of Full bytes.old) (given e.entry) (entries_of Full bytes.new) (entries_of Full right.new) }
    ensures some { IsCons (entries_of Full bytes.new) × IsCons (entries_of Full right.new) }
    ensures neighbours { AreNeighbours n q bytes.old bytes.new right.new }
{
    dt_new(right, DtForm::Full, is_leaf(bytes), page_at(q));
    let next = get_u64(bytes, 0);
    let prev = get_u64(bytes, 8);
    move_part(last, bytes, right, place, e);
    dt_link(bytes, u64::from(q), prev);
    dt_link(right, next, u64::from(n));
}
