//! A full page that becomes two.

ghost use Rattle.std.specs.Prelude.{◌≡◌, ◌<◌, ◌≤◌, ◌+◌, ◌*◌, ◌-◌, ◌/◌, ◌^◌, ◌++◌, ◌∷◌, [], ℕ, length, take, drop, true, false};
ghost use Rattle.jfs_bits.specs.Extent.{FitsXad};
ghost use Rattle.jfs_tree.specs.Edit.{IsCons};
ghost use Rattle.jfs_xtpage.specs.Page.{behind_slots, bytes_of, head_of, entries_of, count_of, new_flag, slots_of, IsLaidOut};
ghost use Rattle.jfs_xtree.specs.Node.{with_at, AreNeighbours, SameKind, BeginsAt};

use jfs_bits::{Pxd, Xad, get_u16, get_u64};
use jfs_tree::page_at;
use jfs_xtpage::{XtForm, xt_entry, xt_insert, xt_link, xt_new, xt_split};

/// Puts an extent at a place of a page that has room.
pub(crate) fn insert(bytes: &mut [u8], place: u16, x: Xad)
    requires page { IsLaidOut bytes.old }
    requires room { (head_of bytes.old).nextindex < (head_of bytes.old).maxentry }
    requires place { place ≤ count_of bytes.old }
    requires fits { FitsXad x }
    ensures head { head_of bytes.new ≡ record (head_of bytes.old) { nextindex = (head_of bytes.old).nextindex + 1 } }
    ensures entries { entries_of bytes.new ≡ with_at (entries_of bytes.old) place x }
    ensures tail { behind_slots bytes.new ≡ behind_slots bytes.old }
{
    match xt_insert(bytes, place, x) {
        Ok(()) => {}
        Err(_) => unreachable!(),
    }
}

/// Puts an extent at a place of a full page, whose last part moves to page `right`; the page is number `n`, `right` is number `q`. Where
/// the page is the last one of its level, an extent behind all others stands alone on the new page; else each page gets half. The page
/// behind both is linked by the whole call.
pub(crate) fn part(
    n: u32,
    q: u32,
    last: bool,
    form: XtForm,
    leaf: bool,
    bytes: &mut [u8],
    right: &mut [u8],
    place: u16,
    x: Xad,
) -> u64
    requires page { IsLaidOut bytes.old }
    requires full { (head_of bytes.old).nextindex ≡ (head_of bytes.old).maxentry }
    requires slots { (6 ≤ (head_of bytes.old).maxentry) × ((head_of bytes.old).maxentry ≤ slots_of form) }
    requires size { length right.old ≡ bytes_of form }
    requires place { place ≤ count_of bytes.old }
    requires fits { FitsXad x }
    ensures rows { with_at (entries_of bytes.old) place x ≡ entries_of bytes.new ++ entries_of right.new }
    ensures some { IsCons (entries_of bytes.new) }
    ensures begins { BeginsAt result (entries_of right.new) }
    ensures left { SameKind (head_of bytes.old) (head_of bytes.new) }
    ensures right { ((head_of right.new).flag ≡ new_flag form leaf) × ((head_of right.new).maxentry ≡ slots_of form) × (2 ≤ (head_of right.new).nextindex) × ((head_of right.new).nextindex ≤ slots_of form) }
    ensures last { last ≡ true → place ≡ count_of bytes.old → (count_of bytes.new ≡ count_of bytes.old) × (count_of right.new ≡ 1) }
    ensures halves { (last ≡ true → place < count_of bytes.old) → (count_of bytes.old / 2 ≤ count_of bytes.new) × (count_of bytes.old / 2 ≤ count_of right.new) }
    ensures links { AreNeighbours n q (head_of bytes.old) (head_of bytes.new) (head_of right.new) }
    ensures own { ((head_of bytes.new).at ≡ (head_of bytes.old).at) × ((head_of right.new).at ≡ record { len = 1; addr = q }) }
    ensures key { result < 2 ^ 40 }
{
    xt_new(right, form, leaf, page_at(q));
    move_part(last, bytes, right, place, x);
    let next = get_u64(bytes, 0);
    let prev = get_u64(bytes, 8);
    xt_link(bytes, u64::from(q), prev);
    xt_link(right, next, u64::from(n));
    xt_entry(right, 0).offset
}

/// Puts an extent at a place of a full page, and the last part of all into a page without entries.
fn move_part(last: bool, bytes: &mut [u8], right: &mut [u8], place: u16, x: Xad)
    requires page { IsLaidOut bytes.old }
    requires full { ((head_of bytes.old).nextindex ≡ (head_of bytes.old).maxentry) × (6 ≤ (head_of bytes.old).maxentry) }
    requires right { IsLaidOut right.old }
    requires room { ((head_of right.old).nextindex ≡ 2) × ((head_of bytes.old).maxentry ≤ (head_of right.old).maxentry) }
    requires place { place ≤ count_of bytes.old }
    requires fits { FitsXad x }
    ensures rows { with_at (entries_of bytes.old) place x ≡ entries_of bytes.new ++ entries_of right.new }
    ensures left { SameKind (head_of bytes.old) (head_of bytes.new) }
    ensures right { SameKind (head_of right.old) (head_of right.new) }
    ensures some { (3 ≤ (head_of bytes.new).nextindex) × (3 ≤ (head_of right.new).nextindex) }
    ensures last { last ≡ true → place ≡ count_of bytes.old → (count_of bytes.new ≡ count_of bytes.old) × (count_of right.new ≡ 1) }
    ensures halves { (last ≡ true → place < count_of bytes.old) → (count_of bytes.old / 2 ≤ count_of bytes.new) × (count_of bytes.old / 2 ≤ count_of right.new) }
    ensures links { ((head_of bytes.new).next ≡ (head_of bytes.old).next) × ((head_of bytes.new).prev ≡ (head_of bytes.old).prev) }
    ensures own { ((head_of bytes.new).at ≡ (head_of bytes.old).at) × ((head_of right.new).at ≡ (head_of right.old).at) }
{
    let count = get_u16(bytes, 18) - 2;
    if last && place == count {
        insert(right, 0, x);
    } else {
        halve(bytes, right, place, x, count / 2);
    }
}

/// Moves the entries from `keep` on; a place at the border is one of the left part.
fn halve(bytes: &mut [u8], right: &mut [u8], place: u16, x: Xad, keep: u16)
    requires page { IsLaidOut bytes.old }
    requires full { ((head_of bytes.old).nextindex ≡ (head_of bytes.old).maxentry) × (6 ≤ (head_of bytes.old).maxentry) }
    requires keep { keep ≡ count_of bytes.old / 2 }
    requires right { IsLaidOut right.old }
    requires room { ((head_of right.old).nextindex ≡ 2) × ((head_of bytes.old).maxentry ≤ (head_of right.old).maxentry) }
    requires place { place ≤ count_of bytes.old }
    requires fits { FitsXad x }
    ensures rows { with_at (entries_of bytes.old) place x ≡ entries_of bytes.new ++ entries_of right.new }
    ensures left { SameKind (head_of bytes.old) (head_of bytes.new) }
    ensures right { SameKind (head_of right.old) (head_of right.new) }
    ensures some { (3 ≤ (head_of bytes.new).nextindex) × (3 ≤ (head_of right.new).nextindex) }
    ensures halves { (count_of bytes.old / 2 ≤ count_of bytes.new) × (count_of bytes.old / 2 ≤ count_of right.new) }
    ensures links { ((head_of bytes.new).next ≡ (head_of bytes.old).next) × ((head_of bytes.new).prev ≡ (head_of bytes.old).prev) }
    ensures own { ((head_of bytes.new).at ≡ (head_of bytes.old).at) × ((head_of right.new).at ≡ (head_of right.old).at) }
{
    xt_split(bytes, right, keep);
    if place <= keep {
        insert(bytes, place, x);
    } else {
        insert(right, place - keep, x);
    }
}
