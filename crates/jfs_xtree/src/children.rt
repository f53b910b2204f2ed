//! Children of an inner page.

ghost use Rattle.std.specs.Prelude.{◌≡◌, ◌<◌, ◌≤◌, ◌+◌, ◌*◌, ◌-◌, ◌^◌, ◌==◌, ◌++◌, ◌∷◌, ℕ, length, take, drop, true, false, if◌then◌else◌};
ghost use Rattle.jfs_bits.specs.Extent.{FitsXad};
ghost use Rattle.jfs_xtpage.specs.Page.{behind_slots, head_of, entries_of, entry_of, count_of, end_of, IsLaidOut, IsRising};
ghost use Rattle.jfs_xtree.specs.Node.{all_within, child_entry, lowered, LeadsAt, TakesChild};

use crate::place::end_of;
use jfs_bits::{Pxd, Xad, get_u16};
use jfs_tree::page_at;
use jfs_xtpage::{xt_entry, xt_find, xt_put};

/// The place of the last child that doesn't begin past the offset, or of the first one.
pub(crate) fn child_place(bytes: &[u8], offset: u64) -> u16
    requires page { IsLaidOut bytes.now }
    requires some { 0 < count_of bytes.now }
    ensures within { result < count_of bytes.now }
    ensures leads { IsRising bytes.now (count_of bytes.now) → LeadsAt bytes.now offset result }
{
    match xt_find(bytes, offset) {
        Some(i) => i,
        None => 0,
    }
}

/// The page of the child at a place.
pub(crate) fn page_of(bytes: &[u8], place: u16, blocks: u32) -> u32
    requires page { IsLaidOut bytes.now }
    requires place { place < count_of bytes.now }
    requires within { all_within blocks (entries_of bytes.now) ≡ true }
    ensures page { result ≡ (entry_of bytes.now place).at.addr }
    ensures within { result < blocks }
{
    xt_entry(bytes, place).at.addr as u32
}

/// Whether a key goes behind the child at a place; the first child's key isn't looked at.
pub(crate) fn takes_child(bytes: &[u8], place: usize, key: u64) -> bool
    requires page { IsLaidOut bytes.now }
    ensures takes { result ≡ true → TakesChild bytes.now place key }
    ensures clashes { result ≡ false → TakesChild bytes.now place key → ⊥ }
{
    let next = usize::from(get_u16(bytes, 18));
    if key == 0 || place >= next - 2 {
        return false;
    }
    if place > 0 && xt_entry(bytes, place as u16).offset >= key {
        return false;
    }
    place + 3 == next || key < xt_entry(bytes, place as u16 + 1).offset
}

/// An entry of an inner page takes one block, and the first one's key isn't looked at: where the key behind it is to be lower than
/// its end, it is made so.
pub(crate) fn make_way(bytes: &mut [u8], place: u16, key: u64)
    requires page { IsLaidOut bytes.old }
    requires place { place < count_of bytes.old }
    ensures head { head_of bytes.new ≡ head_of bytes.old }
    ensures entries { entries_of bytes.new ≡ take place (entries_of bytes.old) ++ lowered (place == 0) key (entry_of bytes.old place) ∷ drop (place + 1) (entries_of bytes.old) }
    ensures tail { behind_slots bytes.new ≡ behind_slots bytes.old }
{
    let before = xt_entry(bytes, place);
    if end_of(&before) > key {
        xt_put(bytes, place, with_one_block(before, place == 0));
    }
}

fn with_one_block(before: Xad, first: bool) -> Xad
    requires { FitsXad before }
    ensures is { result ≡ record { flag = before.flag; offset = if first then 0 else before.offset; at = record { len = 1; addr = before.at.addr } } }
    ensures fits { FitsXad result }
{
    Xad {
        flag: before.flag,
        offset: if first { 0 } else { before.offset },
        at: Pxd {
            len: 1,
            addr: before.at.addr,
        },
    }
}

/// The entry of a child: a page, and the key from which on its entries stand.
pub fn child_entry(key: u64, page: u32) -> Xad
    ensures is { result ≡ child_entry key page }
    ensures fits { key < 2 ^ 40 → FitsXad result }
{
    Xad {
        flag: 0,
        offset: key,
        at: page_at(page),
    }
}
