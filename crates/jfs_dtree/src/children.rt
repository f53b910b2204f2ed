//! Children of an inner page.

ghost use Rattle.std.specs.Prelude.{◌≡◌, ◌<◌, ◌≤◌, ◌+◌, ℕ, suc, List, length, map, true, false};
ghost use Rattle.jfs_dtpage.specs.declared.head.DtForm.{DtForm};
ghost use Rattle.jfs_dtpage.specs.declared.head.DtForm.TheVariants.{Full};
ghost use Rattle.jfs_dtpage.specs.Form.{bytes_of, count_of, free_of, is_leaf, KeepsHead};
ghost use Rattle.jfs_dtpage.specs.Page.{entries_of, name_in, names_of, IsDtPage};
ghost use Rattle.jfs_dtpage.specs.Order.{GoesAt, name_at};
ghost use Rattle.jfs_tree.specs.Walk.{Child, Inner};
ghost use Rattle.jfs_tree.specs.Edit.{KeysRise};
ghost use Rattle.jfs_tree.specs.Form.{IfFull, PutsChild, AtPlace, SplitsChildren, GoesBehind, as_child};
ghost use Rattle.jfs_dtree.specs.Frame.{frame_of};
ghost use Rattle.jfs_dtree.specs.Node.{name_scale, dt_node, HasNoRoom, LacksRoom, IsKey};
ghost use Rattle.jfs_dtree.specs.Parts.{lowered, SplitsInner};

use crate::entry::NameKey;
use crate::split_parts::{insert, page_at, part};
use jfs_dtpage::{
    DtEntry, DtForm, count_of, dt_check, dt_child, dt_find, dt_name, dt_remove, dt_slots, free_of,
    is_leaf,
};
use jfs_tree::{Put, Sibling};
use std::cmp::Ordering;

/// Whether the page is an inner page with a child, and its bytes break no rule.
fn is_sound_inner(bytes: &[u8], form: DtForm) -> bool
    requires { length bytes.now ≡ bytes_of form }
    ensures sound { result ≡ true → IsDtPage form bytes.now × (is_leaf bytes.now ≡ false) × (0 < count_of bytes.now) }
    ensures other { result ≡ false → (blocks : ℕ) (cs : List (Child (List ℕ))) → dt_node form blocks bytes.now ≡ Inner cs → ⊥ }
{
    match dt_check(bytes, form) {
        Ok(_) => !is_leaf(bytes) && count_of(bytes) > 0,
        Err(_) => false,
    }
}

/// The key of a page's first child isn't looked at: where it isn't lower than a key that is to stand behind it, it is made empty.
pub(crate) fn make_way(bytes: &mut [u8], form: DtForm, key: &[u16])
    requires size { length bytes.old ≡ bytes_of form }
    requires page { IsDtPage form bytes.old }
    requires inner { is_leaf bytes.old ≡ false }
    requires some { 0 < count_of bytes.old }
    ensures page { IsDtPage form bytes.new }
    ensures entries { entries_of form bytes.new ≡ lowered key.now (entries_of form bytes.old) }
    ensures head { KeepsHead form bytes.old bytes.new }
    ensures small { free_of bytes.new ≤ free_of bytes.old + 17 }
{
    let mut buffer = [0u16; 255];
    let units = dt_name(bytes, form, 0, &mut buffer) as usize;
    let first = &buffer[..units];
    match first.cmp(&key) {
        Ordering::Less => {}
        Ordering::Equal | Ordering::Greater => {
            let at = dt_child(bytes, form, 0);
            dt_remove(bytes, form, 0);
            insert(bytes, form, 0, DtEntry::Inner { at, name: &[] });
        }
    }
}

/// Whether a key goes behind the child at a place; the first child's key isn't looked at.
fn goes_behind(bytes: &[u8], form: DtForm, place: usize, key: &[u16]) -> bool
    requires size { length bytes.now ≡ bytes_of form }
    requires page { IsDtPage form bytes.now }
    requires some { 0 < count_of bytes.now }
    ensures within { result ≡ true → place < count_of bytes.now }
    ensures goes { result ≡ true → GoesAt (map name_in (lowered key.now (entries_of form bytes.now))) (suc place) key.now }
    ensures clashes { result ≡ false → GoesAt (map name_in (lowered key.now (entries_of form bytes.now))) (suc place) key.now → ⊥ }
{
    if key.is_empty() {
        return false;
    }
    match dt_find(bytes, form, key) {
        Ok(found) => found == 0 && place == 0,
        Err(next) => next.saturating_sub(1) as usize == place,
    }
}

/// Puts a child behind the one at the place, where its key is between their keys and there is room.
pub(crate) fn put_child(
    form: DtForm,
    bytes: &mut [u8],
    place: usize,
    child: &Sibling<NameKey>,
) -> Put
    requires size { length bytes.old ≡ bytes_of form }
    ensures child { (blocks : ℕ) → child.now.page < blocks → PutsChild name_scale (dt_node form blocks) (HasNoRoom form) place child.now bytes.old bytes.new result }
    ensures room { IfFull result (LacksRoom false (length child.now.key) bytes.old) }
    ensures goes { (blocks : ℕ) → IfFull result (GoesBehind name_scale (dt_node form blocks bytes.old) place (as_child child.now)) }
    ensures frame { frame_of form bytes.new ≡ frame_of form bytes.old }
{
    if !is_sound_inner(bytes, form) {
        return Put::Clash;
    }
    let key = child.key.units();
    if !goes_behind(bytes, form, place, key) {
        return Put::Clash;
    }
    if u32::from(free_of(bytes)) < dt_slots(key.len() as u32, false) {
        return Put::Full;
    }
    make_way(bytes, form, key);
    let e = DtEntry::Inner {
        at: page_at(child.page),
        name: key,
    };
    insert(bytes, form, place as u32 + 1, e);
    Put::Done
}

/// Puts a child into page `n`, an inner page that has no room for it, and the page's last part into the new page `q`, whose key, the first
/// one whole, it answers.
pub(crate) fn split_child(
    n: u32,
    q: u32,
    last: bool,
    bytes: &mut [u8],
    right: &mut [u8],
    place: usize,
    child: &Sibling<NameKey>,
) -> NameKey
    requires size { (length bytes.old ≡ 4096) × (length right.old ≡ 4096) }
    requires full { HasNoRoom Full bytes.old }
    ensures parts { (blocks : ℕ) (all : List (Child (List ℕ))) → child.now.page < blocks → AtPlace (dt_node Full blocks bytes.old) place (as_child child.now) all → KeysRise name_scale all →
        SplitsChildren all (dt_node Full blocks bytes.new) (dt_node Full blocks right.new) result }
    ensures rules { (blocks : ℕ) (all : List (Child (List ℕ))) → AtPlace (dt_node Full blocks bytes.old) place (as_child child.now) all → KeysRise name_scale all →
        SplitsInner n q last (as_child child.now) bytes.old bytes.new right.new result }
    ensures key { IsKey result }
    ensures frame { frame_of Full bytes.new ≡ frame_of Full bytes.old }
{
    if is_leaf(bytes) {
        return NameKey::new(&[]);
    }
    let key = child.key.units();
    make_way(bytes, DtForm::Full, key);
    let Err(next) = dt_find(bytes, DtForm::Full, key) else {
        return NameKey::new(&[]);
    };
    let e = DtEntry::Inner {
        at: page_at(child.page),
        name: key,
    };
    part(n, q, last, bytes, right, next, e);
    first_key(right)
}

/// The first key of a page, whole.
fn first_key(bytes: &[u8]) -> NameKey
    requires size { length bytes.now ≡ 4096 }
    requires page { IsDtPage Full bytes.now }
    requires some { 0 < count_of bytes.now }
    ensures is { result ≡ name_at (names_of Full bytes.now) 0 }
    ensures key { IsKey result }
{
    let mut buffer = [0u16; 255];
    let units = dt_name(bytes, DtForm::Full, 0, &mut buffer) as usize;
    NameKey::new(&buffer[..units])
}
