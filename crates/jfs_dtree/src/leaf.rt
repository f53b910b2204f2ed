//! The names of a leaf.

ghost use Rattle.std.specs.Prelude.{◌≡◌, ◌<◌, ◌≤◌, ◌+◌, ℕ, List, length, true, false, map, slice_get, Some};
ghost use Rattle.jfs_name.specs.declared.name.NameEntry.{NameEntry};
ghost use Rattle.jfs_tree.specs.Walk.{Node, Leaf};
ghost use Rattle.jfs_tree.specs.Edit.{found_in};
ghost use Rattle.jfs_tree.specs.Form.{IfFull, PutsRow};
ghost use Rattle.jfs_dtpage.specs.Form.{bytes_of, count_of, is_leaf};
ghost use Rattle.jfs_dtpage.specs.Page.{entries_of, IsDtPage};
ghost use Rattle.jfs_tree.specs.Apart.{PutsApart};
ghost use Rattle.jfs_dtree.specs.Frame.{frame_of};
ghost use Rattle.jfs_dtree.specs.Node.{name_scale, named, dt_node, IsGood, HasNoRoom, LacksRoom};
ghost use Rattle.jfs_dtree.specs.Replacing.{ChangesInode, led};

use crate::check::is_sound_leaf;
use crate::entry::DirEntry;
use jfs_dtpage::{DtEntry, DtForm, dt_find, dt_insert, dt_set_inode};
use jfs_tree::Put;

/// The entry of a leaf that has the name.
pub(crate) fn found_at(bytes: &[u8], form: DtForm, x: &DirEntry) -> Option<DirEntry>
    requires { length bytes.now ≡ bytes_of form }
    ensures { (blocks : ℕ) (es : List NameEntry) → dt_node form blocks bytes.now ≡ Leaf es → result ≡ found_in name_scale x.now es }
{
    if !is_sound_leaf(bytes, form) {
        return None;
    }
    match dt_find(bytes, form, x.name()) {
        Ok(place) => Some(entry_at(bytes, form, place)),
        Err(_) => None,
    }
}

/// The entry at a place of a leaf.
pub(crate) fn entry_at(bytes: &[u8], form: DtForm, place: u32) -> DirEntry
    requires size { length bytes.now ≡ bytes_of form }
    requires page { IsDtPage form bytes.now }
    requires leaf { is_leaf bytes.now ≡ true }
    requires place { place < count_of bytes.now }
    ensures { slice_get (map named (entries_of form bytes.now)) place ≡ Some result }
{
    let mut x = DirEntry::new(&[], 0);
    x.read(bytes, form, place);
    x
}

/// Puts an entry into a leaf that doesn't have its name, where there is room.
pub(crate) fn put_name(bytes: &mut [u8], form: DtForm, x: &DirEntry) -> Put
    requires size { length bytes.old ≡ bytes_of form }
    requires good { IsGood x.now }
    ensures row { (blocks : ℕ) → PutsRow name_scale x.now (dt_node form blocks) (HasNoRoom form) bytes.old bytes.new result }
    ensures apart { (blocks : ℕ) → PutsApart name_scale x.now (dt_node form blocks bytes.old) result }
    ensures room { IfFull result (LacksRoom true (length x.now.name) bytes.old) }
    ensures frame { frame_of form bytes.new ≡ frame_of form bytes.old }
{
    if !is_sound_leaf(bytes, form) {
        return Put::Clash;
    }
    let name = x.name();
    let Err(place) = dt_find(bytes, form, name) else {
        return Put::Clash;
    };
    let entry = DtEntry::Leaf {
        inode: x.inode(),
        name,
    };
    match dt_insert(bytes, form, place, entry) {
        Ok(()) => Put::Done,
        Err(_) => Put::Full,
    }
}

/// Leads the name of `x` in a leaf to an inode, where the leaf has the name; nothing else changes.
pub(crate) fn lead_name(bytes: &mut [u8], form: DtForm, x: &DirEntry, inode: u32)
    requires size { length bytes.old ≡ bytes_of form }
    ensures node { (blocks : ℕ) (es : List NameEntry) → dt_node form blocks bytes.old ≡ Leaf es → dt_node form blocks bytes.new ≡ Leaf (map (led x.now.name inode) es) }
    ensures change { ChangesInode bytes.old bytes.new }
{
    if !is_sound_leaf(bytes, form) {
        return;
    }
    if let Ok(place) = dt_find(bytes, form, x.name()) {
        dt_set_inode(bytes, form, place, inode);
    }
}
