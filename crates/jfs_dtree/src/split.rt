//! A full leaf that takes a name.

ghost use Rattle.std.specs.Prelude.{◌≡◌, ◌<◌, ◌≤◌, ◌-◌, ℕ, List, length, take};
ghost use Rattle.jfs_name.specs.declared.name.NameEntry.{NameEntry};
ghost use Rattle.jfs_dtpage.specs.declared.head.DtForm.TheVariants.{Full};
ghost use Rattle.jfs_dtpage.specs.Form.{count_of};
ghost use Rattle.jfs_dtpage.specs.Order.{name_at};
ghost use Rattle.jfs_dtpage.specs.Page.{names_of, IsDtPage};
ghost use Rattle.jfs_tree.specs.Walk.{Leaf};
ghost use Rattle.jfs_tree.specs.Edit.{IsApart, with_entry};
ghost use Rattle.jfs_tree.specs.Form.{SplitsRows};
ghost use Rattle.jfs_dtree.specs.Frame.{frame_of};
ghost use Rattle.jfs_dtree.specs.Node.{name_scale, dt_node, HasNoRoom, IsKey};
ghost use Rattle.jfs_dtree.specs.Parts.{SplitsLeaf, cut_key};

use crate::entry::{DirEntry, NameKey};
use crate::split_parts::part;
use jfs_dtpage::{DtEntry, DtForm, count_of, dt_find, dt_name, is_leaf};

/// Puts a name into page `n`, a leaf that has no room for it, and the leaf's last part into the new page `q`, whose key it answers.
pub(crate) fn split(
    n: u32,
    q: u32,
    last: bool,
    bytes: &mut [u8],
    right: &mut [u8],
    x: &DirEntry,
) -> NameKey
    requires size { (length bytes.old ≡ 4096) × (length right.old ≡ 4096) }
    requires full { HasNoRoom Full bytes.old }
    ensures parts { (blocks : ℕ) (es : List NameEntry) → dt_node Full blocks bytes.old ≡ Leaf es → IsApart name_scale x.now es →
        SplitsRows name_scale (with_entry name_scale x.now es) (dt_node Full blocks bytes.new) (dt_node Full blocks right.new) result }
    ensures rules { (blocks : ℕ) (es : List NameEntry) → dt_node Full blocks bytes.old ≡ Leaf es → IsApart name_scale x.now es →
        SplitsLeaf n q last x.now bytes.old bytes.new right.new result }
    ensures key { IsKey result }
    ensures frame { frame_of Full bytes.new ≡ frame_of Full bytes.old }
{
    if !is_leaf(bytes) {
        return NameKey::new(&[]);
    }
    let Err(place) = dt_find(bytes, DtForm::Full, x.name()) else {
        return NameKey::new(&[]);
    };
    let e = DtEntry::Leaf {
        inode: x.inode(),
        name: x.name(),
    };
    part(n, q, last, bytes, right, place, e);
    key_between(bytes, right)
}

/// The key of a right leaf: its first name, cut after the first unit in which it differs from the left leaf's last one, or whole where
/// that one is a front of it.
fn key_between(left: &[u8], right: &[u8]) -> NameKey
    requires size { (length left.now ≡ 4096) × (length right.now ≡ 4096) }
    requires pages { IsDtPage Full left.now × IsDtPage Full right.now }
    requires some { (0 < count_of left.now) × (0 < count_of right.now) }
    ensures is { result ≡ cut_key (name_at (names_of Full left.now) (count_of left.now - 1)) (name_at (names_of Full right.now) 0) }
    ensures key { IsKey result }
{
    let mut last = [0u16; 255];
    let mut first = [0u16; 255];
    let place = u32::from(count_of(left)) - 1;
    let before = dt_name(left, DtForm::Full, place, &mut last) as usize;
    let units = dt_name(right, DtForm::Full, 0, &mut first) as usize;
    let name = &first[..units];
    NameKey::new(&name[..cut(&last[..before], name)])
}

/// How many units of a name tell it from the name before it.
fn cut(before: &[u16], name: &[u16]) -> usize
    ensures is { take result name.now ≡ cut_key before.now name.now }
    ensures most { result ≤ length name.now }
{
    let Some((unit, units)) = name.split_first() else {
        return 0;
    };
    let Some((other, rest)) = before.split_first() else {
        return name.len();
    };
    if other == unit {
        1 + cut(rest, units)
    } else {
        1
    }
}
