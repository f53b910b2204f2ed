//! A full root that moves down.

ghost use Rattle.std.specs.Prelude.{◌≡◌, ◌<◌, ◌≤◌, ◌+◌, [], ◌∷◌, ℕ, List, length, take};
ghost use Rattle.jfs_name.specs.declared.name.NameEntry.{NameEntry};
ghost use Rattle.jfs_dtpage.specs.declared.head.DtForm.TheVariants.{Root, Full};
ghost use Rattle.jfs_dtpage.specs.Form.{count_of, head_of, is_leaf, KeepsHead};
ghost use Rattle.jfs_dtpage.specs.declared.head.Place.TheVariants.{OnVolume};
ghost use Rattle.jfs_dtpage.specs.Page.{entries_of, IsDtPage};
ghost use Rattle.jfs_tree.specs.Walk.{Child, Leaf, Inner};
ghost use Rattle.jfs_dtree.specs.Node.{dt_node, HasNoRoom};
ghost use Rattle.jfs_dtree.specs.Parent.{parent_of};

use crate::split_parts::{entry_at, insert, page_at};
use jfs_dtpage::{DtEntry, DtForm, count_of, dt_name, dt_new, is_leaf};

/// Moves what a root has to the new page `q`. The root keeps its parent, and one child with the empty key: that page.
pub(crate) fn move_down(q: u32, root: &mut [u8], page: &mut [u8])
    requires size { (length root.old ≡ 288) × (length page.old ≡ 4096) }
    requires page { IsDtPage Root root.old }
    ensures entries { (blocks : ℕ) (es : List NameEntry) → dt_node Root blocks root.old ≡ Leaf es → dt_node Full blocks page.new ≡ Leaf es }
    ensures children { (blocks : ℕ) (cs : List (Child (List ℕ))) → dt_node Root blocks root.old ≡ Inner cs → dt_node Full blocks page.new ≡ Inner cs }
    ensures root { (blocks : ℕ) → q < blocks → dt_node Root blocks root.new ≡ Inner (record { key = []; page = q } ∷ []) }
    ensures room { HasNoRoom Full page.new → ⊥ }
    ensures parent { parent_of root.new ≡ parent_of root.old }
    ensures place { (head_of Full page.new).place ≡ OnVolume 0 0 128 1 (record { len = 1; addr = q }) }
{
    dt_new(page, DtForm::Full, is_leaf(root), page_at(q));
    copy_entries(root, page);
    dt_new(root, DtForm::Root, false, page_at(q));
    let child = DtEntry::Inner {
        at: page_at(q),
        name: &[],
    };
    insert(root, DtForm::Root, 0, child);
}

/// Puts the entries of a root into a page without entries.
fn copy_entries(root: &[u8], page: &mut [u8])
    requires size { (length root.now ≡ 288) × (length page.old ≡ 4096) }
    requires pages { IsDtPage Root root.now × IsDtPage Full page.old }
    requires empty { entries_of Full page.old ≡ [] }
    requires kind { is_leaf page.old ≡ is_leaf root.now }
    ensures page { IsDtPage Full page.new }
    ensures entries { entries_of Full page.new ≡ entries_of Root root.now }
    ensures head { KeepsHead Full page.old page.new }
{
    for place in 0..u32::from(count_of(root)) {
        copy_entry(root, page, place);
    }
}

/// Puts the entry at a place of a root behind those before it.
fn copy_entry(root: &[u8], page: &mut [u8], place: u32)
    requires size { (length root.now ≡ 288) × (length page.old ≡ 4096) }
    requires pages { IsDtPage Root root.now × IsDtPage Full page.old }
    requires place { place < count_of root.now }
    requires before { entries_of Full page.old ≡ take place (entries_of Root root.now) }
    requires kind { is_leaf page.old ≡ is_leaf root.now }
    ensures page { IsDtPage Full page.new }
    ensures entries { entries_of Full page.new ≡ take (place + 1) (entries_of Root root.now) }
    ensures head { KeepsHead Full page.old page.new }
{
    let mut buffer = [0u16; 255];
    let units = dt_name(root, DtForm::Root, place, &mut buffer) as usize;
    let e = entry_at(root, DtForm::Root, place, &buffer[..units]);
    insert(page, DtForm::Full, place, e);
}
