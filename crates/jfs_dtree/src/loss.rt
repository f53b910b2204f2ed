//! Pages of names that lose names and children.

ghost use Rattle.std.specs.Prelude.{◌≡◌, ◌<◌, ℕ, length, true, IfNone, IfSome};
ghost use Rattle.jfs_tree.specs.Leftmost.{LowersFirst};
ghost use Rattle.jfs_tree.specs.Removal.{TakesRow};
ghost use Rattle.jfs_dtpage.specs.Form.{bytes_of, is_leaf};
ghost use Rattle.jfs_dtpage.specs.Page.{IsDtPage};
ghost use Rattle.jfs_dtree.specs.Frame.{frame_of};
ghost use Rattle.jfs_dtree.specs.Node.{name_scale, dt_node};
ghost use Rattle.jfs_dtree.specs.Laws.{loose};

use crate::check::check_page;
use crate::children::make_way;
use crate::entry::DirEntry;
use crate::form::DtPages;
use crate::lead::child_page;
use crate::leaf::entry_at;
use crate::root::{new_root, parent};
use jfs_dtpage::{DtForm, count_of, dt_find, dt_remove, is_leaf};
use jfs_tree::PageLoss;

impl PageLoss for DtPages {
    fn remove(&self, bytes: &mut [u8], x: &DirEntry) -> Option<DirEntry> {
        take_name(bytes, self.form, x)
    }

    fn remove_child(&self, bytes: &mut [u8], place: usize) {
        dt_remove(bytes, self.form, place as u32);
    }

    fn lower_first(&self, bytes: &mut [u8]) -> Option<u32> {
        empty_first(bytes, self.form, self.blocks)
    }

    fn is_single(&self, bytes: &[u8]) -> bool {
        count_of(bytes) == 1
    }

    fn empty(&self, root: &mut [u8]) {
        let up = parent(root);
        new_root(root, up);
    }

    ghost loose = { loose };
}

/// Takes the entry that has the name out of a leaf.
fn take_name(bytes: &mut [u8], form: DtForm, x: &DirEntry) -> Option<DirEntry>
    requires size { length bytes.old ≡ bytes_of form }
    requires page { IsDtPage form bytes.old }
    requires leaf { is_leaf bytes.old ≡ true }
    ensures takes { (blocks : ℕ) → TakesRow name_scale x.now (dt_node form blocks bytes.old) (dt_node form blocks bytes.new) result }
    ensures kept { IfNone result (bytes.new ≡ bytes.old) }
    ensures frame { frame_of form bytes.new ≡ frame_of form bytes.old }
{
    let Ok(place) = dt_find(bytes, form, x.name()) else {
        return None;
    };
    let entry = entry_at(bytes, form, place);
    dt_remove(bytes, form, place);
    Some(entry)
}

/// Makes the key of an inner page's first child empty, and answers that child's page.
fn empty_first(bytes: &mut [u8], form: DtForm, blocks: u32) -> Option<u32>
    requires { length bytes.old ≡ bytes_of form }
    ensures first { LowersFirst name_scale (dt_node form blocks bytes.old) (dt_node form blocks bytes.new) result }
    ensures within { IfSome result (λ page. page < blocks) }
    ensures frame { frame_of form bytes.new ≡ frame_of form bytes.old }
{
    let Ok(_) = check_page(bytes, form, blocks) else {
        return None;
    };
    if is_leaf(bytes) {
        return None;
    }
    let page = child_page(bytes, form, 0, blocks);
    make_way(bytes, form, &[]);
    Some(page)
}
