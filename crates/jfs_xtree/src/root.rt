//! A root without extents.

ghost use Rattle.std.specs.Prelude.{◌≡◌, ◌⊎◌, ◌==◌, if◌then◌else◌, ℕ, true, List, [], length, Ok};
ghost use Rattle.jfs_tree.specs.Levels.{HasNoThin};
ghost use Rattle.jfs_tree.specs.Spells.{spells, with_root};
ghost use Rattle.jfs_tree.specs.Walk.{Leaf};
ghost use Rattle.jfs_xtpage.specs.Page.{head_of, new_head};
ghost use Rattle.jfs_xtree.specs.Node.{xt_scale, xt_node};
ghost use Rattle.jfs_xtree.specs.Spells.{IsRootSize, root_form, page_nodes};

use crate::find::root_form;
use jfs_bits::Pxd;
use jfs_xtpage::xt_new;

/// Makes a root that is a leaf without entries, whatever stood there: it spells the empty list.
pub fn new_root(root: &mut [u8])
    requires { IsRootSize (length root.old) }
    ensures head { head_of root.new ≡ new_head (root_form (length root.old)) true (record { len = 0; addr = 0 }) }
    ensures leaf { (blocks : ℕ) → xt_node (root_form (length root.old)) blocks root.new ≡ Leaf [] }
    ensures list { (blocks : ℕ) (pages : ℕ → List ℕ) → spells xt_scale (page_nodes blocks pages) (xt_node (root_form (length root.old)) blocks root.new) ≡ Ok [] }
    ensures thin { (blocks : ℕ) (pages : ℕ → List ℕ) → HasNoThin (with_root (xt_node (root_form (length root.old)) blocks root.new) (page_nodes blocks pages)) }
{
    let form = root_form(root);
    xt_new(root, form, true, Pxd { len: 0, addr: 0 });
}
