//! The root of a directory.

ghost use Rattle.std.specs.Prelude.{◌≡◌, ℕ, List, [], length, true, Ok};
ghost use Rattle.byteorder.specs.Endian.{little_bytes};
ghost use Rattle.jfs_bits.specs.Field.{put_bytes};
ghost use Rattle.jfs_tree.specs.Walk.{Leaf};
ghost use Rattle.jfs_dtree.specs.Leftmost.{HasEmptyFirstKeys};
ghost use Rattle.jfs_dtree.specs.Node.{dt_node};
ghost use Rattle.jfs_dtree.specs.Spells.{root_node, spells_names};
ghost use Rattle.jfs_dtpage.specs.declared.head.DtForm.TheVariants.{Root};
ghost use Rattle.jfs_dtpage.specs.Form.{is_leaf};
ghost use Rattle.jfs_dtpage.specs.Page.{entries_of, IsDtPage};
ghost use Rattle.jfs_dtree.specs.Parent.{parent_of};

use jfs_bits::{Pxd, get_u32, put_u32};
use jfs_dtpage::{DtForm, dt_new};

/// Where a root names the parent directory's inode.
const PARENT: usize = 20;

/// The parent directory's inode; the root directory names itself.
pub fn parent(root: &[u8]) -> u32
    requires { length root.now ≡ 288 }
    ensures { result ≡ parent_of root.now }
{
    get_u32(root, PARENT)
}

/// Sets the parent directory's inode, and nothing else: the root reads as before, whatever it reads as.
pub fn set_parent(root: &mut [u8], parent: u32)
    requires { length root.old ≡ 288 }
    ensures bytes { root.new ≡ put_bytes 20 (little_bytes 4 parent) root.old }
    ensures parent { parent_of root.new ≡ parent }
    ensures kind { is_leaf root.new ≡ is_leaf root.old }
    ensures node { (blocks : ℕ) → dt_node Root blocks root.new ≡ dt_node Root blocks root.old }
    ensures sound { IsDtPage Root root.old → IsDtPage Root root.new }
    ensures entries { IsDtPage Root root.old → entries_of Root root.new ≡ entries_of Root root.old }
{
    put_u32(root, PARENT, parent);
}

/// Makes the root of an empty directory: a leaf without entries, which spells the empty list.
pub fn new_root(root: &mut [u8], parent: u32)
    requires { length root.old ≡ 288 }
    ensures parent { parent_of root.new ≡ parent }
    ensures sound { IsDtPage Root root.new }
    ensures leaf { is_leaf root.new ≡ true }
    ensures entries { entries_of Root root.new ≡ [] }
    ensures node { (blocks : ℕ) → root_node blocks root.new ≡ Leaf [] }
    ensures list { (blocks : ℕ) (pages : ℕ → List ℕ) → spells_names blocks pages root.new ≡ Ok [] }
    ensures left { (blocks : ℕ) (pages : ℕ → List ℕ) → HasEmptyFirstKeys blocks pages root.new }
{
    dt_new(root, DtForm::Root, true, Pxd { len: 0, addr: 0 });
    set_parent(root, parent);
}
