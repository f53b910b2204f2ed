//! The files of the aggregate.

ghost use Rattle.std.specs.Prelude.{◌≡◌, ◌<◌, ◌≤◌, ◌/◌, ◌%◌, ◌+◌, IfOk, length};
ghost use Rattle.jfs_disk.specs.Image.{page_of};
ghost use Rattle.jfs_ranges.specs.View.{CarriesCount};
ghost use Rattle.jfs_meaning.specs.xtree.specs.Node.{xt_scale};
ghost use Rattle.jfs_meaning.specs.xtree.specs.Spells.{CarriesXt};
ghost use Rattle.jfs_meaning.specs.objects.specs.Objects.{listed};
ghost use Rattle.jfs_meaning.specs.objects.specs.Image.{aggregate_at, file_walk};
ghost use Rattle.jfs_meaning.specs.Readers.{readers, root_of};
ghost use Rattle.jfs_reader.specs.Reading.{ExtentsAre};

use jfs_bits::{XadList, get_array};
use jfs_inode::{Dinode, inode_in};
use jfs_meaning::xtree::{XtError, extents};
use jfs_ranges::{PageView, ViewError};
use std::alloc::Global;

/// The extents of inode `k` of the aggregate (2: the block map's file, 4: the bad blocks', 16: the inode map's), in rising order: `Ok` exactly where its tree
/// spells a list, which is this one; else the first broken rule, with its page. The aggregate's inodes stand on pages 11 to 14. (JFS Layout.)
pub fn file_extents<V: PageView>(alloc: Global, view: &mut V, k: u32) -> Result<XadList, XtError>
    requires number { k < 32 }
    requires size { 15 ≤ V.PageView.block_count view.old }
    ensures image { V.PageView.tells → V.PageView.image view.new ≡ V.PageView.image view.old }
    ensures count_of_blocks { V.PageView.block_count view.new ≡ V.PageView.block_count view.old }
    ensures device { V.PageView.device view.new ≡ V.PageView.device view.old }
    ensures fault { CarriesXt (V.PageView.faults view.old) (V.PageView.faults view.new) result }
    ensures list { V.PageView.tells →
        ExtentsAre (listed xt_scale (file_walk (readers (V.PageView.block_count view.old)) (page_of (V.PageView.image view.old)) k)) result }
{
    match aggregate_root(view, k) {
        Ok(root) => extents(alloc, view, &root),
        Err(e) => Err(XtError::View(e)),
    }
}

/// The root of the tree in inode `k` of the aggregate, whose inodes stand on pages 11 to 14. (JFS Layout.) A fault is the view's.
pub fn aggregate_root<V: PageView>(view: &mut V, k: u32) -> Result<[u8; 288], ViewError>
    requires number { k < 32 }
    requires size { 15 ≤ V.PageView.block_count view.old }
    ensures image { V.PageView.tells → V.PageView.image view.new ≡ V.PageView.image view.old }
    ensures count_of_blocks { V.PageView.block_count view.new ≡ V.PageView.block_count view.old }
    ensures device { V.PageView.device view.new ≡ V.PageView.device view.old }
    ensures fault { CarriesCount (V.PageView.faults view.old) (V.PageView.faults view.new) result }
    ensures root { V.PageView.tells → IfOk result (λ root. root ≡ root_of (aggregate_at (page_of (V.PageView.image view.old)) k)) }
    ensures width { IfOk result (λ root. length root ≡ 288) }
{
    let page = match view.page(11 + k / 8) {
        Ok(page) => page,
        Err(e) => return Err(e),
    };
    let inode = inode_in(page, k % 8);
    Ok(get_array(&inode.rest, 96))
}

/// The root of the tree in an inode: its 288 bytes from byte 224 on. (JFS Layout.)
pub fn root_in(d: &Dinode) -> &[u8]
    ensures root { result.now ≡ root_of d.now }
    ensures width { length result.now ≡ 288 }
{
    &d.rest[96..384]
}
