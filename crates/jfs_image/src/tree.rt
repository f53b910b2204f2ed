//! The file tree of an image.

ghost use Rattle.std.specs.Prelude.{◌≡◌, ◌+◌, IfOk};
ghost use Rattle.jfs_disk.specs.Pages.{contents};
ghost use Rattle.jfs_image.specs.View.{image_of};
ghost use Rattle.jfs_image.specs.Standing.{IsReady};
ghost use Rattle.jfs_image.specs.Tree.{TreeIs, IsUpTo, AddsNext};

use crate::inode::stand;
use crate::open::open;
use crate::standing::Standing;
use crate::view::ListView;
use jfs_disk::PageList;
use jfs_plain::PlainTree;
use jfs_reader::InodeMap;
use std::alloc::{AllocError, Global};

/// The file tree of an image: its nodes by their inodes, and what its files hold. `None` exactly where it has none: it has too many pages for a disk, its superblock
/// breaks a rule, a mount finds one broken, or an inode in use or a tree of one breaks a rule. It is slow, and keeps each file whole.
///
/// # Errors
///
/// Memory ran out.
pub fn tree_of(alloc: Global, image: &PageList) -> Result<Option<PlainTree>, AllocError>
    ensures { IfOk result (TreeIs (contents image.now)) }
{
    let Some(opened) = open(alloc, image)? else {
        return Ok(None);
    };
    let mut tree = PlainTree::empty(alloc, opened.limit);
    for n in 0..4096 * opened.map.iags {
        if !add(alloc, &opened.view, &opened.map, n, &mut tree)? {
            return Ok(None);
        }
    }
    Ok(Some(tree))
}

/// Puts the object of number `n` into a tree that has those before it; `false` only where the image has no tree.
fn add(
    alloc: Global,
    view: &ListView<'_>,
    map: &InodeMap,
    n: u32,
    tree: &mut PlainTree,
) -> Result<bool, AllocError>
    requires ready { IsReady view.now map.now }
    requires before { IsUpTo (image_of view.now) n tree.old }
    ensures next { IfOk result (λ adds. AddsNext (image_of view.now) (n + 1) tree.new adds) }
    ensures limit { IfOk result (λ adds. tree.new.file_limit ≡ tree.old.file_limit) }
{
    match stand(alloc, view, map, n)? {
        Standing::Free => Ok(true),
        Standing::Object(held) => {
            tree.put_object(n, held.node, held.bytes)?;
            Ok(true)
        }
        Standing::Broken => Ok(false),
    }
}
