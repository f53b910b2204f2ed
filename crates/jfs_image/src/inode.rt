//! The inode that a number leads to.

ghost use Rattle.std.specs.Prelude.{◌≡◌, IfOk};
ghost use Rattle.jfs_disk.specs.Image.{page_of};
ghost use Rattle.jfs_reader.specs.objects.specs.Objects.{is_live};
ghost use Rattle.jfs_reader.specs.meaning.specs.Readers.{readers};
ghost use Rattle.jfs_image.specs.View.{image_of, blocks_in};
ghost use Rattle.jfs_image.specs.Standing.{IsReady, InodeIs, ReadsInode, Stands, StandsAs};

use crate::held::hold;
use crate::standing::Standing;
use crate::view::ListView;
use jfs_inode::Dinode;
use jfs_reader::{InodeMap, ReadError, read_inode};
use std::alloc::{AllocError, Global};

/// What stands at a number.
pub(crate) fn stand(
    alloc: Global,
    view: &ListView<'_>,
    map: &InodeMap,
    n: u32,
) -> Result<Standing, AllocError>
    requires { IsReady view.now map.now }
    ensures { IfOk result (Stands (image_of view.now) n) }
{
    match inode_at(view, map, n) {
        Ok(Some(d)) => stand_as(alloc, view, n, &d),
        Ok(None) => Ok(Standing::Free),
        Err(ReadError::Outside) => Ok(Standing::Broken),
        Err(ReadError::View(_)) => Err(AllocError),
    }
}

/// What an inode is at the place of a number.
fn stand_as(alloc: Global, view: &ListView<'_>, n: u32, d: &Dinode) -> Result<Standing, AllocError>
    ensures { IfOk result (StandsAs (readers (blocks_in view.now)) (page_of (image_of view.now)) n d.now) }
{
    if !is_live(n, d) {
        return Ok(Standing::Free);
    }
    match hold(alloc, view, n, d)? {
        Some(held) => Ok(Standing::Object(held)),
        None => Ok(Standing::Broken),
    }
}

/// Whether an inode is in use: 0 to 3 always are, any other where it has a name.
pub(crate) fn is_live(n: u32, d: &Dinode) -> bool
    ensures { result ≡ is_live n d.now }
{
    n < 4 || d.nlink != 0
}

/// The inode of a number, where its extent is there.
pub(crate) fn inode_at(
    view: &ListView<'_>,
    map: &InodeMap,
    n: u32,
) -> Result<Option<Dinode>, ReadError>
    requires { IsReady view.now map.now }
    ensures { InodeIs (image_of view.now) n result }
{
    let mut own = *view;
    match map.home(&mut own, n) {
        Ok(Some(page)) => inode_on(view, page, n),
        Ok(None) => Ok(None),
        Err(e) => Err(e),
    }
}

/// Inode `n`, which stands on this page.
fn inode_on(view: &ListView<'_>, page: u64, n: u32) -> Result<Option<Dinode>, ReadError>
    ensures { ReadsInode (image_of view.now) (blocks_in view.now) page n result }
{
    let mut own = *view;
    match read_inode(&mut own, page, n) {
        Ok(d) => Ok(Some(d)),
        Err(e) => Err(e),
    }
}
