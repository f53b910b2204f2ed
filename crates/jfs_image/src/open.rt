//! An image whose superblock and maps can be relied on.

ghost use Rattle.std.specs.Prelude.{◌≡◌, ◌≤◌, IfOk, is_none};
ghost use Rattle.jfs_disk.specs.Image.{page_of};
ghost use Rattle.jfs_disk.specs.Pages.{contents};
ghost use Rattle.jfs_super.specs.Rules.{blocks_of};
ghost use Rattle.jfs_super.specs.declared.fields.Super.{Super};
ghost use Rattle.jfs_reader.specs.objects.specs.Image.{file_extents};
ghost use Rattle.jfs_reader.specs.meaning.specs.Readers.{readers};
ghost use Rattle.jfs_reader.specs.Map.{IsInodeMap};
ghost use Rattle.jfs_owners.specs.mount_rules.specs.Subject.{subject_of};
ghost use Rattle.jfs_owners.specs.mount_rules.specs.Mount.{broken_mount};
ghost use Rattle.jfs_image.specs.View.{image_of, blocks_in};
ghost use Rattle.jfs_image.specs.Opened.{SuperIs, OpenedIs};

use crate::opened::Opened;
use crate::view::ListView;
use jfs_bits::XadList;
use jfs_disk::PageList;
use jfs_owners::mount_rules::first_broken;
use jfs_reader::{InodeMap, ReadError, file_extents};
use jfs_super::{Super, geometry, read_super};
use jfs_xtree::XtError;
use std::alloc::{AllocError, Global};

/// Opens an image; `None` only where it has no tree: it has too many pages for a disk, its superblock breaks a rule, or a mount finds one broken.
pub(crate) fn open<'a>(alloc: Global, image: &'a PageList) -> Result<Option<Opened<'a>>, AllocError>
    ensures { IfOk result (OpenedIs (contents image.now)) }
{
    let Some(superblock) = superblock_of(image) else {
        return Ok(None);
    };
    let geometry = geometry(&superblock);
    let view = ListView::new(image, geometry.blocks);
    if !may_mount(alloc, &view)? {
        return Ok(None);
    }
    let map = map_of(alloc, &view)?;
    Ok(Some(Opened {
        view,
        map,
        superblock,
        limit: geometry.file_limit,
    }))
}

/// The superblock on page 8; `None` only where it breaks a rule, or the image has too many pages for a disk.
fn superblock_of(image: &PageList) -> Option<Super>
    ensures { SuperIs (contents image.now) result }
{
    let pages = image.len();
    if pages >= 1 << 32 {
        return None;
    }
    let Some(page) = image.get(8) else {
        return None;
    };
    match read_super(page, pages as u32) {
        Ok(superblock) => Some(superblock),
        Err(_) => None,
    }
}

/// Whether a mount finds no rule broken.
fn may_mount(alloc: Global, view: &ListView<'_>) -> Result<bool, AllocError>
    requires { 15 ≤ blocks_in view.now }
    ensures { IfOk result (λ may. (s : Super) → blocks_of s ≡ blocks_in view.now → may ≡ is_none (broken_mount (subject_of s (page_of (image_of view.now))))) }
{
    let mut own = *view;
    match first_broken(alloc, &mut own) {
        Ok(bad) => Ok(bad.is_none()),
        Err(_) => Err(AllocError),
    }
}

/// The inode map.
fn map_of(alloc: Global, view: &ListView<'_>) -> Result<InodeMap, AllocError>
    requires { 15 ≤ blocks_in view.now }
    ensures { IfOk result (IsInodeMap (readers (blocks_in view.now)) (page_of (image_of view.now))) }
{
    let extents = map_extents(alloc, view)?;
    let mut own = *view;
    match InodeMap::read(&mut own, extents) {
        Ok(map) => Ok(map),
        Err(ReadError::View(_)) => Err(AllocError),
        Err(ReadError::Outside) => unreachable!(),
    }
}

/// The extents of the inode map's file, inode 16 of the aggregate; a tree that breaks a rule has none.
fn map_extents(alloc: Global, view: &ListView<'_>) -> Result<XadList, AllocError>
    requires { 15 ≤ blocks_in view.now }
    ensures { IfOk result (λ es. file_extents (readers (blocks_in view.now)) (page_of (image_of view.now)) 16 ≡ es) }
{
    let mut own = *view;
    match file_extents(alloc, &mut own, 16) {
        Ok(extents) => Ok(extents),
        Err(XtError::View(_)) => Err(AllocError),
        Err(XtError::Bad { .. }) => Ok(XadList::new(alloc)),
    }
}
