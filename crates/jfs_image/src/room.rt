//! The room of an image.

ghost use Rattle.std.specs.Prelude.{◌≡◌, ◌≤◌, ◌*◌, IfOk};
ghost use Rattle.jfs_disk.specs.Pages.{contents};
ghost use Rattle.jfs_image.specs.View.{image_of};
ghost use Rattle.jfs_image.specs.Opened.{IsOpened};
ghost use Rattle.jfs_image.specs.Tallied.{IsTallied};
ghost use Rattle.jfs_image.specs.Room.{RoomIs, FreshIs};

use crate::open::open;
use crate::opened::Opened;
use crate::space::{empty_place, has_run};
use crate::tallied::Tally;
use crate::tally::tally;
use jfs_disk::PageList;
use std::alloc::{AllocError, Global};

/// What decides whether a call finds space in an image.
#[derive(Clone, Copy, PartialEq, Eq, Debug)]
pub struct Room {
    /// The number of blocks of the file system part without an owner.
    pub free: u32,
    /// The inode that a new object gets: the lowest free one of the extents that are there; else, where an aligned run of four blocks has no owner, the first one of the
    /// lowest place without an extent.
    pub inode: Option<u32>,
}

/// The room of an image; `None` exactly where it has no tree, as with `tree_of`.
///
/// # Errors
///
/// Memory ran out.
pub fn room_of(alloc: Global, image: &PageList) -> Result<Option<Room>, AllocError>
    ensures { IfOk result (RoomIs (contents image.now)) }
{
    let Some(opened) = open(alloc, image)? else {
        return Ok(None);
    };
    let Some(tally) = tally(alloc, &opened)? else {
        return Ok(None);
    };
    let inode = fresh(&opened, &tally)?;
    Ok(Some(Room {
        free: tally.owners.free(),
        inode,
    }))
}

/// The inode that a new object gets.
fn fresh(opened: &Opened<'_>, tally: &Tally) -> Result<Option<u32>, AllocError>
    requires opened { IsOpened (image_of opened.now.view) opened.now }
    requires few { opened.now.map.iags ≤ 65536 }
    requires tallied { IsTallied (image_of opened.now.view) (4096 * opened.now.map.iags) tally.now }
    ensures { IfOk result (FreshIs (image_of opened.now.view)) }
{
    if tally.free.is_some() {
        return Ok(tally.free);
    }
    if !has_run(&tally.owners) {
        return Ok(None);
    }
    let iags = opened.map.iags;
    let found = empty_place(&opened.view, &opened.map, 128 * iags)?;
    match found {
        Some(place) => Ok(Some(32 * place)),
        None => Ok(None),
    }
}
