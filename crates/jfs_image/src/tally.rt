//! Who owns the blocks of an image, and its lowest free inode.

ghost use Rattle.std.specs.Prelude.{◌≡◌, ◌+◌, ◌≤◌, IfOk, OnOk};
ghost use Rattle.jfs_disk.specs.Image.{page_of};
ghost use Rattle.jfs_reader.specs.objects.specs.Objects.{spelled};
ghost use Rattle.jfs_reader.specs.objects.specs.Owners.{holds};
ghost use Rattle.std.specs.Prelude.{Some};
ghost use Rattle.jfs_reader.specs.meaning.specs.Readers.{readers};
ghost use Rattle.jfs_reader.specs.meaning.specs.Room.{or_else};
ghost use Rattle.jfs_owners.specs.Counts.{Adds};
ghost use Rattle.jfs_image.specs.View.{image_of, blocks_in};
ghost use Rattle.jfs_image.specs.Standing.{IsReady};
ghost use Rattle.jfs_image.specs.Opened.{IsOpened};
ghost use Rattle.jfs_image.specs.Tallied.{IsTallied, TalliesNext, TallyIs};

use crate::area::{count_area, count_extents};
use crate::judged::judge;
use crate::opened::Opened;
use crate::standing::Judged;
use crate::tallied::Tally;
use crate::view::ListView;
use jfs_inode::Dinode;
use jfs_owners::Owners;
use jfs_ranges::PageView;
use jfs_reader::InodeMap;
use std::alloc::{AllocError, Global};

/// Counts the whole image; `None` only where it has no tree.
pub(crate) fn tally(alloc: Global, opened: &Opened<'_>) -> Result<Option<Tally>, AllocError>
    requires opened { IsOpened (image_of opened.now.view) opened.now }
    requires few { opened.now.map.iags ≤ 65536 }
    ensures { IfOk result (TallyIs (image_of opened.now.view) opened.now.map.iags) }
{
    let iags = opened.map.iags;
    let mut tally = start(alloc, opened)?;
    for n in 0..4096 * iags {
        if !count(alloc, &opened.view, &opened.map, n, &mut tally)? {
            return Ok(None);
        }
    }
    Ok(Some(tally))
}

/// Counts all but the objects.
fn start(alloc: Global, opened: &Opened<'_>) -> Result<Tally, AllocError>
    requires opened { IsOpened (image_of opened.now.view) opened.now }
    requires few { opened.now.map.iags ≤ 65536 }
    ensures { IfOk result (IsTallied (image_of opened.now.view) 0) }
{
    let mut owners = Owners::new(alloc, opened.view.blocks())?;
    let table = opened.superblock.ait2;
    let map = opened.superblock.aim2;
    count_area(&mut owners, &opened.view, table, map)?;
    count_extents(&mut owners, &opened.view, &opened.map)?;
    Ok(Tally { owners, free: None })
}

/// Counts what stands at number `n`; `false` only where the image has no tree.
fn count(
    alloc: Global,
    view: &ListView<'_>,
    map: &InodeMap,
    n: u32,
    tally: &mut Tally,
) -> Result<bool, AllocError>
    requires ready { IsReady view.now map.now }
    requires before { IsTallied (image_of view.now) n tally.old }
    ensures { IfOk result (TalliesNext (image_of view.now) (n + 1) tally.new) }
{
    match judge(alloc, view, map, n)? {
        Judged::Missing => Ok(true),
        Judged::Free => {
            tally.free = lowest_of(tally.free, n);
            Ok(true)
        }
        Judged::Sound(d) => {
            count_object(&mut tally.owners, view, &d)?;
            Ok(true)
        }
        Judged::Broken => Ok(false),
    }
}

/// The number that was met first.
fn lowest_of(first: Option<u32>, n: u32) -> Option<u32>
    ensures { result ≡ or_else first (Some n) }
{
    match first {
        Some(first) => Some(first),
        None => Some(n),
    }
}

fn count_object(owners: &mut Owners, view: &ListView<'_>, d: &Dinode) -> Result<(), AllocError>
    ensures { OnOk result (Adds (holds (readers (blocks_in view.now)) (Some (spelled (readers (blocks_in view.now)) (page_of (image_of view.now)) d.now))) owners.old owners.new) }
{
    let mut own = *view;
    match owners.add_object(&mut own, d) {
        Ok(()) => Ok(()),
        Err(_) => Err(AllocError),
    }
}
