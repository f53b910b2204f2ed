//! The owners of blocks outside of objects.

ghost use Rattle.std.specs.Prelude.{◌≡◌, ◌≤◌, OnOk, IfOk};
ghost use Rattle.jfs_disk.specs.Image.{page_of};
ghost use Rattle.jfs_reader.specs.objects.specs.Owners.{extent_has, extents_have};
ghost use Rattle.jfs_reader.specs.objects.specs.Image.{area_on, extent_on, extents_on};
ghost use Rattle.jfs_reader.specs.meaning.specs.Readers.{readers};
ghost use Rattle.jfs_owners.specs.Counts.{Adds};
ghost use Rattle.jfs_image.specs.View.{image_of, blocks_in};
ghost use Rattle.jfs_image.specs.Standing.{IsReady};

use crate::view::ListView;
use jfs_bits::Pxd;
use jfs_owners::Owners;
use jfs_reader::{InodeMap, ReadError};
use std::alloc::AllocError;

/// Counts the fixed areas.
pub(crate) fn count_area(
    owners: &mut Owners,
    view: &ListView<'_>,
    table: Pxd,
    map: Pxd,
) -> Result<(), AllocError>
    requires { 15 ≤ blocks_in view.now }
    ensures { OnOk result (Adds (area_on (readers (blocks_in view.now)) table map (page_of (image_of view.now))) owners.old owners.new) }
{
    let mut own = *view;
    match owners.add_area(&mut own, table, map) {
        Ok(()) => Ok(()),
        Err(_) => Err(AllocError),
    }
}

/// Counts the inode extents.
pub(crate) fn count_extents(
    owners: &mut Owners,
    view: &ListView<'_>,
    map: &InodeMap,
) -> Result<(), AllocError>
    requires ready { IsReady view.now map.now }
    requires few { map.now.iags ≤ 65536 }
    ensures { OnOk result (Adds (extents_have (extents_on (readers (blocks_in view.now)) (page_of (image_of view.now)))) owners.old owners.new) }
{
    let iags = map.iags;
    for e in 0..128 * iags {
        count_extent(owners, view, map, e)?;
    }
    Ok(())
}

fn count_extent(
    owners: &mut Owners,
    view: &ListView<'_>,
    map: &InodeMap,
    e: u32,
) -> Result<(), AllocError>
    requires { IsReady view.now map.now }
    ensures { OnOk result (Adds (extent_has (extent_on (readers (blocks_in view.now)) (page_of (image_of view.now)) e)) owners.old owners.new) }
{
    match extent_at(view, map, e)? {
        Some(addr) => {
            owners.add(Pxd { len: 4, addr });
            Ok(())
        }
        None => Ok(()),
    }
}

/// The first block of inode extent `e`, where it is there.
pub(crate) fn extent_at(
    view: &ListView<'_>,
    map: &InodeMap,
    e: u32,
) -> Result<Option<u64>, AllocError>
    requires { IsReady view.now map.now }
    ensures { IfOk result (λ place. place ≡ extent_on (readers (blocks_in view.now)) (page_of (image_of view.now)) e) }
{
    let mut own = *view;
    match map.extent(&mut own, e) {
        Ok(place) => Ok(place),
        Err(ReadError::View(_)) => Err(AllocError),
        Err(ReadError::Outside) => unreachable!(),
    }
}
