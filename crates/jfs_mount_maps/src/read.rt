//! Both maps of a volume that breaks no rule of a mount.

ghost use Rattle.std.specs.Prelude.{◌≡◌, ◌≤◌, ◌*◌, ◌^◌, length, map, IfOk, Ok};
ghost use Rattle.jfs_disk.specs.Image.{page_of};
ghost use Rattle.jfs_ranges.specs.View.{CarriesCount};
ghost use Rattle.jfs_super.specs.Geometry.{geometry_of, IsLayout};
ghost use Rattle.jfs_super.specs.declared.fields.Super.{Super};
ghost use Rattle.jfs_imap.specs.Inodes.{inodes_of};
ghost use Rattle.jfs_sets.specs.each.specs.Each.{AllFit};
ghost use Rattle.jfs_sets.specs.mount_rules.specs.Subject.{subject_of};
ghost use Rattle.jfs_sets.specs.mount_rules.specs.Steps.{AreRead, IsMounted, Mounts};
ghost use Rattle.jfs_sets.specs.Sets.{extent_from};
ghost use Rattle.jfs_claim.specs.way.specs.Volume.{PlacesWithin};
ghost use Rattle.jfs_claim.specs.room.specs.Laws.{blocks_in};
ghost use Rattle.jfs_mount_maps.specs.Maps.{IsIdle, blocks_on, inodes_on, groups_of};

use crate::placed::keep_placed;
use jfs_bmap::BlockMap;
use jfs_imap::InodeMap;
use jfs_ranges::{PageView, ViewError};
use jfs_sets::mount_rules::{Maps, Mounted};
use jfs_sets::{inode_extents, used_blocks, used_inodes};
use jfs_super::Geometry;
use std::alloc::{AllocError, Global};

/// The block map: each block has an owner where its bit is set, and the others are free.
pub(crate) fn block_map_of<V: PageView>(
    alloc: Global,
    view: &mut V,
    layout: Geometry,
    maps: &Maps,
) -> Result<BlockMap, ViewError>
    requires layout { IsLayout layout }
    requires part { layout.blocks ≡ V.PageView.block_count view.old }
    requires blocks { maps.now.blocks ≡ V.PageView.block_count view.old }
    ensures image { V.PageView.tells → V.PageView.image view.new ≡ V.PageView.image view.old }
    ensures count_of_blocks { V.PageView.block_count view.new ≡ V.PageView.block_count view.old }
    ensures device { V.PageView.device view.new ≡ V.PageView.device view.old }
    ensures fault { CarriesCount (V.PageView.faults view.old) (V.PageView.faults view.new) result }
    ensures number { IfOk result (λ m. blocks_in m ≡ V.PageView.block_count view.old) }
    ensures idle { IfOk result IsIdle }
    ensures blocks { V.PageView.tells → IfOk result (λ m. (s : Super) → geometry_of s ≡ layout → AreRead (subject_of s (page_of (V.PageView.image view.old))) maps.now →
        m ≡ blocks_on (subject_of s (page_of (V.PageView.image view.old)))) }
{
    let set = used_blocks(alloc, view, maps)?;
    match BlockMap::from_set(alloc, set.as_slice(), maps.blocks, layout.agsize) {
        Ok(map) => Ok(map),
        Err(_) => Err(ViewError::Memory),
    }
}

/// The inode map: each inode whose extent is there is in use where its bit is set, and the others are free.
pub(crate) fn inode_map_of<V: PageView>(
    alloc: Global,
    view: &mut V,
    layout: Geometry,
    mounted: &Mounted,
) -> Result<InodeMap, ViewError>
    requires layout { IsLayout layout }
    requires part { layout.blocks ≡ V.PageView.block_count view.old }
    requires mounted { IsMounted (V.PageView.block_count view.old) mounted.now }
    ensures image { V.PageView.tells → V.PageView.image view.new ≡ V.PageView.image view.old }
    ensures count_of_blocks { V.PageView.block_count view.new ≡ V.PageView.block_count view.old }
    ensures device { V.PageView.device view.new ≡ V.PageView.device view.old }
    ensures fault { CarriesCount (V.PageView.faults view.old) (V.PageView.faults view.new) result }
    ensures number { IfOk result (λ m. m.iags ≡ mounted.now.maps.inodes.iags) }
    ensures places { IfOk result (λ m. length m.extents ≤ 2 ^ 23) }
    ensures within { IfOk result (PlacesWithin (V.PageView.block_count view.old)) }
    ensures inodes { V.PageView.tells → IfOk result (λ m. (s : Super) → geometry_of s ≡ layout → Mounts (subject_of s (page_of (V.PageView.image view.old))) (Ok mounted.now) →
        m ≡ inodes_on (subject_of s (page_of (V.PageView.image view.old)))) }
{
    let maps = &mounted.maps;
    let places = mounted.places.as_slice();
    let iags = maps.inodes.iags;
    // A mount takes no map without pages; but that is known only where the view tells its pages.
    if iags == 0 {
        return Err(ViewError::Memory);
    }
    let mut set = used_inodes(alloc, view, maps)?;
    keep_placed(set.as_mut_slice(), places);
    match inode_map_with(alloc, set.as_slice(), places, iags, layout) {
        Ok(map) => Ok(map),
        Err(_) => Err(ViewError::Memory),
    }
}

/// The inode map of a volume with this layout, of these inodes and with extents at these places. `Err` is want of memory.
pub fn inode_map_with(
    alloc: Global,
    set: &[u8],
    places: &[Option<u32>],
    iags: u32,
    layout: Geometry,
) -> Result<InodeMap, AllocError>
    requires layout { IsLayout layout }
    requires iags { (1 ≤ iags) × (iags ≤ 65536) }
    requires set { length set.now ≡ 512 * iags }
    requires places { length places.now ≡ 128 * iags }
    requires fit { AllFit layout.blocks places.now }
    ensures { IfOk result (λ m. m ≡ inodes_of set.now (map extent_from places.now) iags layout.agsize (groups_of layout)) }
{
    let extents = inode_extents(alloc, places)?;
    let numag = layout.blocks.div_ceil(layout.agsize);
    InodeMap::from_parts(alloc, set, &extents, iags, layout.agsize, numag)
}
