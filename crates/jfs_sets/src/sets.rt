//! The sets of a volume, read from its maps.

ghost use Rattle.std.specs.Prelude.{◌≡◌, ◌≤◌, ◌*◌, ◌%◌, ◌^◌, map, length, IfOk};
ghost use Rattle.jfs_ranges.specs.View.{CarriesCount};
ghost use Rattle.jfs_sets.specs.Sets.{AreUsedBlocks, AreUsedInodes, extent_from};

use crate::parts::read_parts;
use jfs_bits::{Pxd, PxdList};
use jfs_mount::Maps;
use jfs_ranges::{PageView, ViewError};
use std::alloc::{AllocError, Global};

/// A bit for each block of the file system part, in words as in the maps: set where the block is in use.
///
/// # Errors
///
/// A page could not be read, or memory ran out.
pub fn used_blocks<V: PageView>(
    alloc: Global,
    view: &mut V,
    maps: &Maps,
) -> Result<Vec<u8>, ViewError>
    requires blocks { maps.now.blocks ≡ V.PageView.block_count view.old }
    requires most { maps.now.blocks ≤ 2 ^ 23 }
    ensures image { V.PageView.tells → V.PageView.image view.new ≡ V.PageView.image view.old }
    ensures count_of_blocks { V.PageView.block_count view.new ≡ V.PageView.block_count view.old }
    ensures device { V.PageView.device view.new ≡ V.PageView.device view.old }
    ensures fault { CarriesCount (V.PageView.faults view.old) (V.PageView.faults view.new) result }
    ensures size { IfOk result (λ set. maps.now.blocks ≤ 8 * length set.items) }
    ensures words { IfOk result (λ set. length set.items % 4 ≡ 0) }
    ensures used { V.PageView.tells → IfOk result (λ set. AreUsedBlocks (V.PageView.image view.old) maps.now set.items) }
{
    let dmaps = maps.blocks.div_ceil(8192);
    read_parts::<1024, V>(alloc, view, maps.block_map.as_slice(), 4, dmaps, 3072)
}

/// The bit of each inode that there is a place for, in words as in the maps. An inode whose extent isn't there isn't in use, whatever its bit is.
///
/// # Errors
///
/// A page could not be read, or memory ran out.
pub fn used_inodes<V: PageView>(
    alloc: Global,
    view: &mut V,
    maps: &Maps,
) -> Result<Vec<u8>, ViewError>
    requires blocks { maps.now.blocks ≡ V.PageView.block_count view.old }
    ensures image { V.PageView.tells → V.PageView.image view.new ≡ V.PageView.image view.old }
    ensures count_of_blocks { V.PageView.block_count view.new ≡ V.PageView.block_count view.old }
    ensures device { V.PageView.device view.new ≡ V.PageView.device view.old }
    ensures fault { CarriesCount (V.PageView.faults view.old) (V.PageView.faults view.new) result }
    ensures size { IfOk result (λ set. length set.items ≡ 512 * maps.now.inodes.iags) }
    ensures used { V.PageView.tells → IfOk result (λ set. AreUsedInodes (V.PageView.image view.old) maps.now set.items) }
{
    let inodes = &maps.inodes;
    read_parts::<512, V>(alloc, view, inodes.extents.as_slice(), 1, inodes.iags, 2560)
}

/// The inode extents at these places: four blocks each, and a descriptor of zeros where none is there.
pub fn inode_extents(alloc: Global, places: &[Option<u32>]) -> Result<PxdList, AllocError>
    ensures { IfOk result (λ list. list ≡ map extent_from places.now) }
{
    let mut list = PxdList::new(alloc);
    for place in places {
        list.push(extent_from(*place))?;
    }
    Ok(list)
}

/// An inode extent of four blocks, or a descriptor of zeros.
fn extent_from(place: Option<u32>) -> Pxd
    ensures { result ≡ extent_from place }
{
    match place {
        Some(first) => Pxd {
            len: 4,
            addr: u64::from(first),
        },
        None => Pxd { len: 0, addr: 0 },
    }
}
