//! Where the pages of the maps' files lie.

ghost use Rattle.std.specs.Prelude.{◌≡◌, ◌≤◌, ◌<◌, ◌^◌, ℕ, false, length, slice_get, IfOk};
ghost use Rattle.jfs_bmap.specs.MapFile.{pages_of};
ghost use Rattle.jfs_map_files.specs.Places.{AreWithin};
ghost use Rattle.jfs_map_files.specs.Files.{AreFilesOf};
ghost use Rattle.jfs_sets.specs.mount_rules.specs.Files.{LieWithin};
ghost use Rattle.jfs_sets.specs.objects.specs.Contents.{block_of};
ghost use Rattle.jfs_mount_maps.specs.Places.{ArePlacesOf};

use jfs_bits::Xad;
use jfs_map_files::{MapFile, MapFiles};
use jfs_sets::mount_rules::Maps;
use jfs_sets::reader::page_of_block;
use std::alloc::{AllocError, Global};

/// The blocks of the first pages of a file that has these extents, in their order. A page without a block is answered as want of memory: the rules of a mount leave none.
fn places_in(
    alloc: Global,
    extents: &[Xad],
    blocks: u32,
    pages: u32,
) -> Result<Vec<u32>, AllocError>
    ensures size { IfOk result (λ places. length places.items ≡ pages) }
    ensures within { IfOk result (λ places. AreWithin blocks places.items) }
    ensures places { IfOk result (λ places. ArePlacesOf extents.now places.items) }
{
    let mut places = Vec::new(alloc);
    for j in 0..pages {
        match page_of_block(extents, blocks, u64::from(j)) {
            Ok(Some(n)) => places.push(n)?,
            Ok(None) | Err(_) => return Err(AllocError),
        }
    }
    Ok(places)
}

/// Where the pages of both maps' files lie.
pub(crate) fn files_of(alloc: Global, maps: &Maps) -> Result<MapFiles, AllocError>
    requires most { maps.now.blocks ≤ 2 ^ 23 }
    requires iags { maps.now.inodes.iags ≤ 65536 }
    ensures files { IfOk result (AreFilesOf maps.now.blocks (pages_of maps.now.blocks) maps.now.inodes.iags) }
    ensures blocks { IfOk result (λ files. ArePlacesOf maps.now.block_map files.blocks.places) }
    ensures inodes { IfOk result (λ files. ArePlacesOf maps.now.inodes.extents files.inodes.places) }
    ensures fresh { IfOk result (λ files. (files.blocks.stale ≡ false) × (files.inodes.stale ≡ false)) }
{
    let blocks = maps.blocks;
    let pages = 4 + blocks.div_ceil(8192);
    let inodes = &maps.inodes;
    let iags = inodes.iags;
    let block_places = places_in(alloc, maps.block_map.as_slice(), blocks, pages)?;
    let inode_places = places_in(alloc, inodes.extents.as_slice(), blocks, iags + 1)?;
    Ok(MapFiles {
        blocks: MapFile::new(block_places),
        inodes: MapFile::new(inode_places),
    })
}
