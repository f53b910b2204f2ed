//! The rule on inode extents, and where they are.

ghost use Rattle.std.specs.Prelude.{◌≡◌, ◌≤◌, ◌<◌, ◌+◌, ◌*◌, IfOk, true, [], is_some, length, unwrap_or, ℕ};
ghost use Rattle.jfs_bits.specs.Descriptor.{FitsPxd};
ghost use Rattle.jfs_disk.specs.Image.{page_of};
ghost use Rattle.jfs_reader.specs.objects.specs.Contents.{block_of, bytes_at};
ghost use Rattle.jfs_each.specs.Each.{AllFit};
ghost use Rattle.jfs_ranges.specs.View.{CarriesCount};
ghost use Rattle.jfs_mount.specs.Files.{IsWithin, IsPlace, AddsIag, most_iags};
ghost use Rattle.jfs_mount.specs.Steps.{FindsPlaces};

use crate::bad::BadMount;
use crate::blocks::{ends_within, from_block, page_at, page_or_zero};
use crate::maps::Maps;
use jfs_bits::{Pxd, Rule, Xad, get_pxd};
use jfs_disk::Page;
use jfs_ranges::{PageView, ViewError};
use std::alloc::{AllocError, Global};

/// The number of pages of the inode map (IAGs) up to which a volume of so many blocks is looked at. A look keeps a place for each of a page's 128 extents, so what it
/// takes is bounded by the volume.
fn most_iags(blocks: u32) -> u32
    ensures { result ≡ most_iags blocks }
{
    128 + blocks / 64
}

/// The first block of each inode extent that is there, where all of them have four blocks of the file system part. Each page of the inode map is read once. Where there
/// are more of them than inodes can need, the look ends with want of memory, unless a page before breaks the rule.
pub(crate) fn places_of<V: PageView>(
    alloc: Global,
    view: &mut V,
    maps: &Maps,
) -> Result<Result<Vec<Option<u32>>, BadMount>, ViewError>
    requires blocks { maps.now.blocks ≡ V.PageView.block_count view.old }
    requires few { maps.now.inodes.iags ≤ 65536 }
    requires covered { (j : ℕ) → j ≤ maps.now.inodes.iags → is_some (block_of maps.now.inodes.extents j) ≡ true }
    ensures image { V.PageView.tells → V.PageView.image view.new ≡ V.PageView.image view.old }
    ensures count_of_blocks { V.PageView.block_count view.new ≡ V.PageView.block_count view.old }
    ensures device { V.PageView.device view.new ≡ V.PageView.device view.old }
    ensures fault { CarriesCount (V.PageView.faults view.old) (V.PageView.faults view.new) result }
    ensures bounded { IfOk result (λ answer. IfOk answer (λ places. maps.now.inodes.iags ≤ most_iags maps.now.blocks)) }
    ensures all { IfOk result (λ answer. IfOk answer (λ places. length places.items ≡ 128 * maps.now.inodes.iags)) }
    ensures fit { IfOk result (λ answer. IfOk answer (λ places. AllFit maps.now.blocks places.items)) }
    ensures finds { V.PageView.tells → IfOk result (FindsPlaces (V.PageView.image view.old) maps.now) }
{
    let iags = maps.inodes.iags;
    let most = most_iags(maps.blocks);
    let mut places = match Vec::with_capacity(alloc, 128 * iags.min(most) as usize) {
        Ok(places) => places,
        Err(_) => return Err(ViewError::Memory),
    };
    let mut rest = maps.inodes.extents.as_slice();
    for i in 0..iags {
        if i >= most {
            return Err(ViewError::Memory);
        }
        let j = u64::from(i) + 1;
        rest = from_block(rest, j);
        if let Some(value) = add_iag(view, rest, j, &mut places)? {
            return Ok(Err(BadMount {
                rule: Rule::Extents,
                page: page_or_zero(rest, maps.blocks, j),
                value,
            }));
        }
    }
    Ok(Ok(places))
}

/// Adds the places of the inode extents of the IAG on page `j` of the map's file. Where one of them doesn't fit, its first block is given.
fn add_iag<V: PageView>(
    view: &mut V,
    extents: &[Xad],
    j: u64,
    places: &mut Vec<Option<u32>>,
) -> Result<Option<u64>, ViewError>
    requires within { IsWithin (V.PageView.block_count view.old) (block_of extents.now j) }
    requires covered { is_some (block_of extents.now j) ≡ true }
    ensures image { V.PageView.tells → V.PageView.image view.new ≡ V.PageView.image view.old }
    ensures count_of_blocks { V.PageView.block_count view.new ≡ V.PageView.block_count view.old }
    ensures device { V.PageView.device view.new ≡ V.PageView.device view.old }
    ensures fault { CarriesCount (V.PageView.faults view.old) (V.PageView.faults view.new) result }
    ensures fit { IfOk result (λ misfit. AllFit (V.PageView.block_count view.old) places.old.items → AllFit (V.PageView.block_count view.old) places.new.items) }
    ensures all { IfOk result (λ misfit. misfit ≡ None → length places.new.items ≡ length places.old.items + 128) }
    ensures adds { V.PageView.tells → IfOk result
        (AddsIag (V.PageView.block_count view.old) (unwrap_or (bytes_at (page_of (V.PageView.image view.old)) (block_of extents.now j)) []) places.old.items places.new.items) }
{
    let blocks = view.blocks();
    let Some(n) = page_at(extents, blocks, j) else {
        unreachable!()
    };
    match view.page(n) {
        Ok(page) => match add_places(page, blocks, places) {
            Ok(misfit) => Ok(misfit),
            Err(_) => Err(ViewError::Memory),
        },
        Err(e) => Err(e),
    }
}

/// Adds the places of the inode extents in an IAG's page, up to the first that doesn't fit, whose first block is given.
fn add_places(
    page: &Page,
    blocks: u32,
    places: &mut Vec<Option<u32>>,
) -> Result<Option<u64>, AllocError>
    ensures fit { IfOk result (λ misfit. AllFit blocks places.old.items → AllFit blocks places.new.items) }
    ensures adds { IfOk result (AddsIag blocks page.now.0 places.old.items places.new.items) }
{
    let bytes = page.bytes();
    for k in 0..128 {
        match place_in(get_pxd(bytes, 3072 + 8 * k), blocks) {
            Ok(place) => places.push(place)?,
            Err(first) => return Ok(Some(first)),
        }
    }
    Ok(None)
}

/// The first block of an inode extent that is there and has four blocks of so many; of one that hasn't, as an error.
fn place_in(extent: Pxd, blocks: u32) -> Result<Option<u32>, u64>
    requires { FitsPxd extent }
    ensures { IsPlace blocks extent result }
{
    if extent.len == 0 && extent.addr == 0 {
        return Ok(None);
    }
    if extent.len == 4 && ends_within(extent.addr, 4, u64::from(blocks)) {
        return Ok(Some(extent.addr as u32));
    }
    Err(extent.addr)
}
