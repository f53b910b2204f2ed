//! The first rule of a mount that is broken.

ghost use Rattle.std.specs.Prelude.{◌≡◌, ◌≤◌, ◌*◌, IfOk, length};
ghost use Rattle.jfs_disk.specs.Image.{page_of};
ghost use Rattle.jfs_ranges.specs.View.{CarriesCount};
ghost use Rattle.jfs_super.specs.Rules.{blocks_of};
ghost use Rattle.jfs_super.specs.declared.fields.Super.{Super};
ghost use Rattle.jfs_each.specs.Each.{AllFit};
ghost use Rattle.jfs_mount.specs.Files.{most_iags};
ghost use Rattle.jfs_mount.specs.Subject.{subject_of};
ghost use Rattle.jfs_mount.specs.Mount.{broken_mount};
ghost use Rattle.jfs_mount.specs.Steps.{FindsMaps, HasMaps, IsMounted, Mounts};

use crate::bad::BadMount;
use crate::extents::places_of;
use crate::files::read_maps;
use crate::maps::{Maps, Mounted};
use crate::numbers::{bad_bmap, bad_imap, bad_mapsize, bad_nextiag};
use crate::root::bad_root;
use jfs_ranges::{PageView, ViewError};
use std::alloc::Global;

/// The first rule that a mount finds broken on a volume, in the order bmap, imap, mapsize, nextiag, extents, root; `None` exactly where none is. Of the superblock
/// it needs the number of blocks alone, which the view has: an accepted superblock has 64 of them at least.
///
/// # Errors
///
/// A page could not be read, or memory ran out.
pub fn first_broken<V: PageView>(alloc: Global, view: &mut V) -> Result<Option<BadMount>, ViewError>
    requires { 15 ≤ V.PageView.block_count view.old }
    ensures image { V.PageView.tells → V.PageView.image view.new ≡ V.PageView.image view.old }
    ensures count_of_blocks { V.PageView.block_count view.new ≡ V.PageView.block_count view.old }
    ensures device { V.PageView.device view.new ≡ V.PageView.device view.old }
    ensures fault { CarriesCount (V.PageView.faults view.old) (V.PageView.faults view.new) result }
    ensures mount { V.PageView.tells → IfOk result (λ bad. (s : Super) → blocks_of s ≡ V.PageView.block_count view.old →
        bad ≡ broken_mount (subject_of s (page_of (V.PageView.image view.old)))) }
{
    match mounted(alloc, view)? {
        Ok(_) => Ok(None),
        Err(bad) => Ok(Some(bad)),
    }
}

/// The maps of a volume that breaks no rule of a mount, and the places of its inode extents; else the first rule that is broken, as `first_broken` has it. Each page
/// of the inode map is read once.
///
/// # Errors
///
/// A page could not be read, or memory ran out. A volume whose inode map has more than 128 pages and one for each 64 blocks, as where they name one extent over and
/// over, is answered as want of memory, unless it breaks a rule: `bmap` to `nextiag`, or `extents` on one of so many pages. So a mount takes memory for no more.
pub fn mounted<V: PageView>(
    alloc: Global,
    view: &mut V,
) -> Result<Result<Mounted, BadMount>, ViewError>
    requires { 15 ≤ V.PageView.block_count view.old }
    ensures image { V.PageView.tells → V.PageView.image view.new ≡ V.PageView.image view.old }
    ensures count_of_blocks { V.PageView.block_count view.new ≡ V.PageView.block_count view.old }
    ensures device { V.PageView.device view.new ≡ V.PageView.device view.old }
    ensures fault { CarriesCount (V.PageView.faults view.old) (V.PageView.faults view.new) result }
    ensures maps { IfOk result (λ answer. IfOk answer (IsMounted (V.PageView.block_count view.old))) }
    ensures mounts { V.PageView.tells → IfOk result (λ answer. (s : Super) → blocks_of s ≡ V.PageView.block_count view.old →
        Mounts (subject_of s (page_of (V.PageView.image view.old))) answer) }
{
    let found = match map_files(alloc, view)? {
        Ok(found) => found,
        Err(bad) => return Ok(Err(bad)),
    };
    match bad_root(view, &found.maps, found.places.as_slice())? {
        Some(bad) => Ok(Err(bad)),
        None => Ok(Ok(found)),
    }
}

/// The same but for the rule on the root: the maps of a volume that breaks no rule on them, `bmap` to `extents`, and the places of its inode extents; else the first of these rules that is broken.
/// Log redo looks at no other: the root may be one that it restores.
///
/// # Errors
///
/// As `mounted`.
pub fn map_files<V: PageView>(
    alloc: Global,
    view: &mut V,
) -> Result<Result<Mounted, BadMount>, ViewError>
    requires { 15 ≤ V.PageView.block_count view.old }
    ensures image { V.PageView.tells → V.PageView.image view.new ≡ V.PageView.image view.old }
    ensures count_of_blocks { V.PageView.block_count view.new ≡ V.PageView.block_count view.old }
    ensures device { V.PageView.device view.new ≡ V.PageView.device view.old }
    ensures fault { CarriesCount (V.PageView.faults view.old) (V.PageView.faults view.new) result }
    ensures maps { IfOk result (λ answer. IfOk answer (IsMounted (V.PageView.block_count view.old))) }
    ensures files { V.PageView.tells → IfOk result (λ answer. (s : Super) → blocks_of s ≡ V.PageView.block_count view.old →
        HasMaps (subject_of s (page_of (V.PageView.image view.old))) answer) }
{
    let maps = read_maps(alloc, view)?;
    match places_if_sound(alloc, view, &maps)? {
        Ok(places) => Ok(Ok(Mounted { maps, places })),
        Err(bad) => Ok(Err(bad)),
    }
}

/// The places of the inode extents, where the maps break no rule; else the first rule on them that is broken.
fn places_if_sound<V: PageView>(
    alloc: Global,
    view: &mut V,
    maps: &Maps,
) -> Result<Result<Vec<Option<u32>>, BadMount>, ViewError>
    requires { maps.now.blocks ≡ V.PageView.block_count view.old }
    ensures image { V.PageView.tells → V.PageView.image view.new ≡ V.PageView.image view.old }
    ensures count_of_blocks { V.PageView.block_count view.new ≡ V.PageView.block_count view.old }
    ensures device { V.PageView.device view.new ≡ V.PageView.device view.old }
    ensures fault { CarriesCount (V.PageView.faults view.old) (V.PageView.faults view.new) result }
    ensures few { IfOk result (λ answer. IfOk answer (λ places. maps.now.inodes.iags ≤ 65536)) }
    ensures bounded { IfOk result (λ answer. IfOk answer (λ places. maps.now.inodes.iags ≤ most_iags maps.now.blocks)) }
    ensures all { IfOk result (λ answer. IfOk answer (λ places. length places.items ≡ 128 * maps.now.inodes.iags)) }
    ensures fit { IfOk result (λ answer. IfOk answer (λ places. AllFit maps.now.blocks places.items)) }
    ensures finds { V.PageView.tells → IfOk result (FindsMaps (V.PageView.image view.old) maps.now) }
{
    if let Some(bad) = bad_bmap(maps) {
        return Ok(Err(bad));
    }
    if let Some(bad) = bad_imap(maps) {
        return Ok(Err(bad));
    }
    if let Some(bad) = bad_mapsize(view, maps)? {
        return Ok(Err(bad));
    }
    if let Some(bad) = bad_nextiag(maps) {
        return Ok(Err(bad));
    }
    places_of(alloc, view, maps)
}
