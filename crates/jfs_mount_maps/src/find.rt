//! The maps of a volume that is to be mounted.

ghost use Rattle.std.specs.Prelude.{◌≡◌, ◌≤◌, ℕ, IfOk};
ghost use Rattle.jfs_disk.specs.Image.{page_of};
ghost use Rattle.jfs_disk.specs.declared.disk.Part.TheVariants.{Whole};
ghost use Rattle.jfs_ranges.specs.View.{CarriesCount};
ghost use Rattle.jfs_super.specs.Rules.{IsAccepted, blocks_of};
ghost use Rattle.jfs_super.specs.Geometry.{geometry_of, IsLayout};
ghost use Rattle.jfs_super.specs.declared.fields.Super.{Super};
ghost use Rattle.jfs_sets.specs.mount_rules.specs.Subject.{subject_of};
ghost use Rattle.jfs_mount_maps.specs.Maps.{AreAtRest, CarriesMaps, Finds, FindsMaps};

use crate::found::{FoundMaps, MapsError};
use crate::places::files_of;
use crate::read::{block_map_of, inode_map_of};
use jfs_disk::{Disk, Part};
use jfs_ranges::{PageView, ViewError};
use jfs_sets::mount_rules::{BadMount, mounted};
use jfs_sets::reader::DiskView;
use jfs_super::{Geometry, Super, geometry};
use std::alloc::Global;

/// Both maps, where no rule of a mount is broken; else the first one that is.
fn read_maps<V: PageView>(
    alloc: Global,
    view: &mut V,
    layout: Geometry,
) -> Result<Result<FoundMaps, BadMount>, ViewError>
    requires layout { IsLayout layout }
    requires part { layout.blocks ≡ V.PageView.block_count view.old }
    ensures image { V.PageView.tells → V.PageView.image view.new ≡ V.PageView.image view.old }
    ensures count_of_blocks { V.PageView.block_count view.new ≡ V.PageView.block_count view.old }
    ensures device { V.PageView.device view.new ≡ V.PageView.device view.old }
    ensures fault { CarriesCount (V.PageView.faults view.old) (V.PageView.faults view.new) result }
    ensures rest { IfOk result (λ answer. IfOk answer (AreAtRest layout)) }
    ensures finds { V.PageView.tells → IfOk result (λ answer. (s : Super) → geometry_of s ≡ layout → Finds (subject_of s (page_of (V.PageView.image view.old))) answer) }
{
    let mounted = match mounted(alloc, view)? {
        Ok(mounted) => mounted,
        Err(bad) => return Ok(Err(bad)),
    };
    let blocks = block_map_of(alloc, view, layout, &mounted.maps)?;
    let inodes = inode_map_of(alloc, view, layout, &mounted)?;
    match files_of(alloc, &mounted.maps) {
        Ok(files) => Ok(Ok(FoundMaps {
            blocks,
            inodes,
            file_limit: layout.file_limit,
            files,
        })),
        Err(_) => Err(ViewError::Memory),
    }
}

/// The block map and the inode map in memory, of a volume that a mount takes. The maps are exactly the image's: the volume that the pages and these maps are is the one that the
/// image spells, whatever its pages of the maps have beside the bits and the extents. Only reads the volume.
///
/// Each page of both maps is read twice at most. Beside the maps it takes the extents of their files, a bit for each block and each inode, and 21 bytes for each inode extent that there
/// is a place for.
///
/// # Errors
///
/// The first rule of a mount that is broken, in the order bmap, imap, mapsize, nextiag, extents, root, with its page and the value there; a page that could not be read; or memory ran
/// out. A volume whose inode map has more pages than inodes can need is answered as want of memory, unless it breaks a rule before.
pub fn find_maps<V: PageView>(
    alloc: Global,
    view: &mut V,
    s: &Super,
) -> Result<FoundMaps, MapsError>
    requires accepted { (pages : ℕ) × IsAccepted s.now pages }
    requires part { blocks_of s.now ≡ V.PageView.block_count view.old }
    ensures image { V.PageView.tells → V.PageView.image view.new ≡ V.PageView.image view.old }
    ensures count_of_blocks { V.PageView.block_count view.new ≡ V.PageView.block_count view.old }
    ensures device { V.PageView.device view.new ≡ V.PageView.device view.old }
    ensures fault { CarriesMaps (V.PageView.faults view.old) (V.PageView.faults view.new) result }
    ensures rest { IfOk result (AreAtRest (geometry_of s.now)) }
    ensures maps { V.PageView.tells → FindsMaps (subject_of s.now (page_of (V.PageView.image view.old))) result }
{
    match read_maps(alloc, view, geometry(s)) {
        Ok(Ok(found)) => Ok(found),
        Ok(Err(bad)) => Err(MapsError::BadImage(bad)),
        Err(ViewError::Read(fault)) => Err(MapsError::Read(fault)),
        Err(ViewError::Memory) => Err(MapsError::Memory),
    }
}

/// The same of a view of a disk; it keeps its loan of the disk.
fn find_in_loan<'a, D: Disk>(
    alloc: Global,
    view: &mut DiskView<'a, D>,
    s: &Super,
) -> Result<FoundMaps, MapsError>
    requires accepted { (pages : ℕ) × IsAccepted s.now pages }
    requires part { blocks_of s.now ≡ view.old.blocks }
    ensures loan { view.new.disk.ghost_name ≡ view.old.disk.ghost_name }
    ensures image { D.tells → D.image view.new.disk.now ≡ D.image view.old.disk.now }
    ensures pages { D.page_count view.new.disk.now ≡ D.page_count view.old.disk.now }
    ensures room { D.room view.new.disk.now ≡ D.room view.old.disk.now }
    ensures past { D.tells_crashes → D.past view.new.disk.now ≡ D.past view.old.disk.now }
    ensures fault { CarriesMaps (record { part = view.old.part; count = D.fault_count view.old.disk.now }) (record { part = view.new.part; count = D.fault_count view.new.disk.now }) result }
    ensures rest { IfOk result (AreAtRest (geometry_of s.now)) }
    ensures maps { D.tells → FindsMaps (subject_of s.now (page_of (D.image view.old.disk.now))) result }
{
    find_maps(alloc, view, s)
}

/// The maps of the volume of a disk, whose superblock is accepted, as `find_maps` has them. Nothing is written.
///
/// # Errors
///
/// As `find_maps`; a fault is the whole disk's.
pub fn find_maps_on<D: Disk>(alloc: Global, disk: &mut D, s: &Super) -> Result<FoundMaps, MapsError>
    requires accepted { IsAccepted s.now (D.page_count disk.old) }
    ensures pages { D.page_count disk.new ≡ D.page_count disk.old }
    ensures room { D.room disk.new ≡ D.room disk.old }
    ensures image { D.tells → D.image disk.new ≡ D.image disk.old }
    ensures past { D.tells_crashes → D.past disk.new ≡ D.past disk.old }
    ensures fault { CarriesMaps (record { part = Whole; count = D.fault_count disk.old }) (record { part = Whole; count = D.fault_count disk.new }) result }
    ensures later { D.fault_count disk.old ≤ D.fault_count disk.new }
    ensures rest { IfOk result (AreAtRest (geometry_of s.now)) }
    ensures maps { D.tells → FindsMaps (subject_of s.now (page_of (D.image disk.old))) result }
{
    let _faults = disk.faults();
    let layout = geometry(s);
    let mut view = DiskView::new(disk, Part::Whole, layout.blocks);
    find_in_loan(alloc, &mut view, s)
}
