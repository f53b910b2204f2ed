//! A volume, checked.

ghost use Rattle.std.specs.Prelude.{◌≡◌, ◌≤◌, [], IfOk};
ghost use Rattle.jfs_disk.specs.Image.{page_of};
ghost use Rattle.jfs_disk.specs.declared.disk.Part.TheVariants.{Whole};
ghost use Rattle.jfs_ranges.specs.View.{CarriesCount};
ghost use Rattle.jfs_super.specs.Rules.{IsAccepted, blocks_of};
ghost use Rattle.jfs_super.specs.Geometry.{geometry_of, IsLayout};
ghost use Rattle.jfs_findings.specs.mount_rules.specs.Subject.{subject_of};
ghost use Rattle.jfs_findings.specs.Findings.{AreFindings};
ghost use Rattle.jfs_check.specs.Checked.{IsChecked, CarriesCheck, AreCounted};

use crate::checked::{CheckError, Checked};
use crate::examine::examine;
use crate::metered::Metered;
use jfs_disk::{Disk, Part};
use jfs_findings::reader::DiskView;
use jfs_ranges::{PageView, ViewError};
use jfs_super::{Super, geometry};
use std::alloc::Global;

/// The number of pages that a check of a volume of so many blocks may ask for. A page that one place names is asked for twice, and one of the maps four times at most: to pass more, a volume has to name
/// pages over and over, as where the roots of many inodes name one tree.
fn most_pages(blocks: u32) -> u64 {
    8 * u64::from(blocks)
}

/// The answer over a view of which so many pages may be asked for; it keeps its loan of the view below.
fn examine_metered<'a, V: PageView>(
    alloc: Global,
    metered: &mut Metered<'a, V>,
    s: &Super,
) -> Result<Checked, ViewError>
    requires layout { IsLayout (geometry_of s.now) }
    requires part { blocks_of s.now ≡ V.PageView.block_count metered.old.view.now }
    ensures loan { metered.new.view.ghost_name ≡ metered.old.view.ghost_name }
    ensures image { V.PageView.tells → V.PageView.image metered.new.view.now ≡ V.PageView.image metered.old.view.now }
    ensures count_of_blocks { V.PageView.block_count metered.new.view.now ≡ V.PageView.block_count metered.old.view.now }
    ensures device { V.PageView.device metered.new.view.now ≡ V.PageView.device metered.old.view.now }
    ensures fault { CarriesCount (V.PageView.faults metered.old.view.now) (V.PageView.faults metered.new.view.now) result }
    ensures checked { V.PageView.tells → IfOk result (IsChecked (subject_of s.now (page_of (V.PageView.image metered.old.view.now)))) }
{
    examine(alloc, metered, s)
}

/// Everything that is wrong with the volume of a view, in order; and, of one that a mount takes, how many blocks are free and how many inodes are in use.
/// Only reads it.
///
/// # Errors
///
/// A page could not be read, or memory ran out. It refuses the same volumes as `check`, as want of memory.
pub fn check_view<V: PageView>(
    alloc: Global,
    view: &mut V,
    s: &Super,
) -> Result<Checked, CheckError>
    requires layout { IsLayout (geometry_of s.now) }
    requires part { blocks_of s.now ≡ V.PageView.block_count view.old }
    ensures image { V.PageView.tells → V.PageView.image view.new ≡ V.PageView.image view.old }
    ensures count_of_blocks { V.PageView.block_count view.new ≡ V.PageView.block_count view.old }
    ensures device { V.PageView.device view.new ≡ V.PageView.device view.old }
    ensures fault { CarriesCheck (V.PageView.faults view.old) (V.PageView.faults view.new) result }
    ensures checked { V.PageView.tells → IfOk result (IsChecked (subject_of s.now (page_of (V.PageView.image view.old)))) }
{
    let most = most_pages(view.blocks());
    let mut metered = Metered::new(view, most);
    match examine_metered(alloc, &mut metered, s) {
        Ok(checked) => Ok(checked),
        Err(ViewError::Read(fault)) => Err(CheckError::Read(fault)),
        Err(ViewError::Memory) => Err(CheckError::Memory),
    }
}

/// The same of a view of a disk; it keeps its loan of the disk.
fn check_loan<'a, D: Disk>(
    alloc: Global,
    view: &mut DiskView<'a, D>,
    s: &Super,
) -> Result<Checked, CheckError>
    requires layout { IsLayout (geometry_of s.now) }
    requires part { blocks_of s.now ≡ view.old.blocks }
    ensures loan { view.new.disk.ghost_name ≡ view.old.disk.ghost_name }
    ensures image { D.tells → D.image view.new.disk.now ≡ D.image view.old.disk.now }
    ensures pages { D.page_count view.new.disk.now ≡ D.page_count view.old.disk.now }
    ensures past { D.tells_crashes → D.past view.new.disk.now ≡ D.past view.old.disk.now }
    ensures fault { CarriesCheck (record { part = view.old.part; count = D.fault_count view.old.disk.now }) (record { part = view.new.part; count = D.fault_count view.new.disk.now }) result }
    ensures checked { D.tells → IfOk result (IsChecked (subject_of s.now (page_of (D.image view.old.disk.now)))) }
{
    check_view(alloc, view, s)
}

/// Everything that is wrong with the volume of a disk, in order, where its superblock is accepted; and, of one that a mount takes, how many blocks are free
/// and how many inodes are in use. Of a volume that breaks a rule of a mount this is the only finding. Nothing is written.
///
/// Each page is read twice at most for each tree or place that names it; one page is held at a time, and of a tree that is walked through one a level. Beside the
/// findings, of which those of names are held twice at the end, it takes two bits a block and 21 bytes for each inode that there is a place for, half a byte a
/// block while the block map is compared, the pages of two levels of one extent tree, and the extents of the files of both maps.
///
/// # Errors
///
/// The disk failed, or memory ran out. Two kinds of volumes are answered as want of memory, so the pages that a check asks for are bounded by the volume: one whose inode map has
/// more than 128 pages and one for each 64 blocks, as where they name one extent over and over; and one of which more pages would be asked for than eight times its blocks, as
/// where the roots of many inodes name one tree. Groups of blocks that all have two owners are passed over.
pub fn check<D: Disk>(alloc: Global, disk: &mut D, s: &Super) -> Result<Checked, CheckError>
    requires accepted { IsAccepted s.now (D.page_count disk.old) }
    ensures findings { IfOk result (λ c. D.tells → AreFindings (subject_of s.now (page_of (D.image disk.old))) c.findings.items) }
    ensures counts { IfOk result (λ c. D.tells → AreCounted (subject_of s.now (page_of (D.image disk.old))) c.free c.inodes) }
    ensures pages { D.page_count disk.new ≡ D.page_count disk.old }
    ensures image { D.tells → D.image disk.new ≡ D.image disk.old }
    ensures past { D.tells_crashes → D.past disk.new ≡ D.past disk.old }
    ensures fault { CarriesCheck (record { part = Whole; count = D.fault_count disk.old }) (record { part = Whole; count = D.fault_count disk.new }) result }
    ensures later { D.fault_count disk.old ≤ D.fault_count disk.new }
{
    let _faults = disk.faults();
    let layout = geometry(s);
    let mut view = DiskView::new(disk, Part::Whole, layout.blocks);
    check_loan(alloc, &mut view, s)
}
