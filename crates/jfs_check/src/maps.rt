//! The owners of blocks and the pages of both maps.

ghost use Rattle.std.specs.Prelude.{◌≡◌, ◌≤◌, ◌*◌, ◌%◌, ◌^◌, length, OnOk};
ghost use Rattle.jfs_disk.specs.Image.{page_of};
ghost use Rattle.jfs_ranges.specs.View.{CarriesCount};
ghost use Rattle.jfs_super.specs.Rules.{blocks_of};
ghost use Rattle.jfs_super.specs.Geometry.{geometry_of, IsLayout};
ghost use Rattle.jfs_super.specs.declared.fields.Super.{Super};
ghost use Rattle.jfs_map_check.specs.bmap.specs.MapFile.{AreGroups};
ghost use Rattle.jfs_link_check.specs.objects.specs.Owners.{owners};
ghost use Rattle.jfs_findings.specs.mount_rules.specs.Subject.{subject_of, volume};
ghost use Rattle.jfs_findings.specs.mount_rules.specs.Steps.{AreRead};
ghost use Rattle.jfs_findings.specs.Gains.{Gains};
ghost use Rattle.jfs_link_check.specs.owners.specs.Counts.{Counts};
ghost use Rattle.jfs_map_check.specs.Found.{KnowsOwners, IsOfBlockMap};
ghost use Rattle.jfs_map_check.specs.Inodes.{KnowsInodes, IsOfInodeMap};
ghost use Rattle.jfs_check.specs.Looked.{AreInUse, IsOfMaps};

use jfs_findings::Finding;
use jfs_findings::mount_rules::Maps;
use jfs_findings::reader::ReadError;
use jfs_link_check::owners::Owners;
use jfs_map_check::{check_block_map, check_inode_map};
use jfs_ranges::{PageView, ViewError};
use jfs_super::Super;
use std::alloc::Global;

/// Adds the findings of the owners of blocks and of the pages of both maps, by what is known of owners and of inodes in use.
pub(crate) fn check_maps<V: PageView>(
    alloc: Global,
    view: &mut V,
    s: &Super,
    maps: &Maps,
    held: &Owners,
    used: &[u8],
    findings: &mut Vec<Finding>,
) -> Result<(), ViewError>
    requires layout { IsLayout (geometry_of s.now) }
    requires part { blocks_of s.now ≡ V.PageView.block_count view.old }
    requires blocks { maps.now.blocks ≡ V.PageView.block_count view.old }
    requires few { maps.now.inodes.iags ≤ 65536 }
    requires owned { held.now.blocks ≡ V.PageView.block_count view.old }
    requires used { length used.now ≡ 512 * maps.now.inodes.iags }
    ensures image { V.PageView.tells → V.PageView.image view.new ≡ V.PageView.image view.old }
    ensures count_of_blocks { V.PageView.block_count view.new ≡ V.PageView.block_count view.old }
    ensures device { V.PageView.device view.new ≡ V.PageView.device view.old }
    ensures fault { CarriesCount (V.PageView.faults view.old) (V.PageView.faults view.new) result }
    ensures found { V.PageView.tells → OnOk result (AreRead (subject_of s.now (page_of (V.PageView.image view.old))) maps.now →
        Counts held.now (owners (subject_of s.now (page_of (V.PageView.image view.old))).readers (volume (subject_of s.now (page_of (V.PageView.image view.old))))) →
        AreInUse (subject_of s.now (page_of (V.PageView.image view.old))) used.now →
        Gains (IsOfMaps (subject_of s.now (page_of (V.PageView.image view.old)))) findings.old.items findings.new.items) }
{
    match held.find_shared(findings) {
        Ok(()) => {}
        Err(_) => return Err(ViewError::Memory),
    }
    check_blocks(alloc, view, s.agsize, maps, held.as_set(), findings)?;
    check_inodes(view, maps, used, findings)?;
    Ok(())
}

/// Adds the findings of the block map.
fn check_blocks<V: PageView>(
    alloc: Global,
    view: &mut V,
    agsize: u32,
    maps: &Maps,
    owned: &[u8],
    findings: &mut Vec<Finding>,
) -> Result<(), ViewError>
    requires most { V.PageView.block_count view.old ≤ 2 ^ 23 }
    requires size { V.PageView.block_count view.old ≤ 8 * length owned.now }
    requires words { length owned.now % 4 ≡ 0 }
    requires groups { AreGroups (V.PageView.block_count view.old) agsize }
    requires blocks { maps.now.blocks ≡ V.PageView.block_count view.old }
    ensures image { V.PageView.tells → V.PageView.image view.new ≡ V.PageView.image view.old }
    ensures count_of_blocks { V.PageView.block_count view.new ≡ V.PageView.block_count view.old }
    ensures device { V.PageView.device view.new ≡ V.PageView.device view.old }
    ensures fault { CarriesCount (V.PageView.faults view.old) (V.PageView.faults view.new) result }
    ensures found { V.PageView.tells → OnOk result ((super : Super) →
        KnowsOwners (subject_of super (page_of (V.PageView.image view.old))) (V.PageView.block_count view.old) agsize owned.now maps.now.block_map →
        Gains (IsOfBlockMap (subject_of super (page_of (V.PageView.image view.old)))) findings.old.items findings.new.items) }
{
    match check_block_map(
        alloc,
        view,
        agsize,
        owned,
        maps.block_map.as_slice(),
        findings,
    ) {
        Ok(()) => Ok(()),
        Err(ReadError::View(e)) => Err(e),
        Err(ReadError::Outside) => unreachable!(),
    }
}

/// Adds the findings of the inode map.
fn check_inodes<V: PageView>(
    view: &mut V,
    maps: &Maps,
    used: &[u8],
    findings: &mut Vec<Finding>,
) -> Result<(), ViewError>
    requires few { maps.now.inodes.iags ≤ 65536 }
    requires size { length used.now ≡ 512 * maps.now.inodes.iags }
    requires blocks { maps.now.blocks ≡ V.PageView.block_count view.old }
    ensures image { V.PageView.tells → V.PageView.image view.new ≡ V.PageView.image view.old }
    ensures count_of_blocks { V.PageView.block_count view.new ≡ V.PageView.block_count view.old }
    ensures device { V.PageView.device view.new ≡ V.PageView.device view.old }
    ensures fault { CarriesCount (V.PageView.faults view.old) (V.PageView.faults view.new) result }
    ensures found { V.PageView.tells → OnOk result ((super : Super) →
        KnowsInodes (subject_of super (page_of (V.PageView.image view.old))) (V.PageView.block_count view.old) maps.now.inodes.iags used.now maps.now.inodes.extents →
        Gains (IsOfInodeMap (subject_of super (page_of (V.PageView.image view.old)))) findings.old.items findings.new.items) }
{
    let extents = maps.inodes.extents.as_slice();
    match check_inode_map(view, used, extents, maps.inodes.iags, findings) {
        Ok(()) => Ok(()),
        Err(ReadError::View(e)) => Err(e),
        Err(ReadError::Outside) => unreachable!(),
    }
}
