//! All inodes in use, looked at.

ghost use Rattle.std.specs.Prelude.{◌≡◌, ◌≤◌, ◌*◌, length, Ok, IfOk};
ghost use Rattle.jfs_disk.specs.Image.{page_of};
ghost use Rattle.jfs_ranges.specs.View.{CarriesCount};
ghost use Rattle.jfs_super.specs.Rules.{blocks_of};
ghost use Rattle.jfs_findings.specs.mount_rules.specs.Subject.{subject_of};
ghost use Rattle.jfs_findings.specs.mount_rules.specs.Steps.{IsMounted, Mounts};
ghost use Rattle.jfs_link_check.specs.Notes.{AreNoted};
ghost use Rattle.jfs_check.specs.Looked.{IsOfTrees, Looked};

use crate::fresh::{count_fixed, fresh};
use crate::look::Look;
use jfs_each::each_inode;
use jfs_findings::mount_rules::Mounted;
use jfs_link_check::uses_of;
use jfs_ranges::{PageView, ViewError};
use jfs_super::Super;
use std::alloc::Global;

/// Looks at the aggregate's files and at each inode in use, of a volume that a mount takes. The pages of inodes are read twice: what an inode is used for has to be
/// known of all of them before the names that lead to it are judged.
pub(crate) fn look_at_all<V: PageView>(
    alloc: Global,
    view: &mut V,
    s: &Super,
    mounted: &Mounted,
) -> Result<Look, ViewError>
    requires size { 15 ≤ V.PageView.block_count view.old }
    requires part { blocks_of s.now ≡ V.PageView.block_count view.old }
    requires mounted { IsMounted (V.PageView.block_count view.old) mounted.now }
    ensures image { V.PageView.tells → V.PageView.image view.new ≡ V.PageView.image view.old }
    ensures count_of_blocks { V.PageView.block_count view.new ≡ V.PageView.block_count view.old }
    ensures device { V.PageView.device view.new ≡ V.PageView.device view.old }
    ensures fault { CarriesCount (V.PageView.faults view.old) (V.PageView.faults view.new) result }
    ensures looked { V.PageView.tells → IfOk result (λ look. Mounts (subject_of s.now (page_of (V.PageView.image view.old))) (Ok mounted.now) →
        Looked (subject_of s.now (page_of (V.PageView.image view.old))) (IsOfTrees (subject_of s.now (page_of (V.PageView.image view.old)))) look) }
    ensures noted { V.PageView.tells → IfOk result (λ look.
        AreNoted (V.PageView.block_count view.old) (page_of (V.PageView.image view.old)) mounted.now.places.items look.census.names) }
{
    let blocks = view.blocks();
    let places = mounted.places.as_slice();
    let uses = uses_of(alloc, view, places)?;
    let mut look = match fresh(alloc, blocks, mounted.maps.inodes.iags, uses) {
        Ok(look) => look,
        Err(_) => return Err(ViewError::Memory),
    };
    count_fixed(view, s, places, &mut look.census.owners, &mut look.findings)?;
    each_inode(view, places, &mut look)?;
    Ok(look)
}
