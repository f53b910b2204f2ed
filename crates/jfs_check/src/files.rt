//! The files of the aggregate.

ghost use Rattle.std.specs.Prelude.{◌≡◌, ◌≤◌, length, None, IfOk, OnOk};
ghost use Rattle.jfs_disk.specs.Image.{page_of};
ghost use Rattle.jfs_ranges.specs.View.{CarriesCount};
ghost use Rattle.jfs_super.specs.Rules.{blocks_of};
ghost use Rattle.jfs_link_check.specs.xtree.specs.Node.{xt_scale};
ghost use Rattle.jfs_link_check.specs.objects.specs.Image.{area_on};
ghost use Rattle.jfs_findings.specs.meaning.specs.Readers.{readers};
ghost use Rattle.jfs_findings.specs.mount_rules.specs.Mount.{broken_mount};
ghost use Rattle.jfs_findings.specs.mount_rules.specs.Subject.{subject_of};
ghost use Rattle.jfs_findings.specs.Gains.{Gains};
ghost use Rattle.jfs_link_check.specs.object_check.specs.Laws.{IsOfFile};
ghost use Rattle.jfs_link_check.specs.owners.specs.Counts.{Adds};
ghost use Rattle.jfs_link_check.specs.owners.specs.Held.{extents_walk, extents_held};
ghost use Rattle.jfs_link_check.specs.object_check.specs.Steps.{IsBroken};
ghost use Rattle.jfs_findings.specs.declared.finding.FindingKind.TheVariants.{Xtree};

use jfs_findings::Finding;
use jfs_findings::reader::aggregate_root;
use jfs_link_check::object_check::check_root;
use jfs_link_check::owners::Owners;
use jfs_ranges::{PageView, ViewError};
use jfs_super::Super;

/// Counts the fixed areas: pages 0 to 15, the second inode table and map, and what the files of the aggregate hold; and looks at the file of the bad blocks. The
/// files of both maps have trees that break no rule, where a mount finds none broken.
pub(crate) fn count_area<V: PageView>(
    view: &mut V,
    s: &Super,
    owners: &mut Owners,
    findings: &mut Vec<Finding>,
) -> Result<(), ViewError>
    requires size { 15 ≤ V.PageView.block_count view.old }
    requires part { blocks_of s.now ≡ V.PageView.block_count view.old }
    ensures image { V.PageView.tells → V.PageView.image view.new ≡ V.PageView.image view.old }
    ensures count_of_blocks { V.PageView.block_count view.new ≡ V.PageView.block_count view.old }
    ensures device { V.PageView.device view.new ≡ V.PageView.device view.old }
    ensures fault { CarriesCount (V.PageView.faults view.old) (V.PageView.faults view.new) result }
    ensures held { V.PageView.tells → IfOk result (λ it. broken_mount (subject_of s.now (page_of (V.PageView.image view.old))) ≡ None →
        Adds (area_on (readers (blocks_of s.now)) s.now.ait2 s.now.aim2 (page_of (V.PageView.image view.old))) owners.old owners.new) }
    ensures found { V.PageView.tells → OnOk result (broken_mount (subject_of s.now (page_of (V.PageView.image view.old))) ≡ None →
        Gains (IsOfFile (subject_of s.now (page_of (V.PageView.image view.old)))) findings.old.items findings.new.items) }
{
    owners.add_fixed(s.ait2, s.aim2);
    // these two inodes stand on one page
    let map = aggregate_root(view, 2)?;
    let bad_blocks = aggregate_root(view, 4)?;
    owners.add_sound_extents(view, &map)?;
    check_bad_blocks(view, &bad_blocks, owners, findings)?;
    let inodes = aggregate_root(view, 16)?;
    owners.add_sound_extents(view, &inodes)
}

/// Looks at the tree of the bad blocks' file, whose inode stands on page 11, and counts what it holds.
fn check_bad_blocks<V: PageView>(
    view: &mut V,
    root: &[u8],
    owners: &mut Owners,
    findings: &mut Vec<Finding>,
) -> Result<(), ViewError>
    requires root { length root.now ≡ 288 }
    ensures image { V.PageView.tells → V.PageView.image view.new ≡ V.PageView.image view.old }
    ensures count_of_blocks { V.PageView.block_count view.new ≡ V.PageView.block_count view.old }
    ensures device { V.PageView.device view.new ≡ V.PageView.device view.old }
    ensures fault { CarriesCount (V.PageView.faults view.old) (V.PageView.faults view.new) result }
    ensures held { V.PageView.tells → IfOk result (λ it.
        Adds (extents_held (extents_walk (V.PageView.block_count view.old) (page_of (V.PageView.image view.old)) root.now)) owners.old owners.new) }
    ensures found { V.PageView.tells → OnOk result (Gains (IsBroken Xtree xt_scale
        (extents_walk (V.PageView.block_count view.old) (page_of (V.PageView.image view.old)) root.now) 11) findings.old.items findings.new.items) }
{
    if check_root(view, root, 11, findings)? {
        owners.add_sound_extents(view, root)
    } else {
        Ok(())
    }
}
