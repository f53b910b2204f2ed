//! The extent tree of one root.

ghost use Rattle.std.specs.Prelude.{◌≡◌, length, OnOk, IfOk};
ghost use Rattle.jfs_disk.specs.Image.{page_of};
ghost use Rattle.jfs_ranges.specs.View.{CarriesCount};
ghost use Rattle.jfs_xtree.specs.Node.{xt_scale};
ghost use Rattle.jfs_owners.specs.objects.specs.Objects.{listed};
ghost use Rattle.jfs_owners.specs.Held.{extents_walk};
ghost use Rattle.jfs_owners.specs.findings.specs.Gains.{Gains};
ghost use Rattle.jfs_owners.specs.findings.specs.declared.finding.FindingKind.TheVariants.{Xtree};
ghost use Rattle.jfs_object_check.specs.Steps.{IsBroken, IsSound};

use crate::trees::settle;
use jfs_owners::Judge;
use jfs_owners::findings::{Finding, FindingKind};
use jfs_ranges::{PageView, ViewError};
use jfs_tree::walk_tree;
use jfs_xtpage::XtForm;
use jfs_xtree::XtPages;

/// Looks at the extent tree of a root in an inode, which stands on page `at`: its first broken rule is a finding, on the page that breaks it, or on `at` where the
/// root does. Answers whether the tree breaks none. Each page of the tree is read once.
///
/// # Errors
///
/// A page could not be read, or memory ran out.
pub fn check_root<V: PageView>(
    view: &mut V,
    root: &[u8],
    at: u32,
    findings: &mut Vec<Finding>,
) -> Result<bool, ViewError>
    requires root { length root.now ≡ 288 }
    ensures image { V.PageView.tells → V.PageView.image view.new ≡ V.PageView.image view.old }
    ensures count_of_blocks { V.PageView.block_count view.new ≡ V.PageView.block_count view.old }
    ensures device { V.PageView.device view.new ≡ V.PageView.device view.old }
    ensures fault { CarriesCount (V.PageView.faults view.old) (V.PageView.faults view.new) result }
    ensures found { V.PageView.tells → OnOk result (Gains (IsBroken Xtree xt_scale
        (extents_walk (V.PageView.block_count view.old) (page_of (V.PageView.image view.old)) root.now) at) findings.old.items findings.new.items) }
    ensures sound { V.PageView.tells → IfOk result (IsSound (listed xt_scale
        (extents_walk (V.PageView.block_count view.old) (page_of (V.PageView.image view.old)) root.now))) }
{
    let blocks = view.blocks();
    let top = XtPages {
        form: XtForm::Root,
        blocks,
    };
    let pages = XtPages {
        form: XtForm::Full,
        blocks,
    };
    let answer = walk_tree(&top, &pages, view, root, &mut Judge {});
    settle(answer, FindingKind::Xtree, at, findings)
}
