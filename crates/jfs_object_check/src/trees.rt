//! The trees of an object.

ghost use Rattle.std.specs.Prelude.{◌≡◌, ◌==◌, if◌then◌else◌, OnOk, IfOk};
ghost use Rattle.jfs_disk.specs.Image.{page_of};
ghost use Rattle.jfs_disk.specs.declared.disk.Fault.{Fault};
ghost use Rattle.jfs_ranges.specs.View.{CarriesCount};
ghost use Rattle.jfs_tree.specs.Call.{CarriesFault};
ghost use Rattle.jfs_xtree.specs.Node.{xt_scale};
ghost use Rattle.jfs_dtree.specs.Node.{name_scale};
ghost use Rattle.jfs_owners.specs.objects.specs.Objects.{names_of, extents_of, listed};
ghost use Rattle.jfs_owners.specs.objects.specs.Owners.{unless_broken, entries};
ghost use Rattle.jfs_owners.specs.meaning.specs.Readers.{readers};
ghost use Rattle.jfs_owners.specs.mount_rules.specs.Subject.{page_named};
ghost use Rattle.jfs_owners.specs.findings.specs.Inodes.{pages_met};
ghost use Rattle.jfs_owners.specs.findings.specs.Gains.{Gains};
ghost use Rattle.jfs_tree.specs.Walk.{rows_of};
ghost use Rattle.jfs_owners.specs.findings.specs.declared.finding.FindingKind.TheVariants.{Xtree, Dtree};
ghost use Rattle.jfs_object_check.specs.Tally.{with_pages, with_tree};
ghost use Rattle.jfs_object_check.specs.Steps.{EndsAs, Settles, IsBroken, IsSound};

use crate::note::note_if;
use crate::tally::Tally;
use jfs_dtpage::DtForm;
use jfs_dtree::DtPages;
use jfs_inode::Dinode;
use jfs_owners::findings::{Finding, FindingKind};
use jfs_owners::reader::{has_extents, has_names, root_in};
use jfs_ranges::{PageView, ViewError};
use jfs_tree::{NO_PAGE, TreeError, walk_tree};
use jfs_xtpage::XtForm;
use jfs_xtree::XtPages;

/// A page of a tree whose inode stands on page `at`; a root stands there.
pub fn page_named(at: u32, page: u32) -> u32
    ensures { result ≡ page_named at page }
{
    if page == NO_PAGE { at } else { page }
}

/// Walks through the names of an object.
fn walk_names<V: PageView>(view: &mut V, inode: &Dinode, tally: &mut Tally) -> Result<(), TreeError>
    ensures image { V.PageView.tells → V.PageView.image view.new ≡ V.PageView.image view.old }
    ensures count_of_blocks { V.PageView.block_count view.new ≡ V.PageView.block_count view.old }
    ensures device { V.PageView.device view.new ≡ V.PageView.device view.old }
    ensures fault { CarriesFault (V.PageView.faults view.old) (V.PageView.faults view.new) result }
    ensures ends { V.PageView.tells → EndsAs name_scale (names_of (readers (V.PageView.block_count view.old)) (page_of (V.PageView.image view.old)) inode.now) result }
    ensures counted { V.PageView.tells → OnOk result (tally.new ≡
        with_pages (pages_met (names_of (readers (V.PageView.block_count view.old)) (page_of (V.PageView.image view.old)) inode.now)) tally.old) }
{
    if !has_names(inode) {
        return Ok(());
    }
    let blocks = view.blocks();
    let top = DtPages {
        form: DtForm::Root,
        blocks,
    };
    let pages = DtPages {
        form: DtForm::Full,
        blocks,
    };
    walk_tree(&top, &pages, view, root_in(inode), tally)
}

/// Walks through the extents of an object.
fn walk_extents<V: PageView>(
    view: &mut V,
    inode: &Dinode,
    tally: &mut Tally,
) -> Result<(), TreeError>
    ensures image { V.PageView.tells → V.PageView.image view.new ≡ V.PageView.image view.old }
    ensures count_of_blocks { V.PageView.block_count view.new ≡ V.PageView.block_count view.old }
    ensures device { V.PageView.device view.new ≡ V.PageView.device view.old }
    ensures fault { CarriesFault (V.PageView.faults view.old) (V.PageView.faults view.new) result }
    ensures ends { V.PageView.tells → EndsAs xt_scale (extents_of (readers (V.PageView.block_count view.old)) (page_of (V.PageView.image view.old)) inode.now) result }
    ensures counted { V.PageView.tells → OnOk result (tally.new ≡
        with_tree (pages_met (extents_of (readers (V.PageView.block_count view.old)) (page_of (V.PageView.image view.old)) inode.now))
        (rows_of (extents_of (readers (V.PageView.block_count view.old)) (page_of (V.PageView.image view.old)) inode.now)) tally.old) }
{
    if !has_extents(inode) {
        return Ok(());
    }
    let blocks = view.blocks();
    let top = XtPages {
        form: XtForm::Root,
        blocks,
    };
    let pages = XtPages {
        form: XtForm::Full,
        blocks,
    };
    walk_tree(&top, &pages, view, root_in(inode), tally)
}

/// What the end of a walk tells: whether the tree breaks no rule. A broken one is a finding.
pub(crate) fn settle(
    answer: Result<(), TreeError>,
    kind: FindingKind,
    at: u32,
    findings: &mut Vec<Finding>,
) -> Result<bool, ViewError>
    ensures settles { Settles kind at answer result findings.old.items findings.new.items }
    ensures fault { (before now : Fault) → CarriesFault before now answer → CarriesCount before now result }
{
    match answer {
        Ok(()) => Ok(true),
        Err(TreeError::View(e)) => Err(e),
        Err(TreeError::Memory) => Err(ViewError::Memory),
        Err(TreeError::Bad { page, .. }) => {
            match note_if(true, kind, page_named(at, page), 0, findings) {
                Ok(()) => Ok(false),
                Err(_) => Err(ViewError::Memory),
            }
        }
    }
}

/// The names of an object: a broken rule is a finding, and a tree without one is counted. Answers whether the tree breaks none.
pub(crate) fn check_names<V: PageView>(
    view: &mut V,
    at: u32,
    inode: &Dinode,
    tally: &mut Tally,
    findings: &mut Vec<Finding>,
) -> Result<bool, ViewError>
    ensures image { V.PageView.tells → V.PageView.image view.new ≡ V.PageView.image view.old }
    ensures count_of_blocks { V.PageView.block_count view.new ≡ V.PageView.block_count view.old }
    ensures device { V.PageView.device view.new ≡ V.PageView.device view.old }
    ensures fault { CarriesCount (V.PageView.faults view.old) (V.PageView.faults view.new) result }
    ensures found { V.PageView.tells → OnOk result (Gains (IsBroken Dtree name_scale
        (names_of (readers (V.PageView.block_count view.old)) (page_of (V.PageView.image view.old)) inode.now) at) findings.old.items findings.new.items) }
    ensures counted { V.PageView.tells → OnOk result (tally.new ≡ with_pages
        (unless_broken (listed name_scale (names_of (readers (V.PageView.block_count view.old)) (page_of (V.PageView.image view.old)) inode.now))
        (pages_met (names_of (readers (V.PageView.block_count view.old)) (page_of (V.PageView.image view.old)) inode.now))) tally.old) }
    ensures sound { V.PageView.tells → IfOk result (λ sound. IsSound
        (listed name_scale (names_of (readers (V.PageView.block_count view.old)) (page_of (V.PageView.image view.old)) inode.now)) sound) }
{
    let mut seen = *tally;
    let answer = walk_names(view, inode, &mut seen);
    let sound = settle(answer, FindingKind::Dtree, at, findings)?;
    if sound {
        *tally = seen;
    }
    Ok(sound)
}

/// The extents of an object: a broken rule is a finding, and a tree without one is counted. Answers whether the tree breaks none.
pub(crate) fn check_extents<V: PageView>(
    view: &mut V,
    at: u32,
    inode: &Dinode,
    tally: &mut Tally,
    findings: &mut Vec<Finding>,
) -> Result<bool, ViewError>
    ensures image { V.PageView.tells → V.PageView.image view.new ≡ V.PageView.image view.old }
    ensures count_of_blocks { V.PageView.block_count view.new ≡ V.PageView.block_count view.old }
    ensures device { V.PageView.device view.new ≡ V.PageView.device view.old }
    ensures fault { CarriesCount (V.PageView.faults view.old) (V.PageView.faults view.new) result }
    ensures found { V.PageView.tells → OnOk result (Gains (IsBroken Xtree xt_scale
        (extents_of (readers (V.PageView.block_count view.old)) (page_of (V.PageView.image view.old)) inode.now) at) findings.old.items findings.new.items) }
    ensures counted { V.PageView.tells → OnOk result (tally.new ≡ with_tree
        (unless_broken (listed xt_scale (extents_of (readers (V.PageView.block_count view.old)) (page_of (V.PageView.image view.old)) inode.now))
        (pages_met (extents_of (readers (V.PageView.block_count view.old)) (page_of (V.PageView.image view.old)) inode.now)))
        (entries (listed xt_scale (extents_of (readers (V.PageView.block_count view.old)) (page_of (V.PageView.image view.old)) inode.now))) tally.old) }
    ensures sound { V.PageView.tells → IfOk result (λ sound. IsSound
        (listed xt_scale (extents_of (readers (V.PageView.block_count view.old)) (page_of (V.PageView.image view.old)) inode.now)) sound) }
{
    let mut seen = *tally;
    let answer = walk_extents(view, inode, &mut seen);
    let sound = settle(answer, FindingKind::Xtree, at, findings)?;
    if sound {
        *tally = seen;
    }
    Ok(sound)
}
