//! What a checker finds of one object.

ghost use Rattle.std.specs.Prelude.{◌≡◌, ◌⊎◌, false, true, not, OnOk, IfOk};
ghost use Rattle.jfs_disk.specs.Image.{page_of};
ghost use Rattle.jfs_ranges.specs.View.{CarriesCount};
ghost use Rattle.jfs_inode.specs.Inode.{FitsDinode};
ghost use Rattle.jfs_xtree.specs.Node.{xt_scale};
ghost use Rattle.jfs_dtree.specs.Node.{name_scale};
ghost use Rattle.jfs_owners.specs.objects.specs.Objects.{names_of, extents_of, listed, spelled};
ghost use Rattle.jfs_owners.specs.meaning.specs.Readers.{readers};
ghost use Rattle.jfs_owners.specs.findings.specs.Gains.{Gains};
ghost use Rattle.jfs_owners.specs.findings.specs.Inodes.{attribute_blocks};
ghost use Rattle.jfs_owners.specs.findings.specs.declared.finding.FindingKind.TheVariants.{Nblocks, Past};
ghost use Rattle.jfs_object_check.specs.Object.{IsOf};
ghost use Rattle.jfs_object_check.specs.Tally.{less, is_met};
ghost use Rattle.jfs_object_check.specs.Steps.{IsBehind, IsSound, Only};

use crate::attributes::{attribute_blocks, check_run};
use crate::note::note_if;
use crate::rules::breaks_rule;
use crate::tally::{Tally, is_met, less};
use crate::trees::{check_extents, check_names};
use jfs_inode::Dinode;
use jfs_owners::findings::{Finding, FindingKind};
use jfs_ranges::{PageView, ViewError};
use std::alloc::AllocError;

/// Which trees of an object break no rule. One that an object doesn't have breaks none.
#[derive(Clone, Copy, PartialEq, Eq, Debug)]
pub struct Soundness {
    /// That of a directory's names.
    pub names: bool,
    /// That of a file's extents, or of a long symbolic link's.
    pub extents: bool,
}

/// Whether an inode tells another number of blocks than it owns, where so many are left after its trees.
fn miscounts(tally: &Tally, inode: &Dinode) -> bool
    ensures { result ≡ not (is_met (less (less tally.now.left (attribute_blocks inode.now.acl)) (attribute_blocks inode.now.ea))) }
{
    let left = tally.left;
    let acl = attribute_blocks(&inode.acl);
    let ea = attribute_blocks(&inode.ea);
    !is_met(less(less(left, acl), ea))
}

/// What the counts of inode `n` tell, once its trees were walked through: its attributes' blocks behind the volume's, a number of blocks that isn't that of
/// those that it owns, and an extent behind its size.
fn check_counts(
    blocks: u32,
    n: u32,
    at: u32,
    inode: &Dinode,
    tally: Tally,
    findings: &mut Vec<Finding>,
) -> Result<(), AllocError>
    ensures found { FitsDinode inode.now → OnOk result (Gains (λ f. (IsBehind blocks at inode.now.acl f ⊎ IsBehind blocks at inode.now.ea f)
        ⊎ (Only Nblocks at n (is_met (less (less tally.left (attribute_blocks inode.now.acl)) (attribute_blocks inode.now.ea)) ≡ false) f
        ⊎ Only Past at n (tally.past ≡ true) f)) findings.old.items findings.new.items) }
{
    let acl = inode.acl;
    let ea = inode.ea;
    check_run(blocks, at, &acl, findings)?;
    check_run(blocks, at, &ea, findings)?;
    let wrong = miscounts(&tally, inode);
    note_if(wrong, FindingKind::Nblocks, at, u64::from(n), findings)?;
    note_if(tally.past, FindingKind::Past, at, u64::from(n), findings)
}

/// Looks at inode `n`, which is in use and stands on page `at`, and at the pages of its tree. Adds a finding for each rule of an inode or a tree that is
/// broken, for each block of its attributes behind the volume's, for a number of blocks that isn't that of those that it owns, and for an extent that begins
/// behind its size. Answers which trees break no rule. It reads each page of the tree once, and holds no list.
///
/// # Errors
///
/// A page could not be read, or memory ran out.
pub fn check_object<V: PageView>(
    view: &mut V,
    n: u32,
    at: u32,
    inode: &Dinode,
    findings: &mut Vec<Finding>,
) -> Result<Soundness, ViewError>
    ensures image { V.PageView.tells → V.PageView.image view.new ≡ V.PageView.image view.old }
    ensures count_of_blocks { V.PageView.block_count view.new ≡ V.PageView.block_count view.old }
    ensures device { V.PageView.device view.new ≡ V.PageView.device view.old }
    ensures fault { CarriesCount (V.PageView.faults view.old) (V.PageView.faults view.new) result }
    // An inode as it is read from a page has runs that fit.
    ensures found { V.PageView.tells → FitsDinode inode.now → OnOk result (Gains
        (IsOf (readers (V.PageView.block_count view.old)) (V.PageView.block_count view.old) (page_of (V.PageView.image view.old)) n at
        (spelled (readers (V.PageView.block_count view.old)) (page_of (V.PageView.image view.old)) inode.now)) findings.old.items findings.new.items) }
    ensures sound { V.PageView.tells → IfOk result (λ sound.
        IsSound (listed name_scale (names_of (readers (V.PageView.block_count view.old)) (page_of (V.PageView.image view.old)) inode.now)) sound.names
        × IsSound (listed xt_scale (extents_of (readers (V.PageView.block_count view.old)) (page_of (V.PageView.image view.old)) inode.now)) sound.extents) }
{
    let breaks = breaks_rule(inode, n);
    match note_if(breaks, FindingKind::Inode, at, u64::from(n), findings) {
        Ok(()) => {}
        Err(_) => return Err(ViewError::Memory),
    }
    let mut tally = Tally::of(inode);
    let names = check_names(view, at, inode, &mut tally, findings)?;
    let extents = check_extents(view, at, inode, &mut tally, findings)?;
    let blocks = view.blocks();
    match check_counts(blocks, n, at, inode, tally, findings) {
        Ok(()) => Ok(Soundness { names, extents }),
        Err(_) => Err(ViewError::Memory),
    }
}
