//! A file's extents that are cut at a block of the file.

ghost use Rattle.std.specs.Prelude.{◌≡◌, ◌⊎◌, ◌<◌, ◌≤◌, ◌++◌, [], ℕ, List, length, true, false, OnOk, OnErr, IfOk, IfErr};
ghost use Rattle.jfs_disk.specs.Image.{page_of};
ghost use Rattle.jfs_bits.specs.declared.rule.PageKind.TheVariants.{Xtree};
ghost use Rattle.jfs_tree.specs.Call.{CarriesFault};
ghost use Rattle.jfs_tree.specs.Changes.{TellsChanges};
ghost use Rattle.jfs_tree.specs.Removes.{page_frees};
ghost use Rattle.jfs_tree.specs.Tell.{TellsDraft, TellsThen};
ghost use Rattle.jfs_ranges.specs.View.{CarriesCount};
ghost use Rattle.jfs_xtpage.specs.Page.{head_of, entries_of, kind_flag, IsLaidOut};
ghost use Rattle.jfs_xtree.specs.Node.{xt_scale, KeepsFrame};
ghost use Rattle.jfs_xtree.specs.Spells.{IsRootSize, IsView, CarriesXt};
ghost use Rattle.jfs_xtree.specs.CutMet.{FreesOnce, NamesFirstMet};
ghost use Rattle.jfs_xtree.specs.Cutting.{CutsExtents, KeepsPages, TellsCut, run_frees};

use crate::check::check_page;
use crate::cut_page::cut_page;
use crate::error::XtError;
use crate::find::{handed_on, root_form};
use crate::free_below::Cut;
use jfs_bits::{PageKind, Pxd, PxdList};
use jfs_ranges::{Edit, PageView, Tx, ViewError};
use jfs_tree::{Draft, NO_PAGE, copy_of, copy_tx, free_pages, tell_draft};
use jfs_xtpage::xt_set_kind;
use std::alloc::{AllocError, Global};

/// Cuts a file's extents at block `blocks` of the file: what begins below it stays, the last one shortened to end there. The transaction gets the changed
/// lines, then a `NoRedo` of each page of the tree that is no more, then a `Free` of each, and then a `Free` of each run of blocks that the extents lost, in their order.
/// Pages on the way to the bound are read, and those that are freed; a root whose children are all gone is a leaf without extents. Other pages keep their bytes,
/// each page keeps its number of slots and its own descriptor, and where each page but the last of its level held at least some number of entries, each does.
/// What is met rises, no page is freed twice, and each page that is met and isn't on the way to the bound is freed: `Bad` names the first page, in the order of the file, that breaks a rule where the cut meets it. A page that is met twice breaks `order`.
/// After an `Err` root and transaction are as before.
pub fn cut_to<V: PageView>(
    alloc: Global,
    view: &mut V,
    root: &mut [u8],
    blocks: u64,
    tx: &mut Tx,
) -> Result<(), XtError>
    requires root { IsRootSize (length root.old) }
    ensures image { V.PageView.tells → V.PageView.image view.new ≡ V.PageView.image view.old }
    ensures count_of_blocks { V.PageView.block_count view.new ≡ V.PageView.block_count view.old }
    ensures device { V.PageView.device view.new ≡ V.PageView.device view.old }
    ensures fault { CarriesXt (V.PageView.faults view.old) (V.PageView.faults view.new) result }
    ensures cuts { V.PageView.tells → OnOk result (CutsExtents (V.PageView.block_count view.old) (page_of (V.PageView.image view.old)) blocks root.old root.new tx.old tx.new) }
    ensures edits { V.PageView.tells → OnOk result (TellsCut (V.PageView.block_count view.old) (page_of (V.PageView.image view.old)) tx.old tx.new) }
    ensures once { V.PageView.tells → OnOk result (FreesOnce (V.PageView.block_count view.old) (page_of (V.PageView.image view.old)) blocks root.old tx.old tx.new) }
    ensures frame { OnOk result (KeepsFrame root.old root.new) }
    ensures kept { OnErr result ((root.new ≡ root.old) × (tx.new ≡ tx.old)) }
    ensures bad { V.PageView.tells → IfErr result (NamesFirstMet (V.PageView.block_count view.old) (page_of (V.PageView.image view.old)) blocks root.old) }
    ensures named { V.PageView.tells → OnOk result (KeepsPages (V.PageView.block_count view.old) (page_of (V.PageView.image view.old)) tx.old tx.new) }
{
    let Ok(old) = copy_of(alloc, root) else {
        return Err(XtError::View(ViewError::Memory));
    };
    match plan_cut(alloc, view, root, blocks, tx) {
        Ok(later) => {
            *tx = later;
            Ok(())
        }
        Err(e) => {
            root.copy_from_slice(old.as_slice());
            Err(e)
        }
    }
}

#[tactic(auto, using(crate::proofs::Roots::form_fits))]
/// Cuts a root's tree; the transaction as it is afterwards.
fn plan_cut<V: PageView>(
    alloc: Global,
    view: &mut V,
    root: &mut [u8],
    bound: u64,
    tx: &Tx,
) -> Result<Tx, XtError>
    requires root { IsRootSize (length root.old) }
    ensures image { V.PageView.tells → V.PageView.image view.new ≡ V.PageView.image view.old }
    ensures count_of_blocks { V.PageView.block_count view.new ≡ V.PageView.block_count view.old }
    ensures device { V.PageView.device view.new ≡ V.PageView.device view.old }
    ensures fault { CarriesXt (V.PageView.faults view.old) (V.PageView.faults view.new) result }
    ensures cuts { V.PageView.tells → IfOk result (λ later. CutsExtents (V.PageView.block_count view.old) (page_of (V.PageView.image view.old)) bound root.old root.new tx.now later) }
    ensures edits { V.PageView.tells → IfOk result (λ later. TellsCut (V.PageView.block_count view.old) (page_of (V.PageView.image view.old)) tx.now later) }
    ensures once { V.PageView.tells → IfOk result (λ later. FreesOnce (V.PageView.block_count view.old) (page_of (V.PageView.image view.old)) bound root.old tx.now later) }
    ensures frame { OnOk result (KeepsFrame root.old root.new) }
    ensures bad { V.PageView.tells → IfErr result (NamesFirstMet (V.PageView.block_count view.old) (page_of (V.PageView.image view.old)) bound root.old) }
    ensures named { V.PageView.tells → IfOk result (λ later. KeepsPages (V.PageView.block_count view.old) (page_of (V.PageView.image view.old)) tx.now later) }
{
    let blocks = view.blocks();
    let form = root_form(root);
    if let Err(rule) = check_page(root, form, blocks) {
        return Err(XtError::Bad {
            page: NO_PAGE,
            rule,
        });
    }
    let mut cut = Cut {
        draft: Draft::new(alloc),
        pages: Vec::new(alloc),
        runs: PxdList::new(alloc),
        met: 0,
        below: 0,
    };
    match cut_page(form, blocks, view, &mut cut, 7, root, bound) {
        Ok(kept) => close_root(root, kept),
        Err(e) => return Err(handed_on(e)),
    }
    match tell_cut(alloc, view, &cut, tx) {
        Ok(later) => Ok(later),
        Err(e) => Err(XtError::View(e)),
    }
}

/// A root without children is a leaf.
fn close_root(root: &mut [u8], kept: bool)
    requires { 32 ≤ length root.old }
    ensures stays { kept ≡ true → root.new ≡ root.old }
    ensures frame { IsLaidOut root.old → KeepsFrame root.old root.new }
    ensures empties { kept ≡ false → (head_of root.new ≡ record (head_of root.old) { flag = kind_flag (head_of root.old).flag true }) × (entries_of root.new ≡ entries_of root.old) }
{
    if !kept {
        xt_set_kind(root, true);
    }
}

#[tactic(auto, using(crate::proofs::CutTold::told_cut, jfs_tree::proofs::LinesOnly::lines_then))]
/// The transaction with what changed, and then what is freed.
fn tell_cut<V: PageView>(alloc: Global, view: &mut V, cut: &Cut, tx: &Tx) -> Result<Tx, ViewError>
    ensures image { V.PageView.tells → V.PageView.image view.new ≡ V.PageView.image view.old }
    ensures count_of_blocks { V.PageView.block_count view.new ≡ V.PageView.block_count view.old }
    ensures device { V.PageView.device view.new ≡ V.PageView.device view.old }
    ensures fault { CarriesCount (V.PageView.faults view.old) (V.PageView.faults view.new) result }
    ensures told { V.PageView.tells → IfOk result (λ later. TellsDraft (V.PageView.block_count view.old) (V.PageView.image view.old) cut.now.draft.pages.items tx.now later) }
    ensures frees { IfOk result (λ later. TellsThen (page_frees cut.now.pages.items ++ run_frees cut.now.runs) tx.now later) }
    ensures changes { V.PageView.tells → IfOk result (λ later. TellsChanges (V.PageView.block_count view.old) Xtree [] (page_of (V.PageView.image view.old)) (page_frees cut.now.pages.items ++ run_frees cut.now.runs) tx.now later) }
{
    let Ok(mut later) = copy_tx(alloc, tx) else {
        return Err(ViewError::Memory);
    };
    tell_draft(alloc, view, &cut.draft, &[], PageKind::Xtree, &mut later)?;
    match free_all(cut.pages.as_slice(), &cut.runs, &mut later) {
        Ok(()) => Ok(later),
        Err(_) => Err(ViewError::Memory),
    }
}

/// Frees these pages, whose records are not to be redone, and these runs.
fn free_all(pages: &[u32], runs: &PxdList, tx: &mut Tx) -> Result<(), AllocError>
    ensures { OnOk result (tx.new ≡ tx.old ++ (page_frees pages.now ++ run_frees runs.now)) }
{
    free_pages(pages, tx)?;
    free_runs(runs.as_slice(), tx)
}

/// Frees these runs of blocks, in their order.
fn free_runs(runs: &[Pxd], tx: &mut Tx) -> Result<(), AllocError>
    ensures { OnOk result (tx.new ≡ tx.old ++ run_frees runs.now) }
{
    for run in runs {
        tx.push(Edit::Free(*run))?;
    }
    Ok(())
}
