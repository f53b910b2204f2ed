//! One entry less, told as edits.

ghost use Rattle.std.specs.Prelude.{◌≡◌, ◌<◌, ◌≤◌, ◌++◌, [], ℕ, List, length, OnOk, OnErr, IfOk, IfErr, IfNone, IfSome};
ghost use Rattle.jfs_disk.specs.Image.{page_of};
ghost use Rattle.jfs_ranges.specs.View.{CarriesCount};
ghost use Rattle.jfs_tree.specs.Adds.{read_as};
ghost use Rattle.jfs_tree.specs.Call.{CarriesFault};
ghost use Rattle.jfs_tree.specs.Changes.{TellsChanges, TellsGone};
ghost use Rattle.jfs_tree.specs.Edit.{IsPoint};
ghost use Rattle.jfs_tree.specs.Leftmost.{StaysLeftmost};
ghost use Rattle.jfs_tree.specs.Path.{broken_on_way, found_on_way, TellsBroken};
ghost use Rattle.jfs_tree.specs.Frames.{KeepsFramesTold};
ghost use Rattle.jfs_tree.specs.Fresh.{HasPages};
ghost use Rattle.jfs_tree.specs.Removes.{RemovesTold, TellsFreed, page_frees, page_no_redos, page_marks};
ghost use Rattle.jfs_tree.specs.Root.{NamesBroken};
ghost use Rattle.jfs_tree.specs.Tell.{TellsDraft};

use crate::add_told::copy_of;
use crate::copy::copy_tx;
use crate::draft::Draft;
use crate::form::TreeError;
use crate::fresh::page_at;
use crate::linked::remove_linked;
use crate::links::PageLinks;
use crate::loss::PageLoss;
use crate::tell_all::tell_draft;
use jfs_bits::PageKind;
use jfs_ranges::{Edit, PageView, Tx, ViewError};
use std::alloc::{AllocError, Global};

/// Takes the entry that shares a place with `x`, which is one place, out of a root's tree, and answers it. The transaction gets the changed lines, then
/// a `NoRedo` of each page that is empty now and then a `Free` of each. A root whose last child goes is a leaf without entries. The first keys on the leftmost way stay
/// the least ones. Where there is no such entry, and after an `Err`, root and transaction are as before. What it answers is what the leaf at the end of the entry's way has, whatever stands elsewhere.
pub fn remove_and_tell<V: PageView, F: PageLoss + PageLinks>(
    alloc: Global,
    top: &F,
    form: &F,
    view: &mut V,
    root: &mut [u8],
    x: &F::Entry,
    kind: PageKind,
    tx: &mut Tx,
) -> Result<Option<F::Entry>, TreeError>
    requires root { length root.old ≡ F.PageForm.size top.now }
    requires bound { (F.PageForm.blocks top.now ≡ V.PageView.block_count view.old) × (F.PageForm.blocks form.now ≡ V.PageView.block_count view.old) }
    requires size { F.PageForm.size form.now ≡ 4096 }
    requires top { F.PageForm.is_root top.now }
    requires point { IsPoint F.PageForm.scale x.now }
    requires children { (bytes : List ℕ) → HasPages (V.PageView.block_count view.old) (F.PageForm.node top.now bytes) × HasPages (V.PageView.block_count view.old) (F.PageForm.node form.now bytes) }
    ensures image { V.PageView.tells → V.PageView.image view.new ≡ V.PageView.image view.old }
    ensures count_of_blocks { V.PageView.block_count view.new ≡ V.PageView.block_count view.old }
    ensures device { V.PageView.device view.new ≡ V.PageView.device view.old }
    ensures fault { CarriesFault (V.PageView.faults view.old) (V.PageView.faults view.new) result }
    ensures removes { V.PageView.tells → IfOk result (RemovesTold F.PageForm.scale (F.PageForm.node form.now) (V.PageView.block_count view.old) (page_of (V.PageView.image view.old)) x.now
        (F.PageForm.node top.now root.old) (F.PageForm.node top.now root.new) tx.old tx.new) }
    ensures left { V.PageView.tells → OnOk result (StaysLeftmost F.PageForm.scale (F.PageForm.node form.now) (V.PageView.block_count view.old) (page_of (V.PageView.image view.old))
        (F.PageForm.node top.now root.old) (F.PageForm.node top.now root.new) tx.old tx.new) }
    ensures edits { V.PageView.tells → IfOk result (λ found. IfSome found (λ entry. TellsGone (V.PageView.block_count view.old) kind (page_of (V.PageView.image view.old)) tx.old tx.new)) }
    ensures framed { V.PageView.tells → OnOk result (KeepsFramesTold (F.PageForm.frame form.now) (V.PageView.block_count view.old) (page_of (V.PageView.image view.old)) tx.old tx.new) }
    ensures frame { F.PageForm.frame top.now root.new ≡ F.PageForm.frame top.now root.old }
    ensures absent { IfOk result (λ found. IfNone found ((root.new ≡ root.old) × (tx.new ≡ tx.old))) }
    ensures kept { OnErr result ((root.new ≡ root.old) × (tx.new ≡ tx.old)) }
    ensures bad { V.PageView.tells → IfErr result (λ e.
        NamesBroken F.PageForm.scale (read_as (F.PageForm.node form.now) (page_of (V.PageView.image view.old))) (F.PageForm.node top.now root.old) e) }
    ensures way { V.PageView.tells → TellsBroken (broken_on_way F.PageForm.scale (read_as (F.PageForm.node form.now) (page_of (V.PageView.image view.old))) (F.PageForm.scale.from x.now) (F.PageForm.node top.now root.old)) result }
    ensures on_way { V.PageView.tells → IfOk result (λ found.
        found ≡ found_on_way F.PageForm.scale (read_as (F.PageForm.node form.now) (page_of (V.PageView.image view.old))) x.now (F.PageForm.node top.now root.old)) }
{
    let Ok(old) = copy_of(alloc, root) else {
        return Err(TreeError::Memory);
    };
    let mut draft = Draft::new(alloc);
    let mut freed = Vec::new(alloc);
    let entry = match remove_linked(top, form, view, &mut draft, &mut freed, root, x) {
        Ok(Some(entry)) => entry,
        Ok(None) => return Ok(None),
        Err(e) => {
            root.copy_from_slice(old.as_slice());
            return Err(e);
        }
    };
    match tell_freed(alloc, view, &draft, freed.as_slice(), kind, tx) {
        Ok(later) => {
            *tx = later;
            Ok(Some(entry))
        }
        Err(e) => {
            root.copy_from_slice(old.as_slice());
            Err(TreeError::View(e))
        }
    }
}

#[tactic(auto, using(crate::proofs::Removes::told_freed, crate::proofs::LinesOnly::lines_then))]
/// The transaction with what changed, and then the pages that are free.
fn tell_freed<V: PageView>(
    alloc: Global,
    view: &mut V,
    draft: &Draft,
    freed: &[u32],
    kind: PageKind,
    tx: &Tx,
) -> Result<Tx, ViewError>
    ensures image { V.PageView.tells → V.PageView.image view.new ≡ V.PageView.image view.old }
    ensures count_of_blocks { V.PageView.block_count view.new ≡ V.PageView.block_count view.old }
    ensures device { V.PageView.device view.new ≡ V.PageView.device view.old }
    ensures fault { CarriesCount (V.PageView.faults view.old) (V.PageView.faults view.new) result }
    ensures told { V.PageView.tells → IfOk result (λ later. TellsDraft (V.PageView.block_count view.old) (V.PageView.image view.old) draft.now.pages.items tx.now later) }
    ensures edits { V.PageView.tells → IfOk result (λ later. TellsFreed freed.now tx.now later) }
    ensures changes { V.PageView.tells → IfOk result (λ later. TellsChanges (V.PageView.block_count view.old) kind [] (page_of (V.PageView.image view.old)) (page_frees freed.now) tx.now later) }
{
    let Ok(mut later) = copy_tx(alloc, tx) else {
        return Err(ViewError::Memory);
    };
    tell_draft(alloc, view, draft, &[], kind, &mut later)?;
    match free_pages(freed, &mut later) {
        Ok(()) => Ok(later),
        Err(_) => Err(ViewError::Memory),
    }
}

/// Frees these pages, in their order; their records are not to be redone, which is told of all of them first.
pub fn free_pages(pages: &[u32], tx: &mut Tx) -> Result<(), AllocError>
    ensures { OnOk result (tx.new ≡ tx.old ++ page_frees pages.now) }
{
    tell_no_redos(pages, tx)?;
    tell_free(pages, tx)
}

/// Tells that records of these pages are not to be redone.
fn tell_no_redos(pages: &[u32], tx: &mut Tx) -> Result<(), AllocError>
    ensures { OnOk result (tx.new ≡ tx.old ++ page_no_redos pages.now) }
{
    for n in pages {
        tx.push(Edit::NoRedo { page: *n })?;
    }
    Ok(())
}

/// Tells that the blocks of these pages are free.
fn tell_free(pages: &[u32], tx: &mut Tx) -> Result<(), AllocError>
    ensures { OnOk result (tx.new ≡ tx.old ++ page_marks pages.now) }
{
    for n in pages {
        tx.push(Edit::Free(page_at(*n)))?;
    }
    Ok(())
}
