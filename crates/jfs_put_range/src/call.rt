//! A range that is written into a file's tree of extents.

ghost use Rattle.std.specs.Prelude.{◌≡◌, ◌≤◌, ◌+◌, ℕ, List, length, OnOk, OnErr, IfOk, IfErr};
ghost use Rattle.jfs_bits.specs.declared.extent.Xad.{Xad};
ghost use Rattle.jfs_bits.specs.declared.rule.PageKind.TheVariants.{Xtree};
ghost use Rattle.jfs_disk.specs.Image.{page_of};
ghost use Rattle.jfs_tree.specs.Call.{CarriesFault};
ghost use Rattle.jfs_tree.specs.Changes.{TellsTaken};
ghost use Rattle.jfs_tree.specs.Form.{AllBelow};
ghost use Rattle.jfs_tree.specs.Fresh.{blocks_of, TakenInOrder};
ghost use Rattle.jfs_xtree.specs.Node.{KeepsFrame};
ghost use Rattle.jfs_xtree.specs.Spells.{IsRootSize, root_node, tree_error, CarriesXt};
ghost use Rattle.jfs_put_range.specs.Tops.{NamesRoot};
ghost use Rattle.jfs_put_range.specs.Way.{RangeTellsWay, broken_on_range};
ghost use Rattle.jfs_put_range.specs.Call.{IsShortRange, WritesRange, KeepsLeast, NamesPages, RefusesOnlyDeep};

use crate::clash::as_clash;
use crate::linked::put_linked;
use crate::span::{end_of_all, first_of};
use jfs_bits::{PageKind, PxdList, Xad, XadList};
use jfs_ranges::{PageView, Tx, ViewError};
use jfs_tree::{Draft, Planned, TreeError, copy_of, fresh_stack, tell_steps};
use jfs_ways::look_along;
use jfs_xtree::{XtError, XtPages, handed_on, root_form};
use std::alloc::Global;

/// Writes a range of blocks into a file's list: extents in rising order, which lie within 17 consecutive blocks of the file and end below its block 2^40. They stand in place
/// of what the list had of these blocks, cut where an entry begins or ends; an entry that reached past the blocks keeps its other parts, and what is written into a hole is
/// merged with a recorded left neighbour that it continues. Where each page but the last of its level held at least some number of entries, up to 127, each does. Of the root its number of slots, its own descriptor and what stands behind its slots stay. Each page on the way is changed once. New pages are taken from `fresh` in its order, at most 15, and name themselves where the tree names none of them before; each other page keeps its own descriptor. The transaction
/// gets the changed lines and new pages, and then an `Alloc` of each new page. After an `Err` root, `fresh` and transaction are as before. `Bad` names the first page that breaks
/// a rule on the ways of the blocks from the range's first to its last, which are looked at before anything is written. Where none does, it names with rule `order` a page whose
/// entries can't stand between the keys on its way, or that is met twice. A tree of 8 levels gets no ninth: where its root has no room for two more entries, it can be refused, as
/// `Bad` with rule `deep` at the root.
pub fn put_range<V: PageView>(
    alloc: Global,
    view: &mut V,
    root: &mut [u8],
    xs: &XadList,
    fresh: &mut PxdList,
    tx: &mut Tx,
) -> Result<(), XtError>
    requires root { IsRootSize (length root.old) }
    requires range { IsShortRange (V.PageView.block_count view.old) xs.now }
    requires enough { 15 ≤ length (blocks_of fresh.old) }
    requires within { AllBelow (V.PageView.block_count view.old) (blocks_of fresh.old) }
    ensures image { V.PageView.tells → V.PageView.image view.new ≡ V.PageView.image view.old }
    ensures count_of_blocks { V.PageView.block_count view.new ≡ V.PageView.block_count view.old }
    ensures device { V.PageView.device view.new ≡ V.PageView.device view.old }
    ensures fault { CarriesXt (V.PageView.faults view.old) (V.PageView.faults view.new) result }
    ensures writes { V.PageView.tells → OnOk result (WritesRange (V.PageView.block_count view.old) (page_of (V.PageView.image view.old)) xs.now root.old root.new (blocks_of fresh.old) (blocks_of fresh.new) tx.old tx.new) }
    ensures taken { OnOk result (TakenInOrder (blocks_of fresh.old) (blocks_of fresh.new) tx.old tx.new) }
    ensures edits { V.PageView.tells → OnOk result (TellsTaken (V.PageView.block_count view.old) Xtree (page_of (V.PageView.image view.old)) (blocks_of fresh.old) (blocks_of fresh.new) tx.old tx.new) }
    ensures thin { V.PageView.tells → OnOk result (KeepsLeast (V.PageView.block_count view.old) (page_of (V.PageView.image view.old)) root.old root.new (blocks_of fresh.old) tx.old tx.new) }
    ensures named { V.PageView.tells → OnOk result (NamesPages (V.PageView.block_count view.old) (page_of (V.PageView.image view.old)) root.old (blocks_of fresh.old) (blocks_of fresh.new) tx.old tx.new) }
    ensures frame { KeepsFrame root.old root.new }
    ensures most { OnOk result (length (blocks_of fresh.old) ≤ length (blocks_of fresh.new) + 15) }
    ensures kept { OnErr result ((root.new ≡ root.old) × (fresh.new ≡ fresh.old) × (tx.new ≡ tx.old)) }
    ensures refused { V.PageView.tells → IfErr result (λ e. RefusesOnlyDeep (V.PageView.block_count view.old) (page_of (V.PageView.image view.old)) root.old (blocks_of fresh.old) (tree_error e)) }
    ensures way { V.PageView.tells → RangeTellsWay (broken_on_range (V.PageView.block_count view.old) (page_of (V.PageView.image view.old)) root.old xs.now) root.old result }
{
    match look_along(
        view,
        root,
        first_of(xs.as_slice()),
        end_of_all(xs.as_slice()),
    ) {
        Ok(()) => {}
        Err(e) => return Err(e),
    }
    let Ok(old) = copy_of(alloc, root) else {
        return Err(XtError::View(ViewError::Memory));
    };
    match plan_range(alloc, view, root, xs, fresh, tx) {
        Ok(planned) => {
            *fresh = planned.fresh;
            *tx = planned.tx;
            Ok(())
        }
        Err(e) => {
            root.copy_from_slice(old.as_slice());
            Err(handed_on(as_clash(e)))
        }
    }
}

#[tactic(auto, using(jfs_xtree::proofs::Roots::form_fits))]
/// The free blocks that are left and the transaction, once the range stands in the root's list.
fn plan_range<V: PageView>(
    alloc: Global,
    view: &mut V,
    root: &mut [u8],
    xs: &XadList,
    fresh: &PxdList,
    tx: &Tx,
) -> Result<Planned, TreeError>
    requires root { IsRootSize (length root.old) }
    requires range { IsShortRange (V.PageView.block_count view.old) xs.now }
    requires enough { 15 ≤ length (blocks_of fresh.now) }
    requires within { AllBelow (V.PageView.block_count view.old) (blocks_of fresh.now) }
    ensures image { V.PageView.tells → V.PageView.image view.new ≡ V.PageView.image view.old }
    ensures count_of_blocks { V.PageView.block_count view.new ≡ V.PageView.block_count view.old }
    ensures device { V.PageView.device view.new ≡ V.PageView.device view.old }
    ensures fault { CarriesFault (V.PageView.faults view.old) (V.PageView.faults view.new) result }
    ensures writes { V.PageView.tells → IfOk result (λ p. WritesRange (V.PageView.block_count view.old) (page_of (V.PageView.image view.old)) xs.now root.old root.new (blocks_of fresh.now) (blocks_of p.fresh) tx.now p.tx) }
    ensures taken { IfOk result (λ p. TakenInOrder (blocks_of fresh.now) (blocks_of p.fresh) tx.now p.tx) }
    ensures edits { V.PageView.tells → IfOk result (λ p. TellsTaken (V.PageView.block_count view.old) Xtree (page_of (V.PageView.image view.old)) (blocks_of fresh.now) (blocks_of p.fresh) tx.now p.tx) }
    ensures thin { V.PageView.tells → IfOk result (λ p. KeepsLeast (V.PageView.block_count view.old) (page_of (V.PageView.image view.old)) root.old root.new (blocks_of fresh.now) tx.now p.tx) }
    ensures framed { V.PageView.tells → IfOk result (λ p. NamesPages (V.PageView.block_count view.old) (page_of (V.PageView.image view.old)) root.old (blocks_of fresh.now) (blocks_of p.fresh) tx.now p.tx) }
    ensures frame { KeepsFrame root.old root.new }
    ensures names { IfErr result (NamesRoot (root_node (V.PageView.block_count view.old) root.old) root.old) }
    ensures most { IfOk result (λ p. length (blocks_of fresh.now) ≤ length (blocks_of p.fresh) + 15) }
    ensures refused { V.PageView.tells → IfErr result (λ e. RefusesOnlyDeep (V.PageView.block_count view.old) (page_of (V.PageView.image view.old)) root.old (blocks_of fresh.now) e) }
{
    let blocks = view.blocks();
    let form = root_form(root);
    let top = XtPages { form, blocks };
    let Ok(mut stack) = fresh_stack(alloc, fresh, blocks) else {
        return Err(TreeError::Memory);
    };
    let Ok(all) = fresh_stack(alloc, fresh, blocks) else {
        return Err(TreeError::Memory);
    };
    let mut draft = Draft::new(alloc);
    if let Err(e) = put_linked(
        alloc,
        &top,
        view,
        &mut draft,
        all.as_slice(),
        &mut stack,
        root,
        xs.as_slice(),
    ) {
        return Err(e);
    }
    tell_steps(
        alloc,
        view,
        &draft,
        fresh,
        stack.as_slice(),
        PageKind::Xtree,
        tx,
    )
}
