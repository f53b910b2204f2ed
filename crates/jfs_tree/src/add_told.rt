//! One entry more, told as edits.

ghost use Rattle.std.specs.Prelude.{◌≡◌, ◌<◌, ◌≤◌, ◌-◌, ◌++◌, ℕ, true, false, List, length, take, drop, OnOk, OnErr, IfOk, IfErr};
ghost use Rattle.jfs_disk.specs.Image.{page_of};
ghost use Rattle.jfs_ranges.specs.View.{CarriesCount};
ghost use Rattle.jfs_tree.specs.Adds.{read_as, on_page, AddsTold, LevelsTold, RefusesWhereFull};
ghost use Rattle.jfs_tree.specs.Room.{TakesWhereFull, FullFrom, GrowsLevel};
ghost use Rattle.jfs_tree.specs.Call.{CarriesFault, IsRead};
ghost use Rattle.jfs_tree.specs.Changes.{TellsChanges, TellsTaken};
ghost use Rattle.jfs_tree.specs.Filled.{AppendsTold, LeastTold};
ghost use Rattle.jfs_tree.specs.Apart.{ApartOnWay};
ghost use Rattle.jfs_tree.specs.Form.{AllBelow};
ghost use Rattle.jfs_tree.specs.Frames.{FramesTold};
ghost use Rattle.jfs_tree.specs.Fresh.{blocks_of, allocs_of, TakenInOrder, HasPages};
ghost use Rattle.jfs_tree.specs.Path.{broken_on_way};
ghost use Rattle.jfs_tree.specs.Refusal.{ClashesOnWay, HasAllLevels, TellsAdding};
ghost use Rattle.jfs_tree.specs.Root.{RefusesWhereBad};
ghost use Rattle.jfs_tree.specs.Taken.{AreDrafted};
ghost use Rattle.jfs_tree.specs.Tell.{TellsDraft, TellsThen};

use crate::copy::copy_tx;
use crate::draft::Draft;
use crate::form::TreeError;
use crate::fresh::{blocks_of, list_of, page_at, reversed};
use crate::linked::add_linked;
use crate::links::PageLinks;
use crate::tell_all::tell_draft;
use jfs_bits::{PageKind, PxdList};
use jfs_ranges::{Edit, PageView, Tx, ViewError};
use std::alloc::{AllocError, Global};

/// Adds an entry to a root's tree. Pages that it needs are taken from `fresh` in its order; the transaction gets the changed lines and new pages,
/// and then an `Alloc` of each. After an `Err` root, `fresh` and transaction are as before. `Bad` names the first page on the entry's way that
/// breaks a rule by itself; where none does, with rule `order` a page at which the entry clashes with what is stored. A tree of 8 levels gets no
/// ninth: that is `Bad` with rule `deep` at the root.
pub fn add_and_tell<V: PageView, F: PageLinks>(
    alloc: Global,
    top: &F,
    form: &F,
    view: &mut V,
    root: &mut [u8],
    x: &F::Entry,
    fresh: &mut PxdList,
    kind: PageKind,
    tx: &mut Tx,
) -> Result<(), TreeError>
    requires root { length root.old ≡ F.PageForm.size top.now }
    requires bound { (F.PageForm.blocks top.now ≡ V.PageView.block_count view.old) × (F.PageForm.blocks form.now ≡ V.PageView.block_count view.old) }
    requires size { F.PageForm.size form.now ≡ 4096 }
    requires top { F.PageForm.is_root top.now }
    requires pages { (F.PageForm.below top.now ≡ form.now) × (F.PageForm.is_root form.now → ⊥) }
    requires good { (F.PageForm.is_good top.now x.now) × (F.PageForm.is_good form.now x.now) }
    requires children { (bytes : List ℕ) → HasPages (V.PageView.block_count view.old) (F.PageForm.node top.now bytes) × HasPages (V.PageView.block_count view.old) (F.PageForm.node form.now bytes) }
    requires enough { 8 ≤ length (blocks_of fresh.old) }
    requires within { AllBelow (V.PageView.block_count view.old) (blocks_of fresh.old) }
    ensures image { V.PageView.tells → V.PageView.image view.new ≡ V.PageView.image view.old }
    ensures count_of_blocks { V.PageView.block_count view.new ≡ V.PageView.block_count view.old }
    ensures device { V.PageView.device view.new ≡ V.PageView.device view.old }
    ensures fault { CarriesFault (V.PageView.faults view.old) (V.PageView.faults view.new) result }
    ensures adds { V.PageView.tells → OnOk result (AddsTold F.PageForm.scale (F.PageForm.node form.now) (V.PageView.block_count view.old) (page_of (V.PageView.image view.old)) x.now
        (F.PageForm.node top.now root.old) (F.PageForm.node top.now root.new) (blocks_of fresh.old) (blocks_of fresh.new) tx.old tx.new) }
    ensures taken { OnOk result (TakenInOrder (blocks_of fresh.old) (blocks_of fresh.new) tx.old tx.new) }
    ensures edits { V.PageView.tells → OnOk result (TellsTaken (V.PageView.block_count view.old) kind (page_of (V.PageView.image view.old)) (blocks_of fresh.old) (blocks_of fresh.new) tx.old tx.new) }
    ensures thin { (least : ℕ) → F.PageForm.fills false least → V.PageView.tells → OnOk result (LeastTold least F.PageForm.scale (F.PageForm.node form.now) (V.PageView.block_count view.old) (page_of (V.PageView.image view.old)) x.now
        (F.PageForm.node top.now root.old) (F.PageForm.node top.now root.new) (blocks_of fresh.old) tx.old tx.new) }
    ensures appends { (least : ℕ) → F.PageForm.fills true least → V.PageView.tells → OnOk result (AppendsTold least F.PageForm.scale (F.PageForm.node form.now) (V.PageView.block_count view.old) (page_of (V.PageView.image view.old)) x.now
        (F.PageForm.node top.now root.old) (F.PageForm.node top.now root.new) (blocks_of fresh.old) tx.old tx.new) }
    ensures framed { V.PageView.tells → OnOk result (FramesTold F.PageForm.scale (F.PageForm.node form.now) (F.PageForm.frame form.now) (F.PageForm.new_frame form.now) (V.PageView.block_count view.old) x.now (page_of (V.PageView.image view.old))
        (F.PageForm.node top.now root.old) (blocks_of fresh.old) (blocks_of fresh.new) tx.old tx.new) }
    ensures frame { F.PageForm.frame top.now root.new ≡ F.PageForm.frame top.now root.old }
    ensures apart { V.PageView.tells → OnOk result (ApartOnWay F.PageForm.scale (read_as (F.PageForm.node form.now) (page_of (V.PageView.image view.old))) x.now (F.PageForm.node top.now root.old)) }
    ensures kept { OnErr result ((root.new ≡ root.old) × (fresh.new ≡ fresh.old) × (tx.new ≡ tx.old)) }
    ensures refused { V.PageView.tells → IfErr result (λ e. RefusesWhereBad F.PageForm.scale x.now (read_as (F.PageForm.node form.now) (page_of (V.PageView.image view.old))) (F.PageForm.node top.now root.old) (blocks_of fresh.old) e) }
    ensures room { V.PageView.tells → OnOk result (TakesWhereFull F.PageForm.scale x.now (read_as (F.PageForm.node form.now) (page_of (V.PageView.image view.old)))
        (on_page (F.PageForm.is_full form.now) (page_of (V.PageView.image view.old))) (on_page (λ bytes. F.PageForm.has_no_room form.now bytes x.now) (page_of (V.PageView.image view.old))) (F.PageForm.node top.now root.old)
        ((F.PageForm.is_full top.now root.old) × (F.PageForm.has_no_room top.now root.old x.now)) (λ key. (F.PageForm.is_full top.now root.old) × (F.PageForm.has_no_place top.now root.old key)) (blocks_of fresh.old) (blocks_of fresh.new)) }
    ensures levels { V.PageView.tells → OnOk result (LevelsTold F.PageForm.scale (F.PageForm.node form.now) (V.PageView.block_count view.old) (page_of (V.PageView.image view.old)) x.now
        (F.PageForm.node top.now root.old) (F.PageForm.node top.now root.new) (blocks_of fresh.old) tx.old tx.new
        (λ new. GrowsLevel F.PageForm.scale x.now (read_as (F.PageForm.node form.now) (page_of (V.PageView.image view.old))) (on_page (F.PageForm.is_full form.now) (page_of (V.PageView.image view.old))) (on_page (λ bytes. F.PageForm.has_no_room form.now bytes x.now) (page_of (V.PageView.image view.old))) (F.PageForm.node top.now root.old)
        ((F.PageForm.is_full top.now root.old) × (F.PageForm.has_no_room top.now root.old x.now)) (λ key. (F.PageForm.is_full top.now root.old) × (F.PageForm.has_no_place top.now root.old key)) (F.PageForm.node top.now root.new) new)) }
    ensures way { V.PageView.tells → TellsAdding
        (broken_on_way F.PageForm.scale (read_as (F.PageForm.node form.now) (page_of (V.PageView.image view.old))) (F.PageForm.scale.from x.now) (F.PageForm.node top.now root.old))
        (ClashesOnWay F.PageForm.scale (read_as (F.PageForm.node form.now) (page_of (V.PageView.image view.old))) x.now (on_page (F.PageForm.is_full form.now) (page_of (V.PageView.image view.old))) (on_page (λ bytes. F.PageForm.has_no_room form.now bytes x.now) (page_of (V.PageView.image view.old))) (F.PageForm.node top.now root.old))
        (HasAllLevels F.PageForm.scale (read_as (F.PageForm.node form.now) (page_of (V.PageView.image view.old))) x.now (on_page (F.PageForm.is_full form.now) (page_of (V.PageView.image view.old))) (on_page (λ bytes. F.PageForm.has_no_room form.now bytes x.now) (page_of (V.PageView.image view.old)))
        (F.PageForm.node top.now root.old) (λ key. (F.PageForm.is_full top.now root.old) × (F.PageForm.has_no_place top.now root.old key))) result }
    ensures full { V.PageView.tells → IfErr result (λ e. RefusesWhereFull F.PageForm.scale x.now (read_as (F.PageForm.node form.now) (page_of (V.PageView.image view.old))) (F.PageForm.node top.now root.old) (blocks_of fresh.old)
        (FullFrom F.PageForm.scale x.now (read_as (F.PageForm.node form.now) (page_of (V.PageView.image view.old))) (on_page (F.PageForm.is_full form.now) (page_of (V.PageView.image view.old))) (on_page (λ bytes. F.PageForm.has_no_room form.now bytes x.now) (page_of (V.PageView.image view.old))) (F.PageForm.node top.now root.old)
        ((F.PageForm.is_full top.now root.old) × (F.PageForm.has_no_room top.now root.old x.now)) (λ key. (F.PageForm.is_full top.now root.old) × (F.PageForm.has_no_place top.now root.old key))) e) }
{
    let Ok(old) = copy_of(alloc, root) else {
        return Err(TreeError::Memory);
    };
    match plan(alloc, top, form, view, root, x, fresh, kind, tx) {
        Ok(planned) => {
            *fresh = planned.fresh;
            *tx = planned.tx;
            Ok(())
        }
        Err(e) => {
            root.copy_from_slice(old.as_slice());
            Err(e)
        }
    }
}

/// A copy of bytes, as of a root before a call that may fail.
pub fn copy_of(alloc: Global, bytes: &[u8]) -> Result<Vec<u8>, AllocError>
    ensures { IfOk result (λ copy. copy.items ≡ bytes.now) }
{
    let mut copy = Vec::new(alloc);
    copy.extend_from_slice(bytes)?;
    Ok(copy)
}

/// What a call makes of its free blocks and its transaction.
#[derive(Drop)]
pub struct Planned {
    pub fresh: PxdList,
    pub tx: Tx,
}

fn plan<V: PageView, F: PageLinks>(
    alloc: Global,
    top: &F,
    form: &F,
    view: &mut V,
    root: &mut [u8],
    x: &F::Entry,
    fresh: &PxdList,
    kind: PageKind,
    tx: &Tx,
) -> Result<Planned, TreeError>
    requires root { length root.old ≡ F.PageForm.size top.now }
    requires bound { (F.PageForm.blocks top.now ≡ V.PageView.block_count view.old) × (F.PageForm.blocks form.now ≡ V.PageView.block_count view.old) }
    requires size { F.PageForm.size form.now ≡ 4096 }
    requires top { F.PageForm.is_root top.now }
    requires pages { (F.PageForm.below top.now ≡ form.now) × (F.PageForm.is_root form.now → ⊥) }
    requires good { (F.PageForm.is_good top.now x.now) × (F.PageForm.is_good form.now x.now) }
    requires children { (bytes : List ℕ) → HasPages (V.PageView.block_count view.old) (F.PageForm.node top.now bytes) × HasPages (V.PageView.block_count view.old) (F.PageForm.node form.now bytes) }
    requires enough { 8 ≤ length (blocks_of fresh.now) }
    requires within { AllBelow (V.PageView.block_count view.old) (blocks_of fresh.now) }
    ensures image { V.PageView.tells → V.PageView.image view.new ≡ V.PageView.image view.old }
    ensures count_of_blocks { V.PageView.block_count view.new ≡ V.PageView.block_count view.old }
    ensures device { V.PageView.device view.new ≡ V.PageView.device view.old }
    ensures fault { CarriesFault (V.PageView.faults view.old) (V.PageView.faults view.new) result }
    ensures adds { V.PageView.tells → IfOk result (λ p. AddsTold F.PageForm.scale (F.PageForm.node form.now) (V.PageView.block_count view.old) (page_of (V.PageView.image view.old)) x.now
        (F.PageForm.node top.now root.old) (F.PageForm.node top.now root.new) (blocks_of fresh.now) (blocks_of p.fresh) tx.now p.tx) }
    ensures taken { IfOk result (λ p. TakenInOrder (blocks_of fresh.now) (blocks_of p.fresh) tx.now p.tx) }
    ensures edits { V.PageView.tells → IfOk result (λ p. TellsTaken (V.PageView.block_count view.old) kind (page_of (V.PageView.image view.old)) (blocks_of fresh.now) (blocks_of p.fresh) tx.now p.tx) }
    ensures thin { (least : ℕ) → F.PageForm.fills false least → V.PageView.tells → IfOk result (λ p. LeastTold least F.PageForm.scale (F.PageForm.node form.now) (V.PageView.block_count view.old) (page_of (V.PageView.image view.old)) x.now
        (F.PageForm.node top.now root.old) (F.PageForm.node top.now root.new) (blocks_of fresh.now) tx.now p.tx) }
    ensures appends { (least : ℕ) → F.PageForm.fills true least → V.PageView.tells → IfOk result (λ p. AppendsTold least F.PageForm.scale (F.PageForm.node form.now) (V.PageView.block_count view.old) (page_of (V.PageView.image view.old)) x.now
        (F.PageForm.node top.now root.old) (F.PageForm.node top.now root.new) (blocks_of fresh.now) tx.now p.tx) }
    ensures framed { V.PageView.tells → IfOk result (λ p. FramesTold F.PageForm.scale (F.PageForm.node form.now) (F.PageForm.frame form.now) (F.PageForm.new_frame form.now) (V.PageView.block_count view.old) x.now (page_of (V.PageView.image view.old))
        (F.PageForm.node top.now root.old) (blocks_of fresh.now) (blocks_of p.fresh) tx.now p.tx) }
    ensures frame { F.PageForm.frame top.now root.new ≡ F.PageForm.frame top.now root.old }
    ensures apart { V.PageView.tells → OnOk result (ApartOnWay F.PageForm.scale (read_as (F.PageForm.node form.now) (page_of (V.PageView.image view.old))) x.now (F.PageForm.node top.now root.old)) }
    ensures refused { V.PageView.tells → IfErr result (λ e. RefusesWhereBad F.PageForm.scale x.now (read_as (F.PageForm.node form.now) (page_of (V.PageView.image view.old))) (F.PageForm.node top.now root.old) (blocks_of fresh.now) e) }
    ensures room { V.PageView.tells → IfOk result (λ p. (TakesWhereFull F.PageForm.scale x.now (read_as (F.PageForm.node form.now) (page_of (V.PageView.image view.old)))
        (on_page (F.PageForm.is_full form.now) (page_of (V.PageView.image view.old))) (on_page (λ bytes. F.PageForm.has_no_room form.now bytes x.now) (page_of (V.PageView.image view.old))) (F.PageForm.node top.now root.old)
        ((F.PageForm.is_full top.now root.old) × (F.PageForm.has_no_room top.now root.old x.now)) (λ key. (F.PageForm.is_full top.now root.old) × (F.PageForm.has_no_place top.now root.old key)) (blocks_of fresh.now) (blocks_of p.fresh))) }
    ensures levels { V.PageView.tells → IfOk result (λ p. LevelsTold F.PageForm.scale (F.PageForm.node form.now) (V.PageView.block_count view.old) (page_of (V.PageView.image view.old)) x.now
        (F.PageForm.node top.now root.old) (F.PageForm.node top.now root.new) (blocks_of fresh.now) tx.now p.tx
        (λ new. GrowsLevel F.PageForm.scale x.now (read_as (F.PageForm.node form.now) (page_of (V.PageView.image view.old))) (on_page (F.PageForm.is_full form.now) (page_of (V.PageView.image view.old))) (on_page (λ bytes. F.PageForm.has_no_room form.now bytes x.now) (page_of (V.PageView.image view.old))) (F.PageForm.node top.now root.old)
        ((F.PageForm.is_full top.now root.old) × (F.PageForm.has_no_room top.now root.old x.now)) (λ key. (F.PageForm.is_full top.now root.old) × (F.PageForm.has_no_place top.now root.old key)) (F.PageForm.node top.now root.new) new)) }
    ensures way { V.PageView.tells → TellsAdding
        (broken_on_way F.PageForm.scale (read_as (F.PageForm.node form.now) (page_of (V.PageView.image view.old))) (F.PageForm.scale.from x.now) (F.PageForm.node top.now root.old))
        (ClashesOnWay F.PageForm.scale (read_as (F.PageForm.node form.now) (page_of (V.PageView.image view.old))) x.now (on_page (F.PageForm.is_full form.now) (page_of (V.PageView.image view.old))) (on_page (λ bytes. F.PageForm.has_no_room form.now bytes x.now) (page_of (V.PageView.image view.old))) (F.PageForm.node top.now root.old))
        (HasAllLevels F.PageForm.scale (read_as (F.PageForm.node form.now) (page_of (V.PageView.image view.old))) x.now (on_page (F.PageForm.is_full form.now) (page_of (V.PageView.image view.old))) (on_page (λ bytes. F.PageForm.has_no_room form.now bytes x.now) (page_of (V.PageView.image view.old)))
        (F.PageForm.node top.now root.old) (λ key. (F.PageForm.is_full top.now root.old) × (F.PageForm.has_no_place top.now root.old key))) result }
    ensures full { V.PageView.tells → IfErr result (λ e. RefusesWhereFull F.PageForm.scale x.now (read_as (F.PageForm.node form.now) (page_of (V.PageView.image view.old))) (F.PageForm.node top.now root.old) (blocks_of fresh.now)
        (FullFrom F.PageForm.scale x.now (read_as (F.PageForm.node form.now) (page_of (V.PageView.image view.old))) (on_page (F.PageForm.is_full form.now) (page_of (V.PageView.image view.old))) (on_page (λ bytes. F.PageForm.has_no_room form.now bytes x.now) (page_of (V.PageView.image view.old))) (F.PageForm.node top.now root.old)
        ((F.PageForm.is_full top.now root.old) × (F.PageForm.has_no_room top.now root.old x.now)) (λ key. (F.PageForm.is_full top.now root.old) × (F.PageForm.has_no_place top.now root.old key))) e) }
{
    let blocks = view.blocks();
    let Ok(all) = blocks_of(alloc, fresh, blocks) else {
        return Err(TreeError::Memory);
    };
    let Ok(free) = blocks_of(alloc, fresh, blocks) else {
        return Err(TreeError::Memory);
    };
    let mut stack = reversed(free);
    let mut draft = Draft::new(alloc);
    if let Err(e) = add_linked(
        top,
        form,
        view,
        &mut draft,
        all.as_slice(),
        &mut stack,
        root,
        x,
    ) {
        return Err(e);
    }
    finish(alloc, view, &draft, all.as_slice(), stack.len(), kind, tx)
}

/// What was planned, once the pages are in the draft and so many of the free blocks are left.
pub(crate) fn finish<V: PageView>(
    alloc: Global,
    view: &mut V,
    draft: &Draft,
    all: &[u32],
    left: usize,
    kind: PageKind,
    tx: &Tx,
) -> Result<Planned, TreeError>
    requires fits { left ≤ length all.now }
    requires drafted { AreDrafted (V.PageView.block_count view.old) draft.now.pages.items (take (length all.now - left) all.now) }
    ensures image { V.PageView.tells → V.PageView.image view.new ≡ V.PageView.image view.old }
    ensures count_of_blocks { V.PageView.block_count view.new ≡ V.PageView.block_count view.old }
    ensures device { V.PageView.device view.new ≡ V.PageView.device view.old }
    ensures fault { CarriesFault (V.PageView.faults view.old) (V.PageView.faults view.new) result }
    ensures told { V.PageView.tells → IfOk result (λ p. TellsDraft (V.PageView.block_count view.old) (V.PageView.image view.old) draft.now.pages.items tx.now p.tx) }
    ensures rest { IfOk result (λ p. blocks_of p.fresh ≡ drop (length all.now - left) all.now) }
    ensures allocs { IfOk result (λ p. TellsThen (allocs_of (take (length all.now - left) all.now)) tx.now p.tx) }
    ensures edits { V.PageView.tells → IfOk result (λ p. TellsChanges (V.PageView.block_count view.old) kind (take (length all.now - left) all.now) (page_of (V.PageView.image view.old)) (allocs_of (take (length all.now - left) all.now)) tx.now p.tx) }
    ensures read { IfErr result (λ e. IsRead e) }
{
    let taken = all.len() - left;
    let Ok(fresh) = list_of(alloc, &all[taken..]) else {
        return Err(TreeError::Memory);
    };
    match tell(alloc, view, draft, &all[..taken], kind, tx) {
        Ok(tx) => Ok(Planned { fresh, tx }),
        Err(e) => Err(TreeError::View(e)),
    }
}

#[tactic(auto, using(crate::proofs::Runs::told_still, crate::proofs::LinesOnly::lines_then))]
/// The transaction with what changed, and then the pages that were taken.
fn tell<V: PageView>(
    alloc: Global,
    view: &mut V,
    draft: &Draft,
    taken: &[u32],
    kind: PageKind,
    tx: &Tx,
) -> Result<Tx, ViewError>
    requires drafted { AreDrafted (V.PageView.block_count view.old) draft.now.pages.items taken.now }
    ensures image { V.PageView.tells → V.PageView.image view.new ≡ V.PageView.image view.old }
    ensures count_of_blocks { V.PageView.block_count view.new ≡ V.PageView.block_count view.old }
    ensures device { V.PageView.device view.new ≡ V.PageView.device view.old }
    ensures fault { CarriesCount (V.PageView.faults view.old) (V.PageView.faults view.new) result }
    ensures told { V.PageView.tells → IfOk result (λ later. TellsDraft (V.PageView.block_count view.old) (V.PageView.image view.old) draft.now.pages.items tx.now later) }
    ensures allocs { IfOk result (λ later. TellsThen (allocs_of taken.now) tx.now later) }
    ensures edits { V.PageView.tells → IfOk result (λ later. TellsChanges (V.PageView.block_count view.old) kind taken.now (page_of (V.PageView.image view.old)) (allocs_of taken.now) tx.now later) }
{
    let Ok(mut later) = copy_tx(alloc, tx) else {
        return Err(ViewError::Memory);
    };
    tell_draft(alloc, view, draft, taken, kind, &mut later)?;
    match take_pages(taken, &mut later) {
        Ok(()) => Ok(later),
        Err(_) => Err(ViewError::Memory),
    }
}

/// Takes these pages, in their order.
fn take_pages(taken: &[u32], tx: &mut Tx) -> Result<(), AllocError>
    ensures { OnOk result (tx.new ≡ tx.old ++ allocs_of taken.now) }
{
    for n in taken {
        tx.push(Edit::Alloc(page_at(*n)))?;
    }
    Ok(())
}
