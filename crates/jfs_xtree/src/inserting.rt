//! One extent more.

ghost use Rattle.std.specs.Prelude.{◌≡◌, ◌⊎◌, ◌<◌, ◌≤◌, ℕ, List, length, OnOk, OnErr, IfErr};
ghost use Rattle.jfs_disk.specs.Image.{page_of};
ghost use Rattle.jfs_bits.specs.declared.rule.PageKind.TheVariants.{Xtree};
ghost use Rattle.jfs_tree.specs.Changes.{TellsTaken};
ghost use Rattle.jfs_tree.specs.Form.{AllBelow};
ghost use Rattle.jfs_tree.specs.Fresh.{blocks_of, TakenInOrder};
ghost use Rattle.jfs_tree.specs.Root.{RefusesWhereBad};
ghost use Rattle.jfs_xtree.specs.Node.{xt_scale, IsGood, KeepsFrame};
ghost use Rattle.jfs_xtree.specs.Spells.{IsRootSize, root_node, page_nodes, tree_error, CarriesXt, broken_for};
ghost use Rattle.jfs_xtree.specs.Adding.{AddsExtent, IsApartOnWay, KeepsNoThin, KeepsLeast, AppendsFull, NamesPages, TakesPages, RefusesFull, ClashesFor, IsFullAndDeep, AddTellsWay};

use crate::error::XtError;
use crate::find::{handed_on, root_form};
use crate::form::XtPages;
use jfs_bits::{PageKind, PxdList, Xad};
use jfs_ranges::{PageView, Tx};
use jfs_tree::add_and_tell;
use jfs_xtpage::XtForm;
use std::alloc::Global;

#[tactic(auto, using(crate::proofs::Roots::form_fits, crate::proofs::Adds::has_pages))]
/// Adds an extent, which has a length, lies in the file system part and shares no block of the file with another. Pages that it needs, which is only where
/// pages on its way down have no slot left, are taken from `fresh` in its order; the transaction gets the changed lines and new pages, and then an `Alloc`
/// of each; the extent's own blocks are the caller's. After an `Err` root, `fresh` and transaction are as before. `Bad` names the first page on the extent's
/// way that breaks a rule by itself; where none does, with rule `order` a page at which the extent clashes with what is stored: so an extent that shares a block
/// with one of the leaf to which it goes is refused. Where each page but the last of its level held at least some number of extents or children, up to 127, each does:
/// a full page that isn't the last of its level is split in halves. Where the extent comes past all others, this holds up to the 254 that a page can have: appended extents leave full pages. A tree of 8 levels gets no ninth: that is `Bad` with rule `deep` at the root. Each new page names itself; of
/// the root its number of slots, its own descriptor and what stands behind its slots stay.
pub fn add<V: PageView>(
    alloc: Global,
    view: &mut V,
    root: &mut [u8],
    x: Xad,
    fresh: &mut PxdList,
    tx: &mut Tx,
) -> Result<(), XtError>
    requires root { IsRootSize (length root.old) }
    requires extent { IsGood (V.PageView.block_count view.old) x }
    requires enough { 8 ≤ length (blocks_of fresh.old) }
    requires within { AllBelow (V.PageView.block_count view.old) (blocks_of fresh.old) }
    ensures image { V.PageView.tells → V.PageView.image view.new ≡ V.PageView.image view.old }
    ensures count_of_blocks { V.PageView.block_count view.new ≡ V.PageView.block_count view.old }
    ensures device { V.PageView.device view.new ≡ V.PageView.device view.old }
    ensures fault { CarriesXt (V.PageView.faults view.old) (V.PageView.faults view.new) result }
    ensures adds { V.PageView.tells → OnOk result (AddsExtent (V.PageView.block_count view.old) (page_of (V.PageView.image view.old)) x root.old root.new (blocks_of fresh.old) (blocks_of fresh.new) tx.old tx.new) }
    ensures taken { OnOk result (TakenInOrder (blocks_of fresh.old) (blocks_of fresh.new) tx.old tx.new) }
    ensures edits { V.PageView.tells → OnOk result (TellsTaken (V.PageView.block_count view.old) Xtree (page_of (V.PageView.image view.old)) (blocks_of fresh.old) (blocks_of fresh.new) tx.old tx.new) }
    ensures thin { V.PageView.tells → OnOk result (KeepsNoThin (V.PageView.block_count view.old) (page_of (V.PageView.image view.old)) x root.old root.new (blocks_of fresh.old) tx.old tx.new) }
    ensures room { V.PageView.tells → OnOk result (TakesPages (V.PageView.block_count view.old) (page_of (V.PageView.image view.old)) x root.old (blocks_of fresh.old) (blocks_of fresh.new)) }
    ensures named { V.PageView.tells → OnOk result (NamesPages (V.PageView.block_count view.old) (page_of (V.PageView.image view.old)) x root.old (blocks_of fresh.old) (blocks_of fresh.new) tx.old tx.new) }
    ensures frame { KeepsFrame root.old root.new }
    ensures apart { V.PageView.tells → OnOk result (IsApartOnWay (V.PageView.block_count view.old) (page_of (V.PageView.image view.old)) x root.old) }
    ensures kept { OnErr result ((root.new ≡ root.old) × (fresh.new ≡ fresh.old) × (tx.new ≡ tx.old)) }
    ensures refused { V.PageView.tells → IfErr result (λ e. RefusesWhereBad xt_scale x (page_nodes (V.PageView.block_count view.old) (page_of (V.PageView.image view.old))) (root_node (V.PageView.block_count view.old) root.old) (blocks_of fresh.old) (tree_error e)) }
    ensures way { V.PageView.tells → AddTellsWay (broken_for (V.PageView.block_count view.old) (page_of (V.PageView.image view.old)) root.old x.offset) (ClashesFor (V.PageView.block_count view.old) (page_of (V.PageView.image view.old)) x root.old) (IsFullAndDeep (V.PageView.block_count view.old) (page_of (V.PageView.image view.old)) x root.old) result }
    ensures full { V.PageView.tells → IfErr result (λ e. RefusesFull (V.PageView.block_count view.old) (page_of (V.PageView.image view.old)) x root.old (blocks_of fresh.old) (tree_error e)) }
    ensures parts { V.PageView.tells → OnOk result (KeepsLeast (V.PageView.block_count view.old) (page_of (V.PageView.image view.old)) x root.old root.new (blocks_of fresh.old) tx.old tx.new) }
    ensures appends { V.PageView.tells → OnOk result (AppendsFull (V.PageView.block_count view.old) (page_of (V.PageView.image view.old)) x root.old root.new (blocks_of fresh.old) tx.old tx.new) }
{
    let blocks = view.blocks();
    let form = root_form(root);
    let top = XtPages { form, blocks };
    let pages = XtPages {
        form: XtForm::Full,
        blocks,
    };
    match add_and_tell(
        alloc,
        &top,
        &pages,
        view,
        root,
        &x,
        fresh,
        PageKind::Xtree,
        tx,
    ) {
        Ok(()) => Ok(()),
        Err(e) => Err(handed_on(e)),
    }
}
