//! The ways of a file's blocks from the root down.

ghost use Rattle.std.specs.Prelude.{◌≡◌, ◌<◌, ◌≤◌, ◌-◌, ℕ, length, IfOk, IfErr};
ghost use Rattle.jfs_disk.specs.Image.{page_of};
ghost use Rattle.jfs_tree.specs.Call.{CarriesFault};
ghost use Rattle.jfs_tree.specs.Path.{broken_on_way, TellsBroken};
ghost use Rattle.jfs_tree.specs.Root.{NamesBroken};
ghost use Rattle.jfs_xtpage.specs.Page.{bytes_of};
ghost use Rattle.jfs_xtpage.specs.declared.head.XtForm.TheVariants.{Full};
ghost use Rattle.jfs_xtree.specs.Node.{xt_scale, xt_node};
ghost use Rattle.jfs_xtree.specs.Spells.{IsRootSize, root_node, page_nodes, tree_error, CarriesXt, TellsWay};
ghost use Rattle.jfs_ways.specs.Along.{broken_along, first_broken};
ghost use Rattle.jfs_ways.specs.Leading.{TellsUntil};

use crate::below::look_below;
use crate::leading::lead;
use jfs_ranges::PageView;
use jfs_tree::{NO_PAGE, TreeError};
use jfs_xtpage::XtForm;
use jfs_xtree::{XtError, XtPages, handed_on, root_form};

/// Looks at the pages on the ways of a file's blocks, from block `first` on and before block `end`, and names the first one that breaks a rule: on the first way that has such a
/// page, the one that stands highest. Each way is read once, one page a level.
pub fn look_along<V: PageView>(
    view: &mut V,
    root: &[u8],
    first: u64,
    end: u64,
) -> Result<(), XtError>
    requires root { IsRootSize (length root.now) }
    ensures image { V.PageView.tells → V.PageView.image view.new ≡ V.PageView.image view.old }
    ensures count_of_blocks { V.PageView.block_count view.new ≡ V.PageView.block_count view.old }
    ensures device { V.PageView.device view.new ≡ V.PageView.device view.old }
    ensures fault { CarriesXt (V.PageView.faults view.old) (V.PageView.faults view.new) result }
    ensures bad { V.PageView.tells → IfErr result (λ e. NamesBroken xt_scale (page_nodes (V.PageView.block_count view.old) (page_of (V.PageView.image view.old))) (root_node (V.PageView.block_count view.old) root.now) (tree_error e)) }
    ensures way { V.PageView.tells → TellsWay (broken_along (V.PageView.block_count view.old) (page_of (V.PageView.image view.old)) root.now first (end - first)) result }
{
    let blocks = view.blocks();
    let form = root_form(root);
    let top = XtPages { form, blocks };
    let pages = XtPages {
        form: XtForm::Full,
        blocks,
    };
    match look_from(&top, &pages, view, root, first, end) {
        Ok(()) => Ok(()),
        Err(e) => Err(handed_on(e)),
    }
}

/// The same, way by way.
fn look_from<V: PageView>(
    top: &XtPages,
    pages: &XtPages,
    view: &mut V,
    root: &[u8],
    at: u64,
    end: u64,
) -> Result<(), TreeError>
    requires root { length root.now ≡ bytes_of top.now.form }
    requires blocks { (top.now.blocks ≡ V.PageView.block_count view.old) × (pages.now.blocks ≡ V.PageView.block_count view.old) }
    requires form { pages.now.form ≡ Full }
    ensures image { V.PageView.tells → V.PageView.image view.new ≡ V.PageView.image view.old }
    ensures count_of_blocks { V.PageView.block_count view.new ≡ V.PageView.block_count view.old }
    ensures device { V.PageView.device view.new ≡ V.PageView.device view.old }
    ensures fault { CarriesFault (V.PageView.faults view.old) (V.PageView.faults view.new) result }
    ensures bad { V.PageView.tells → IfErr result (λ e. NamesBroken xt_scale (page_nodes top.now.blocks (page_of (V.PageView.image view.old))) (xt_node top.now.form top.now.blocks root.now) e) }
    ensures way { V.PageView.tells → TellsBroken (first_broken (λ (k : ℕ). broken_on_way xt_scale (page_nodes top.now.blocks (page_of (V.PageView.image view.old))) k (xt_node top.now.form top.now.blocks root.now)) at (end - at)) result }
{
    if at >= end {
        return Ok(());
    }
    match look_down(top, pages, view, root, at, end) {
        Ok(next) => look_from(top, pages, view, root, next, end),
        Err(e) => Err(e),
    }
}

/// The way of block `at`. Answers the block before which all blocks from this one on have the same way.
fn look_down<V: PageView>(
    top: &XtPages,
    pages: &XtPages,
    view: &mut V,
    root: &[u8],
    at: u64,
    end: u64,
) -> Result<u64, TreeError>
    requires root { length root.now ≡ bytes_of top.now.form }
    requires blocks { (top.now.blocks ≡ V.PageView.block_count view.old) × (pages.now.blocks ≡ V.PageView.block_count view.old) }
    requires form { pages.now.form ≡ Full }
    requires some { at < end }
    ensures image { V.PageView.tells → V.PageView.image view.new ≡ V.PageView.image view.old }
    ensures count_of_blocks { V.PageView.block_count view.new ≡ V.PageView.block_count view.old }
    ensures device { V.PageView.device view.new ≡ V.PageView.device view.old }
    ensures fault { CarriesFault (V.PageView.faults view.old) (V.PageView.faults view.new) result }
    ensures until { IfOk result (λ next. (at < next) × (next ≤ end)) }
    ensures bad { V.PageView.tells → IfErr result (λ e. NamesBroken xt_scale (page_nodes top.now.blocks (page_of (V.PageView.image view.old))) (xt_node top.now.form top.now.blocks root.now) e) }
    ensures way { V.PageView.tells → TellsUntil (λ (k : ℕ). broken_on_way xt_scale (page_nodes top.now.blocks (page_of (V.PageView.image view.old))) k (xt_node top.now.form top.now.blocks root.now)) at result }
{
    match lead(top, root, at, end) {
        Err(rule) => Err(TreeError::Bad {
            page: NO_PAGE,
            rule,
        }),
        Ok(None) => Ok(end),
        Ok(Some(on)) => look_below(pages, view, 7, on.page, at, on.next),
    }
}
