//! The way of a file's blocks below a page.

ghost use Rattle.std.specs.Prelude.{◌≡◌, ◌<◌, ◌≤◌, ℕ, IfOk, IfErr};
ghost use Rattle.jfs_disk.specs.Image.{page_of};
ghost use Rattle.jfs_tree.specs.Call.{BreaksWhereBad, CarriesFault};
ghost use Rattle.jfs_tree.specs.Path.{broken_below};
ghost use Rattle.jfs_xtpage.specs.declared.head.XtForm.TheVariants.{Full};
ghost use Rattle.jfs_xtree.specs.Node.{xt_scale};
ghost use Rattle.jfs_xtree.specs.Spells.{page_nodes};
ghost use Rattle.jfs_ways.specs.Leading.{TellsUntil};

use crate::leading::lead_below;
use jfs_bits::Rule;
use jfs_ranges::PageView;
use jfs_tree::TreeError;
use jfs_xtree::XtPages;

/// Looks at the pages on the way of block `at` of the file from a page on, at most so many levels deep, and names the first one that breaks a rule. Answers the block, `end`
/// at most, before which all blocks from this one on have the same way.
pub(crate) fn look_below<V: PageView>(
    form: &XtPages,
    view: &mut V,
    most: u32,
    page: u32,
    at: u64,
    end: u64,
) -> Result<u64, TreeError>
    requires page { page < V.PageView.block_count view.old }
    requires form { (form.now.form ≡ Full) × (form.now.blocks ≡ V.PageView.block_count view.old) }
    requires some { at < end }
    ensures image { V.PageView.tells → V.PageView.image view.new ≡ V.PageView.image view.old }
    ensures count_of_blocks { V.PageView.block_count view.new ≡ V.PageView.block_count view.old }
    ensures device { V.PageView.device view.new ≡ V.PageView.device view.old }
    ensures fault { CarriesFault (V.PageView.faults view.old) (V.PageView.faults view.new) result }
    ensures until { IfOk result (λ next. (at < next) × (next ≤ end)) }
    ensures bad { V.PageView.tells → IfErr result (λ e. BreaksWhereBad (page_nodes (V.PageView.block_count view.old) (page_of (V.PageView.image view.old))) most page e) }
    ensures way { V.PageView.tells → TellsUntil (λ (k : ℕ). broken_below xt_scale (page_nodes (V.PageView.block_count view.old) (page_of (V.PageView.image view.old))) k most page) at result }
{
    if most == 0 {
        return Err(TreeError::Bad {
            page,
            rule: Rule::Deep,
        });
    }
    let bytes = match view.page(page) {
        Ok(bytes) => bytes,
        Err(e) => return Err(TreeError::View(e)),
    };
    match lead_below(form, bytes.bytes(), at, end) {
        Err(rule) => Err(TreeError::Bad { page, rule }),
        Ok(None) => Ok(end),
        Ok(Some(on)) => look_below(form, view, most - 1, on.page, at, on.next),
    }
}
