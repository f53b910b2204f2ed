//! The extent that has a block of a file.

ghost use Rattle.std.specs.Prelude.{◌≡◌, ◌⊎◌, ◌<◌, ◌==◌, if◌then◌else◌, ℕ, List, length, IfOk, IfErr, Ok};
ghost use Rattle.jfs_bits.specs.declared.extent.Xad.{Xad};
ghost use Rattle.jfs_disk.specs.Image.{page_of};
ghost use Rattle.jfs_tree.specs.Root.{NamesBroken};
ghost use Rattle.jfs_xtree.specs.Node.{xt_scale};
ghost use Rattle.jfs_xtree.specs.Spells.{IsRootSize, root_form, root_node, page_nodes, spells_extents, point, extent_at, tree_error, CarriesXt, broken_for, found_for, TellsWay};
ghost use Rattle.jfs_xtree.specs.Errors.{handed_on};

use crate::error::XtError;
use crate::form::XtPages;
use jfs_bits::{Pxd, Xad};
use jfs_ranges::{PageView, ViewError};
use jfs_tree::{TreeError, find_entry};
use jfs_xtpage::XtForm;

#[tactic(auto, using(crate::proofs::Roots::form_fits, crate::proofs::Roots::is_point))]
/// The extent of a root's tree that has block `offset` of the file; `None` exactly where there is none. It reads one page a level, and names
/// the first one that breaks a rule. What it finds is what the leaf at the end of the way has, whatever stands elsewhere.
pub fn lookup<V: PageView>(view: &mut V, root: &[u8], offset: u64) -> Result<Option<Xad>, XtError>
    requires root { IsRootSize (length root.now) }
    ensures image { V.PageView.tells → V.PageView.image view.new ≡ V.PageView.image view.old }
    ensures count_of_blocks { V.PageView.block_count view.new ≡ V.PageView.block_count view.old }
    ensures device { V.PageView.device view.new ≡ V.PageView.device view.old }
    ensures fault { CarriesXt (V.PageView.faults view.old) (V.PageView.faults view.new) result }
    ensures found { V.PageView.tells → IfOk result (λ found. (es : List Xad) →
        spells_extents (V.PageView.block_count view.old) (page_of (V.PageView.image view.old)) root.now ≡ Ok es → found ≡ extent_at offset es) }
    ensures on_way { V.PageView.tells → IfOk result (λ found. found ≡ found_for (V.PageView.block_count view.old) (page_of (V.PageView.image view.old)) root.now offset) }
    ensures bad { V.PageView.tells → IfErr result (λ e.
        NamesBroken xt_scale (page_nodes (V.PageView.block_count view.old) (page_of (V.PageView.image view.old))) (root_node (V.PageView.block_count view.old) root.now) (tree_error e)) }
    ensures way { V.PageView.tells → TellsWay (broken_for (V.PageView.block_count view.old) (page_of (V.PageView.image view.old)) root.now offset) result }
{
    let blocks = view.blocks();
    let form = root_form(root);
    let top = XtPages { form, blocks };
    let pages = XtPages {
        form: XtForm::Full,
        blocks,
    };
    let x = point(offset);
    match find_entry(&top, &pages, view, root, &x) {
        Ok(found) => Ok(found),
        Err(e) => Err(handed_on(e)),
    }
}

/// The form of a root, by its size.
pub fn root_form(root: &[u8]) -> XtForm
    ensures { result ≡ root_form (length root.now) }
{
    if root.len() == 96 {
        XtForm::Small
    } else {
        XtForm::Root
    }
}

pub(crate) fn point(offset: u64) -> Xad
    ensures { result ≡ point offset }
{
    Xad {
        flag: 0,
        offset,
        at: Pxd { len: 1, addr: 0 },
    }
}

/// An error of a tree's pages as one of a file's extents; want of memory is one of the view.
pub fn handed_on(e: TreeError) -> XtError
    ensures { result ≡ handed_on e }
{
    match e {
        TreeError::View(e) => XtError::View(e),
        TreeError::Bad { page, rule } => XtError::Bad { page, rule },
        TreeError::Memory => XtError::View(ViewError::Memory),
    }
}
