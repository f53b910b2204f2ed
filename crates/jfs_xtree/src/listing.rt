//! All extents of a file.

ghost use Rattle.std.specs.Prelude.{◌≡◌, ◌∷◌, ◌++◌, [], length, IfOk, IfErr, Ok};
ghost use Rattle.jfs_disk.specs.Image.{page_of};
ghost use Rattle.jfs_tree.specs.Walking.{NamesFirst};
ghost use Rattle.jfs_xtree.specs.Node.{xt_scale};
ghost use Rattle.jfs_xtree.specs.Spells.{IsRootSize, root_node, page_nodes, spells_extents, tree_error, CarriesXt};

use crate::error::XtError;
use crate::find::{handed_on, root_form};
use crate::form::XtPages;
use jfs_bits::{Xad, XadList};
use jfs_ranges::PageView;
use jfs_tree::{Visitor, walk_tree};
use jfs_xtpage::XtForm;
use std::alloc::{AllocError, Global};

/// The extents that a walk saw, in their order.
#[derive(Drop)]
struct Gathered {
    extents: XadList,
}

impl Visitor<Xad> for Gathered {
    ghost sees_page = { λ old n new. new ≡ old };

    ghost sees_entry = { λ old n x new. new.extents ≡ old.extents ++ x ∷ [] };

    fn page(&mut self, _n: u32) {}

    fn entry(&mut self, _n: u32, x: &Xad) -> Result<(), AllocError> {
        self.extents.push(*x)
    }
}

#[tactic(auto, using(crate::proofs::Roots::form_fits))]
/// The extents of a root's tree, in rising order: `Ok` exactly where the root spells a list, which is this one; else the first broken rule, with its page. Each
/// page is read once.
pub fn extents<V: PageView>(alloc: Global, view: &mut V, root: &[u8]) -> Result<XadList, XtError>
    requires root { IsRootSize (length root.now) }
    ensures image { V.PageView.tells → V.PageView.image view.new ≡ V.PageView.image view.old }
    ensures count_of_blocks { V.PageView.block_count view.new ≡ V.PageView.block_count view.old }
    ensures device { V.PageView.device view.new ≡ V.PageView.device view.old }
    ensures fault { CarriesXt (V.PageView.faults view.old) (V.PageView.faults view.new) result }
    ensures list { V.PageView.tells → IfOk result (λ es. spells_extents (V.PageView.block_count view.old) (page_of (V.PageView.image view.old)) root.now ≡ Ok es) }
    ensures bad { V.PageView.tells → IfErr result (λ e.
        NamesFirst xt_scale (page_nodes (V.PageView.block_count view.old) (page_of (V.PageView.image view.old))) (root_node (V.PageView.block_count view.old) root.now) (tree_error e)) }
{
    let blocks = view.blocks();
    let top = XtPages {
        form: root_form(root),
        blocks,
    };
    let pages = XtPages {
        form: XtForm::Full,
        blocks,
    };
    let mut gathered = Gathered {
        extents: XadList::new(alloc),
    };
    match walk_tree(&top, &pages, view, root, &mut gathered) {
        Ok(()) => Ok(gathered.extents),
        Err(e) => Err(handed_on(e)),
    }
}
