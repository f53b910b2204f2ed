//! A walk through a whole tree.

ghost use Rattle.std.specs.Prelude.{◌≡◌, ◌≤◌, length, Ok, IfErr, OnOk};
ghost use Rattle.jfs_tree.specs.Walk.{rows_of};
ghost use Rattle.jfs_tree.specs.Spells.{no_page, tree_of, spells};
ghost use Rattle.jfs_tree.specs.Call.{pages_of, CarriesFault};
ghost use Rattle.jfs_tree.specs.Walking.{Meets, NamesFirst, ended};

use crate::form::{NO_PAGE, TreeError};
use crate::walk_down::{walk_first, walk_others};
use crate::walk_leaf::walk_rows;
use crate::walk_read::{PageRead, Shape};
use crate::walk_visit::Visitor;
use jfs_bits::Rule;
use jfs_ranges::PageView;

/// Walks through a root's tree from left to right; each page is read once. The visitor sees the root, each page and each entry, up to the end or to the first
/// broken rule. Answers `Ok` exactly where the root spells a list, and else the first broken rule with its page. It holds a copy of one page a level, 7 at most.
pub fn walk_tree<V: PageView, F: PageRead, W: Visitor<F::Entry>>(
    top: &F,
    form: &F,
    view: &mut V,
    root: &[u8],
    visitor: &mut W,
) -> Result<(), TreeError>
    requires root { length root.now ≡ F.PageForm.size top.now }
    requires bound { (F.PageForm.blocks top.now ≡ V.PageView.block_count view.old) × (F.PageForm.blocks form.now ≡ V.PageView.block_count view.old) }
    requires size { F.PageForm.size form.now ≡ 4096 }
    ensures image { V.PageView.tells → V.PageView.image view.new ≡ V.PageView.image view.old }
    ensures count_of_blocks { V.PageView.block_count view.new ≡ V.PageView.block_count view.old }
    ensures device { V.PageView.device view.new ≡ V.PageView.device view.old }
    ensures fault { CarriesFault (V.PageView.faults view.old) (V.PageView.faults view.new) result }
    ensures spelled { V.PageView.tells → OnOk result (spells F.PageForm.scale (pages_of (F.PageForm.node form.now) (V.PageView.image view.old)) (F.PageForm.node top.now root.now)
        ≡ Ok (rows_of (tree_of F.PageForm.scale (pages_of (F.PageForm.node form.now) (V.PageView.image view.old)) (F.PageForm.node top.now root.now)))) }
    ensures bad { V.PageView.tells → IfErr result (λ e.
        NamesFirst F.PageForm.scale (pages_of (F.PageForm.node form.now) (V.PageView.image view.old)) (F.PageForm.node top.now root.now) e) }
    ensures met { V.PageView.tells → (end : F.Key) × Meets F.PageForm.scale W.sees_page W.sees_entry F.PageForm.scale.least visitor.old
        (tree_of F.PageForm.scale (pages_of (F.PageForm.node form.now) (V.PageView.image view.old)) (F.PageForm.node top.now root.now))
        (ended end result) visitor.new }
{
    let _blocks = view.blocks();
    let mut low = top.least();
    walk_root(top, form, view, root, visitor, &mut low)
}

/// The root and all below it, from the least place on.
fn walk_root<V: PageView, F: PageRead, W: Visitor<F::Entry>>(
    top: &F,
    form: &F,
    view: &mut V,
    root: &[u8],
    visitor: &mut W,
    low: &mut F::Bound,
) -> Result<(), TreeError>
    requires root { length root.now ≡ F.PageForm.size top.now }
    requires most { V.PageView.block_count view.old ≤ no_page }
    requires bound { (F.PageForm.blocks top.now ≡ V.PageView.block_count view.old) × (F.PageForm.blocks form.now ≡ V.PageView.block_count view.old) }
    requires size { F.PageForm.size form.now ≡ 4096 }
    requires least { F.place low.old ≡ F.PageForm.scale.least }
    ensures image { V.PageView.tells → V.PageView.image view.new ≡ V.PageView.image view.old }
    ensures count_of_blocks { V.PageView.block_count view.new ≡ V.PageView.block_count view.old }
    ensures device { V.PageView.device view.new ≡ V.PageView.device view.old }
    ensures fault { CarriesFault (V.PageView.faults view.old) (V.PageView.faults view.new) result }
    ensures met { V.PageView.tells → Meets F.PageForm.scale W.sees_page W.sees_entry (F.place low.old) visitor.old
        (tree_of F.PageForm.scale (pages_of (F.PageForm.node form.now) (V.PageView.image view.old)) (F.PageForm.node top.now root.now))
        (ended (F.place low.new) result) visitor.new }
{
    visitor.page(NO_PAGE);
    match top.shape(root) {
        Err(rule) => Err(TreeError::Bad {
            page: NO_PAGE,
            rule,
        }),
        Ok(Shape::Leaf(count)) => walk_rows(top, visitor, NO_PAGE, root, count, low),
        Ok(Shape::Inner(0)) => Err(TreeError::Bad {
            page: NO_PAGE,
            rule: Rule::Deep,
        }),
        Ok(Shape::Inner(count)) => {
            let first = top.child(root, 0);
            match walk_first(form, view, visitor, 7, first.page, low) {
                Ok(below) => walk_others(top, form, view, visitor, below, root, count, low),
                Err(e) => Err(e),
            }
        }
    }
}
